// A join record from its parts, by the rows of the table of places.
ghost use Rattle.std.specs.Prelude.{◌≡◌};
ghost use Rattle.places.specs.History.{base};
ghost use Rattle.values.specs.Rows.{RowOf, RowGives};
ghost use Rattle.records.specs.Record.{laid};
ghost use Rattle.put.specs.Texts.{bounded};
ghost use Rattle.names.specs.Names.{network_of};
ghost use Rattle.joins.specs.Joins.{service_join, network_name};
ghost use Rattle.joins.specs.Places.{IwdFileRows, iwd_file_join, server_count_at, assembled};

use crate::{Login, parts};
use addresses::Separator;
use addressing::Numbers;
use places::rows::base_of;
use places::{KeyName, Places};
use put::Bounded;
use records::JoinRecord;
use rules::Group;
use text::Dialect;

// Lays the parts of a record out: field by field, since the record is flat (`JoinRecord`).
fn assemble(
    name: Bounded<32>,
    login: Login,
    hidden: bool,
    ipv4: Numbers<4>,
    servers: usize,
    domain: Bounded<253>,
    ipv6: Numbers<16>,
) -> JoinRecord
    ensures { result ≡ assembled name login hidden ipv4 servers domain ipv6 }
{
    let network = name.bytes;
    let passphrase = login.passphrase.bytes;
    let key = login.key;
    let search_domain = domain.bytes;
    let address = ipv4.address;
    let gateway = ipv4.gateway;
    let ipv6_address = ipv6.address;
    let ipv6_gateway = ipv6.gateway;
    JoinRecord {
        name_len: name.len,
        name: network,
        credential: login.credential,
        passphrase_len: login.passphrase.len,
        passphrase,
        key,
        hidden,
        ipv4: ipv4.method,
        address,
        length: ipv4.length,
        has_gateway: ipv4.has_gateway,
        gateway,
        server_count: servers,
        domain_len: domain.len,
        domain: search_domain,
        ipv6: ipv6.method,
        ipv6_address,
        ipv6_length: ipv6.length,
        has_ipv6_gateway: ipv6.has_gateway,
        ipv6_gateway,
    }
}

// The name of the network that an iwd file's name gives, empty where it gives none.
fn network_name(name: &[u8]) -> Bounded<32>
    ensures { result ≡ bounded 32 (network_name (network_of name.now)) }
{
    match names::read_iwd_name(name) {
        Some(network) => network.name,
        None => Bounded::none(),
    }
}

// The record of an accepted iwd file, which has count name servers.
pub fn iwd_join(name: &[u8], file: &[u8], x: &Places, count: usize) -> JoinRecord
    requires rows { IwdFileRows file.now x.now }
    requires counted { count ≡ server_count_at Separator.Spaces file.now x.now (base Group.Ipv4 0) KeyName.Dns }
    ensures { result ≡ laid (iwd_file_join name.now file.now) }
{
    let row = base_of(Group::Ipv4, 0);
    assemble(
        network_name(name),
        parts::iwd_login(file, x, base_of(Group::Security, 0)),
        parts::hidden_at(x, base_of(Group::Settings, 0), KeyName::IwdHidden),
        parts::iwd_numbers(file, x, row),
        count,
        parts::domain_at(file, x, row, KeyName::DomainName),
        parts::iwd_ipv6(file, x, base_of(Group::Ipv6, 0)),
    )
}

// The record of a service that has one, by its row, with count name servers.
pub fn service_join(file: &[u8], x: &Places, row: usize, count: usize) -> JoinRecord
    requires kept { RowOf Dialect.ConnMan file.now x.now row Group.Service }
    requires counted { count ≡ server_count_at Separator.Comma file.now x.now row KeyName.Nameservers }
    ensures { RowGives Dialect.ConnMan file.now x.now row Group.Service (λ at. laid (service_join at)) result }
{
    assemble(
        parts::service_name(file, x, row),
        parts::service_login(file, x, row),
        parts::hidden_at(x, row, KeyName::Hidden),
        parts::service_ipv4(file, x, row),
        count,
        parts::domain_at(file, x, row, KeyName::Domain),
        parts::service_ipv6(file, x, row),
    )
}
