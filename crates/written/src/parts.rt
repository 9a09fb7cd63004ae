// The parts of a record that decide what is written.
ghost use Rattle.std.specs.Prelude.{◌≡◌, [], take};
ghost use Rattle.records.specs.Record.{joined};
ghost use Rattle.written.specs.Written.{ipv4_rows, ipv4_placed, ipv6_placed, has_place};
ghost use Rattle.written.specs.Texts.{some_row};
ghost use Rattle.written.specs.RecordParts.{record_ipv4, record_ipv6, numbers_in, PlacedBy, SuffixOf};

use addressing::{Method, Numbers};
use names::Suffix;
use records::{Credential, JoinRecord};

// The suffix of a file's name: `.open` without a credential, else `.psk`. It is no `From` of the credential, since the rule is the
// written file's (`suffix_for`), which stands above both types.
pub fn suffix_of(c: Credential) -> Suffix
    ensures { SuffixOf c result }
{
    match c {
        Credential::None => Suffix::Open,
        Credential::Passphrase => Suffix::Psk,
        Credential::Key => Suffix::Psk,
    }
}

// A record's IPv4: field by field, since the record is flat (`JoinRecord`).
pub fn numbers(r: JoinRecord) -> Numbers<4>
    ensures { result ≡ record_ipv4 r }
{
    let JoinRecord {
        address,
        gateway,
        ..
    } = r;
    Numbers {
        method: r.ipv4,
        address,
        length: r.length,
        has_gateway: r.has_gateway,
        gateway,
    }
}

// A record's IPv6, in the same way.
pub fn ipv6_numbers(r: JoinRecord) -> Numbers<16>
    ensures { result ≡ record_ipv6 r }
{
    let address = r.ipv6_address;
    let gateway = r.ipv6_gateway;
    Numbers {
        method: r.ipv6,
        address,
        length: r.ipv6_length,
        has_gateway: r.has_ipv6_gateway,
        gateway,
    }
}

// Whether iwd has a place for an IPv4: it has none for `off`, and none for an address without a gateway.
pub fn ipv4_placed(method: Method, routed: bool) -> bool
    ensures { PlacedBy ipv4_placed method routed result }
{
    method == Method::Auto || method == Method::Static && routed
}

// The same of an IPv6: it has none for an address without a gateway. It is a rule of its own (request 2026-03), and so a function of its own.
pub fn ipv6_placed(method: Method, routed: bool) -> bool
    ensures { PlacedBy ipv6_placed method routed result }
{
    method != Method::Static || routed
}

// Whether iwd has a place for a record, whatever its name servers.
pub fn has_place(r: JoinRecord) -> bool
    ensures { result ≡ has_place (joined r []) }
{
    ipv4_placed(r.ipv4, r.has_gateway) && ipv6_placed(r.ipv6, r.has_ipv6_gateway)
}

// Whether the IPv4 group has a setting.
pub fn has_ipv4(i: Numbers<4>, servers: [[u8; 4]; 4], count: usize, domain: &[u8]) -> bool
    ensures { result ≡ some_row (ipv4_rows (numbers_in i) (take count servers) domain.now) }
{
    count != 0 || !domain.is_empty() || i.method == Method::Static
}
