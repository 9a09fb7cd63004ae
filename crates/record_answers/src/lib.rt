// The join record of an iwd file, and of a ConnMan service by its number, as a caller is answered.
//
// What is answered is said in `joins` specs/Joins. That a refused file is refused by every entry point alike, in specs/Refused.
#![tactic(auto)]

ghost use Rattle.std.specs.Prelude.{◌≡◌};
ghost use Rattle.values.specs.Rows.{RowOf};
ghost use Rattle.records.specs.Record.{laid, laid_servers};
ghost use Rattle.joins.specs.Joins.{zero_record, iwd_record, iwd_record_servers, service_record, service_record_servers};
ghost use Rattle.joins.specs.Places.{IwdFileRows, iwd_file_join};
ghost use Rattle.record_answers.specs.Places.{RowAnswered};

use addresses::Separator;
use addressing::Method;
use joins::{RecordAnswer, joining, parts};
use places::rows::base_of;
use places::{KeyName, PLACES, Places};
use records::{Credential, JoinRecord};
use rules::{Fault, Group, Refusal};
use tables::asking;
use text::Dialect;

// Written out: arrays of 63 and of 253 bytes have no Default.
fn zero_record() -> JoinRecord
    ensures { result ≡ zero_record }
{
    JoinRecord {
        name_len: 0,
        name: [0; 32],
        credential: Credential::None,
        passphrase_len: 0,
        passphrase: [0; 63],
        key: [0; 32],
        hidden: false,
        ipv4: Method::Auto,
        address: [0; 4],
        length: 0,
        has_gateway: false,
        gateway: [0; 4],
        server_count: 0,
        domain_len: 0,
        domain: [0; 253],
        ipv6: Method::Auto,
        ipv6_address: [0; 16],
        ipv6_length: 0,
        has_ipv6_gateway: false,
        ipv6_gateway: [0; 16],
    }
}

fn refused(fault: Fault) -> RecordAnswer
    ensures { result ≡ record { answer = Err fault; «record» = zero_record } }
{
    let record = zero_record();
    RecordAnswer {
        answer: Err(fault),
        record,
    }
}

fn answered(found: JoinRecord) -> RecordAnswer
    ensures { result ≡ record { answer = Ok tt; «record» = found } }
{
    RecordAnswer {
        answer: Ok(()),
        record: found,
    }
}

// The record of an accepted iwd file.
fn iwd_found(name: &[u8], file: &[u8], x: &Places, servers: &mut [[u8; 4]; 4]) -> RecordAnswer
    requires { IwdFileRows file.now x.now }
    ensures { (result ≡ record { answer = Ok tt; «record» = laid (iwd_file_join name.now file.now) })
        × (servers.new ≡ laid_servers (iwd_file_join name.now file.now)) }
{
    let count = values::list_at(
        servers,
        Separator::Spaces,
        file,
        x,
        base_of(Group::Ipv4, 0),
        KeyName::Dns,
    );
    let record = joining::iwd_join(name, file, x, count);
    answered(record)
}

// The join record of an iwd file under its name; the name servers go into the lent ones.
pub fn iwd_record(name: &[u8], file: &[u8], servers: &mut [[u8; 4]; 4]) -> RecordAnswer
    ensures { (result ≡ iwd_record name.now file.now)
        × (servers.new ≡ iwd_record_servers name.now file.now servers.old) }
{
    let mut x = [0; PLACES];
    let reading = pass::read(Dialect::Iwd, name, file, &mut x);
    match reading {
        Ok(_) => iwd_found(name, file, &x, servers),
        Err(fault) => refused(fault),
    }
}

// The record of a service that there is, by its row, or the line for which it has none.
fn service_found(file: &[u8], x: &Places, row: usize, servers: &mut [[u8; 4]; 4]) -> RecordAnswer
    requires { RowOf Dialect.ConnMan file.now x.now row Group.Service }
    ensures { RowAnswered file.now x.now row servers.old servers.new result }
{
    if let Some(line) = parts::hindrance_at(x, row) {
        return refused(Fault {
            refusal: Refusal::NoPlace,
            line,
        });
    }
    let count = values::list_at(
        servers,
        Separator::Comma,
        file,
        x,
        row,
        KeyName::Nameservers,
    );
    answered(joining::service_join(file, x, row, count))
}

// The join record of a service, counted from 1, of a ConnMan file under its name; the name servers go into the lent ones.
pub fn service_record(
    name: &[u8],
    file: &[u8],
    service: usize,
    servers: &mut [[u8; 4]; 4],
) -> RecordAnswer
    ensures { (result ≡ service_record name.now file.now service)
        × (servers.new ≡ service_record_servers name.now file.now service servers.old) }
{
    let mut x = [0; PLACES];
    let reading = pass::read(Dialect::ConnMan, name, file, &mut x);
    let answer = asking::asked_of(service, reading);
    match answer {
        Ok(()) => {
            let row = base_of(Group::Service, service);
            service_found(file, &x, row, servers)
        }
        Err(fault) => refused(fault),
    }
}
