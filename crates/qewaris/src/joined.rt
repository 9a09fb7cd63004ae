// The join record of a file.
ghost use Rattle.std.specs.Prelude.{◌≡◌};
ghost use Rattle.joins.specs.Joins.{iwd_record, iwd_record_servers, service_record, service_record_servers};
ghost use Rattle.demands.specs.Demands as Call;
ghost use Rattle.demands.specs.Telling.{TellsAnswer};

use joins::RecordAnswer;

// The join record of an iwd file, and its name servers in the lent array. A refusal gives a record that is all zero and
// leaves the array as it was.
pub fn iwd_record(name: &[u8], file: &[u8], servers: &mut [[u8; 4]; 4]) -> RecordAnswer
    ensures value { result ≡ iwd_record name.now file.now }
    ensures servers_after { servers.new ≡ iwd_record_servers name.now file.now servers.old }
    ensures tells_answer { TellsAnswer (Call.iwd_record_lem name.now file.now servers.old) result.answer }
{
    record_answers::iwd_record(name, file, servers)
}

// The join record of a ConnMan service, counted from 1, and its name servers in the lent array. A refusal gives a record that
// is all zero and leaves the array as it was.
pub fn service_record(
    name: &[u8],
    file: &[u8],
    service: usize,
    servers: &mut [[u8; 4]; 4],
) -> RecordAnswer
    ensures value { result ≡ service_record name.now file.now service }
    ensures servers_after { servers.new ≡ service_record_servers name.now file.now service servers.old }
    ensures tells_answer { TellsAnswer (Call.service_record_lem name.now file.now service servers.old) result.answer }
{
    record_answers::service_record(name, file, service, servers)
}
