// The round trip of the code: `reads_back` writes a record, reads the bytes back and compares, and finds them the same.
//
// What it answers is in specs/Back; that it does is `round_trip`'s theorem.
#![tactic(auto)]

ghost use Rattle.std.specs.Prelude.{◌≡◌};
ghost use Rattle.reading_back.specs.Back.{read_same, RoundTrips};

use records::JoinRecord;
use writer::Written;

// What was written, and whether it reads back as the record that was written. A yes or no of a refusal too, for which `RoundTrips` says no.
#[derive(Clone, Copy)]
pub struct Back {
    pub written: Written,
    pub same: bool,
}

// Whether the record of a file under its name, and its servers, are these.
fn is_record(name: &[u8], file: &[u8], r: JoinRecord, servers: [[u8; 4]; 4]) -> bool
    ensures { result ≡ read_same name.now file.now r servers }
{
    let mut read = [[0; 4]; 4];
    let answered = record_answers::iwd_record(name, file, &mut read);
    let answer = answered.answer;
    match answer {
        Ok(()) => {
            let record = answered.record;
            comparing::same_record(record, r) && comparing::same_servers(read, servers)
        }
        Err(_) => false,
    }
}

// Writes a record's name and file into the lent buffers as `writer::write_iwd` does, reads these bytes back, and says
// whether the record that they give and its servers are those that were written, in every place: they are whenever
// something is written. A refusal leaves both buffers as they were, and nothing is read.
pub fn reads_back(r: JoinRecord, servers: [[u8; 4]; 4], name: &mut [u8], file: &mut [u8]) -> Back
    ensures { RoundTrips r servers name.old file.old name.new file.new result }
{
    let written = writer::write_iwd(r, servers, name, file);
    let answer = written.answer;
    match answer {
        Ok(()) => {
            let name_len = written.name_len;
            let file_len = written.file_len;
            let same = is_record(&name[..name_len], &file[..file_len], r, servers);
            Back { written, same }
        }
        Err(_) => Back {
            written,
            same: false,
        },
    }
}
