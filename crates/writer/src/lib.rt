// The writer: the iwd file of a join record and its name, each into a lent buffer, or a refusal.
//
// What is answered and what the buffers hold is in specs/Writing; the text itself is crate `written`. How long it is is known
// before the first byte is written.
#![tactic(auto)]

ghost use Rattle.std.specs.Prelude.{◌≡◌, true};
ghost use Rattle.records.specs.Record.{joined};
ghost use Rattle.writer.specs.Writing.{writing, writing_of, writing_placed, refuses, written_answer, Writes};
ghost use Rattle.written.specs.RecordParts.{CountsWithin};

use records::JoinRecord;
use rendering::{groups, sizes};
use rules::{Answer, Fault, Refusal};
use written::parts;

// The answer, and how many bytes are new in the buffers of the name and of the file; 0 where nothing was written. No Result: document 01 wants
// "all other result fields zero" of a refusal, and demands `Unwritten` says it of these counts.
#[derive(Clone, Copy)]
pub struct Written {
    pub answer: Answer,
    pub name_len: usize,
    pub file_len: usize,
}

// The answer of a refusal, which leaves both buffers as they were.
pub fn refused(refusal: Refusal, line: usize) -> Written
    ensures { result ≡ written_answer (refuses refusal line) }
{
    Written {
        answer: Err(Fault { refusal, line }),
        name_len: 0,
        file_len: 0,
    }
}

// Writes the name and the file of a record that iwd has a place for, where both buffers have room; else 17, and they stay as
// they were.
pub fn write_placed(
    r: JoinRecord,
    servers: [[u8; 4]; 4],
    name: &mut [u8],
    file: &mut [u8],
) -> Written
    requires { CountsWithin r }
    ensures { Writes (writing_of (joined r servers) name.old file.old) name.old file.old name.new file.new result }
{
    let suffix = parts::suffix_of(r.credential);
    let name_len = names::iwd_name_len(&r.name[..r.name_len], suffix);
    if name.len() < name_len {
        return refused(Refusal::ShortBuffer, 0);
    }
    let file_len = sizes::file_len(r, servers);
    if file.len() < file_len {
        return refused(Refusal::ShortBuffer, 0);
    }
    names::put_iwd_name(name, 0, &r.name[..r.name_len], suffix);
    groups::put_file(file, r, servers);
    Written {
        answer: Ok(()),
        name_len,
        file_len,
    }
}

// Writes the iwd file name of a join record and its file, one into each buffer, in front of what they held. Refuses a record
// that is malformed (19), one that iwd has no place for (16), and a buffer that is too short (17), in this order; a refusal
// leaves both buffers as they were.
#[tactic(auto, using(crate::proofs::Counts::formed_within), unfolding(crate::specs::Writing::writing))]
pub fn write_iwd(r: JoinRecord, servers: [[u8; 4]; 4], name: &mut [u8], file: &mut [u8]) -> Written
    ensures { Writes (writing r servers name.old file.old) name.old file.old name.new file.new result }
{
    if !records::is_well_formed(r, servers) {
        return refused(Refusal::Malformed, 0);
    }
    if !parts::has_place(r) {
        return refused(Refusal::NoPlace, 0);
    }
    write_placed(r, servers, name, file)
}
