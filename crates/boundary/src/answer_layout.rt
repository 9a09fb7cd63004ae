// What the reading, the lookups, the joins, the writer and the move answer. Numbers and lines, 0 for none, are those of the C structs.
ghost use Rattle.std.specs.Prelude.{◌≡◌};
ghost use Rattle.rules.specs.Numbers.{answer_number, answer_line};
ghost use Rattle.record_layout.specs.Records.{FitsBytes};
ghost use Rattle.boundary.specs.Answers.{reading_at, text_at, record_answer_at, written_at};

use crate::{CReading, CRecordAnswer, CText, CWritten};
use joins::RecordAnswer;
use lookups::TextPlace;
use record_layout::record_at;
use rules::{Answer, Reading};
use tables::numbers::number_of;
use writer::Written;

// Document 01's number of an answer.
pub fn answer_number(a: Answer) -> u8
    ensures { result ≡ answer_number a }
{
    match a {
        Ok(()) => 0,
        Err(fault) => number_of(fault.refusal),
    }
}

// The line of a refusal, 0 of an answer that is good.
pub fn answer_line(a: Answer) -> usize
    ensures { result ≡ answer_line a }
{
    match a {
        Ok(()) => 0,
        Err(fault) => fault.line,
    }
}

pub fn reading_at(r: Reading) -> CReading
    ensures { result ≡ reading_at r }
{
    match r {
        Ok(counts) => CReading {
            line: 0,
            settings: counts.settings,
            services: counts.services,
            number: 0,
            reserved: [0; 7],
        },
        Err(fault) => CReading {
            line: fault.line,
            settings: 0,
            services: 0,
            number: number_of(fault.refusal),
            reserved: [0; 7],
        },
    }
}

pub fn text_at(p: TextPlace) -> CText
    ensures { result ≡ text_at p }
{
    CText {
        line: p.line,
        start: p.start,
        length: p.end.saturating_sub(p.start),
        number: p.number,
        reserved: [0; 7],
    }
}

pub fn written_at(a: Written) -> CWritten
    ensures { result ≡ written_at a }
{
    CWritten {
        line: answer_line(a.answer),
        name_len: a.name_len,
        file_len: a.file_len,
        number: answer_number(a.answer),
        reserved: [0; 7],
    }
}

pub fn record_answer_at(a: RecordAnswer, servers: [[u8; 4]; 4]) -> CRecordAnswer
    requires { FitsBytes a.«record» }
    ensures { result ≡ record_answer_at a servers }
{
    CRecordAnswer {
        line: answer_line(a.answer),
        number: answer_number(a.answer),
        record: record_at(a.record, servers),
        reserved: [0; 7],
    }
}
