// Bytes of a file: the two dialects, the classes of bytes, the parts of a slice that scanning finds, and words.
//
// This is what document 01 says of bytes under "Lines, alike in both". `classes` judges one byte, by `table` or by comparing,
// `scan` finds where a run of bytes ends, `words` compares. The definitions are in specs/Bytes, specs/Parts and specs/Words.
#![tactic(auto)]

pub mod classes;
pub mod scan;
mod table;
pub mod words;

// The two kinds of file. Where they differ a `match` has both arms beside each other: a trait would need a type for each, and two functions.
#[derive(Clone, Copy)]
pub enum Dialect {
    Iwd,
    ConnMan,
}

// A part of a slice, by its start and its end.
#[derive(Clone, Copy)]
pub struct Place {
    pub start: usize,
    pub end: usize,
}

// The classes of bytes that a run is made of; blanks and key bytes have a scan of their own.
#[derive(Clone, Copy)]
pub enum Class {
    Space,
    Header,
    Plain,
    Alphanumeric,
    Identifier,
    HexDigit,
    LowerHex,
    Entry,
}
