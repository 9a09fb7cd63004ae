// What document 01's programs share: what is kept of the input, and how it is read and answered.
//
// The programs read a line with the file name and then the file, the moving one a line with the service's number first, and each
// may have any length. `forms` tells whether a name line is a ConnMan file name while it comes in, `numbers` gives the service's
// number, `keeping` takes the input part by part, `streams` reads all of it and writes answers. What is kept is in specs/Input,
// and why it is enough in specs/Enough.
#![tactic(auto)]

pub mod forms;
pub mod keeping;
pub mod numbers;
pub mod streams;

// How far a name line is "one or more letters or digits, then `.config`": no byte yet, letters and digits, these and some
// bytes of `.config`, or something else.
#[derive(Clone, Copy)]
pub enum Form {
    Empty,
    Stem,
    Suffix(usize),
    Broken,
}

// How much is kept of a name line and the file behind it: whether the line has ended, its bytes and form, and the bytes of the
// file.
#[derive(Clone, Copy)]
pub struct NamedFile {
    pub ended: bool,
    pub name: usize,
    pub form: Form,
    pub file: usize,
}

// How much is kept of an input: whether the number line has ended, its bytes, and what is kept behind it.
#[derive(Clone, Copy)]
pub struct Input {
    pub ended: bool,
    pub number: usize,
    pub rest: NamedFile,
}

// How reading goes: more is asked for, all that is asked for has come in, or it was cut off.
#[derive(Clone, Copy, PartialEq, Eq)]
pub enum Progress {
    More,
    Whole,
    CutOff,
}

// How reading goes, and what is kept.
#[derive(Clone, Copy)]
pub struct ReadInput {
    pub progress: Progress,
    pub kept: Input,
}

// Where a part of the input is cut: what stands before `end` belongs to the line, and what stands from `from` on is behind it.
#[derive(Clone, Copy)]
pub struct Cut {
    pub end: usize,
    pub from: usize,
    pub ended: bool,
}

// Room for each part of an input, with one byte more than a number, a name that is judged as it stands and a file can have, so
// that a full buffer tells that something is too long.
pub type NumberBuffer = [u8; 4];

pub type NameBuffer = [u8; 129];

pub type FileBuffer = [u8; 16385];
