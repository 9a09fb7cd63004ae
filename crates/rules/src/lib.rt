// The rules over a file, in definitions: its groups, keys and kinds as tables, the refusals by name, and what a reading
// answers. In code only the refusals that a `?` makes (`reasons`); crate `tables` has the tables in code.
//
// This is document 01's "The numbers a caller sees", its lists of groups and keys, and "Rules over a group".
#![tactic(auto)]

pub mod reasons;

// The refusals, in the order of document 01's numbers 1 to 19.
#[derive(Clone, Copy, PartialEq, Eq)]
pub enum Refusal {
    Size,
    FileName,
    Unrecognized,
    Extension,
    BadHeader,
    UnknownGroup,
    RepeatedGroup,
    NoGroup,
    UnknownKey,
    RepeatedKey,
    ValueText,
    ValueKind,
    ManyServices,
    Missing,
    Contradiction,
    NoPlace,
    ShortBuffer,
    NoService,
    Malformed,
}

// A refusal and its line.
#[derive(Clone, Copy)]
pub struct Fault {
    pub refusal: Refusal,
    pub line: usize,
}

// How many settings and services an accepted file has.
#[derive(Clone, Copy)]
pub struct Counts {
    pub settings: usize,
    pub services: usize,
}

// What a reading answers: accepted, with its counts, or refused.
pub type Reading = Result<Counts, Fault>;

// What is answered to a question about a file: good, or refused.
pub type Answer = Result<(), Fault>;

// The groups: iwd's four, and ConnMan's two.
#[derive(Clone, Copy, PartialEq, Eq)]
pub enum Group {
    Settings,
    Security,
    Ipv4,
    Ipv6,
    Global,
    Service,
}
