// The tables of the rules, in code: the groups and their keys, the kind of each key, the number of each refusal, and what is
// answered to a question about a file that was read.
//
// This is document 01's lists under "Settings and their kinds" and its table of numbers; what they say is in crate `rules`.
#![tactic(auto)]

pub mod asking;
pub mod groups;
pub mod key_kinds;
pub mod keys;
pub mod numbers;

use kinds::Kind;

// A key by its place among the keys of its group, from 1, and its kind.
#[derive(Clone, Copy)]
pub struct Listed {
    pub place: usize,
    pub kind: Kind,
}
