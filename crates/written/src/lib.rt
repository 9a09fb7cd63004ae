// The text of the written iwd file: document 01's section "The written iwd file".
//
// The lines of the file and its name are in specs/Written, how long they can be in specs/GreatestLengths. `parts` says what of a
// record decides which lines there are; crate `rendering` writes them. `buffers` has room for the longest.
#![tactic(auto)]

pub mod buffers;
pub mod parts;
