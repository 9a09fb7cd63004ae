// The verdict over a file whose lines are all good: the rules over each service or over an iwd file, asked of the table of
// places, and the reading that they give. This is document 01's "Rules over a group".
#![tactic(auto)]

pub mod closing;
pub mod ending;
pub mod file_rules;

use names::Suffix;

// Of which kind a file is, by its name.
#[derive(Clone, Copy)]
pub enum FileKind {
    Iwd(Suffix),
    ConnMan,
}
