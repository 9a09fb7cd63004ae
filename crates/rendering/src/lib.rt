// The written iwd file, rendered: its groups laid down in a lent buffer, and how long they are before a byte is written.
//
// This is document 01's "each group is laid down in what is left of the lent buffer". What the lines are is crate `written`;
// `rows` writes settings, `groups` the groups and the file, and `sizes` says how long each is.
#![tactic(auto)]

pub mod groups;
pub mod rows;
pub mod sizes;
