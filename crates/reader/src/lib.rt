// The step over one line: what it is after the lines before it, and what the state and the table of places keep of it.
#![tactic(auto)]

pub mod headings;
pub mod judging;
pub mod opening;
pub mod steps;

use kinds::Value;
use text::Place;

// What a good line is after those before it: passed over, a header by its name, or a setting by its slot in the table of places
// and what its value is.
#[derive(Clone, Copy)]
pub enum Line {
    Blank,
    Comment,
    Header(Place),
    Setting(usize, Value),
}
