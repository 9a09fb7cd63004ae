// The entry points: what a program that uses the library calls.
//
// None of them has a `requires`: whatever bytes come in, each answers as document 01's table says. `check` reads a file,
// `typed` gives its settings, `strings` the bytes of its strings, `joined` its join record, `is_well_formed` judges a record,
// and `files` writes the iwd file of a record or of a ConnMan service. These are functions over those of the crates below, since their
// contracts add what a caller sees of an answer (`TellsAnswer`). What they promise together is in specs/Demands.
// `exports` has the same with the structs of the C boundary, which crate `qewaris_c` hands to programs in C and Rust.
#![tactic(auto)]

pub mod exports;
pub mod files;
pub mod joined;
pub mod strings;
pub mod typed;
pub mod version;

ghost use Rattle.demands.specs.Telling.{Checks};

use places::PLACES;
pub use records::is_well_formed;
use rules::Reading;
use text::Dialect;

// Reads a file of a dialect under its name. Accepted gives the number of settings and of services, refused the first fault
// and its line; `rules` `Numbers.seen_of` gives document 01's numbers for both.
pub fn check(d: Dialect, name: &[u8], file: &[u8]) -> Reading
    ensures { Checks d name.now file.now result }
{
    let mut places = [0; PLACES];
    pass::read(d, name, file, &mut places)
}
