// Lists of entries: SearchDomains and Timeservers.
//
// This is document 01's "1 to 4 entries .., one comma between" under "Settings and their kinds". The definitions are in
// specs/EntryLists, the entries' places in the type below in specs/Places.
#![tactic(auto)]

ghost use Rattle.std.specs.Prelude.{◌≡◌, ◌+◌, ◌≤◌, length};
ghost use Rattle.text.specs.Options.{is_some, mapped};
ghost use Rattle.entry_lists.specs.EntryLists.{entry, entries};
ghost use Rattle.entry_lists.specs.Places.{entries_laid};

use text::{Place, scan};

// A list of 1 to 4 entries by their places; those behind the last are 0..0. An array with its count, since nothing is kept on a heap.
#[derive(Clone, Copy)]
pub struct Entries {
    pub count: usize,
    pub places: [Place; 4],
}

// Whether p is one entry.
#[tactic(auto, using(crate::proofs::Entering::entry_sizes))]
fn is_entry(p: &[u8]) -> bool
    ensures { result ≡ is_some (entry p.now) }
{
    if p.len() < 1 || 253 < p.len() {
        return false;
    }
    scan::entry_end(p, 0) == p.len()
}

// One to four entries, one comma between two, by their places counted from base, where s starts.
pub fn read_entries(s: &[u8], base: usize) -> Option<Entries>
    requires { base + length s.now ≤ 18446744073709551615 }
    ensures { result ≡ mapped (entries_laid base) (entries s.now) }
{
    let mut places = [Place { start: 0, end: 0 }; 4];
    let mut at = 0;
    for n in 0..4 {
        let end = scan::find(s, at, b',');
        if !is_entry(&s[at..end]) {
            return None;
        }
        places[n] = Place {
            start: base + at,
            end: base + end,
        };
        if end == s.len() {
            return Some(Entries {
                count: n + 1,
                places,
            });
        }
        at = end + 1;
    }
    None
}
