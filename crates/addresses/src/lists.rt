// Lists of addresses, read.
ghost use Rattle.std.specs.Prelude.{◌≡◌, ◌<◌, length, None};
ghost use Rattle.text.specs.Options.{or_empty};
ghost use Rattle.addresses.specs.Addresses.{separator, addresses, rows};
ghost use Rattle.addresses.specs.Fields.{NextField, Filled};

use crate::{FoundAddress, Separator, numbers};
use text::{Class, scan};

// The byte between two addresses that are written.
pub fn separator_byte(sep: Separator) -> u8
    ensures { result ≡ separator sep }
{
    match sep {
        Separator::Spaces => 32,
        Separator::Comma => 44,
    }
}

// Where the field behind the separator at i starts, if there is one.
fn next_field(s: &[u8], i: usize, sep: Separator) -> Option<usize>
    requires { i < length s.now }
    ensures { NextField sep s.now i result }
{
    let behind = i + 1;
    match sep {
        Separator::Comma => Some(behind),
        Separator::Spaces => {
            let next = scan::run_end(s, behind, Class::Space);
            if next == s.len() { None } else { Some(next) }
        }
    }
}

// Reads the addresses of s into the front of list, which holds zeros, and returns how many; none where s is broken.
fn fill_addresses(list: &mut [[u8; 4]; 4], s: &[u8], sep: Separator) -> Option<usize>
    requires { list.old ≡ rows None }
    ensures { Filled (addresses sep s.now) list.new result }
{
    let mut at = 0;
    for n in 0..4 {
        let FoundAddress { end, bytes } = numbers::address_at(s, at)?;
        list[n] = bytes;
        if end == s.len() {
            return Some(n + 1);
        }
        if s[end] != separator_byte(sep) {
            return None;
        }
        let Some(next) = next_field(s, end, sep) else {
            return Some(n + 1);
        };
        at = next;
    }
    None
}

// How many addresses s lists; 0 where it is broken: no list has none, and settings and records keep 0 of an absent one, so that an Option,
// here and below, would be turned back where it is asked.
pub fn count_addresses(s: &[u8], sep: Separator) -> usize
    ensures { result ≡ length (or_empty (addresses sep s.now)) }
{
    let mut list = [[0u8; 4]; 4];
    fill_addresses(&mut list, s, sep).unwrap_or(0)
}

// Stores the addresses that s lists, and 0.0.0.0 up to four, and returns how many it lists; 0.0.0.0 alone and 0 where it is broken.
pub fn read_list(out: &mut [[u8; 4]; 4], s: &[u8], sep: Separator) -> usize
    ensures { (result ≡ length (or_empty (addresses sep s.now))) × (out.new ≡ rows (addresses sep s.now)) }
{
    *out = [[0u8; 4]; 4];
    let Some(n) = fill_addresses(out, s, sep) else {
        *out = [[0u8; 4]; 4];
        return 0;
    };
    n
}

// The addresses that s lists, and 0.0.0.0 up to four; 0.0.0.0 alone where it is broken.
pub fn read_addresses(s: &[u8], sep: Separator) -> [[u8; 4]; 4]
    ensures { result ≡ rows (addresses sep s.now) }
{
    let mut list = [[0u8; 4]; 4];
    read_list(&mut list, s, sep);
    list
}
