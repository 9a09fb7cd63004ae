// The table of places: for each slot where a value starts and ends, on which line, and its code; line 0 where there is none. A
// file has at most 16,384 bytes, so each of the four fits 16 bits.
//
// Nine rows of slots: in an iwd file one for each group, in a ConnMan file one for `global` and one for each of eight services;
// behind them the places of the services' names.
ghost use Rattle.std.specs.Prelude.{◌≡◌, ◌+◌, ◌<◌};
ghost use Rattle.text.specs.Parts.{part};
ghost use Rattle.places.specs.Store.{slot_count, slot, stored, FitsSlot, SlotIn};

use crate::{CODES, ENDS, LINES, Places};

// What the table keeps, as a place or a line.
pub fn wide(n: u16) -> usize
    ensures { result ≡ n }
{
    n as usize
}

// Puts a place, its line and a code into a slot.
pub fn put_slot(x: &mut Places, i: usize, start: usize, end: usize, line: usize, code: u16)
    requires { (i < slot_count) × FitsSlot start end line }
    ensures { x.new ≡ stored i (record { start = start; end = end; line = line; code = code }) x.old }
{
    x[i] = start as u16;
    x[ENDS + i] = end as u16;
    x[LINES + i] = line as u16;
    x[CODES + i] = code as u16;
}

// The value that stands at a slot, a part of the file; empty where there is none.
pub fn value_at<'a, 'b>(file: &'a [u8], x: &'b Places, i: usize) -> &'a [u8]
    requires { SlotIn file.now x.now i }
    ensures { result.now ≡ part (slot i x.now).start (slot i x.now).end file.now }
{
    let start = wide(x[i]);
    let end = wide(x[ENDS + i]);
    &file[start..end]
}
