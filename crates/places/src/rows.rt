// Rows of the table of places: where the row of a group starts, and what a row says of a key.
#![tactic(auto, using(crate::specs::KeyLaws::listed_few, crate::specs::KeyLaws::listed_placed, crate::proofs::Values::service_base))]

ghost use Rattle.std.specs.Prelude.{◌≡◌, ◌≤◌};
ghost use Rattle.places.specs.History.{base};
ghost use Rattle.places.specs.KeySlots.{RowInTable, ValueInFile, key_slot, bytes_of, is_taken, slot_is};

use crate::keys::key_place;
use crate::store::{value_at, wide};
use crate::value_codes::word_number;
use crate::{CODES, IPV4_ROW, IPV6_ROW, KeyName, LINES, Places, ROW, SECURITY_ROW, SETTINGS_ROW};
use named_words::Word;
use rules::Group;

// The first slot of a group's row in the table of places, n services counted.
pub fn base_of(g: Group, n: usize) -> usize
    requires { n ≤ 8 }
    ensures { result ≡ base g n }
{
    match g {
        Group::Settings => SETTINGS_ROW,
        Group::Security => SECURITY_ROW,
        Group::Ipv4 => IPV4_ROW,
        Group::Ipv6 => IPV6_ROW,
        Group::Global => 0,
        Group::Service => ROW * n,
    }
}

// Whether a key is given, in the row that starts at a slot.
pub fn taken(x: &Places, row: usize, k: KeyName) -> bool
    requires { RowInTable x.now row }
    ensures { result ≡ is_taken x.now row k }
{
    let i = row + key_place(k);
    x[LINES + i] != 0
}

// Whether a key is given and is a word.
pub fn is_word(x: &Places, row: usize, k: KeyName, w: Word) -> bool
    requires { RowInTable x.now row }
    ensures { result ≡ slot_is x.now row k w }
{
    let i = row + key_place(k);
    x[CODES + i] == word_number(w)
}

// The value of a key, a part of the file; empty where it is not given.
pub fn value_of<'a, 'b>(file: &'a [u8], x: &'b Places, row: usize, k: KeyName) -> &'a [u8]
    requires { ValueInFile file.now x.now row k }
    ensures { result.now ≡ bytes_of file.now x.now row k }
{
    let i = row + key_place(k);
    value_at(file, x, i)
}

// The line of a key, 0 where it is not given.
pub fn line_of(x: &Places, row: usize, k: KeyName) -> usize
    requires { RowInTable x.now row }
    ensures { result ≡ (key_slot x.now row k).line }
{
    let i = row + key_place(k);
    wide(x[LINES + i])
}

// The code of a key's value, 0 where it is not given.
pub fn code_of(x: &Places, row: usize, k: KeyName) -> u16
    requires { RowInTable x.now row }
    ensures { result ≡ (key_slot x.now row k).code }
{
    let i = row + key_place(k);
    x[CODES + i]
}

// Where the value of a key starts, 0 where it is not given.
pub fn start_of(x: &Places, row: usize, k: KeyName) -> usize
    requires { RowInTable x.now row }
    ensures { result ≡ (key_slot x.now row k).start }
{
    let i = row + key_place(k);
    wide(x[i])
}
