// The kinds of values, and the judgement of a value by its kind.
//
// This is document 01's "Settings and their kinds". The readers of each kind are in the crates below, over a part of the
// file that is indexed from zero; `judge` answers refusal 11 before refusal 12 and gives the value of a line. The definitions
// are in specs/Kinds and specs/Typed, their layout in the types below in specs/Answers.
#![tactic(auto)]

pub mod judging;

use addresses::Separator;
use named_words::{Word, WordList};
use text::Place;

// The kinds; a text has its least and greatest length.
#[derive(Clone, Copy)]
pub enum Kind {
    Flag,
    Named(WordList),
    Address,
    Netmask,
    Ipv4,
    Ipv6,
    Ipv6Address,
    Ipv6WithLength,
    Addresses(Separator),
    Entries,
    Mac,
    PreSharedKey,
    Ssid,
    Passphrase,
    Text(u8, u8),
}

// The value of a setting: yes or no, a mask's length, a named word, or where any other value stands.
#[derive(Clone, Copy)]
pub enum Value {
    Flag(bool),
    Mask(u8),
    Word(Word),
    Text(Place),
}

// Why a value is not good: its text is broken (11), or it breaks its kind (12).
#[derive(Clone, Copy)]
pub enum Broken {
    Text,
    Kind,
}
