// What the table of places keeps of a value: the code of a yes/no, a mask or a word, and the place of a text.
ghost use Rattle.std.specs.Prelude.{◌≡◌};
ghost use Rattle.rules.specs.WordNumbers.{word_number};
ghost use Rattle.places.specs.Holds.{flag_code};
ghost use Rattle.places.specs.ValueCodes.{value_code, text_place};

use kinds::Value;
use named_words::Word;
use text::Place;

const NOWHERE: Place = Place { start: 0, end: 0 };

// The number under which a word is kept.
pub fn word_number(w: Word) -> u16
    ensures { result ≡ word_number w }
{
    match w {
        Word::Wifi => 1,
        Word::Ethernet => 2,
        Word::Disabled => 3,
        Word::Enabled => 4,
        Word::Preferred => 5,
        Word::Psk => 6,
        Word::Ieee8021x => 7,
        Word::None => 8,
        Word::Wep => 9,
    }
}

// The code under which the table of places keeps what a value is.
pub fn value_code(v: Value) -> u16
    ensures { result ≡ value_code v }
{
    match v {
        Value::Flag(b) => flag_code(b),
        Value::Mask(n) => n as u16,
        Value::Word(w) => word_number(w),
        Value::Text(_) => 0,
    }
}

// The code of a yes/no.
pub fn flag_code(b: bool) -> u16
    ensures { result ≡ flag_code b }
{
    if b {
        return 2;
    }
    1
}

// Where a text stands; of any other value the code says all.
pub fn text_place(v: Value) -> Place
    ensures { result ≡ text_place v }
{
    match v {
        Value::Text(p) => p,
        _ => NOWHERE,
    }
}
