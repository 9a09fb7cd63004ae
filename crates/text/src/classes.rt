// The classes of bytes: by the table of bytes, or by comparing.
ghost use Rattle.std.specs.Prelude.{◌≡◌};
ghost use Rattle.text.specs.Bytes.{between, is_digit, is_alphanumeric, is_lower_hex, is_blank, is_header_byte, is_entry_byte, member_of};
ghost use Rattle.text.specs.ByteTable.{columns_of, key_columns};

use crate::table::{DIGIT, DOT, HEX_DIGIT, LETTER, MINUS, SPACE, UNDERSCORE, is_in};
use crate::{Class, Dialect};

const ALPHANUMERIC: u8 = LETTER | DIGIT;

const IDENTIFIER: u8 = ALPHANUMERIC | UNDERSCORE;

const KEY: u8 = IDENTIFIER | MINUS;

// What the bytes of a key may be.
pub(crate) fn key_columns(d: Dialect) -> u8
    ensures { result ≡ key_columns d }
{
    match d {
        Dialect::Iwd => KEY,
        Dialect::ConnMan => KEY | DOT,
    }
}

// What the bytes of a class may be; 0 for a class whose bytes are compared.
pub(crate) fn columns_of(c: Class) -> u8
    ensures { result ≡ columns_of c }
{
    match c {
        Class::Space => SPACE,
        Class::Plain => KEY | SPACE,
        Class::Alphanumeric => ALPHANUMERIC,
        Class::Identifier => IDENTIFIER,
        Class::HexDigit => HEX_DIGIT,
        Class::Header => 0,
        Class::LowerHex => 0,
        Class::Entry => 0,
    }
}

// A class that is asked of one byte has a function, here and below, whose contract is the class's definition; `is_in` knows columns alone.
pub fn is_digit(x: u8) -> bool
    ensures { result ≡ is_digit x }
{
    is_in(x, DIGIT)
}

pub fn is_alphanumeric(x: u8) -> bool
    ensures { result ≡ is_alphanumeric x }
{
    is_in(x, ALPHANUMERIC)
}

// Whether x is a byte from low to high.
pub fn within(low: u8, high: u8, x: u8) -> bool
    ensures { result ≡ between low high x }
{
    low <= x && x <= high
}

// Space or tab: compared where it stands, since mostly one or two bytes are asked.
pub fn is_blank(x: u8) -> bool
    ensures { result ≡ is_blank x }
{
    x == 32 || x == 9
}

fn is_lower_hex(x: u8) -> bool
    ensures { result ≡ is_lower_hex x }
{
    within(48, 57, x) || within(97, 102, x)
}

// A byte of a group's name.
fn is_header_byte(x: u8) -> bool
    ensures { result ≡ is_header_byte x }
{
    x != 91 && x != 93 && within(32, 126, x)
}

// A byte of an entry of a list.
fn is_entry_byte(x: u8) -> bool
    ensures { result ≡ is_entry_byte x }
{
    x != 44 && !is_blank(x)
}

// Whether x is of a class whose bytes are compared; no other is asked. A `match`: each of the three is another test, of no number in common.
pub(crate) fn is_compared(c: Class, x: u8) -> bool
    requires { columns_of c ≡ 0 }
    ensures { result ≡ member_of c x }
{
    match c {
        Class::Header => is_header_byte(x),
        Class::LowerHex => is_lower_hex(x),
        Class::Entry => is_entry_byte(x),
        _ => false,
    }
}
