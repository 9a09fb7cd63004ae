// Bytes in hexadecimal: pairs of digits to bytes and back.
//
// Digits are read in either case and written in lower case; the definitions are in specs/Hex, and that each undoes the
// other is in specs/Laws.
#![tactic(auto)]

ghost use Rattle.std.specs.Prelude.{◌≡◌, ◌+◌, ◌≤◌, ◌<◌, length};
ghost use Rattle.text.specs.Parts.{padded};
ghost use Rattle.text.specs.Options.{is_some, or_empty, ReadsUpTo};
ghost use Rattle.put.specs.Put.{Wrote};
ghost use Rattle.hex_digits.specs.Hex.{digit, pair_byte, unhex, hex_digit, hex};

use text::Class;

// A hex digit's value, none where c is no digit.
#[tactic(auto, using(crate::proofs::Loops::digits))]
pub fn digit_value(c: u8) -> Option<u8>
    ensures { result ≡ digit c }
{
    match c {
        b'0'..=b'9' => Some(c - b'0'),
        b'A'..=b'F' => Some(c - b'A' + 10),
        b'a'..=b'f' => Some(c - b'a' + 10),
        _ => None,
    }
}

// The byte that a pair of hex digits writes, none where one is no digit.
pub fn pair_value(a: u8, b: u8) -> Option<u8>
    ensures { result ≡ pair_byte a b }
{
    let sixteens = digit_value(a)?;
    let ones = digit_value(b)?;
    Some(sixteens * 16 + ones)
}

// Whether s is pairs of hex digits.
pub fn is_hex(s: &[u8]) -> bool
    ensures { result ≡ is_some (unhex s.now) }
{
    if s.len() % 2 != 0 {
        return false;
    }
    text::scan::all_of(s, Class::HexDigit)
}

// Writes the bytes that s gives in hex at the front of out, and returns how many. Every digit is good, since s is read whole; by `unwrap_or`
// a pair is read without a branch, so that the compiler takes many together (by pair_value it takes one after the other, twice as long).
pub fn put_unhexed(out: &mut [u8], s: &[u8]) -> usize
    requires { ReadsUpTo (length out.old) (unhex s.now) }
    ensures { Wrote (or_empty (unhex s.now)) 0 out.old out.new result }
{
    let pairs = s.len() / 2;
    for n in 0..pairs {
        let sixteens = digit_value(s[2 * n]).unwrap_or(0);
        let ones = digit_value(s[2 * n + 1]).unwrap_or(0);
        out[n] = sixteens * 16 + ones;
    }
    pairs
}

// The bytes that s gives in hex, and zeros up to N.
pub fn unhexed<const N: usize>(s: &[u8]) -> [u8; N]
    requires { ReadsUpTo N (unhex s.now) }
    ensures { result ≡ padded N (or_empty (unhex s.now)) }
{
    let mut a = [0u8; N];
    put_unhexed(&mut a, s);
    a
}

// The digit of n in lower case.
pub fn hex_digit(n: u8) -> u8
    requires { n < 16 }
    ensures { result ≡ hex_digit n }
{
    if n < 10 {
        return b'0' + n;
    }
    b'a' + (n - 10)
}

// Writes the bytes of s in lower-case hex at a place of out, and returns the place behind it.
pub fn put_hex(out: &mut [u8], at: usize, s: &[u8]) -> usize
    requires { at + length (hex s.now) ≤ length out.old }
    ensures { Wrote (hex s.now) at out.old out.new result }
{
    let mut p = at;
    for &b in s {
        out[p] = hex_digit(b / 16);
        out[p + 1] = hex_digit(b % 16);
        p += 2;
    }
    p
}
