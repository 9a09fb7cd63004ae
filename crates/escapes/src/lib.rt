// Strings: the five escapes, their length and bytes once unescaped, and how a string is written.
#![tactic(auto)]

ghost use Rattle.std.specs.Prelude.{◌≡◌, ◌+◌, ◌≤◌, length};
ghost use Rattle.text.specs.Options.{mapped, sized, or_empty, ReadsUpTo};
ghost use Rattle.text.specs.Parts.{padded};
ghost use Rattle.put.specs.Put.{Wrote};
ghost use Rattle.put.specs.Texts.{bounded};
ghost use Rattle.escapes.specs.Escapes.{meant, unescape, escape};
ghost use Rattle.escapes.specs.Letters.{Letter};

use put::Bounded;
use text::scan;

// The byte that a backslash and c stand for, none where they begin no escape.
fn stands_for(c: u8) -> Option<u8>
    ensures { result ≡ meant c }
{
    match c {
        b's' => Some(b' '),
        b't' => Some(b'\t'),
        b'r' => Some(b'\r'),
        b'n' => Some(b'\n'),
        b'\\' => Some(b'\\'),
        _ => None,
    }
}

// The length of the string s once unescaped, none where it is broken: each escape is a byte less, and only a backslash is looked at.
pub fn string_len(s: &[u8]) -> Option<usize>
    ensures { result ≡ mapped length (unescape s.now) }
{
    let mut less = 0;
    let mut i = scan::find(s, 0, b'\\');
    while i < s.len() {
        let c = *s.get(i + 1)?;
        stands_for(c)?;
        less += 1;
        i = scan::find_near(s, i + 2, b'\\');
    }
    Some(s.len() - less)
}

// Writes the string s, unescaped, at the front of out, and returns its length.
pub fn put_string(out: &mut [u8], s: &[u8]) -> usize
    requires { ReadsUpTo (length out.old) (unescape s.now) }
    ensures { Wrote (or_empty (unescape s.now)) 0 out.old out.new result }
{
    let mut after = false;
    let mut n = 0;
    for &b in s {
        if after {
            out[n] = stands_for(b).unwrap();
            after = false;
            n += 1;
        } else if b == b'\\' {
            after = true;
        } else {
            out[n] = b;
            n += 1;
        }
    }
    n
}

// The string s, unescaped, and zeros up to N bytes.
pub fn unescaped<const N: usize>(s: &[u8]) -> [u8; N]
    requires { ReadsUpTo N (unescape s.now) }
    ensures { result ≡ padded N (or_empty (unescape s.now)) }
{
    let mut a = [0u8; N];
    put_string(&mut a, s);
    a
}

// The string s where it has low to N bytes once unescaped.
pub fn read_string<const N: usize>(low: usize, s: &[u8]) -> Option<Bounded<N>>
    ensures { result ≡ mapped (bounded N) (sized low N (unescape s.now)) }
{
    let len = string_len(s)?;
    if len < low || N < len {
        return None;
    }
    Some(Bounded {
        len,
        bytes: unescaped(s),
    })
}

// The letter of the escape with which c is written, in first place or not; none where c is written as it stands.
fn letter(first: bool, c: u8) -> Option<u8>
    ensures { Letter first c result }
{
    match c {
        b'\n' => Some(b'n'),
        b'\r' => Some(b'r'),
        b'\\' => Some(b'\\'),
        b' ' if first => Some(b's'),
        b'\t' if first => Some(b't'),
        _ => None,
    }
}

// How many bytes s has once escaped.
pub fn escaped_len(s: &[u8]) -> usize
    requires { length s.now ≤ 16384 }
    ensures { result ≡ length (escape s.now) }
{
    let mut n = 0;
    for (i, &b) in s.iter().enumerate() {
        match letter(i == 0, b) {
            None => n += 1,
            Some(_) => n += 2,
        }
    }
    n
}

// Writes s, escaped, at a place of out, and returns the place behind it.
pub fn put_escaped(out: &mut [u8], at: usize, s: &[u8]) -> usize
    requires { at + length (escape s.now) ≤ length out.old }
    ensures { Wrote (escape s.now) at out.old out.new result }
{
    let mut p = at;
    for (i, &b) in s.iter().enumerate() {
        match letter(i == 0, b) {
            None => {
                out[p] = b;
                p += 1;
            }
            Some(l) => {
                out[p] = b'\\';
                out[p + 1] = l;
                p += 2;
            }
        }
    }
    p
}
