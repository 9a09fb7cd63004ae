// Numbers, addresses and lists of addresses, written, and how long they are.
ghost use Rattle.std.specs.Prelude.{◌≡◌, ◌+◌, ◌≤◌, [], ◌∷◌, length, take};
ghost use Rattle.put.specs.Put.{Wrote};
ghost use Rattle.addresses.specs.Addresses.{decimal, dot_then, dotted, with_separators, listed};

use crate::{Separator, lists};

// Writes n in decimal at a place of out, and returns the place behind it.
pub fn put_decimal(out: &mut [u8], at: usize, n: u8) -> usize
    requires { at + length (decimal n) ≤ length out.old }
    ensures { Wrote (decimal n) at out.old out.new result }
{
    if n < 10 {
        out[at] = 48 + n;
        return at + 1;
    }
    if n < 100 {
        out[at] = 48 + n / 10;
        out[at + 1] = 48 + n % 10;
        return at + 2;
    }
    out[at] = 48 + n / 100;
    out[at + 1] = 48 + n / 10 % 10;
    out[at + 2] = 48 + n % 10;
    at + 3
}

// A dot, and then a number.
fn put_dot_then(out: &mut [u8], at: usize, n: u8) -> usize
    requires { at + length (dot_then n) ≤ length out.old }
    ensures { Wrote (dot_then n) at out.old out.new result }
{
    out[at] = 46;
    put_decimal(out, at + 1, n)
}

// Writes an address at a place of out, and returns the place behind it.
pub fn put_address(out: &mut [u8], at: usize, a: [u8; 4]) -> usize
    requires { at + length (dotted a) ≤ length out.old }
    ensures { Wrote (dotted a) at out.old out.new result }
{
    let p = put_decimal(out, at, a[0]);
    let q = put_dot_then(out, p, a[1]);
    let r = put_dot_then(out, q, a[2]);
    put_dot_then(out, r, a[3])
}

// How many digits n has.
pub fn decimal_len(n: u8) -> usize
    ensures { result ≡ length (decimal n) }
{
    if n < 10 {
        return 1;
    }
    if n < 100 { 2 } else { 3 }
}

// How long an address is in text.
pub fn address_len(a: [u8; 4]) -> usize
    ensures { result ≡ length (dotted a) }
{
    decimal_len(a[0]) + decimal_len(a[1]) + decimal_len(a[2]) + decimal_len(a[3]) + 3
}

// A separator, and then an address.
fn put_behind(out: &mut [u8], at: usize, sep: Separator, a: [u8; 4]) -> usize
    requires { at + length (with_separators sep (a ∷ [])) ≤ length out.old }
    ensures { Wrote (with_separators sep (a ∷ [])) at out.old out.new result }
{
    out[at] = lists::separator_byte(sep);
    put_address(out, at + 1, a)
}

// Writes the first count addresses of list at a place of out, and returns the place behind them.
pub fn put_addresses(
    out: &mut [u8],
    at: usize,
    list: [[u8; 4]; 4],
    count: usize,
    sep: Separator,
) -> usize
    requires { (1 ≤ count) × (count ≤ 4) × (at + length (listed sep (take count list)) ≤ length out.old) }
    ensures { Wrote (listed sep (take count list)) at out.old out.new result }
{
    let mut end = put_address(out, at, list[0]);
    for &a in &list[1..count] {
        end = put_behind(out, end, sep, a);
    }
    end
}

// How long the first count addresses of list are in text.
pub fn addresses_len(list: [[u8; 4]; 4], count: usize, sep: Separator) -> usize
    requires { (1 ≤ count) × (count ≤ 4) }
    ensures { result ≡ length (listed sep (take count list)) }
{
    let mut n = address_len(list[0]);
    for &a in &list[1..count] {
        n += 1 + address_len(a);
    }
    n
}
