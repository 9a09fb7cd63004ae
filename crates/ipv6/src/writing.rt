// Groups, runs of zeros and addresses, written, and how long an address is.
ghost use Rattle.std.specs.Prelude.{◌≡◌, cond, [], ◌∷◌, suc, ◌+◌, ◌*◌, ◌/◌, ◌%◌, ◌≤◌, ◌<◌, eqb, length};
ghost use Rattle.put.specs.Put.{Wrote};
ghost use Rattle.hex_digits.specs.Hex.{hex_digit};
ghost use Rattle.ipv6.specs.Ipv6.{groups_of, group_digits, colon_groups, joined_groups, longest, canonical};
ghost use Rattle.ipv6.specs.Places.{longer};

use crate::Run;

// The group of two bytes, the high-order one first.
fn joint(high: u8, low: u8) -> u16
    ensures { result ≡ high * 256 + low }
{
    high as u16 * 256 + low as u16
}

// The eight groups of an address.
fn groups_of(a: [u8; 16]) -> [u16; 8]
    ensures { result ≡ groups_of a }
{
    let mut gs = [0u16; 8];
    for i in 0..8 {
        gs[i] = joint(a[2 * i], a[2 * i + 1]);
    }
    gs
}

// How many zero groups g and those behind it begin with, where those begin with n.
fn zeros_from(g: u16, n: usize) -> usize
    requires { n < 8 }
    ensures { result ≡ cond (eqb g 0) (suc n) 0 }
{
    if g == 0 { n + 1 } else { 0 }
}

// Of a run and the n zero groups from i on, which stand before it, the longer; of equals the first.
fn longer_of(best: Run, i: usize, n: usize) -> Run
    ensures { result ≡ longer best i n }
{
    if best.len <= n {
        Run { start: i, len: n }
    } else {
        best
    }
}

// The longest run of zero groups; of equals the first.
fn longest_run(gs: [u16; 8]) -> Run
    ensures { result ≡ longest gs }
{
    let mut best = Run { start: 8, len: 0 };
    let mut n = 0;
    for k in 0..8 {
        let i = 7 - k;
        n = zeros_from(gs[i], n);
        best = longer_of(best, i, n);
    }
    best
}

// Writes a byte in two digits at a place of out, and returns the place behind it.
fn put_two(out: &mut [u8], at: usize, b: u8) -> usize
    requires { at + 2 ≤ length out.old }
    ensures { Wrote (hex_digit (b / 16) ∷ hex_digit (b % 16) ∷ []) at out.old out.new result }
{
    out[at] = hex_digits::hex_digit(b / 16);
    out[at + 1] = hex_digits::hex_digit(b % 16);
    at + 2
}

// Writes a byte without leading zeros.
fn put_byte(out: &mut [u8], at: usize, b: u8) -> usize
    requires { at + length (group_digits b) ≤ length out.old }
    ensures { Wrote (group_digits b) at out.old out.new result }
{
    if b < 16 {
        return put::put_byte(out, at, hex_digits::hex_digit(b));
    }
    put_two(out, at, b)
}

// Writes a group without leading zeros.
fn put_group(out: &mut [u8], at: usize, v: u16) -> usize
    requires { at + length (group_digits v) ≤ length out.old }
    ensures { Wrote (group_digits v) at out.old out.new result }
{
    if v < 256 {
        return put_byte(out, at, v as u8);
    }
    let p = put_byte(out, at, (v / 256) as u8);
    put_two(out, p, (v % 256) as u8)
}

// A colon, and then a group.
fn put_with_colon(out: &mut [u8], at: usize, v: u16) -> usize
    requires { at + length (58 ∷ group_digits v) ≤ length out.old }
    ensures { Wrote (58 ∷ group_digits v) at out.old out.new result }
{
    out[at] = 58;
    put_group(out, at + 1, v)
}

// Writes groups, a colon in front of each.
fn put_rest(out: &mut [u8], at: usize, gs: &[u16]) -> usize
    requires { at + length (colon_groups gs.now) ≤ length out.old }
    ensures { Wrote (colon_groups gs.now) at out.old out.new result }
{
    let mut end = at;
    for &g in gs {
        end = put_with_colon(out, end, g);
    }
    end
}

// Writes groups with colons between them.
fn put_joined(out: &mut [u8], at: usize, gs: &[u16]) -> usize
    requires { at + length (joined_groups gs.now) ≤ length out.old }
    ensures { Wrote (joined_groups gs.now) at out.old out.new result }
{
    if gs.len() == 0 {
        return at;
    }
    let p = put_group(out, at, gs[0]);
    put_rest(out, p, &gs[1..])
}

// Writes an address at a place of out as RFC 5952 says, and returns the place behind it.
pub fn put_address(out: &mut [u8], at: usize, a: [u8; 16]) -> usize
    requires { at + length (canonical a) ≤ length out.old }
    ensures { Wrote (canonical a) at out.old out.new result }
{
    let gs = groups_of(a);
    let run = longest_run(gs);
    if run.len < 2 {
        return put_joined(out, at, &gs);
    }
    let p = put_joined(out, at, &gs[..run.start]);
    let q = put::put_text(out, p, b"::");
    put_joined(out, q, &gs[run.start + run.len..])
}

// How long the text of an address is.
pub fn address_len(a: [u8; 16]) -> usize
    ensures { result ≡ length (canonical a) }
{
    let mut text = [0u8; 39];
    put_address(&mut text, 0, a)
}
