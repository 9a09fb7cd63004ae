// Decimal numbers and addresses, read.
ghost use Rattle.std.specs.Prelude.{◌≡◌, ◌≤◌, length};
ghost use Rattle.addresses.specs.Addresses.{number, address};
ghost use Rattle.addresses.specs.Fields.{DigitAt, OctetAt, AddressAt};

use crate::{FoundAddress, Octet};

// A decimal number up to most, without leading zeros.
pub fn read_number(s: &[u8], most: u8) -> Option<u8>
    ensures { result ≡ number most s.now }
{
    if s.len() == 0 {
        return None;
    }
    if s[0] == 48 {
        return if s.len() == 1 { Some(0) } else { None };
    }
    let mut v: u16 = 0;
    for &c in s {
        if c < 48 {
            return None;
        }
        if 57 < c {
            return None;
        }
        v = v * 10 + (c - 48) as u16;
        if (most as u16) < v {
            return None;
        }
    }
    Some(v as u8)
}

// The value of the digit at i, if one stands there.
fn digit_at(s: &[u8], i: usize) -> Option<u8>
    requires { i ≤ length s.now }
    ensures { DigitAt s.now i result }
{
    if i == s.len() {
        return None;
    }
    let d = std::num::wrapping_sub_u8(s[i], 48);
    if 9 < d { None } else { Some(d) }
}

// The number 0 to 255 that starts at at: one to three digits. What stands behind them is left to the caller.
fn read_octet(s: &[u8], at: usize) -> Option<Octet>
    requires { at ≤ length s.now }
    ensures { OctetAt s.now at result }
{
    let a = digit_at(s, at)?;
    let Some(b) = digit_at(s, at + 1) else {
        return Some(Octet {
            end: at + 1,
            value: a,
        });
    };
    if a == 0 {
        return None;
    }
    let Some(c) = digit_at(s, at + 2) else {
        return Some(Octet {
            end: at + 2,
            value: a * 10 + b,
        });
    };
    let v = (a * 10 + b) as u16 * 10 + c as u16;
    if 255 < v {
        return None;
    }
    Some(Octet {
        end: at + 3,
        value: v as u8,
    })
}

// The address that starts at from. What stands behind its last number is left to the caller.
pub fn address_at(s: &[u8], from: usize) -> Option<FoundAddress>
    requires { from ≤ length s.now }
    ensures { AddressAt s.now from result }
{
    let mut bytes = [0u8; 4];
    let mut at = from;
    for n in 0..3 {
        let Octet { end, value } = read_octet(s, at)?;
        if end == s.len() {
            return None;
        }
        if s[end] != 46 {
            return None;
        }
        bytes[n] = value;
        at = end + 1;
    }
    let Octet { end, value } = read_octet(s, at)?;
    bytes[3] = value;
    Some(FoundAddress { end, bytes })
}

// An address: four numbers 0 to 255 with dots.
pub fn read_address(s: &[u8]) -> Option<[u8; 4]>
    ensures { result ≡ address s.now }
{
    let a = address_at(s, 0)?;
    if a.end == s.len() {
        Some(a.bytes)
    } else {
        None
    }
}
