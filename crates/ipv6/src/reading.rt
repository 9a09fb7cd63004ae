// Groups, the sides of "::" and addresses, read.
ghost use Rattle.std.specs.Prelude.{◌≡◌, ◌≤◌, length, take};
ghost use Rattle.text.specs.Options.{mapped, only, sized, glue};
ghost use Rattle.put.specs.Texts.{bounded};
ghost use Rattle.addresses.specs.Addresses.{address};
ghost use Rattle.ipv6.specs.Ipv6.{side, spread, ipv6};
ghost use Rattle.ipv6.specs.Places.{GroupAt, GapAt, Padded};

use crate::Group;
use addresses::numbers;
use put::Bounded;
use text::scan;

// The group that starts at at, up to the next colon.
fn read_group(s: &[u8], at: usize) -> Group
    requires { at ≤ length s.now }
    ensures { GroupAt s.now at result }
{
    let mut v: u16 = 0;
    for i in at..s.len() {
        let c = s[i];
        let Some(d) = hex_digits::digit_value(c) else {
            if c == 58 {
                return Group {
                    end: i,
                    value: (i != at).then_some(v),
                };
            }
            return Group {
                end: scan::find_near(s, i, 58),
                value: None,
            };
        };
        if 4 <= i - at {
            return Group {
                end: scan::find_near(s, i, 58),
                value: None,
            };
        }
        v = v * 16 + d as u16;
    }
    Group {
        end: s.len(),
        value: (s.len() != at).then_some(v),
    }
}

// The place of the first "::", if there is one. Where the second of two bytes is no colon, both are passed over.
fn find_gap(s: &[u8]) -> Option<usize>
    ensures { GapAt s.now result }
{
    let mut i = 1;
    // It steps by one or by two, which no range does.
    while i < s.len() {
        if s[i] != 58 {
            i += 2;
            continue;
        }
        if s[i - 1] == 58 {
            return Some(i - 1);
        }
        i += 1;
    }
    None
}

// A side whose bytes but for those of its last piece s are read: s is an address with dots, where dotted allows it.
fn end_dotted(s: &[u8], dotted: bool, front: Bounded<16>) -> Option<Bounded<16>>
    requires { Padded front }
    ensures { result ≡ mapped (bounded 16) (sized 0 16 (glue (take front.len front.bytes) (only dotted (address s.now)))) }
{
    if !dotted {
        return None;
    }
    if 12 < front.len {
        return None;
    }
    let tail = numbers::read_address(s)?;
    let mut bytes = front.bytes;
    put::put_text(&mut bytes, front.len, &tail);
    Some(Bounded {
        len: front.len + 4,
        bytes,
    })
}

// The bytes of the groups of s, which may be none; the last may be an address with dots where dotted allows it.
fn read_side(s: &[u8], dotted: bool) -> Option<Bounded<16>>
    ensures { result ≡ mapped (bounded 16) (side dotted s.now) }
{
    let mut bytes = [0u8; 16];
    if s.len() == 0 {
        return Some(Bounded { len: 0, bytes });
    }
    let mut at = 0;
    for i in 0..8 {
        let n = 2 * i;
        let Group { end, value } = read_group(s, at);
        let Some(v) = value else {
            if end == s.len() {
                return end_dotted(&s[at..end], dotted, Bounded { len: n, bytes });
            }
            return None;
        };
        bytes[n] = (v / 256) as u8;
        bytes[n + 1] = (v % 256) as u8;
        if end == s.len() {
            return Some(Bounded { len: n + 2, bytes });
        }
        at = end + 1;
    }
    None
}

// The bytes in front of "::" and those behind it, with zeros between them; refused where no group of zeros is left.
fn spread(front: Bounded<16>, back: Bounded<16>) -> Option<[u8; 16]>
    requires { Padded front × Padded back }
    ensures { result ≡ spread (take front.len front.bytes) (take back.len back.bytes) }
{
    if 14 < front.len + back.len {
        return None;
    }
    let mut bytes = front.bytes;
    put::put_text(&mut bytes, 16 - back.len, back.text());
    Some(bytes)
}

// The address that s is, as RFC 4291 says; a zone, brackets or a prefix length are refused.
pub fn read_address(s: &[u8]) -> Option<[u8; 16]>
    ensures { result ≡ ipv6 s.now }
{
    let Some(gap) = find_gap(s) else {
        let whole = read_side(s, true)?;
        return if whole.len == 16 {
            Some(whole.bytes)
        } else {
            None
        };
    };
    let front = read_side(&s[..gap], false)?;
    let back = read_side(&s[gap + 2..], true)?;
    spread(front, back)
}
