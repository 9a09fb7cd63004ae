// ConnMan's IPv6, and the Address of iwd's group IPv6.
//
// This is request 2026-03's "ConnMan's IPv6 gains address/length with an optional gateway, iwd's group gains Address (length 128 if left
// off)". The definitions are in specs/Ipv6Values, the layout of an address with its length in the type below in specs/Layout.
#![tactic(auto)]

ghost use Rattle.std.specs.Prelude.{◌≡◌, [], ◌∷◌};
ghost use Rattle.text.specs.Options.{mapped};
ghost use Rattle.text.specs.Parts.{pieces};
ghost use Rattle.addresses.specs.Addresses.{prefix_length_of};
ghost use Rattle.addressing.specs.Numbers.{numbers_laid};
ghost use Rattle.addressing.specs.Settings.{fixed};
ghost use Rattle.ipv6.specs.Ipv6.{ipv6};
ghost use Rattle.ipv6_values.specs.Ipv6Values.{connman_ipv6, address_length, with_length};
ghost use Rattle.ipv6_values.specs.Layout.{with_length_laid};

use addresses::masks::read_prefix_length;
use addressing::{Method, Numbers};
use ipv6::reading::read_address;
use text::scan::{find, find_near};
use text::words::equal;

// An address and its length.
#[derive(Clone, Copy)]
pub struct WithLength {
    pub address: [u8; 16],
    pub length: u8,
}

// An address and its length.
fn read_sized(a: &[u8], m: &[u8]) -> Option<WithLength>
    ensures { result ≡ mapped with_length_laid (address_length (a.now ∷ m.now ∷ [])) }
{
    let address = read_address(a)?;
    let length = read_prefix_length(m, 128)?;
    Some(WithLength { address, length })
}

// An address, its length, and perhaps a gateway, with slashes. They are counted before anything is read, so that of more pieces none is; a third
// is looked for by blocks, since as a rule there is none up to the end.
fn read_parts(s: &[u8]) -> Option<Numbers<16>>
    ensures { result ≡ mapped (numbers_laid 16) (fixed ipv6 (prefix_length_of 128) (pieces 47 s.now)) }
{
    let a = find_near(s, 0, 47);
    if a == s.len() {
        return None;
    }
    let m = a + 1;
    let b = find_near(s, m, 47);
    if b == s.len() {
        let WithLength { address, length } = read_sized(&s[..a], &s[m..b])?;
        return Some(Numbers::numbered(address, length, None));
    }
    let g = b + 1;
    let e = find(s, g, 47);
    if e != s.len() {
        return None;
    }
    let WithLength { address, length } = read_sized(&s[..a], &s[m..b])?;
    let gateway = read_address(&s[g..e])?;
    Some(Numbers::numbered(address, length, Some(gateway)))
}

// `off`, `auto`, or an address, its length, and perhaps a gateway, with slashes.
pub fn read_ipv6(s: &[u8]) -> Option<Numbers<16>>
    ensures { result ≡ mapped (numbers_laid 16) (connman_ipv6 s.now) }
{
    if equal(s, b"off") {
        return Some(Numbers::unnumbered(Method::Off));
    }
    if equal(s, b"auto") {
        return Some(Numbers::unnumbered(Method::Auto));
    }
    read_parts(s)
}

// An address, and perhaps a slash and its length, which is 128 where it is left off.
pub fn read_with_length(s: &[u8]) -> Option<WithLength>
    ensures { result ≡ mapped with_length_laid (with_length s.now) }
{
    let a = find_near(s, 0, 47);
    if a == s.len() {
        let address = read_address(s)?;
        return Some(WithLength {
            address,
            length: 128,
        });
    }
    let m = a + 1;
    let b = find_near(s, m, 47);
    if b != s.len() {
        return None;
    }
    read_sized(&s[..a], &s[m..b])
}
