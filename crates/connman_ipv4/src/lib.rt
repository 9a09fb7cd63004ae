// ConnMan's IPv4.
//
// This is document 01's sentence "ConnMan IPv4 is .." under "Settings and their kinds". The definition is in specs/ConnmanIpv4.
#![tactic(auto)]

ghost use Rattle.std.specs.Prelude.{◌≡◌};
ghost use Rattle.text.specs.Options.{mapped};
ghost use Rattle.text.specs.Parts.{pieces};
ghost use Rattle.addresses.specs.Addresses.{address};
ghost use Rattle.addressing.specs.Numbers.{numbers_laid};
ghost use Rattle.addressing.specs.Settings.{fixed};
ghost use Rattle.connman_ipv4.specs.ConnmanIpv4.{mask_or_length, ipv4};

use addresses::FoundAddress;
use addresses::masks::{read_netmask, read_prefix_length};
use addresses::numbers::address_at;
use addressing::{Method, Numbers};
use text::scan::find_near;
use text::words::equal;

// A mask's length: a number of 1 to 32, or a mask.
fn read_length(s: &[u8]) -> Option<u8>
    ensures { result ≡ mask_or_length s.now }
{
    match read_prefix_length(s, 32) {
        Some(length) => Some(length),
        None => read_netmask(s),
    }
}

// An address, its mask or length, and perhaps a gateway, with slashes. An address is read in one pass that hands back its
// end, while IPv6's is found by its slash first: one function of both families would cost this one a second pass.
fn read_parts(s: &[u8]) -> Option<Numbers<4>>
    ensures { result ≡ mapped (numbers_laid 4) (fixed address mask_or_length (pieces 47 s.now)) }
{
    let FoundAddress {
        end: slash,
        bytes: address,
    } = address_at(s, 0)?;
    if slash == s.len() {
        return None;
    }
    if s[slash] != 47 {
        return None;
    }
    let m = slash + 1;
    let e = find_near(s, m, 47);
    let length = read_length(&s[m..e])?;
    if e == s.len() {
        return Some(Numbers::numbered(address, length, None));
    }
    let g = address_at(s, e + 1)?;
    if g.end != s.len() {
        return None;
    }
    Some(Numbers::numbered(address, length, Some(g.bytes)))
}

// `off`, `dhcp`, or an address, its mask or length, and perhaps a gateway, with slashes.
pub fn read_ipv4(s: &[u8]) -> Option<Numbers<4>>
    ensures { result ≡ mapped (numbers_laid 4) (ipv4 s.now) }
{
    if equal(s, b"off") {
        return Some(Numbers::unnumbered(Method::Off));
    }
    if equal(s, b"dhcp") {
        return Some(Numbers::unnumbered(Method::Auto));
    }
    read_parts(s)
}
