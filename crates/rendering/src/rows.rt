// Settings, written at a place of the output; each writer returns the place behind what it wrote.
#![tactic(auto, unfolding(written::specs::Texts::rows_text, written::specs::Texts::group_text))]

ghost use Rattle.std.specs.Prelude.{◌≡◌, [], ◌∷◌, ◌++◌, ◌+◌, ◌≤◌, length, take};
ghost use Rattle.text.specs.Words.{word};
ghost use Rattle.escapes.specs.Escapes.{escape};
ghost use Rattle.hex_digits.specs.Hex.{hex};
ghost use Rattle.addresses.specs.Addresses.{dotted};
ghost use Rattle.ipv6.specs.Ipv6.{canonical};
ghost use Rattle.put.specs.Put.{Wrote};
ghost use Rattle.written.specs.Written.{gateway_rows, number_rows, server_rows, domain_rows, lengthened};
ghost use Rattle.written.specs.Texts.{rows_text};
ghost use Rattle.addressing.specs.Addressing.{gateway_if};
ghost use Rattle.written.specs.RecordParts.{numbers_in, static_rows};

use addresses::{Separator, masks, writing};
use addressing::{Method, Numbers};

// What stands in front of a string, the string, escaped, and the end of the line. Each form of a value has a function of three
// lines: a trait over the forms would be longer than they are.
pub fn put_string(out: &mut [u8], at: usize, front: &[u8], s: &[u8]) -> usize
    requires { at + length (front.now ++ escape s.now ++ 10 ∷ []) ≤ length out.old }
    ensures { Wrote (front.now ++ escape s.now ++ 10 ∷ []) at out.old out.new result }
{
    let p = put::put_text(out, at, front);
    let q = escapes::put_escaped(out, p, s);
    put::put_byte(out, q, 10)
}

// The same of a key, in hex.
pub fn put_key(out: &mut [u8], at: usize, front: &[u8], k: &[u8]) -> usize
    requires { at + length (front.now ++ hex k.now ++ 10 ∷ []) ≤ length out.old }
    ensures { Wrote (front.now ++ hex k.now ++ 10 ∷ []) at out.old out.new result }
{
    let p = put::put_text(out, at, front);
    let q = hex_digits::put_hex(out, p, k);
    put::put_byte(out, q, 10)
}

// The same of an address.
fn put_address(out: &mut [u8], at: usize, front: &[u8], a: [u8; 4]) -> usize
    requires { at + length (front.now ++ dotted a ++ 10 ∷ []) ≤ length out.old }
    ensures { Wrote (front.now ++ dotted a ++ 10 ∷ []) at out.old out.new result }
{
    let p = put::put_text(out, at, front);
    let q = writing::put_address(out, p, a);
    put::put_byte(out, q, 10)
}

// The line of an IPv4's gateway, where there is one.
fn put_gateway(out: &mut [u8], at: usize, i: Numbers<4>) -> usize
    requires { at + length (rows_text (gateway_rows dotted (gateway_if i.has_gateway i.gateway))) ≤ length out.old }
    ensures { Wrote (rows_text (gateway_rows dotted (gateway_if i.has_gateway i.gateway))) at out.old out.new result }
{
    if i.has_gateway {
        return put_address(out, at, b"Gateway=", i.gateway);
    }
    at
}

// The lines of an address, of its mask and of its gateway.
fn put_static(out: &mut [u8], at: usize, i: Numbers<4>) -> usize
    requires size { i.length ≤ 32 }
    requires room { at + length (rows_text (static_rows i)) ≤ length out.old }
    ensures { Wrote (rows_text (static_rows i)) at out.old out.new result }
{
    let p = put_address(out, at, b"Address=", i.address);
    let q = put_address(out, p, b"Netmask=", masks::mask_bytes(i.length));
    put_gateway(out, q, i)
}

// The lines of an IPv4 that is static, and none of any other.
pub fn put_numbers(out: &mut [u8], at: usize, i: Numbers<4>) -> usize
    requires size { i.length ≤ 32 }
    requires room { at + length (rows_text (number_rows (numbers_in i))) ≤ length out.old }
    ensures { Wrote (rows_text (number_rows (numbers_in i))) at out.old out.new result }
{
    match i.method {
        Method::Auto => at,
        Method::Off => at,
        Method::Static => put_static(out, at, i),
    }
}

// The line of the first count name servers, where there are some.
pub fn put_servers(out: &mut [u8], at: usize, list: [[u8; 4]; 4], count: usize) -> usize
    requires most { count ≤ 4 }
    requires room { at + length (rows_text (server_rows (take count list))) ≤ length out.old }
    ensures { Wrote (rows_text (server_rows (take count list))) at out.old out.new result }
{
    if count == 0 {
        return at;
    }
    let p = put::put_text(out, at, b"DNS=");
    let q = writing::put_addresses(out, p, list, count, Separator::Spaces);
    put::put_byte(out, q, 10)
}

// The line of a domain, where there is one.
pub fn put_domain(out: &mut [u8], at: usize, d: &[u8]) -> usize
    requires { at + length (rows_text (domain_rows d.now)) ≤ length out.old }
    ensures { Wrote (rows_text (domain_rows d.now)) at out.old out.new result }
{
    if d.is_empty() {
        return at;
    }
    put_string(out, at, b"DomainName=", d)
}

// The header of the IPv6 group, and the line of an address with its length.
pub fn put_ipv6_address(out: &mut [u8], i: Numbers<16>) -> usize
    requires { length (word "[IPv6]\nAddress=" ++ lengthened i.address i.length ++ 10 ∷ []) ≤ length out.old }
    ensures { Wrote (word "[IPv6]\nAddress=" ++ lengthened i.address i.length ++ 10 ∷ []) 0 out.old out.new result }
{
    let p = put::put_text(out, 0, b"[IPv6]\nAddress=");
    let q = ipv6::writing::put_address(out, p, i.address);
    let r = put::put_byte(out, q, 47);
    let s = writing::put_decimal(out, r, i.length);
    put::put_byte(out, s, 10)
}

// The line of an IPv6's gateway, where there is one: apart from IPv4's, since a trait over the two texts of an address would be longer.
pub fn put_ipv6_gateway(out: &mut [u8], at: usize, i: Numbers<16>) -> usize
    requires { at + length (rows_text (gateway_rows canonical (gateway_if i.has_gateway i.gateway))) ≤ length out.old }
    ensures { Wrote (rows_text (gateway_rows canonical (gateway_if i.has_gateway i.gateway))) at out.old out.new result }
{
    if i.has_gateway {
        let p = put::put_text(out, at, b"Gateway=");
        let q = ipv6::writing::put_address(out, p, i.gateway);
        return put::put_byte(out, q, 10);
    }
    at
}
