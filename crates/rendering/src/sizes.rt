// How long each part of the file is: a function for each that writes, since the length is asked before the first byte is written, so that a
// short buffer is left as it was (17; demands `Unwritten`).
#![tactic(auto, unfolding(written::specs::Texts::rows_text, written::specs::Texts::group_text))]

ghost use Rattle.std.specs.Prelude.{◌≡◌, ◌≤◌, length, take};
ghost use Rattle.text.specs.Words.{word};
ghost use Rattle.records.specs.Record.{secret_of, joined};
ghost use Rattle.addressing.specs.Addressing.{gateway_if};
ghost use Rattle.addresses.specs.Addresses.{dotted};
ghost use Rattle.ipv6.specs.Ipv6.{canonical};
ghost use Rattle.written.specs.Written.{hidden_rows, secret_rows, gateway_rows, number_rows, server_rows, domain_rows, ipv4_rows, ipv6_rows, file_text};
ghost use Rattle.written.specs.Texts.{rows_text, group_text};
ghost use Rattle.written.specs.RecordParts.{numbers_in, static_in, static_rows, CountsWithin};

use addresses::{Separator, masks, writing};
use addressing::{Method, Numbers};
use records::{Credential, JoinRecord};
use written::parts;

fn settings_len(hidden: bool) -> usize
    ensures { result ≡ length (group_text (word "Settings") (hidden_rows hidden)) }
{
    if hidden { 23 } else { 0 }
}

fn security_len(c: Credential, passphrase: &[u8], key: &[u8]) -> usize
    requires { (length passphrase.now ≤ 63) × (length key.now ≡ 32) }
    ensures { result ≡ length (group_text (word "Security") (secret_rows (secret_of c passphrase.now key.now))) }
{
    match c {
        Credential::None => 0,
        Credential::Passphrase => 23 + escapes::escaped_len(passphrase),
        Credential::Key => 89,
    }
}

fn gateway_len(i: Numbers<4>) -> usize
    ensures { result ≡ length (rows_text (gateway_rows dotted (gateway_if i.has_gateway i.gateway))) }
{
    if i.has_gateway {
        return 9 + writing::address_len(i.gateway);
    }
    0
}

fn static_len(i: Numbers<4>) -> usize
    requires { i.length ≤ 32 }
    ensures { result ≡ length (rows_text (static_rows i)) }
{
    let own = writing::address_len(i.address);
    let mask = writing::address_len(masks::mask_bytes(i.length));
    18 + own + mask + gateway_len(i)
}

fn numbers_len(i: Numbers<4>) -> usize
    requires { i.length ≤ 32 }
    ensures { result ≡ length (rows_text (number_rows (numbers_in i))) }
{
    match i.method {
        Method::Auto => 0,
        Method::Off => 0,
        Method::Static => static_len(i),
    }
}

fn servers_len(list: [[u8; 4]; 4], count: usize) -> usize
    requires { count ≤ 4 }
    ensures { result ≡ length (rows_text (server_rows (take count list))) }
{
    if count == 0 {
        return 0;
    }
    5 + writing::addresses_len(list, count, Separator::Spaces)
}

fn domain_len(d: &[u8]) -> usize
    requires { length d.now ≤ 253 }
    ensures { result ≡ length (rows_text (domain_rows d.now)) }
{
    if d.len() == 0 {
        return 0;
    }
    12 + escapes::escaped_len(d)
}

fn ipv4_len(i: Numbers<4>, servers: [[u8; 4]; 4], count: usize, domain: &[u8]) -> usize
    requires size { i.length ≤ 32 }
    requires most { count ≤ 4 }
    requires short { length domain.now ≤ 253 }
    ensures { result ≡ length (group_text (word "IPv4") (ipv4_rows (numbers_in i) (take count servers) domain.now)) }
{
    if parts::has_ipv4(i, servers, count, domain) {
        let numbers = numbers_len(i);
        let list = servers_len(servers, count);
        return 7 + numbers + list + domain_len(domain);
    }
    0
}

// Apart from IPv4's, as in `rows`.
fn ipv6_gateway_len(i: Numbers<16>) -> usize
    ensures { result ≡ length (rows_text (gateway_rows canonical (gateway_if i.has_gateway i.gateway))) }
{
    if i.has_gateway {
        return 9 + ipv6::writing::address_len(i.gateway);
    }
    0
}

fn ipv6_static_len(i: Numbers<16>) -> usize
    ensures { result ≡ length (group_text (word "IPv6") (ipv6_rows (static_in i))) }
{
    let own = ipv6::writing::address_len(i.address);
    let digits = writing::decimal_len(i.length);
    17 + own + digits + ipv6_gateway_len(i)
}

fn ipv6_len(i: Numbers<16>) -> usize
    ensures { result ≡ length (group_text (word "IPv6") (ipv6_rows (numbers_in i))) }
{
    match i.method {
        Method::Auto => 0,
        Method::Off => 21,
        Method::Static => ipv6_static_len(i),
    }
}

// How long the file of a record is.
pub fn file_len(r: JoinRecord, servers: [[u8; 4]; 4]) -> usize
    requires { CountsWithin r }
    ensures { result ≡ length (file_text (joined r servers)) }
{
    let numbers = parts::numbers(r);
    let settings = settings_len(r.hidden);
    let security = security_len(r.credential, &r.passphrase[..r.passphrase_len], &r.key);
    let ipv4 = ipv4_len(numbers, servers, r.server_count, &r.domain[..r.domain_len]);
    let ipv6 = ipv6_len(parts::ipv6_numbers(r));
    settings + security + ipv4 + ipv6
}
