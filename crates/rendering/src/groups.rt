// The groups of the file. Each writer is given the unwritten rest of the output, and returns how much of it it used.
#![tactic(auto, unfolding(written::specs::Texts::rows_text, written::specs::Texts::group_text))]

ghost use Rattle.std.specs.Prelude.{◌+◌, ◌≤◌, length, take};
ghost use Rattle.text.specs.Words.{word};
ghost use Rattle.put.specs.Put.{Wrote};
ghost use Rattle.records.specs.Record.{secret_of, joined};
ghost use Rattle.written.specs.Written.{hidden_rows, secret_rows, ipv4_rows, ipv6_rows, file_text};
ghost use Rattle.written.specs.Texts.{rows_text, group_text};
ghost use Rattle.written.specs.RecordParts.{numbers_in, static_in, CountsWithin};

use crate::rows;
use addressing::{Method, Numbers};
use records::{Credential, JoinRecord};
use written::parts;

fn put_settings(out: &mut [u8], hidden: bool) -> usize
    requires { length (group_text (word "Settings") (hidden_rows hidden)) ≤ length out.old }
    ensures { Wrote (group_text (word "Settings") (hidden_rows hidden)) 0 out.old out.new result }
{
    if hidden {
        return put::put_text(out, 0, b"[Settings]\nHidden=true\n");
    }
    0
}

// A `match`: each credential is written by another function.
fn put_security(out: &mut [u8], c: Credential, passphrase: &[u8], key: &[u8]) -> usize
    requires { length (group_text (word "Security") (secret_rows (secret_of c passphrase.now key.now))) ≤ length out.old }
    ensures { Wrote (group_text (word "Security") (secret_rows (secret_of c passphrase.now key.now))) 0 out.old out.new result }
{
    match c {
        Credential::None => 0,
        Credential::Passphrase => rows::put_string(out, 0, b"[Security]\nPassphrase=", passphrase),
        Credential::Key => rows::put_key(out, 0, b"[Security]\nPreSharedKey=", key),
    }
}

fn put_ipv4_rows(
    out: &mut [u8],
    at: usize,
    i: Numbers<4>,
    servers: [[u8; 4]; 4],
    count: usize,
    domain: &[u8],
) -> usize
    requires size { i.length ≤ 32 }
    requires most { count ≤ 4 }
    requires room { at + length (rows_text (ipv4_rows (numbers_in i) (take count servers) domain.now)) ≤ length out.old }
    ensures { Wrote (rows_text (ipv4_rows (numbers_in i) (take count servers) domain.now)) at out.old out.new result }
{
    let p = rows::put_numbers(out, at, i);
    let q = rows::put_servers(out, p, servers, count);
    rows::put_domain(out, q, domain)
}

fn put_ipv4(
    out: &mut [u8],
    i: Numbers<4>,
    servers: [[u8; 4]; 4],
    count: usize,
    domain: &[u8],
) -> usize
    requires size { i.length ≤ 32 }
    requires most { count ≤ 4 }
    requires room { length (group_text (word "IPv4") (ipv4_rows (numbers_in i) (take count servers) domain.now)) ≤ length out.old }
    ensures { Wrote (group_text (word "IPv4") (ipv4_rows (numbers_in i) (take count servers) domain.now)) 0 out.old out.new result }
{
    if parts::has_ipv4(i, servers, count, domain) {
        let at = put::put_text(out, 0, b"[IPv4]\n");
        return put_ipv4_rows(out, at, i, servers, count, domain);
    }
    0
}

// The group of an IPv6 that is static: its address with its length, and its gateway, where it is given.
fn put_ipv6_static(out: &mut [u8], i: Numbers<16>) -> usize
    requires { length (group_text (word "IPv6") (ipv6_rows (static_in i))) ≤ length out.old }
    ensures { Wrote (group_text (word "IPv6") (ipv6_rows (static_in i))) 0 out.old out.new result }
{
    let at = rows::put_ipv6_address(out, i);
    rows::put_ipv6_gateway(out, at, i)
}

// A `match`: each method is written by another function.
fn put_ipv6(out: &mut [u8], i: Numbers<16>) -> usize
    requires { length (group_text (word "IPv6") (ipv6_rows (numbers_in i))) ≤ length out.old }
    ensures { Wrote (group_text (word "IPv6") (ipv6_rows (numbers_in i))) 0 out.old out.new result }
{
    match i.method {
        Method::Auto => 0,
        Method::Off => put::put_text(out, 0, b"[IPv6]\nEnabled=false\n"),
        Method::Static => put_ipv6_static(out, i),
    }
}

// Writes the file of a record at the front of out, and returns its length.
pub fn put_file(out: &mut [u8], r: JoinRecord, servers: [[u8; 4]; 4]) -> usize
    requires within { CountsWithin r }
    requires room { length (file_text (joined r servers)) ≤ length out.old }
    ensures { Wrote (file_text (joined r servers)) 0 out.old out.new result }
{
    let numbers = parts::numbers(r);
    let ipv6 = parts::ipv6_numbers(r);
    let mut at = put_settings(out, r.hidden);
    at += put_security(
        &mut out[at..],
        r.credential,
        &r.passphrase[..r.passphrase_len],
        &r.key,
    );
    at += put_ipv4(
        &mut out[at..],
        numbers,
        servers,
        r.server_count,
        &r.domain[..r.domain_len],
    );
    at += put_ipv6(&mut out[at..], ipv6);
    at
}
