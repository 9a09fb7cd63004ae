// The keys of each group, looked up by name.
ghost use Rattle.std.specs.Prelude.{cond, ◌≡◌, drop};
ghost use Rattle.text.specs.Words.{same, place};
ghost use Rattle.tables.specs.KeyPlaces.{key_names, place_from, listed_key};

use crate::Listed;
use crate::key_kinds::kind_at;
use rules::Group;
use text::words::equal;

// n where key is the word, and else what was found among the words behind it.
fn place_or(key: &[u8], word: &[u8], n: usize, behind: usize) -> usize
    ensures { result ≡ cond (same key.now word.now) n behind }
{
    if equal(key, word) {
        return n;
    }
    behind
}

// The place of a key among the keys of its group, from 1, or 0: a function for each group, and in it a line for each key, from the
// last to the first. The words stand in the code and are asked one by one, so that a key is compared with constants, and not looked
// for in a table of words as before 2026-04 (docs/PERFORMANCE.md). `listed_place` is a `match`: a table of functions would need the groups'
// order, which their type does not promise.

fn settings_place(key: &[u8]) -> usize
    ensures { result ≡ place key.now (key_names Group.Settings) }
{
    let n = place_or(key, b"AddressOverride", 4, 0);
    let n = place_or(key, b"AlwaysRandomizeAddress", 3, n);
    let n = place_or(key, b"Hidden", 2, n);
    place_or(key, b"AutoConnect", 1, n)
}

fn security_place(key: &[u8]) -> usize
    ensures { result ≡ place key.now (key_names Group.Security) }
{
    let n = place_or(key, b"PreSharedKey", 2, 0);
    place_or(key, b"Passphrase", 1, n)
}

fn ipv4_place(key: &[u8]) -> usize
    ensures { result ≡ place key.now (key_names Group.Ipv4) }
{
    let n = place_or(key, b"SendHostname", 7, 0);
    let n = place_or(key, b"DomainName", 6, n);
    let n = place_or(key, b"DNS", 5, n);
    let n = place_or(key, b"Netmask", 4, n);
    let n = place_or(key, b"Broadcast", 3, n);
    let n = place_or(key, b"Gateway", 2, n);
    place_or(key, b"Address", 1, n)
}

fn ipv6_place(key: &[u8]) -> usize
    ensures { result ≡ place key.now (key_names Group.Ipv6) }
{
    let n = place_or(key, b"Gateway", 3, 0);
    let n = place_or(key, b"Address", 2, n);
    place_or(key, b"Enabled", 1, n)
}

fn global_place(key: &[u8]) -> usize
    ensures { result ≡ place key.now (key_names Group.Global) }
{
    let n = place_or(key, b"Description", 2, 0);
    place_or(key, b"Name", 1, n)
}

// The last seven keys of a service, counted on from 8.
fn service_back_place(key: &[u8]) -> usize
    ensures { result ≡ place_from 8 key.now (drop 7 (key_names Group.Service)) }
{
    let n = place_or(key, b"Hidden", 14, 0);
    let n = place_or(key, b"Security", 13, n);
    let n = place_or(key, b"Passphrase", 12, n);
    let n = place_or(key, b"SSID", 11, n);
    let n = place_or(key, b"Name", 10, n);
    let n = place_or(key, b"Domain", 9, n);
    place_or(key, b"Timeservers", 8, n)
}

// The first seven keys of a service, with what was found among those behind them.
fn service_front_place(key: &[u8], behind: usize) -> usize
    requires { behind ≡ place_from 8 key.now (drop 7 (key_names Group.Service)) }
    ensures { result ≡ place key.now (key_names Group.Service) }
{
    let n = place_or(key, b"SearchDomains", 7, behind);
    let n = place_or(key, b"Nameservers", 6, n);
    let n = place_or(key, b"MAC", 5, n);
    let n = place_or(key, b"IPv6.Privacy", 4, n);
    let n = place_or(key, b"IPv6", 3, n);
    let n = place_or(key, b"IPv4", 2, n);
    place_or(key, b"Type", 1, n)
}

fn service_place(key: &[u8]) -> usize
    ensures { result ≡ place key.now (key_names Group.Service) }
{
    let behind = service_back_place(key);
    service_front_place(key, behind)
}

// 0 is no place: `kind_at` has no kind there, as the definition `place` has no key, so that no second question is asked.
pub fn listed_place(g: Group, key: &[u8]) -> usize
    ensures { result ≡ place key.now (key_names g) }
{
    match g {
        Group::Settings => settings_place(key),
        Group::Security => security_place(key),
        Group::Ipv4 => ipv4_place(key),
        Group::Ipv6 => ipv6_place(key),
        Group::Global => global_place(key),
        Group::Service => service_place(key),
    }
}

// A key of a group: its place among the group's keys and its kind, if it is listed.
pub fn key_of(g: Group, key: &[u8]) -> Option<Listed>
    ensures { result ≡ listed_key g key.now }
{
    let place = listed_place(g, key);
    let kind = kind_at(g, place)?;
    Some(Listed { place, kind })
}
