// The groups, looked up by a header's name, which is asked one by one, as keys are (`keys`). Each dialect has its own groups: a `match`.
#![tactic(auto, unfolding(rules::specs::Tables::group_of))]

ghost use Rattle.std.specs.Prelude.{◌≡◌};
ghost use Rattle.rules.specs.Tables.{is_service, group_of};

use rules::Group;
use text::words::equal;
use text::{Class, Dialect};

// Whether a group's name is a service's.
fn is_service(name: &[u8]) -> bool
    ensures { result ≡ is_service name.now }
{
    if name.len() < 9 {
        return false;
    }
    if 40 < name.len() {
        return false;
    }
    if equal(&name[0..8], b"service_") {
        return text::scan::all_of(&name[8..], Class::Identifier);
    }
    false
}

fn iwd_group(name: &[u8]) -> Option<Group>
    ensures { result ≡ group_of Dialect.Iwd name.now }
{
    if equal(name, b"Settings") {
        return Some(Group::Settings);
    }
    if equal(name, b"Security") {
        return Some(Group::Security);
    }
    if equal(name, b"IPv4") {
        return Some(Group::Ipv4);
    }
    if equal(name, b"IPv6") {
        return Some(Group::Ipv6);
    }
    None
}

fn connman_group(name: &[u8]) -> Option<Group>
    ensures { result ≡ group_of Dialect.ConnMan name.now }
{
    if equal(name, b"global") {
        return Some(Group::Global);
    }
    if is_service(name) {
        return Some(Group::Service);
    }
    None
}

// The group that a header's name names, if it is one of the dialect's.
pub fn group_of(d: Dialect, name: &[u8]) -> Option<Group>
    ensures { result ≡ group_of d name.now }
{
    match d {
        Dialect::Iwd => iwd_group(name),
        Dialect::ConnMan => connman_group(name),
    }
}
