// The kind of each key, by its group and its place in it. By `match`: the place of a key that is not listed has its arm, where an array
// of kinds would be counted from 0 and asked for its length, and one of functions would need the groups' order.
#![tactic(auto, unfolding(rules::specs::Tables::keys_of), using(crate::proofs::KindPlaces::at_place_none))]

ghost use Rattle.std.specs.Prelude.{◌≡◌};
ghost use Rattle.rules.specs.Tables.{keys_of};
ghost use Rattle.tables.specs.KeyPlaces.{at_place};

use addresses::Separator;
use kinds::Kind;
use named_words::WordList;
use rules::Group;

fn settings_kind(n: usize) -> Option<Kind>
    ensures { result ≡ at_place n (keys_of Group.Settings) }
{
    match n {
        1 => Some(Kind::Flag),
        2 => Some(Kind::Flag),
        3 => Some(Kind::Flag),
        4 => Some(Kind::Mac),
        _ => None,
    }
}

fn security_kind(n: usize) -> Option<Kind>
    ensures { result ≡ at_place n (keys_of Group.Security) }
{
    match n {
        1 => Some(Kind::Passphrase),
        2 => Some(Kind::PreSharedKey),
        _ => None,
    }
}

fn ipv4_kind(n: usize) -> Option<Kind>
    ensures { result ≡ at_place n (keys_of Group.Ipv4) }
{
    match n {
        1 => Some(Kind::Address),
        2 => Some(Kind::Address),
        3 => Some(Kind::Address),
        4 => Some(Kind::Netmask),
        5 => Some(Kind::Addresses(Separator::Spaces)),
        6 => Some(Kind::Text(1, 253)),
        7 => Some(Kind::Flag),
        _ => None,
    }
}

fn ipv6_kind(n: usize) -> Option<Kind>
    ensures { result ≡ at_place n (keys_of Group.Ipv6) }
{
    match n {
        1 => Some(Kind::Flag),
        2 => Some(Kind::Ipv6WithLength),
        3 => Some(Kind::Ipv6Address),
        _ => None,
    }
}

fn global_kind(n: usize) -> Option<Kind>
    ensures { result ≡ at_place n (keys_of Group.Global) }
{
    match n {
        1 => Some(Kind::Text(1, 253)),
        2 => Some(Kind::Text(1, 253)),
        _ => None,
    }
}

fn service_kind(n: usize) -> Option<Kind>
    ensures { result ≡ at_place n (keys_of Group.Service) }
{
    match n {
        1 => Some(Kind::Named(WordList::ServiceType)),
        2 => Some(Kind::Ipv4),
        3 => Some(Kind::Ipv6),
        4 => Some(Kind::Named(WordList::Privacy)),
        5 => Some(Kind::Mac),
        6 => Some(Kind::Addresses(Separator::Comma)),
        7 => Some(Kind::Entries),
        8 => Some(Kind::Entries),
        9 => Some(Kind::Text(1, 253)),
        10 => Some(Kind::Text(1, 32)),
        11 => Some(Kind::Ssid),
        12 => Some(Kind::Passphrase),
        13 => Some(Kind::Named(WordList::Security)),
        14 => Some(Kind::Flag),
        _ => None,
    }
}

// The kind of the key at place n of a group, if there is one.
pub fn kind_at(g: Group, n: usize) -> Option<Kind>
    ensures { result ≡ at_place n (keys_of g) }
{
    match g {
        Group::Settings => settings_kind(n),
        Group::Security => security_kind(n),
        Group::Ipv4 => ipv4_kind(n),
        Group::Ipv6 => ipv6_kind(n),
        Group::Global => global_kind(n),
        Group::Service => service_kind(n),
    }
}
