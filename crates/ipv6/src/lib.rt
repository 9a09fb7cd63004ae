// IPv6 addresses in text: read as RFC 4291 says in section 2.2, and written as RFC 5952 says in section 4.
//
// `reading` reads a group, a side of "::" and an address, and `writing` writes them. The definitions are in specs/Ipv6;
// specs/Ipv6Rules and specs/Recommended say the rules of the two papers once more, of the texts themselves.
#![tactic(auto)]

pub mod reading;
pub mod writing;

// The end of a piece, and the group that the piece writes, if it is one.
#[derive(Clone, Copy)]
struct Group {
    end: usize,
    value: Option<u16>,
}

// A run of zero groups: the place of the first, and how many they are. Where there is none it has none, and stands at 8: a run of one is not
// shortened either, so that an Option would be one question more.
#[derive(Clone, Copy)]
struct Run {
    start: usize,
    len: usize,
}
