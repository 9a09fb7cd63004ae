// IPv4 addresses, masks and lists of addresses: read from text, and written.
//
// This is what document 01 says of addresses, masks, DNS and Nameservers. `numbers` reads a number and an address,
// `masks` a mask or its length, `lists` a list of addresses, and `writing` writes them. The definitions are in
// specs/Addresses.
#![tactic(auto)]

pub mod lists;
pub mod masks;
pub mod numbers;
pub mod writing;

// What stands between the addresses of a list: one or more spaces, or one comma.
#[derive(Clone, Copy)]
pub enum Separator {
    Spaces,
    Comma,
}

// A number of an address, and the end of its digits.
#[derive(Clone, Copy)]
struct Octet {
    end: usize,
    value: u8,
}

// An address, and the end of its last number.
#[derive(Clone, Copy)]
pub struct FoundAddress {
    pub end: usize,
    pub bytes: [u8; 4],
}
