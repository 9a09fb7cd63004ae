// The table of places, and what else is known of the lines before a line.
//
// The pass over a file leaves behind a few scalars (`State`) and a lent table (`store`): a row for each group and each service
// (`rows`), by the keys' places in it (`keys`), with what each value is (`value_codes`), and the places of the services' names
// (`services`).
#![tactic(auto)]

pub mod keys;
pub mod rows;
pub mod services;
pub mod store;
pub mod value_codes;

use rules::Group;

// How many bytes a file may have; each number of the table of places is below it, or is it.
pub const FILE_LIMIT: usize = 16384;

// How many slots the table of places has, and how many of them a row.
pub const SLOTS: usize = 244;

pub const ROW: usize = 25;

// The table is the starts of all slots, and from here on their ends, their lines, and their codes.
pub const ENDS: usize = SLOTS;

pub const LINES: usize = 2 * SLOTS;

pub const CODES: usize = 3 * SLOTS;

pub const PLACES: usize = 4 * SLOTS;

pub type Places = [u16; PLACES];

// Where the rows of iwd's groups start.
pub const SETTINGS_ROW: usize = 0;

pub const SECURITY_ROW: usize = ROW;

pub const IPV4_ROW: usize = 2 * ROW;

pub const IPV6_ROW: usize = 3 * ROW;

// Where the places of the services' names start, behind nine rows.
pub const NAMES: usize = 9 * ROW;

// The keys that document 01 lists, by group.
#[derive(Clone, Copy)]
pub enum KeyName {
    AutoConnect,
    IwdHidden,
    AlwaysRandomizeAddress,
    AddressOverride,
    IwdPassphrase,
    PreSharedKey,
    Address,
    Gateway,
    Broadcast,
    Netmask,
    Dns,
    DomainName,
    SendHostname,
    Enabled,
    Ipv6Address,
    Ipv6Gateway,
    GlobalName,
    Description,
    Type,
    Ipv4,
    Ipv6,
    Privacy,
    Mac,
    Nameservers,
    SearchDomains,
    Timeservers,
    Domain,
    Name,
    Ssid,
    Passphrase,
    Security,
    Hidden,
}

// The group in force, and where its row starts.
#[derive(Clone, Copy)]
pub enum Current {
    Outside,
    In(Group, usize),
}

// What is known of the lines before, beside the table of places.
#[derive(Clone, Copy)]
pub struct State {
    pub current: Current,
    pub services: usize,
    pub settings: usize,
}
