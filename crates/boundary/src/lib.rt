// The C boundary's structs, and the library's answers and settings in them.
//
// An enum is a code, name servers are 16 bytes, and a part of the file is a start and a length; `include/qewaris.h` has the
// same structs. Bytes that C would leave as padding are members, `reserved`, and always zero, so that an answer can be compared
// and kept as bytes. `answer_layout` lays out what the reading, the lookups, the joins, the writer and the move answer,
// `settings_layout` the settings; the codes are crate `codes`'s, and the record with its struct is `record_layout`'s. The
// definitions are in specs/Answers and specs/Settings.
#![tactic(auto)]

pub mod answer_layout;
pub mod settings_layout;

use record_layout::CRecord;

// What a reading answers.
#[repr(C)]
#[derive(Clone, Copy)]
pub struct CReading {
    pub line: usize,
    pub settings: usize,
    pub services: usize,
    pub number: u8,
    pub reserved: [u8; 7],
}

// What a string lookup answers: where the value stands.
#[repr(C)]
#[derive(Clone, Copy)]
pub struct CText {
    pub line: usize,
    pub start: usize,
    pub length: usize,
    pub number: u8,
    pub reserved: [u8; 7],
}

// What the writer and the move answer: how many bytes are new in each buffer.
#[repr(C)]
#[derive(Clone, Copy)]
pub struct CWritten {
    pub line: usize,
    pub name_len: usize,
    pub file_len: usize,
    pub number: u8,
    pub reserved: [u8; 7],
}

// The answer to a question for a join record.
#[repr(C)]
#[derive(Clone, Copy)]
pub struct CRecordAnswer {
    pub line: usize,
    pub number: u8,
    pub record: CRecord,
    pub reserved: [u8; 7],
}

// iwd's group Settings.
#[repr(C)]
#[derive(Clone, Copy)]
pub struct CGeneral {
    pub auto_connect: u8,
    pub hidden: u8,
    pub always_randomize_address: u8,
    pub has_address_override: u8,
    pub address_override: [u8; 6],
}

// iwd's group Security.
#[repr(C)]
#[derive(Clone, Copy)]
pub struct CSecurity {
    pub passphrase_line: usize,
    pub has_pre_shared_key: u8,
    pub pre_shared_key: [u8; 32],
    pub reserved: [u8; 7],
}

// iwd's group IPv4.
#[repr(C)]
#[derive(Clone, Copy)]
pub struct CIpv4 {
    pub domain_name_line: usize,
    pub dns_count: usize,
    pub dns: [u8; 16],
    pub has_address: u8,
    pub address: [u8; 4],
    pub has_gateway: u8,
    pub gateway: [u8; 4],
    pub has_broadcast: u8,
    pub broadcast: [u8; 4],
    pub netmask_length: u8,
    pub send_hostname: u8,
    pub reserved: [u8; 7],
}

// iwd's group IPv6.
#[repr(C)]
#[derive(Clone, Copy)]
pub struct CIpv6 {
    pub enabled: u8,
    pub has_address: u8,
    pub address: [u8; 16],
    pub prefix_length: u8,
    pub has_gateway: u8,
    pub gateway: [u8; 16],
}

// The answer to a question for the settings of an iwd file, and these.
#[repr(C)]
#[derive(Clone, Copy)]
pub struct CIwdSettings {
    pub line: usize,
    pub number: u8,
    pub general: CGeneral,
    pub ipv6: CIpv6,
    pub reserved: [u8; 1],
    pub security: CSecurity,
    pub ipv4: CIpv4,
}

// A list of entries, each by its place in the file.
#[repr(C)]
#[derive(Clone, Copy)]
pub struct CEntries {
    pub count: usize,
    pub start: [usize; 4],
    pub length: [usize; 4],
}

// Which network a ConnMan service joins, and how.
#[repr(C)]
#[derive(Clone, Copy)]
pub struct CNetwork {
    pub name_line: usize,
    pub passphrase_line: usize,
    pub ssid_len: usize,
    pub ssid: [u8; 32],
    pub service_type: u8,
    pub security: u8,
    pub hidden: u8,
    pub reserved: [u8; 5],
}

// The addresses of a ConnMan service.
#[repr(C)]
#[derive(Clone, Copy)]
pub struct CAddresses {
    pub domain_line: usize,
    pub search_domains: CEntries,
    pub timeservers: CEntries,
    pub nameserver_count: usize,
    pub nameservers: [u8; 16],
    pub ipv4: u8,
    pub address: [u8; 4],
    pub prefix_length: u8,
    pub has_gateway: u8,
    pub gateway: [u8; 4],
    pub ipv6: u8,
    pub ipv6_address: [u8; 16],
    pub ipv6_prefix_length: u8,
    pub has_ipv6_gateway: u8,
    pub ipv6_gateway: [u8; 16],
    pub privacy: u8,
    pub has_mac: u8,
    pub mac: [u8; 6],
    pub reserved: [u8; 2],
}

// The answer to a question for the settings of a ConnMan service, and these.
#[repr(C)]
#[derive(Clone, Copy)]
pub struct CServiceSettings {
    pub line: usize,
    pub number: u8,
    pub reserved: [u8; 7],
    pub network: CNetwork,
    pub addresses: CAddresses,
}
