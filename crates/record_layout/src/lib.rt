// The join record in the C boundary's struct: handed out, and brought in.
//
// `include/qewaris.h` has the same struct. A record is bytes only, and its name servers are 16 of them. The definitions are in
// specs/Records; that what is handed out comes back, and what is brought in goes out again, in specs/Laws.
#![tactic(auto)]

ghost use Rattle.std.specs.Prelude.{◌≡◌, cond, Option, None, Some};
ghost use Rattle.record_layout.specs.Records.{sixteen, fours, FitsBytes, record_at, known, record_in};

use records::JoinRecord;

// A join record with its name servers: bytes only, so that it has no padding.
#[repr(C)]
#[derive(Clone, Copy)]
pub struct CRecord {
    pub name_len: u8,
    pub name: [u8; 32],
    pub credential: u8,
    pub passphrase_len: u8,
    pub passphrase: [u8; 63],
    pub key: [u8; 32],
    pub hidden: u8,
    pub ipv4: u8,
    pub address: [u8; 4],
    pub prefix_length: u8,
    pub has_gateway: u8,
    pub gateway: [u8; 4],
    pub server_count: u8,
    pub servers: [u8; 16],
    pub domain_len: u8,
    pub domain: [u8; 253],
    pub ipv6: u8,
    pub ipv6_address: [u8; 16],
    pub ipv6_prefix_length: u8,
    pub has_ipv6_gateway: u8,
    pub ipv6_gateway: [u8; 16],
}

// Four name servers as 16 bytes.
pub fn sixteen(s: [[u8; 4]; 4]) -> [u8; 16]
    ensures { result ≡ sixteen s }
{
    let a = s[0];
    let b = s[1];
    let c = s[2];
    let d = s[3];
    [
        a[0], a[1], a[2], a[3], b[0], b[1], b[2], b[3], c[0], c[1], c[2], c[3], d[0], d[1], d[2],
        d[3],
    ]
}

// 16 bytes as four name servers.
pub fn fours(b: [u8; 16]) -> [[u8; 4]; 4]
    ensures { result ≡ fours b }
{
    [
        [b[0], b[1], b[2], b[3]],
        [b[4], b[5], b[6], b[7]],
        [b[8], b[9], b[10], b[11]],
        [b[12], b[13], b[14], b[15]],
    ]
}

// A record and its name servers, to be handed out.
pub fn record_at(r: JoinRecord, servers: [[u8; 4]; 4]) -> CRecord
    requires { FitsBytes r }
    ensures { result ≡ record_at r servers }
{
    let JoinRecord {
        name,
        passphrase,
        key,
        address,
        gateway,
        domain,
        ipv6_address,
        ipv6_gateway,
        ..
    } = r;
    let servers = sixteen(servers);
    CRecord {
        name_len: r.name_len as u8,
        name,
        credential: codes::credential_code(r.credential),
        passphrase_len: r.passphrase_len as u8,
        passphrase,
        key,
        hidden: codes::bit_of(r.hidden),
        ipv4: codes::method_code(r.ipv4),
        address,
        prefix_length: r.length,
        has_gateway: codes::bit_of(r.has_gateway),
        gateway,
        server_count: r.server_count as u8,
        servers,
        domain_len: r.domain_len as u8,
        domain,
        ipv6: codes::method_code(r.ipv6),
        ipv6_address,
        ipv6_prefix_length: r.ipv6_length,
        has_ipv6_gateway: codes::bit_of(r.has_ipv6_gateway),
        ipv6_gateway,
    }
}

// Whether every code of a record that is brought in is that of a case.
#[tactic(auto, using(std::proofs::lemmas::Bool::Decides::nat_tests))]
pub fn is_known(c: CRecord) -> bool
    ensures { result ≡ known c }
{
    c.credential <= 2
        && c.hidden <= 1
        && c.ipv4 <= 2
        && c.has_gateway <= 1
        && c.ipv6 <= 2
        && c.has_ipv6_gateway <= 1
}

// The record that is brought in, its codes being known.
pub fn record_in(c: CRecord) -> JoinRecord
    ensures { result ≡ record_in c }
{
    let CRecord {
        name,
        passphrase,
        key,
        address,
        gateway,
        domain,
        ipv6_address,
        ipv6_gateway,
        ..
    } = c;
    JoinRecord {
        name_len: usize::from(c.name_len),
        name,
        credential: codes::credential_in(c.credential),
        passphrase_len: usize::from(c.passphrase_len),
        passphrase,
        key,
        hidden: c.hidden == 1,
        ipv4: codes::method_in(c.ipv4),
        address,
        length: c.prefix_length,
        has_gateway: c.has_gateway == 1,
        gateway,
        server_count: usize::from(c.server_count),
        domain_len: usize::from(c.domain_len),
        domain,
        ipv6: codes::method_in(c.ipv6),
        ipv6_address,
        ipv6_length: c.ipv6_prefix_length,
        has_ipv6_gateway: c.has_ipv6_gateway == 1,
        ipv6_gateway,
    }
}

// The record that is brought in, or none where a code is not that of a case.
pub fn known_record(c: CRecord) -> Option<JoinRecord>
    ensures { result ≡ cond (known c) (Some (record_in c)) None }
{
    if is_known(c) {
        return Some(record_in(c));
    }
    None
}
