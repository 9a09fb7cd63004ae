// The join record: its struct, and whether a record that a caller brings is well formed.
//
// This is document 01's section "The join record". The abstract record and its layout are in specs/Record, what is well
// formed in specs/Formed, and that the two agree in specs/Laws.
#![tactic(auto)]

ghost use Rattle.std.specs.Prelude.{◌≡◌, ◌≤◌, ◌&&◌, length, take};
ghost use Rattle.utf8.specs.Utf8.{record_text};
ghost use Rattle.records.specs.Formed.{zeros, held, credential_formed, unaddressed, addressed, addressing_formed, servers_formed, formed};

use addressing::Method;

#[derive(Clone, Copy, PartialEq, Eq)]
pub enum Credential {
    None,
    Passphrase,
    Key,
}

// The name, the passphrase and the domain are the first `.._len` bytes of their arrays. What is not in use is zero. The
// name servers, the first `server_count` of four, stand beside the record. Its flags, counts and lengths stay numbers beside their arrays: 19
// is asked of any record that a caller brings, and `formed` (`is_well_formed`) speaks of those that no narrower type could hold.
#[derive(Clone, Copy, PartialEq, Eq)]
pub struct JoinRecord {
    pub name_len: usize,
    pub name: [u8; 32],
    pub credential: Credential,
    pub passphrase_len: usize,
    pub passphrase: [u8; 63],
    pub key: [u8; 32],
    pub hidden: bool,
    pub ipv4: Method,
    pub address: [u8; 4],
    pub length: u8,
    pub has_gateway: bool,
    pub gateway: [u8; 4],
    pub server_count: usize,
    pub domain_len: usize,
    pub domain: [u8; 253],
    pub ipv6: Method,
    pub ipv6_address: [u8; 16],
    pub ipv6_length: u8,
    pub has_ipv6_gateway: bool,
    pub ipv6_gateway: [u8; 16],
}

// Whether s holds only zeros; long runs of them are passed in blocks.
fn is_zero(s: &[u8]) -> bool
    ensures { result ≡ zeros s.now }
{
    text::scan::zeros_end(s, 0) == s.len()
}

// Whether the first n places of s are in use, low to high of them, and the others are zero. The count n is the caller's, beside its array,
// here and below: what is refused is also one that the array has no room for (`held`).
fn is_held(s: &[u8], n: usize, low: usize, high: usize) -> bool
    requires { high ≤ length s.now }
    ensures { result ≡ held low high n s.now }
{
    low <= n && n <= high && is_zero(&s[n..])
}

// Whether the first n bytes of s are a text that a record may have, of at least low bytes.
fn is_text<const N: usize>(s: &[u8; N], n: usize, low: usize) -> bool
    ensures { result ≡ (held low N n s.now && record_text (take n s.now)) }
{
    is_held(s, n, low, N) && utf8::is_record_text(&s[..n])
}

// Whether the places of a credential, a passphrase p of n bytes and a key k, hold what it uses and zeros.
fn is_credential(c: Credential, n: usize, p: &[u8; 63], k: &[u8; 32]) -> bool
    ensures { result ≡ credential_formed c n p.now k.now }
{
    match c {
        Credential::None => is_held(p, n, 0, 0) && is_zero(k),
        Credential::Passphrase => is_text(p, n, 8) && is_zero(k),
        Credential::Key => is_held(p, n, 0, 0),
    }
}

// Whether the places of an address a, its length n and a gateway g, which h says is given, are not in use. The flag stands beside the gateway
// here and below: what is refused is also a gateway that is not zero and not given (`unaddressed`, `addressed`).
fn is_unaddressed(a: &[u8], n: u8, h: bool, g: &[u8]) -> bool
    ensures { result ≡ unaddressed a.now n h g.now }
{
    is_zero(a) && n == 0 && !h && is_zero(g)
}

// Whether a length n, at most most, and a gateway g, which h says is given, are good beside an address.
fn is_addressed(most: u8, n: u8, h: bool, g: &[u8]) -> bool
    ensures { result ≡ addressed most n h g.now }
{
    1 <= n && n <= most && (h || is_zero(g))
}

// Whether the places of a method hold what it uses and zeros. A `match`, here and at the credential: each case asks other places.
fn is_addressing(most: u8, m: Method, a: &[u8], n: u8, h: bool, g: &[u8]) -> bool
    ensures { result ≡ addressing_formed most m a.now n h g.now }
{
    match m {
        Method::Auto => is_unaddressed(a, n, h, g),
        Method::Off => is_unaddressed(a, n, h, g),
        Method::Static => is_addressed(most, n, h, g),
    }
}

// Whether there are at most four servers, and those behind the first n are zero.
fn are_servers(n: usize, servers: &[[u8; 4]; 4]) -> bool
    ensures { result ≡ servers_formed n servers.now }
{
    if 4 < n {
        return false;
    }
    for server in &servers[n..] {
        if !is_zero(server) {
            return false;
        }
    }
    true
}

// Whether a record and its servers are well formed; a record that is not is refused with 19.
#[tactic(auto, unfolding(crate::specs::Formed::formed))]
pub fn is_well_formed(r: JoinRecord, servers: [[u8; 4]; 4]) -> bool
    ensures { result ≡ formed r servers }
{
    is_held(&r.name, r.name_len, 1, 32)
        && is_credential(r.credential, r.passphrase_len, &r.passphrase, &r.key)
        && is_addressing(32, r.ipv4, &r.address, r.length, r.has_gateway, &r.gateway)
        && is_addressing(
            128,
            r.ipv6,
            &r.ipv6_address,
            r.ipv6_length,
            r.has_ipv6_gateway,
            &r.ipv6_gateway,
        )
        && is_text(&r.domain, r.domain_len, 0)
        && are_servers(r.server_count, &servers)
}
