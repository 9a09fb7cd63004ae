// Values in hex: a MAC, a key, a network name.
//
// This is document 01's MAC, PreSharedKey and SSID under "Settings and their kinds". Each reader gives the bytes, or none
// where the value breaks its kind. The definitions are in specs/HexValues.
#![tactic(auto)]

ghost use Rattle.std.specs.Prelude.{◌≡◌};
ghost use Rattle.text.specs.Options.{is_some, mapped};
ghost use Rattle.put.specs.Texts.{bounded};
ghost use Rattle.hex_values.specs.HexValues.{mac, pre_shared_key_of, ssid};

use put::Bounded;

// Six pairs of hex digits with colons, 17 bytes in all.
pub fn read_mac(s: &[u8]) -> Option<[u8; 6]>
    ensures { result ≡ mac s.now }
{
    if s.len() != 17 {
        return None;
    }
    let mut bytes = [0u8; 6];
    bytes[0] = hex_digits::pair_value(s[0], s[1])?;
    for n in 1..6 {
        if s[3 * n - 1] != b':' {
            return None;
        }
        bytes[n] = hex_digits::pair_value(s[3 * n], s[3 * n + 1])?;
    }
    Some(bytes)
}

// Whether s is 64 hex digits.
#[tactic(auto, using(crate::proofs::Pairs::hex_sizes))]
pub fn is_pre_shared_key(s: &[u8]) -> bool
    ensures { result ≡ is_some (pre_shared_key_of s.now) }
{
    if s.len() != 64 {
        return false;
    }
    hex_digits::is_hex(s)
}

// 64 hex digits as a 32-byte key.
pub fn read_pre_shared_key(s: &[u8]) -> Option<[u8; 32]>
    ensures { result ≡ pre_shared_key_of s.now }
{
    if is_pre_shared_key(s) {
        return Some(hex_digits::unhexed(s));
    }
    None
}

// Whether s is 2 to 64 hex digits, an even count.
#[tactic(auto, using(crate::proofs::Pairs::hex_sizes))]
pub fn is_ssid(s: &[u8]) -> bool
    ensures { result ≡ is_some (ssid s.now) }
{
    if s.len() < 2 || 64 < s.len() {
        return false;
    }
    hex_digits::is_hex(s)
}

// 2 to 64 hex digits as a network name of 1 to 32 bytes.
pub fn read_ssid(s: &[u8]) -> Option<Bounded<32>>
    ensures { result ≡ mapped (bounded 32) (ssid s.now) }
{
    if is_ssid(s) {
        return Some(Bounded {
            len: s.len() / 2,
            bytes: hex_digits::unhexed(s),
        });
    }
    None
}
