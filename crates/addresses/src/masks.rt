// Masks, and prefix lengths.
ghost use Rattle.std.specs.Prelude.{◌≡◌, ◌≤◌};
ghost use Rattle.addresses.specs.Addresses.{prefix_length_of, mask_length, netmask, mask_bytes};

use crate::numbers;

// A length in digits, 1 to most.
pub fn read_prefix_length(s: &[u8], most: u8) -> Option<u8>
    ensures { result ≡ prefix_length_of most s.now }
{
    let k = numbers::read_number(s, most)?;
    if k == 0 { None } else { Some(k) }
}

// The length of a mask, whose ones all come before its zeros; none where it is no mask, or has no ones.
pub fn mask_length(m: u32) -> Option<u8>
    ensures { result ≡ mask_length m }
{
    let n = u32::leading_zeros(!m);
    if n == 0 {
        return None;
    }
    if n == u32::count_ones(m) {
        Some(n as u8)
    } else {
        None
    }
}

// The length of a mask that is written as an address.
pub fn read_netmask(s: &[u8]) -> Option<u8>
    ensures { result ≡ netmask s.now }
{
    let bytes = numbers::read_address(s)?;
    mask_length(u32::from_be_bytes(bytes))
}

// The mask of length k.
pub fn mask_bytes(k: u8) -> [u8; 4]
    requires { k ≤ 32 }
    ensures { result ≡ mask_bytes k }
{
    let whole: u64 = 4294967296;
    let m = whole - (whole >> k);
    (m as u32).to_be_bytes()
}
