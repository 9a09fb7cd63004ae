// How a network gets its addresses, of IPv4 and of IPv6 alike: by itself, not at all, or fixed.
//
// This is document 01's "IPv4 as dhcp, off, or static with address, length .. and perhaps a gateway", and by request 2026-03 IPv6's. Both are
// one definition, specs/Addressing, over the bytes of an address and the greatest length; ConnMan's text for them is in specs/Settings, and
// their layout in the type below in specs/Numbers.
#![tactic(auto)]

ghost use Rattle.std.specs.Prelude.{◌≡◌, false, replicate};
ghost use Rattle.addressing.specs.Addressing.{static};
ghost use Rattle.addressing.specs.Numbers.{numbers_laid};

// Auto is IPv4's dhcp.
#[derive(Clone, Copy, PartialEq, Eq)]
pub enum Method {
    Auto,
    Off,
    Static,
}

// How a network gets its addresses, of N bytes. What the method does not use is zero. Flat, with a flag beside the gateway, as the record
// (records `laid`) and C's struct have them, into which each field is copied: an option would be laid out twice.
#[derive(Clone, Copy)]
pub struct Numbers<const N: usize> {
    pub method: Method,
    pub address: [u8; N],
    pub length: u8,
    pub has_gateway: bool,
    pub gateway: [u8; N],
}

impl<const N: usize> Numbers<N> {
    // A method without an address.
    pub fn unnumbered(method: Method) -> Self
        ensures { result ≡ record { method = method; address = replicate N 0; length = 0; has_gateway = false; gateway = replicate N 0 } }
    {
        Numbers {
            method,
            address: [0; N],
            length: 0,
            has_gateway: false,
            gateway: [0; N],
        }
    }

    // A fixed address with its length, and perhaps a gateway.
    pub fn numbered(address: [u8; N], length: u8, gateway: Option<[u8; N]>) -> Self
        ensures { result ≡ numbers_laid N (static address.entry length gateway.entry) }
    {
        let has_gateway = gateway.is_some();
        let gateway = gateway.unwrap_or([0; N]);
        Numbers {
            method: Method::Static,
            address,
            length,
            has_gateway,
            gateway,
        }
    }
}
