// Where a key stands in its group's row of the table of places: the one place that has the numbers.
ghost use Rattle.std.specs.Prelude.{◌≡◌};
ghost use Rattle.places.specs.Keys.{key_place};

use crate::KeyName;

// The slot of a key in its group's row, counted from the row's header.
pub fn key_place(k: KeyName) -> usize
    ensures { result ≡ key_place k }
{
    match k {
        KeyName::AutoConnect => 1,
        KeyName::IwdHidden => 2,
        KeyName::AlwaysRandomizeAddress => 3,
        KeyName::AddressOverride => 4,
        KeyName::IwdPassphrase => 1,
        KeyName::PreSharedKey => 2,
        KeyName::Address => 1,
        KeyName::Gateway => 2,
        KeyName::Broadcast => 3,
        KeyName::Netmask => 4,
        KeyName::Dns => 5,
        KeyName::DomainName => 6,
        KeyName::SendHostname => 7,
        KeyName::Enabled => 1,
        KeyName::Ipv6Address => 2,
        KeyName::Ipv6Gateway => 3,
        KeyName::GlobalName => 1,
        KeyName::Description => 2,
        KeyName::Type => 1,
        KeyName::Ipv4 => 2,
        KeyName::Ipv6 => 3,
        KeyName::Privacy => 4,
        KeyName::Mac => 5,
        KeyName::Nameservers => 6,
        KeyName::SearchDomains => 7,
        KeyName::Timeservers => 8,
        KeyName::Domain => 9,
        KeyName::Name => 10,
        KeyName::Ssid => 11,
        KeyName::Passphrase => 12,
        KeyName::Security => 13,
        KeyName::Hidden => 14,
    }
}
