// The rules over an iwd file as a whole, asked at its end.
#![tactic(auto, unfolding(crate::specs::FileRule::slots_file))]

ghost use Rattle.std.specs.Prelude.{◌≡◌, not, ◌&&◌};
ghost use Rattle.rules.specs.Groups.{is_open};
ghost use Rattle.rules.specs.Faults.{fault_at};
ghost use Rattle.verdicts.specs.FileRule.{slots_secret, slots_secretless, slots_addressless, slots_unpaired, slots_file_lacks, slots_file_clashes, slots_file};
ghost use Rattle.places.specs.KeySlots.{RowInTable, is_taken};

use names::Suffix;
use places::rows::{code_of, taken};
use places::value_codes::flag_code;
use places::{IPV4_ROW, IPV6_ROW, KeyName, Places, SECURITY_ROW};
use rules::{Fault, Refusal};

// Whether the file's name says that its network is open.
fn is_open(s: Suffix) -> bool
    ensures { result ≡ is_open s }
{
    matches!(s, Suffix::Open)
}

// Whether a passphrase or a key is given.
fn has_secret(x: &Places) -> bool
    ensures { result ≡ slots_secret x.now }
{
    taken(x, SECURITY_ROW, KeyName::IwdPassphrase) || taken(x, SECURITY_ROW, KeyName::PreSharedKey)
}

// Whether a passphrase or a key is needed and neither is given.
fn lacks_secret(suffix: Suffix, x: &Places) -> bool
    ensures { result ≡ slots_secretless suffix x.now }
{
    !is_open(suffix) && !has_secret(x)
}

// Whether a row has one key without the other.
fn has_without(x: &Places, row: usize, key: KeyName, other: KeyName) -> bool
    requires { RowInTable x.now row }
    ensures { result ≡ (is_taken x.now row key && not (is_taken x.now row other)) }
{
    taken(x, row, key) && !taken(x, row, other)
}

// Whether a gateway, a netmask or a broadcast address is given without an address.
fn lacks_address(x: &Places) -> bool
    ensures { result ≡ slots_addressless x.now }
{
    let needs_it = taken(x, IPV4_ROW, KeyName::Gateway)
        || taken(x, IPV4_ROW, KeyName::Netmask)
        || taken(x, IPV4_ROW, KeyName::Broadcast);
    needs_it && !taken(x, IPV4_ROW, KeyName::Address)
}

// Whether IPv6 has a gateway without an address, or the reverse.
fn is_unpaired(x: &Places) -> bool
    ensures { result ≡ slots_unpaired x.now }
{
    has_without(x, IPV6_ROW, KeyName::Ipv6Gateway, KeyName::Ipv6Address)
        || has_without(x, IPV6_ROW, KeyName::Ipv6Address, KeyName::Ipv6Gateway)
}

// Whether something needed is missing in the file.
fn file_lacks(suffix: Suffix, x: &Places) -> bool
    ensures { result ≡ slots_file_lacks suffix x.now }
{
    lacks_secret(suffix, x)
        || has_without(x, IPV4_ROW, KeyName::Address, KeyName::Gateway)
        || lacks_address(x)
        || is_unpaired(x)
}

// Whether the settings of the file contradict its name or each other.
fn file_clashes(suffix: Suffix, x: &Places) -> bool
    ensures { result ≡ slots_file_clashes suffix x.now }
{
    let disabled = code_of(x, IPV6_ROW, KeyName::Enabled) == flag_code(false);
    (is_open(suffix) && has_secret(x)) || (disabled && taken(x, IPV6_ROW, KeyName::Ipv6Address))
}

// The fault of the file as a whole, if there is one: what is missing before what contradicts.
pub fn file_fault(suffix: Suffix, x: &Places) -> Option<Fault>
    ensures { result ≡ fault_at 0 (slots_file suffix x.now) }
{
    if file_lacks(suffix, x) {
        return Some(Fault {
            refusal: Refusal::Missing,
            line: 0,
        });
    }
    if file_clashes(suffix, x) {
        return Some(Fault {
            refusal: Refusal::Contradiction,
            line: 0,
        });
    }
    None
}
