// The parts of a join record, read by the rows of the table of places.
ghost use Rattle.std.specs.Prelude.{◌≡◌, Option, List, ℕ};
ghost use Rattle.addressing.specs.Numbers.{numbers_laid};
ghost use Rattle.places.specs.KeySlots.{RowInTable, ValueInFile};
ghost use Rattle.values.specs.Rows.{RowOf};
ghost use Rattle.joins.specs.Joins.{or_false, static_or_dhcp};
ghost use Rattle.joins.specs.Answers.{login_read, ipv6_read};
ghost use Rattle.joins.specs.Places.{iwd_login_at, service_login_at, service_name_at, iwd_numbers_at, domain_at, service_ipv4_at, service_ipv6_at, fixed_ipv6_at, iwd_ipv6_at, yes_at, foreign_at, hindrance_at};

use crate::Login;
use addressing::{Method, Numbers};
use ipv6_values::WithLength;
use named_words::Word;
use places::rows::{is_word, line_of, value_of};
use places::{KeyName, Places};
use put::Bounded;
use records::Credential;
use rules::Group;
use text::Dialect;

// The credential: a passphrase wins over a key.
fn login_of(phrase: Option<Bounded<63>>, key: Option<[u8; 32]>) -> Login
    ensures { result ≡ login_read phrase key }
{
    match (phrase, key) {
        (Some(passphrase), _) => Login {
            credential: Credential::Passphrase,
            passphrase,
            key: [0; 32],
        },
        (None, Some(key)) => Login {
            credential: Credential::Key,
            passphrase: Bounded::none(),
            key,
        },
        (None, None) => Login {
            credential: Credential::None,
            passphrase: Bounded::none(),
            key: [0; 32],
        },
    }
}

// The credential of an iwd file, by the row of its Security.
pub fn iwd_login(file: &[u8], x: &Places, row: usize) -> Login
    requires { RowOf Dialect.Iwd file.now x.now row Group.Security }
    ensures { result ≡ iwd_login_at file.now x.now row }
{
    let phrase = escapes::read_string(8, value_of(file, x, row, KeyName::IwdPassphrase));
    let key = values::key_at(file, x, row, KeyName::PreSharedKey);
    login_of(phrase, key)
}

// The credential of a service, by its row.
pub fn service_login(file: &[u8], x: &Places, row: usize) -> Login
    requires { RowOf Dialect.ConnMan file.now x.now row Group.Service }
    ensures { result ≡ service_login_at file.now x.now row }
{
    let phrase = escapes::read_string(8, value_of(file, x, row, KeyName::Passphrase));
    login_of(phrase, None)
}

// The domain that a key of a row gives, empty where it gives none.
pub fn domain_at(file: &[u8], x: &Places, row: usize, k: KeyName) -> Bounded<253>
    requires { ValueInFile file.now x.now row k }
    ensures { result ≡ domain_at file.now x.now row k }
{
    escapes::read_string(1, value_of(file, x, row, k)).unwrap_or(Bounded::none())
}

// Whether a key of a row says that the network is hidden, which it is not where nothing is said.
pub fn hidden_at(x: &Places, row: usize, k: KeyName) -> bool
    requires { RowInTable x.now row }
    ensures { result ≡ or_false (yes_at x.now row k) }
{
    values::choice_at(x, row, k).unwrap_or(false)
}

// The numbers of an iwd file: an address, a mask's length, 24 where it is absent, and a gateway.
fn numbers_of(address: Option<[u8; 4]>, mask: Option<u8>, gateway: Option<[u8; 4]>) -> Numbers<4>
    ensures { result ≡ numbers_laid 4 (static_or_dhcp address mask gateway) }
{
    match address {
        Some(a) => Numbers::numbered(a, mask.unwrap_or(24), gateway),
        None => Numbers::unnumbered(Method::Auto),
    }
}

// The numbers of an iwd file, by the row of its IPv4.
pub fn iwd_numbers(file: &[u8], x: &Places, row: usize) -> Numbers<4>
    requires { RowOf Dialect.Iwd file.now x.now row Group.Ipv4 }
    ensures { result ≡ iwd_numbers_at file.now x.now row }
{
    numbers_of(
        values::address_at(file, x, row, KeyName::Address),
        values::netmask_at(x, row, KeyName::Netmask),
        values::address_at(file, x, row, KeyName::Gateway),
    )
}

// The IPv6 of an iwd file: an address with its length, and a gateway.
fn ipv6_of(address: Option<WithLength>, gateway: Option<[u8; 16]>) -> Numbers<16>
    ensures { result ≡ ipv6_read address gateway }
{
    match address {
        Some(a) => Numbers::numbered(a.address, a.length, gateway),
        None => Numbers::unnumbered(Method::Auto),
    }
}

// What the Address and the Gateway of a row of IPv6 give.
fn fixed_ipv6(file: &[u8], x: &Places, row: usize) -> Numbers<16>
    requires { RowOf Dialect.Iwd file.now x.now row Group.Ipv6 }
    ensures { result ≡ numbers_laid 16 (fixed_ipv6_at file.now x.now row) }
{
    ipv6_of(
        values::with_length_at(file, x, row, KeyName::Ipv6Address),
        values::ipv6_address_at(file, x, row, KeyName::Ipv6Gateway),
    )
}

// The IPv6 of an iwd file, by the row of its IPv6: Enabled may put it off.
pub fn iwd_ipv6(file: &[u8], x: &Places, row: usize) -> Numbers<16>
    requires { RowOf Dialect.Iwd file.now x.now row Group.Ipv6 }
    ensures { result ≡ iwd_ipv6_at file.now x.now row }
{
    match values::choice_at(x, row, KeyName::Enabled) {
        Some(false) => Numbers::unnumbered(Method::Off),
        _ => fixed_ipv6(file, x, row),
    }
}

// The name of a service's network, by its row: its SSID wins over its Name; empty where it has neither.
pub fn service_name(file: &[u8], x: &Places, row: usize) -> Bounded<32>
    requires { RowOf Dialect.ConnMan file.now x.now row Group.Service }
    ensures { result ≡ service_name_at file.now x.now row }
{
    let ssid = values::ssid_at(file, x, row, KeyName::Ssid);
    let name = escapes::read_string(1, value_of(file, x, row, KeyName::Name));
    ssid.or(name).unwrap_or(Bounded::none())
}

// The IPv4 of a service, by its row: dhcp where it is absent.
pub fn service_ipv4(file: &[u8], x: &Places, row: usize) -> Numbers<4>
    requires { RowOf Dialect.ConnMan file.now x.now row Group.Service }
    ensures { result ≡ service_ipv4_at file.now x.now row }
{
    values::ipv4_at(file, x, row, KeyName::Ipv4).unwrap_or(Numbers::unnumbered(Method::Auto))
}

// The IPv6 of a service, by its row: auto where it is absent.
pub fn service_ipv6(file: &[u8], x: &Places, row: usize) -> Numbers<16>
    requires { RowOf Dialect.ConnMan file.now x.now row Group.Service }
    ensures { result ≡ service_ipv6_at file.now x.now row }
{
    values::ipv6_at(file, x, row, KeyName::Ipv6).unwrap_or(Numbers::unnumbered(Method::Auto))
}

// Whether a service's Security is wep or ieee8021x.
pub fn is_foreign(x: &Places, row: usize) -> bool
    requires { RowInTable x.now row }
    ensures { result ≡ foreign_at x.now row }
{
    is_word(x, row, KeyName::Security, Word::Wep)
        || is_word(x, row, KeyName::Security, Word::Ieee8021x)
}

// The line for which a service has no record: ethernet, or Security wep or ieee8021x.
pub fn hindrance_at(x: &Places, row: usize) -> Option<usize>
    requires { RowInTable x.now row }
    ensures { result ≡ hindrance_at x.now row }
{
    if is_word(x, row, KeyName::Type, Word::Ethernet) {
        return Some(line_of(x, row, KeyName::Type));
    }
    if is_foreign(x, row) {
        return Some(line_of(x, row, KeyName::Security));
    }
    None
}
