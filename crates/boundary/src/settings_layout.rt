// Typed settings, handed out: those of an iwd file by its groups, and those of a ConnMan service. What is absent gives zeros,
// and a code of 0: the fields are the C interface's.
ghost use Rattle.std.specs.Prelude.{◌≡◌};
ghost use Rattle.boundary.specs.Settings.{choice_code, chosen_code, general_at, security_at, ipv4_at, ipv6_at, iwd_settings_at, entries_at, network_at, addresses_at, service_settings_at};

use crate::{
    CAddresses, CEntries, CGeneral, CIpv4, CIpv6, CIwdSettings, CNetwork, CSecurity,
    CServiceSettings, answer_layout,
};
use addressing::{Method, Numbers};
use codes::bit_of;
use entry_lists::Entries;
use ipv6_values::WithLength;
use named_words::Word;
use put::Bounded;
use record_layout::sixteen;
use settings::{
    AddressSettings, GeneralSettings, Ipv4Settings, Ipv6Settings, IwdAnswer, NetworkSettings,
    SecuritySettings, ServiceAnswer,
};
use text::Place;

fn choice_code(c: Option<bool>) -> u8
    ensures { result ≡ choice_code c }
{
    match c {
        None => 0,
        Some(false) => 1,
        Some(true) => 2,
    }
}

fn chosen_code(c: Option<Word>) -> u8
    ensures { result ≡ chosen_code c }
{
    c.map_or(0, codes::word_code)
}

fn general_at(s: GeneralSettings) -> CGeneral
    ensures { result ≡ general_at s }
{
    CGeneral {
        auto_connect: choice_code(s.auto_connect),
        hidden: choice_code(s.hidden),
        always_randomize_address: choice_code(s.always_randomize_address),
        has_address_override: bit_of(s.address_override.is_some()),
        address_override: s.address_override.unwrap_or([0; 6]),
    }
}

fn security_at(s: SecuritySettings) -> CSecurity
    ensures { result ≡ security_at s }
{
    CSecurity {
        passphrase_line: s.passphrase,
        has_pre_shared_key: bit_of(s.pre_shared_key.is_some()),
        pre_shared_key: s.pre_shared_key.unwrap_or([0; 32]),
        reserved: [0; 7],
    }
}

fn ipv4_at(s: Ipv4Settings, servers: [[u8; 4]; 4]) -> CIpv4
    ensures { result ≡ ipv4_at s servers }
{
    CIpv4 {
        domain_name_line: s.domain_name,
        dns_count: s.dns,
        dns: sixteen(servers),
        has_address: bit_of(s.address.is_some()),
        address: s.address.unwrap_or([0; 4]),
        has_gateway: bit_of(s.gateway.is_some()),
        gateway: s.gateway.unwrap_or([0; 4]),
        has_broadcast: bit_of(s.broadcast.is_some()),
        broadcast: s.broadcast.unwrap_or([0; 4]),
        netmask_length: s.netmask.unwrap_or(0),
        send_hostname: choice_code(s.send_hostname),
        reserved: [0; 7],
    }
}

fn ipv6_at(s: Ipv6Settings) -> CIpv6
    ensures { result ≡ ipv6_at s }
{
    let WithLength { address, length } = s.address.unwrap_or(WithLength {
        address: [0; 16],
        length: 0,
    });
    CIpv6 {
        enabled: choice_code(s.enabled),
        has_address: bit_of(s.address.is_some()),
        address,
        prefix_length: length,
        has_gateway: bit_of(s.gateway.is_some()),
        gateway: s.gateway.unwrap_or([0; 16]),
    }
}

// The settings of an iwd file, or a refusal with zeros, and its name servers.
pub fn iwd_settings_at(a: IwdAnswer, servers: [[u8; 4]; 4]) -> CIwdSettings
    ensures { result ≡ iwd_settings_at a servers }
{
    CIwdSettings {
        line: answer_layout::answer_line(a.answer),
        number: answer_layout::answer_number(a.answer),
        general: general_at(a.settings.general),
        ipv6: ipv6_at(a.settings.ipv6),
        reserved: [0; 1],
        security: security_at(a.settings.security),
        ipv4: ipv4_at(a.settings.ipv4, servers),
    }
}

// A list of entries, each by its start and its length.
fn entries_at(e: Option<Entries>) -> CEntries
    ensures { result ≡ entries_at e }
{
    let found = e.unwrap_or(Entries {
        count: 0,
        places: [Place { start: 0, end: 0 }; 4],
    });
    CEntries {
        count: found.count,
        start: found.places.map(|p| p.start),
        length: found.places.map(|p| p.end.saturating_sub(p.start)),
    }
}

fn network_at(s: NetworkSettings) -> CNetwork
    ensures { result ≡ network_at s }
{
    let Bounded { len, bytes } = s.ssid.unwrap_or(Bounded {
        len: 0,
        bytes: [0; 32],
    });
    CNetwork {
        name_line: s.name,
        passphrase_line: s.passphrase,
        ssid_len: len,
        ssid: bytes,
        service_type: chosen_code(s.service_type),
        security: chosen_code(s.security),
        hidden: choice_code(s.hidden),
        reserved: [0; 5],
    }
}

fn addresses_at(s: AddressSettings, servers: [[u8; 4]; 4]) -> CAddresses
    ensures { result ≡ addresses_at s servers }
{
    let ipv4 = s.ipv4.unwrap_or(Numbers::unnumbered(Method::Auto));
    let address = ipv4.address;
    let gateway = ipv4.gateway;
    let ipv6 = s.ipv6.unwrap_or(Numbers::unnumbered(Method::Auto));
    let ipv6_address = ipv6.address;
    let ipv6_gateway = ipv6.gateway;
    CAddresses {
        domain_line: s.domain,
        search_domains: entries_at(s.search_domains),
        timeservers: entries_at(s.timeservers),
        nameserver_count: s.nameservers,
        nameservers: sixteen(servers),
        ipv4: codes::given_method_code(s.ipv4.is_some(), ipv4.method),
        address,
        prefix_length: ipv4.length,
        has_gateway: bit_of(ipv4.has_gateway),
        gateway,
        ipv6: codes::given_method_code(s.ipv6.is_some(), ipv6.method),
        ipv6_address,
        ipv6_prefix_length: ipv6.length,
        has_ipv6_gateway: bit_of(ipv6.has_gateway),
        ipv6_gateway,
        privacy: chosen_code(s.privacy),
        has_mac: bit_of(s.mac.is_some()),
        mac: s.mac.unwrap_or([0; 6]),
        reserved: [0; 2],
    }
}

// The settings of a ConnMan service, or a refusal with zeros, and its name servers.
pub fn service_settings_at(a: ServiceAnswer, servers: [[u8; 4]; 4]) -> CServiceSettings
    ensures { result ≡ service_settings_at a servers }
{
    CServiceSettings {
        line: answer_layout::answer_line(a.answer),
        number: answer_layout::answer_number(a.answer),
        reserved: [0; 7],
        network: network_at(a.settings.network),
        addresses: addresses_at(a.settings.addresses, servers),
    }
}
