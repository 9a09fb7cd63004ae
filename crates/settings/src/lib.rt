// The typed settings of an iwd file, and of a ConnMan service by its number: every key that document 01 lists, with its
// value or absent.
//
// A string gives its line here; its bytes are looked up. The name servers stand beside the settings, in an array that the
// caller lends.
#![tactic(auto)]

pub mod iwd;
pub mod rows;
pub mod services;

use addressing::Numbers;
use entry_lists::Entries;
use ipv6_values::WithLength;
use named_words::Word;
use put::Bounded;
use rules::Answer;

// iwd's group Settings.
#[derive(Clone, Copy, Default)]
pub struct GeneralSettings {
    pub auto_connect: Option<bool>,
    pub hidden: Option<bool>,
    pub always_randomize_address: Option<bool>,
    pub address_override: Option<[u8; 6]>,
}

// iwd's group Security.
#[derive(Clone, Copy, Default)]
pub struct SecuritySettings {
    pub passphrase: usize,
    pub pre_shared_key: Option<[u8; 32]>,
}

// iwd's group IPv4.
#[derive(Clone, Copy, Default)]
pub struct Ipv4Settings {
    pub address: Option<[u8; 4]>,
    pub gateway: Option<[u8; 4]>,
    pub broadcast: Option<[u8; 4]>,
    pub netmask: Option<u8>,
    pub dns: usize,
    pub domain_name: usize,
    pub send_hostname: Option<bool>,
}

// iwd's group IPv6.
#[derive(Clone, Copy, Default)]
pub struct Ipv6Settings {
    pub enabled: Option<bool>,
    pub address: Option<WithLength>,
    pub gateway: Option<[u8; 16]>,
}

// The settings of an iwd file, by its groups. An absent setting is None; the line of a string and the count of the name
// servers are 0 where these are absent, as 01 says ("zeros for all else"). The servers themselves are in the array that the caller lends,
// which a refusal leaves as it was (demands `Demand1Refusal`), so that their count alone is here.
#[derive(Clone, Copy, Default)]
pub struct IwdSettings {
    pub general: GeneralSettings,
    pub security: SecuritySettings,
    pub ipv4: Ipv4Settings,
    pub ipv6: Ipv6Settings,
}

// Which network a ConnMan service joins, and how.
#[derive(Clone, Copy, Default)]
pub struct NetworkSettings {
    pub service_type: Option<Word>,
    pub name: usize,
    pub ssid: Option<Bounded<32>>,
    pub passphrase: usize,
    pub security: Option<Word>,
    pub hidden: Option<bool>,
}

// The addresses of a ConnMan service. The entries of a list stand at places in the file.
#[derive(Clone, Copy, Default)]
pub struct AddressSettings {
    pub ipv4: Option<Numbers<4>>,
    pub ipv6: Option<Numbers<16>>,
    pub privacy: Option<Word>,
    pub mac: Option<[u8; 6]>,
    pub nameservers: usize,
    pub search_domains: Option<Entries>,
    pub timeservers: Option<Entries>,
    pub domain: usize,
}

// The settings of a ConnMan service; what is absent is as in iwd's.
#[derive(Clone, Copy, Default)]
pub struct ServiceSettings {
    pub network: NetworkSettings,
    pub addresses: AddressSettings,
}

// The answer and the settings of an iwd file; where it is refused, all are absent. No Result: document 01 wants "all other result fields zero"
// of a refusal, and demands `Demand1Refusal` says it of these settings.
#[derive(Clone, Copy)]
pub struct IwdAnswer {
    pub answer: Answer,
    pub settings: IwdSettings,
}

// The answer and the settings of a service; where it is refused, all are absent. No Result, as of an iwd file (`Demand1Refusal`).
#[derive(Clone, Copy)]
pub struct ServiceAnswer {
    pub answer: Answer,
    pub settings: ServiceSettings,
}
