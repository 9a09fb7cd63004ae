// The typed settings of a row in the table of places: one function for each group of iwd, two for a ConnMan service.
ghost use Rattle.places.specs.History.{base};
ghost use Rattle.settings.specs.Settings.{general_settings_of, security_settings_of, ipv4_settings_of, ipv6_settings_of, network_settings_of, address_settings_of};
ghost use Rattle.values.specs.Rows.{RowOf, RowGives};

use crate::{
    AddressSettings, GeneralSettings, Ipv4Settings, Ipv6Settings, NetworkSettings, SecuritySettings,
};
use addresses::Separator;
use places::rows::line_of;
use places::{IPV4_ROW, IPV6_ROW, KeyName, Places, SECURITY_ROW, SETTINGS_ROW};
use rules::Group;
use text::Dialect;

pub fn general_settings(file: &[u8], x: &Places) -> GeneralSettings
    requires { RowOf Dialect.Iwd file.now x.now (base Group.Settings 0) Group.Settings }
    ensures { RowGives Dialect.Iwd file.now x.now (base Group.Settings 0) Group.Settings general_settings_of result }
{
    GeneralSettings {
        auto_connect: values::choice_at(x, SETTINGS_ROW, KeyName::AutoConnect),
        hidden: values::choice_at(x, SETTINGS_ROW, KeyName::IwdHidden),
        always_randomize_address: values::choice_at(
            x,
            SETTINGS_ROW,
            KeyName::AlwaysRandomizeAddress,
        ),
        address_override: values::mac_at(file, x, SETTINGS_ROW, KeyName::AddressOverride),
    }
}

pub fn security_settings(file: &[u8], x: &Places) -> SecuritySettings
    requires { RowOf Dialect.Iwd file.now x.now (base Group.Security 0) Group.Security }
    ensures { RowGives Dialect.Iwd file.now x.now (base Group.Security 0) Group.Security security_settings_of result }
{
    SecuritySettings {
        passphrase: line_of(x, SECURITY_ROW, KeyName::IwdPassphrase),
        pre_shared_key: values::key_at(file, x, SECURITY_ROW, KeyName::PreSharedKey),
    }
}

pub fn ipv4_settings(file: &[u8], x: &Places) -> Ipv4Settings
    requires { RowOf Dialect.Iwd file.now x.now (base Group.Ipv4 0) Group.Ipv4 }
    ensures { RowGives Dialect.Iwd file.now x.now (base Group.Ipv4 0) Group.Ipv4 ipv4_settings_of result }
{
    Ipv4Settings {
        address: values::address_at(file, x, IPV4_ROW, KeyName::Address),
        gateway: values::address_at(file, x, IPV4_ROW, KeyName::Gateway),
        broadcast: values::address_at(file, x, IPV4_ROW, KeyName::Broadcast),
        netmask: values::netmask_at(x, IPV4_ROW, KeyName::Netmask),
        dns: values::count_at(Separator::Spaces, file, x, IPV4_ROW, KeyName::Dns),
        domain_name: line_of(x, IPV4_ROW, KeyName::DomainName),
        send_hostname: values::choice_at(x, IPV4_ROW, KeyName::SendHostname),
    }
}

pub fn ipv6_settings(file: &[u8], x: &Places) -> Ipv6Settings
    requires { RowOf Dialect.Iwd file.now x.now (base Group.Ipv6 0) Group.Ipv6 }
    ensures { RowGives Dialect.Iwd file.now x.now (base Group.Ipv6 0) Group.Ipv6 ipv6_settings_of result }
{
    Ipv6Settings {
        enabled: values::choice_at(x, IPV6_ROW, KeyName::Enabled),
        address: values::with_length_at(file, x, IPV6_ROW, KeyName::Ipv6Address),
        gateway: values::ipv6_address_at(file, x, IPV6_ROW, KeyName::Ipv6Gateway),
    }
}

// Of a service, by its row: which network it joins, and how.
pub fn network_settings(file: &[u8], x: &Places, row: usize) -> NetworkSettings
    requires { RowOf Dialect.ConnMan file.now x.now row Group.Service }
    ensures { RowGives Dialect.ConnMan file.now x.now row Group.Service network_settings_of result }
{
    NetworkSettings {
        service_type: values::chosen_at(x, row, KeyName::Type),
        name: line_of(x, row, KeyName::Name),
        ssid: values::ssid_at(file, x, row, KeyName::Ssid),
        passphrase: line_of(x, row, KeyName::Passphrase),
        security: values::chosen_at(x, row, KeyName::Security),
        hidden: values::choice_at(x, row, KeyName::Hidden),
    }
}

// Of a service, by its row: its addresses.
pub fn address_settings(file: &[u8], x: &Places, row: usize) -> AddressSettings
    requires { RowOf Dialect.ConnMan file.now x.now row Group.Service }
    ensures { RowGives Dialect.ConnMan file.now x.now row Group.Service address_settings_of result }
{
    AddressSettings {
        ipv4: values::ipv4_at(file, x, row, KeyName::Ipv4),
        ipv6: values::ipv6_at(file, x, row, KeyName::Ipv6),
        privacy: values::chosen_at(x, row, KeyName::Privacy),
        mac: values::mac_at(file, x, row, KeyName::Mac),
        nameservers: values::count_at(Separator::Comma, file, x, row, KeyName::Nameservers),
        search_domains: values::entries_at(file, x, row, KeyName::SearchDomains),
        timeservers: values::entries_at(file, x, row, KeyName::Timeservers),
        domain: line_of(x, row, KeyName::Domain),
    }
}
