// The rules over the services, asked at the end of the file, by their rows in the table of places.
#![tactic(auto, unfolding(crate::specs::Closing::slots_rule))]

ghost use Rattle.std.specs.Prelude.{◌≡◌, ◌≤◌};
ghost use Rattle.places.specs.KeySlots.{RowInTable};
ghost use Rattle.verdicts.specs.Closing.{slots_nameless, slots_keyless, slots_lack, slots_wireless, slots_clash, slots_rule, slots_fault};

use named_words::Word;
use places::rows::{is_word, taken};
use places::store::wide;
use places::{KeyName, LINES, Places, ROW};
use rules::{Fault, Refusal};

// Whether a wireless service has neither a name nor an SSID.
fn nameless(x: &Places, row: usize) -> bool
    requires { RowInTable x.now row }
    ensures { result ≡ slots_nameless x.now row }
{
    is_word(x, row, KeyName::Type, Word::Wifi)
        && !(taken(x, row, KeyName::Name) || taken(x, row, KeyName::Ssid))
}

// Whether a service needs a passphrase and has none.
fn keyless(x: &Places, row: usize) -> bool
    requires { RowInTable x.now row }
    ensures { result ≡ slots_keyless x.now row }
{
    let psk = is_word(x, row, KeyName::Security, Word::Psk);
    psk && !taken(x, row, KeyName::Passphrase)
}

// Whether something needed is missing in a service.
fn lacks(x: &Places, row: usize) -> bool
    requires { RowInTable x.now row }
    ensures { result ≡ slots_lack x.now row }
{
    !taken(x, row, KeyName::Type) || nameless(x, row) || keyless(x, row)
}

// Whether a service holds anything that only a wireless one may.
fn is_wireless(x: &Places, row: usize) -> bool
    requires { RowInTable x.now row }
    ensures { result ≡ slots_wireless x.now row }
{
    taken(x, row, KeyName::Name)
        || taken(x, row, KeyName::Ssid)
        || taken(x, row, KeyName::Passphrase)
        || taken(x, row, KeyName::Security)
        || taken(x, row, KeyName::Hidden)
}

// Whether the settings of a service contradict each other.
fn clashes(x: &Places, row: usize) -> bool
    requires { RowInTable x.now row }
    ensures { result ≡ slots_clash x.now row }
{
    let ethernet = is_word(x, row, KeyName::Type, Word::Ethernet);
    let unsecured = is_word(x, row, KeyName::Security, Word::None);
    (ethernet && is_wireless(x, row)) || (unsecured && taken(x, row, KeyName::Passphrase))
}

// The rule over a service that it breaks, if any: what is missing before what contradicts.
fn service_rule(x: &Places, row: usize) -> Option<Refusal>
    requires { RowInTable x.now row }
    ensures { result ≡ slots_rule x.now row }
{
    if lacks(x, row) {
        return Some(Refusal::Missing);
    }
    if clashes(x, row) {
        return Some(Refusal::Contradiction);
    }
    None
}

// The first fault of the first n services.
pub fn services_fault(x: &Places, n: usize) -> Option<Fault>
    requires { n ≤ 8 }
    ensures { result ≡ slots_fault x.now n }
{
    for i in 0..n {
        let row = ROW + ROW * i;
        if let Some(refusal) = service_rule(x, row) {
            let line = wide(x[LINES + row]);
            return Some(Fault { refusal, line });
        }
    }
    None
}
