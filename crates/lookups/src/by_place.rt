// The string lookups by place: where the value of a string setting stands in the lent file.
//
// They stand beside those that hand back "the stretch of the lent file where it stands" (document 01), since C cannot take a slice back. Each
// key has a function of its own there and here: it names the key, and the header has its name.
//
// None of the seven lookups has a `requires`. A refusal gives its number and line and the place from 0 to 0; a setting
// that is absent gives zeros.
ghost use Rattle.std.specs.Prelude.{◌≡◌, ◌≤◌};
ghost use Rattle.text.specs.Words.{word};
ghost use Rattle.rules.specs.ListedValues.{group_name};
ghost use Rattle.places.specs.Keys.{key_word};
ghost use Rattle.places.specs.History.{base};
ghost use Rattle.places.specs.KeySlots.{ValueInFile, key_slot};
ghost use Rattle.lookups.specs.Lookups.{group_lookup, iwd_lookup, global_lookup, service_lookup, ValuePlace};
ghost use Rattle.lookups.specs.ByKey.{StandsOnce, ServiceText, slot_place, answered_place};

use crate::TextPlace;
use places::rows::{base_of, line_of, start_of, value_of};
use places::{KeyName, PLACES, Places};
use rules::{Answer, Group};
use tables::asking;
use text::Dialect;

// Where the value of a key stands, in the row that starts at a slot.
fn value_place(file: &[u8], x: &Places, row: usize, k: KeyName) -> TextPlace
    requires { ValueInFile file.now x.now row k }
    ensures { result ≡ slot_place file.now (key_slot x.now row k) }
{
    let start = start_of(x, row, k);
    TextPlace {
        number: 0,
        line: line_of(x, row, k),
        start,
        end: start + value_of(file, x, row, k).len(),
    }
}

// The same in the row of a group, or of service n, after a good answer; else the refusal.
fn answered_place(
    answer: Answer,
    file: &[u8],
    x: &Places,
    g: Group,
    n: usize,
    k: KeyName,
) -> TextPlace
    requires { answer ≡ Ok tt → (n ≤ 8) × ValueInFile file.now x.now (base g n) k }
    ensures { result ≡ answered_place answer (slot_place file.now (key_slot x.now (base g n) k)) }
{
    match answer {
        Ok(()) => value_place(file, x, base_of(g, n), k),
        Err(fault) => TextPlace {
            number: tables::numbers::number_of(fault.refusal),
            line: fault.line,
            start: 0,
            end: 0,
        },
    }
}

// The place of a key of a group that stands once.
pub fn group_place(d: Dialect, name: &[u8], file: &[u8], g: Group, k: KeyName) -> TextPlace
    requires { StandsOnce d g k }
    ensures { ValuePlace file.now (group_lookup d (group_name g) (key_word k) name.now file.now) result }
{
    let mut places = [0; PLACES];
    let answer = asking::asked(pass::read(d, name, file, &mut places));
    answered_place(answer, file, &places, g, 0, k)
}

// The place of a key of a service, by its number, from 1. It stands beside group_place, since a number may be refused, with 18.
pub fn service_place(name: &[u8], file: &[u8], service: usize, k: KeyName) -> TextPlace
    requires { ServiceText k }
    ensures { ValuePlace file.now (service_lookup service (key_word k) name.now file.now) result }
{
    let mut places = [0; PLACES];
    let answer = asking::asked_of(
        service,
        pass::read(Dialect::ConnMan, name, file, &mut places),
    );
    answered_place(answer, file, &places, Group::Service, service, k)
}

// Passphrase of an iwd file.
pub fn iwd_passphrase(name: &[u8], file: &[u8]) -> TextPlace
    ensures { ValuePlace file.now (iwd_lookup (word "Security") (word "Passphrase") name.now file.now) result }
{
    group_place(
        Dialect::Iwd,
        name,
        file,
        Group::Security,
        KeyName::IwdPassphrase,
    )
}

// DomainName of an iwd file.
pub fn iwd_domain_name(name: &[u8], file: &[u8]) -> TextPlace
    ensures { ValuePlace file.now (iwd_lookup (word "IPv4") (word "DomainName") name.now file.now) result }
{
    group_place(Dialect::Iwd, name, file, Group::Ipv4, KeyName::DomainName)
}

// Name of `global` of a ConnMan file.
pub fn global_name(name: &[u8], file: &[u8]) -> TextPlace
    ensures { ValuePlace file.now (global_lookup (word "Name") name.now file.now) result }
{
    group_place(
        Dialect::ConnMan,
        name,
        file,
        Group::Global,
        KeyName::GlobalName,
    )
}

// Description of `global` of a ConnMan file.
pub fn global_description(name: &[u8], file: &[u8]) -> TextPlace
    ensures { ValuePlace file.now (global_lookup (word "Description") name.now file.now) result }
{
    group_place(
        Dialect::ConnMan,
        name,
        file,
        Group::Global,
        KeyName::Description,
    )
}

// Name of a service of a ConnMan file, by its number, from 1.
pub fn service_name(name: &[u8], file: &[u8], service: usize) -> TextPlace
    ensures { ValuePlace file.now (service_lookup service (word "Name") name.now file.now) result }
{
    service_place(name, file, service, KeyName::Name)
}

// Passphrase of a service of a ConnMan file, by its number, from 1.
pub fn service_passphrase(name: &[u8], file: &[u8], service: usize) -> TextPlace
    ensures { ValuePlace file.now (service_lookup service (word "Passphrase") name.now file.now) result }
{
    service_place(name, file, service, KeyName::Passphrase)
}

// Domain of a service of a ConnMan file, by its number, from 1.
pub fn service_domain(name: &[u8], file: &[u8], service: usize) -> TextPlace
    ensures { ValuePlace file.now (service_lookup service (word "Domain") name.now file.now) result }
{
    service_place(name, file, service, KeyName::Domain)
}
