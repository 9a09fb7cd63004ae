// The string lookups: the value of a string setting as the part of the lent file where it stands, still escaped.
//
// None of the public functions has a `requires`. `number` and `line` are result fields, set on every answer: document 01's
// number, and the line of the refusal or of the setting, 0 where it is absent. They stand beside the part and make no
// Result, since document 01 gives every answer a number, good ones too. A refusal and an absent setting hand back the
// empty part. `by_place` has the same lookups by place, and these hand back the part that stands there.
#![tactic(auto)]

pub mod by_place;

ghost use Rattle.std.specs.Prelude.{◌≡◌, ◌≤◌, length};
ghost use Rattle.text.specs.Parts.{part};
ghost use Rattle.text.specs.Words.{word};
ghost use Rattle.rules.specs.ListedValues.{group_name};
ghost use Rattle.places.specs.Keys.{key_word};
ghost use Rattle.lookups.specs.Lookups.{group_lookup, iwd_lookup, global_lookup, service_lookup, Hands, HandsPlace};
ghost use Rattle.lookups.specs.ByKey.{StandsOnce, ServiceText};

use places::KeyName;
use rules::Group;
use text::Dialect;

// Where the value of a string setting stands in the file, document 01's number, and the line of the refusal or of the setting.
#[derive(Clone, Copy)]
pub struct TextPlace {
    pub number: u8,
    pub line: usize,
    pub start: usize,
    pub end: usize,
}

// Sets the result fields and hands back the part of the file at a place.
fn hand<'a>(file: &'a [u8], p: TextPlace, number: &mut u8, line: &mut usize) -> &'a [u8]
    requires { (p.start ≤ p.end) × (p.end ≤ length file.now) }
    ensures { HandsPlace file.now p number.new line.new result.now }
{
    *number = p.number;
    *line = p.line;
    &file[p.start..p.end]
}

// The value of a key of a group that stands once.
fn group_text<'a>(
    d: Dialect,
    name: &[u8],
    file: &'a [u8],
    g: Group,
    k: KeyName,
    number: &mut u8,
    line: &mut usize,
) -> &'a [u8]
    requires { StandsOnce d g k }
    ensures { Hands file.now (group_lookup d (group_name g) (key_word k) name.now file.now) number.new line.new result.now }
{
    hand(
        file,
        by_place::group_place(d, name, file, g, k),
        number,
        line,
    )
}

// The value of a key of a service, by its number, from 1.
fn service_text<'a>(
    name: &[u8],
    file: &'a [u8],
    service: usize,
    k: KeyName,
    number: &mut u8,
    line: &mut usize,
) -> &'a [u8]
    requires { ServiceText k }
    ensures { Hands file.now (service_lookup service (key_word k) name.now file.now) number.new line.new result.now }
{
    hand(
        file,
        by_place::service_place(name, file, service, k),
        number,
        line,
    )
}

// Passphrase of an iwd file.
pub fn iwd_passphrase<'a>(
    name: &[u8],
    file: &'a [u8],
    number: &mut u8,
    line: &mut usize,
) -> &'a [u8]
    ensures { Hands file.now (iwd_lookup (word "Security") (word "Passphrase") name.now file.now) number.new line.new result.now }
{
    group_text(
        Dialect::Iwd,
        name,
        file,
        Group::Security,
        KeyName::IwdPassphrase,
        number,
        line,
    )
}

// DomainName of an iwd file.
pub fn iwd_domain_name<'a>(
    name: &[u8],
    file: &'a [u8],
    number: &mut u8,
    line: &mut usize,
) -> &'a [u8]
    ensures { Hands file.now (iwd_lookup (word "IPv4") (word "DomainName") name.now file.now) number.new line.new result.now }
{
    group_text(
        Dialect::Iwd,
        name,
        file,
        Group::Ipv4,
        KeyName::DomainName,
        number,
        line,
    )
}

// Name of `global` of a ConnMan file.
pub fn global_name<'a>(name: &[u8], file: &'a [u8], number: &mut u8, line: &mut usize) -> &'a [u8]
    ensures { Hands file.now (global_lookup (word "Name") name.now file.now) number.new line.new result.now }
{
    group_text(
        Dialect::ConnMan,
        name,
        file,
        Group::Global,
        KeyName::GlobalName,
        number,
        line,
    )
}

// Description of `global` of a ConnMan file.
pub fn global_description<'a>(
    name: &[u8],
    file: &'a [u8],
    number: &mut u8,
    line: &mut usize,
) -> &'a [u8]
    ensures { Hands file.now (global_lookup (word "Description") name.now file.now) number.new line.new result.now }
{
    group_text(
        Dialect::ConnMan,
        name,
        file,
        Group::Global,
        KeyName::Description,
        number,
        line,
    )
}

// Name of a service of a ConnMan file, by its number, from 1.
pub fn service_name<'a>(
    name: &[u8],
    file: &'a [u8],
    service: usize,
    number: &mut u8,
    line: &mut usize,
) -> &'a [u8]
    ensures { Hands file.now (service_lookup service (word "Name") name.now file.now) number.new line.new result.now }
{
    service_text(name, file, service, KeyName::Name, number, line)
}

// Passphrase of a service of a ConnMan file, by its number, from 1.
pub fn service_passphrase<'a>(
    name: &[u8],
    file: &'a [u8],
    service: usize,
    number: &mut u8,
    line: &mut usize,
) -> &'a [u8]
    ensures { Hands file.now (service_lookup service (word "Passphrase") name.now file.now) number.new line.new result.now }
{
    service_text(name, file, service, KeyName::Passphrase, number, line)
}

// Domain of a service of a ConnMan file, by its number, from 1.
pub fn service_domain<'a>(
    name: &[u8],
    file: &'a [u8],
    service: usize,
    number: &mut u8,
    line: &mut usize,
) -> &'a [u8]
    ensures { Hands file.now (service_lookup service (word "Domain") name.now file.now) number.new line.new result.now }
{
    service_text(name, file, service, KeyName::Domain, number, line)
}
