// The value of a setting by its key's kind: broken text (11) goes before a broken kind (12).
ghost use Rattle.std.specs.Prelude.{◌≡◌, length};
ghost use Rattle.text.specs.Parts.{part_at, Inside};
ghost use Rattle.utf8.specs.Utf8.{value_text};
ghost use Rattle.kinds.specs.Typed.{kind_judged, judged};
ghost use Rattle.kinds.specs.Answers.{judgement_at};
ghost use Rattle.kinds.specs.Judging.{kept_at, string_judgement, is_free_text, broken_by};

use crate::{Broken, Kind, Value};
use text::{Dialect, Place};

// A value that is kept by its place, if its kind is good. It is told by a yes or no, since the readers of its kinds
// find values of many types.
fn kept(good: bool, at: Place) -> Result<Value, Broken>
    ensures { result ≡ kept_at at good }
{
    good.then_some(Value::Text(at)).ok_or(Broken::Kind)
}

// A string of low to high bytes, by its length once unescaped; one that has a broken escape has none.
fn string_judgement(length: Option<usize>, low: u8, high: u8, at: Place) -> Result<Value, Broken>
    ensures { result ≡ string_judgement at low high length }
{
    let n = length.ok_or(Broken::Text)?;
    if n < low as usize {
        return Err(Broken::Kind);
    }
    kept(n <= high as usize, at)
}

// The value v by its kind alone. A `match`: the readers answer different types, so that no table of functions could hold them.
fn judge_kind(d: Dialect, kind: Kind, v: &[u8], at: Place) -> Result<Value, Broken>
    ensures { result ≡ judgement_at at (kind_judged d kind v.now) }
{
    match kind {
        Kind::Flag => named_words::read_flag(d, v)
            .map(Value::Flag)
            .ok_or(Broken::Kind),
        Kind::Named(w) => named_words::read_word(w, v)
            .map(Value::Word)
            .ok_or(Broken::Kind),
        Kind::Netmask => addresses::masks::read_netmask(v)
            .map(Value::Mask)
            .ok_or(Broken::Kind),
        Kind::Address => kept(addresses::numbers::read_address(v).is_some(), at),
        Kind::Ipv4 => kept(connman_ipv4::read_ipv4(v).is_some(), at),
        Kind::Ipv6 => kept(ipv6_values::read_ipv6(v).is_some(), at),
        Kind::Ipv6Address => kept(ipv6::reading::read_address(v).is_some(), at),
        Kind::Ipv6WithLength => kept(ipv6_values::read_with_length(v).is_some(), at),
        Kind::Addresses(sep) => kept(addresses::lists::count_addresses(v, sep) != 0, at),
        Kind::Entries => kept(entry_lists::read_entries(v, 0).is_some(), at),
        Kind::Mac => kept(hex_values::read_mac(v).is_some(), at),
        Kind::PreSharedKey => kept(hex_values::is_pre_shared_key(v), at),
        Kind::Ssid => kept(hex_values::is_ssid(v), at),
        Kind::Passphrase => string_judgement(escapes::string_len(v), 8, 63, at),
        Kind::Text(low, high) => string_judgement(escapes::string_len(v), low, high, at),
    }
}

// Whether a good value of the kind may hold more than printable ASCII.
fn is_free_text(kind: Kind) -> bool
    ensures { result ≡ is_free_text kind }
{
    matches!(kind, Kind::Entries | Kind::Passphrase | Kind::Text(_, _))
}

// Why the value v is not good, which breaks its kind: broken text goes before that.
fn broken(v: &[u8]) -> Broken
    ensures { result ≡ broken_by (value_text v.now) }
{
    if utf8::is_value_text(v) {
        return Broken::Kind;
    }
    Broken::Text
}

// The value that stands at a place of the file, by its kind. Free text is asked for its text first; a good value of any other
// kind is printable ASCII, so only one that breaks its kind is asked.
pub fn judge(d: Dialect, kind: Kind, file: &[u8], at: Place) -> Result<Value, Broken>
    requires { Inside (length file.now) at }
    ensures { result ≡ judgement_at at (judged d kind (part_at file.now at)) }
{
    let v = &file[at.start..at.end];
    if is_free_text(kind) && !utf8::is_value_text(v) {
        return Err(Broken::Text);
    }
    match judge_kind(d, kind, v, at) {
        Ok(value) => Ok(value),
        Err(Broken::Text) => Err(Broken::Text),
        Err(Broken::Kind) => Err(broken(v)),
    }
}
