// File names: an iwd name to its network and back, and whether a name is ConnMan's.
//
// This is document 01's section "File names"; the definitions are in specs/Names, the laws (one network and kind has one
// file name) in specs/Laws. `dialects` tells which dialect a name asks for.
#![tactic(auto)]

pub mod dialects;

ghost use Rattle.std.specs.Prelude.{◌≡◌, ◌+◌, ◌≤◌, length};
ghost use Rattle.text.specs.Options.{mapped, sized};
ghost use Rattle.text.specs.Words.{named};
ghost use Rattle.put.specs.Put.{Wrote};
ghost use Rattle.put.specs.Texts.{bounded};
ghost use Rattle.names.specs.Names.{stem, hex_name, name_of, suffix_of, suffixes, network_of, network_laid, file_name, connman_name};

use put::Bounded;
use text::Class;

// The kinds of iwd file.
#[derive(Clone, Copy, PartialEq, Eq)]
pub enum Suffix {
    Open,
    Psk,
}

// The network of an iwd file name.
#[derive(Clone, Copy)]
pub struct IwdName {
    pub suffix: Suffix,
    pub name: Bounded<32>,
}

impl Suffix {
    // The suffix itself, with its dot.
    fn text(self) -> &'static [u8]
        ensures { result.now ≡ suffix_of self }
    {
        match self {
            Suffix::Open => b".open",
            Suffix::Psk => b".psk",
        }
    }
}

// The name that h gives, the hex behind `=`.
fn hex_name(h: &[u8]) -> Option<Bounded<32>>
    ensures { result ≡ mapped (bounded 32) (sized 1 32 (hex_name h.now)) }
{
    if 64 < h.len() {
        return None;
    }
    if !text::scan::all_of(h, Class::LowerHex) {
        return None;
    }
    if !hex_digits::is_hex(h) {
        return None;
    }
    let name = Bounded {
        len: h.len() / 2,
        bytes: hex_digits::unhexed(h),
    };
    if text::scan::all_of(name.text(), Class::Plain) {
        return None;
    }
    Some(name)
}

// The name that a stem gives.
fn stem_name(s: &[u8]) -> Option<Bounded<32>>
    ensures { result ≡ mapped (bounded 32) (name_of s.now) }
{
    if s.len() == 0 {
        return None;
    }
    if s[0] == b'=' {
        return hex_name(&s[1..]);
    }
    if 32 < s.len() {
        return None;
    }
    if !text::scan::all_of(s, Class::Plain) {
        return None;
    }
    Some(Bounded::of(s))
}

// The suffix that s is: two words, asked one by one as `named_words` asks them.
fn read_suffix(s: &[u8]) -> Option<Suffix>
    ensures { result ≡ named s.now suffixes }
{
    if text::words::equal(s, b".open") {
        return Some(Suffix::Open);
    }
    if text::words::equal(s, b".psk") {
        return Some(Suffix::Psk);
    }
    None
}

// The network that an iwd file name gives, none where it is no such name.
pub fn read_iwd_name(f: &[u8]) -> Option<IwdName>
    ensures { result ≡ mapped network_laid (network_of f.now) }
{
    let dot = text::scan::find_near(f, 0, b'.');
    let suffix = read_suffix(&f[dot..])?;
    let name = stem_name(&f[0..dot])?;
    Some(IwdName { suffix, name })
}

// Whether f is the name of a ConnMan file.
pub fn is_connman_name(f: &[u8]) -> bool
    ensures { result ≡ connman_name f.now }
{
    let end = text::scan::run_end(f, 0, Class::Alphanumeric);
    if end == 0 {
        return false;
    }
    text::words::equal(&f[end..], b".config")
}

// How many bytes the file name of a network has.
pub fn iwd_name_len(name: &[u8], suffix: Suffix) -> usize
    requires { length name.now ≤ 32 }
    ensures { result ≡ length (file_name name.now suffix) }
{
    let behind = suffix.text().len();
    if text::scan::all_of(name, Class::Plain) {
        return name.len() + behind;
    }
    1 + 2 * name.len() + behind
}

fn put_stem(out: &mut [u8], at: usize, name: &[u8]) -> usize
    requires { at + length (stem name.now) ≤ length out.old }
    ensures { Wrote (stem name.now) at out.old out.new result }
{
    if text::scan::all_of(name, Class::Plain) {
        return put::put_text(out, at, name);
    }
    let behind = put::put_byte(out, at, b'=');
    hex_digits::put_hex(out, behind, name)
}

// Writes the file name of a network at a place of out, and returns the place behind it.
pub fn put_iwd_name(out: &mut [u8], at: usize, name: &[u8], suffix: Suffix) -> usize
    requires short { length name.now ≤ 32 }
    requires room { at + length (file_name name.now suffix) ≤ length out.old }
    ensures { Wrote (file_name name.now suffix) at out.old out.new result }
{
    let behind = put_stem(out, at, name);
    put::put_text(out, behind, suffix.text())
}
