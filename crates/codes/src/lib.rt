// The codes of the C boundary: the number that stands in its structs for each case of an enum, and the case of a number.
//
// They are the codes of what `kinds` and `records` declare; the header `include/qewaris.h` has them as enumerators. The
// definitions are in specs/Codes, and that each case comes back from its code in specs/Laws.
// They are functions and no `From` of the types: the numbers are the C boundary's, of which the crates of the types know nothing.
#![tactic(auto)]

ghost use Rattle.std.specs.Prelude.{◌≡◌, cond};
ghost use Rattle.codes.specs.Codes.{bit_of, word_code, credential_code, method_code, given_method_code, credential_in, method_in};

use addressing::Method;
use named_words::Word;
use records::Credential;

pub fn bit_of(b: bool) -> u8
    ensures { result ≡ bit_of b }
{
    u8::from(b)
}

// A word by its place in its list of words, from 1, as the header has it. It is another number than the table of places keeps
// (`places::value_codes::word_number`), which goes through all lists.
pub fn word_code(w: Word) -> u8
    ensures { result ≡ word_code w }
{
    match w {
        Word::Wifi => 1,
        Word::Ethernet => 2,
        Word::Disabled => 1,
        Word::Enabled => 2,
        Word::Preferred => 3,
        Word::Psk => 1,
        Word::Ieee8021x => 2,
        Word::None => 3,
        Word::Wep => 4,
    }
}

pub fn credential_code(c: Credential) -> u8
    ensures { result ≡ credential_code c }
{
    match c {
        Credential::None => 0,
        Credential::Passphrase => 1,
        Credential::Key => 2,
    }
}

pub fn method_code(m: Method) -> u8
    ensures { result ≡ method_code m }
{
    match m {
        Method::Auto => 0,
        Method::Off => 1,
        Method::Static => 2,
    }
}

// Of a method that may be absent, which is 0 in C's struct. The flag stands beside the method: an absent one is laid out by the numbers of
// `Method::Auto`, which give C its zeros.
pub fn given_method_code(given: bool, m: Method) -> u8
    ensures { result ≡ given_method_code given m }
{
    if given { method_code(m) + 1 } else { 0 }
}

// The case of a code; the first of the enum where there is no such code.
pub fn credential_in(n: u8) -> Credential
    ensures { result ≡ credential_in n }
{
    match n {
        1 => Credential::Passphrase,
        2 => Credential::Key,
        _ => Credential::None,
    }
}

pub fn method_in(n: u8) -> Method
    ensures { result ≡ method_in n }
{
    match n {
        1 => Method::Off,
        2 => Method::Static,
        _ => Method::Auto,
    }
}
