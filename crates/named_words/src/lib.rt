// Yes/no and the named words.
//
// This is what document 01's "Settings and their kinds" gives as bool, and its lists of words. A reader gives the value,
// or none where the text is no such word. The definitions are in specs/NamedWords. Words are asked one by one: found in a table and matched
// by their number, reading a word is twice as dear (1.6 per cent of all instructions of the case program).
#![tactic(auto)]

ghost use Rattle.std.specs.Prelude.{◌≡◌};
ghost use Rattle.named_words.specs.NamedWords.{flag, word_of};

use text::Dialect;
use text::words::equal;

// The named words.
#[derive(Clone, Copy, PartialEq, Eq)]
pub enum Word {
    Wifi,
    Ethernet,
    Disabled,
    Enabled,
    Preferred,
    Psk,
    Ieee8021x,
    None,
    Wep,
}

// The lists of named words.
#[derive(Clone, Copy, PartialEq, Eq)]
pub enum WordList {
    ServiceType,
    Privacy,
    Security,
}

// Yes or no: ConnMan has words for it, iwd has digits too.
pub fn read_flag(d: Dialect, s: &[u8]) -> Option<bool>
    ensures { result ≡ flag d s.now }
{
    if equal(s, b"true") {
        return Some(true);
    }
    if equal(s, b"false") {
        return Some(false);
    }
    match d {
        Dialect::ConnMan => None,
        Dialect::Iwd => {
            if equal(s, b"1") {
                return Some(true);
            }
            if equal(s, b"0") {
                return Some(false);
            }
            None
        }
    }
}

fn read_type(s: &[u8]) -> Option<Word>
    ensures { result ≡ word_of WordList.ServiceType s.now }
{
    if equal(s, b"wifi") {
        return Some(Word::Wifi);
    }
    if equal(s, b"ethernet") {
        return Some(Word::Ethernet);
    }
    None
}

fn read_privacy(s: &[u8]) -> Option<Word>
    ensures { result ≡ word_of WordList.Privacy s.now }
{
    if equal(s, b"disabled") {
        return Some(Word::Disabled);
    }
    if equal(s, b"enabled") {
        return Some(Word::Enabled);
    }
    if equal(s, b"preferred") {
        return Some(Word::Preferred);
    }
    if equal(s, b"prefered") {
        return Some(Word::Preferred);
    }
    None
}

fn read_security(s: &[u8]) -> Option<Word>
    ensures { result ≡ word_of WordList.Security s.now }
{
    if equal(s, b"psk") {
        return Some(Word::Psk);
    }
    if equal(s, b"ieee8021x") {
        return Some(Word::Ieee8021x);
    }
    if equal(s, b"none") {
        return Some(Word::None);
    }
    if equal(s, b"wep") {
        return Some(Word::Wep);
    }
    None
}

// A word of one of the lists. A `match`: which function reads a list is one line for each, and the function has the list's contract.
pub fn read_word(w: WordList, s: &[u8]) -> Option<Word>
    ensures { result ≡ word_of w s.now }
{
    match w {
        WordList::ServiceType => read_type(s),
        WordList::Privacy => read_privacy(s),
        WordList::Security => read_security(s),
    }
}
