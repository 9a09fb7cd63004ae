// Well-formed UTF-8, and the two texts that document 01 asks for: of a value in a file, and of a record.
#![tactic(auto)]

ghost use Rattle.std.specs.Prelude.{◌≡◌, ◌≤◌, length};
ghost use Rattle.utf8.specs.Utf8.{follow, text_byte, text, value_text, record_text};
ghost use Rattle.utf8.specs.Due.{due_after, StepsOver};

// The bytes due after a first byte: how many more, and the range of the next. Each one after it is 128 to 191.
#[derive(Clone, Copy)]
pub struct Due {
    pub more: u8,
    pub low: u8,
    pub high: u8,
}

// Before a first byte.
const NOTHING_DUE: Due = Due {
    more: 0,
    low: 0,
    high: 0,
};

// What is due after the first byte b, where b is first in a sequence: the rows of table 3-7. By comparing, since of a match on single
// bytes the compiler makes a table of jumps, which takes longer.
fn follows(b: u8) -> Option<Due>
    ensures { due_after result ≡ follow b }
{
    let (more, low, high) = if b <= 127 {
        (0, 0, 0)
    } else if b <= 193 {
        return None;
    } else if b <= 223 {
        (1, 128, 191)
    } else if b <= 224 {
        (2, 160, 191)
    } else if b <= 236 {
        (2, 128, 191)
    } else if b <= 237 {
        (2, 128, 159)
    } else if b <= 239 {
        (2, 128, 191)
    } else if b <= 240 {
        (3, 144, 191)
    } else if b <= 243 {
        (3, 128, 191)
    } else if b <= 244 {
        (3, 128, 143)
    } else {
        return None;
    };
    Some(Due { more, low, high })
}

// What is due after the byte b, where d was due before it and b is as it says.
fn step(d: Due, b: u8) -> Option<Due>
    ensures { StepsOver d b result }
{
    if d.more == 0 {
        return follows(b);
    }
    if !text::classes::within(d.low, d.high, b) {
        return None;
    }
    Some(Due {
        more: d.more - 1,
        low: 128,
        high: 191,
    })
}

fn is_text_byte(line: bool, b: u8) -> bool
    ensures { result ≡ text_byte line b }
{
    b != 0 && !(line && b == 13)
}

// Whether s is UTF-8 without byte 0 and, where it stands on a line, without byte 13. Printable ASCII is passed in blocks.
fn is_text(s: &[u8], line: bool) -> bool
    ensures { result ≡ text line s.now }
{
    let mut d = NOTHING_DUE;
    for &b in &s[text::scan::printable_end(s, 0)..] {
        if !is_text_byte(line, b) {
            return false;
        }
        let Some(next) = step(d, b) else {
            return false;
        };
        d = next;
    }
    d.more == 0
}

// Whether s may stand as a value: UTF-8 without byte 0 and byte 13.
pub fn is_value_text(s: &[u8]) -> bool
    ensures { result ≡ value_text s.now }
{
    is_text(s, true)
}

// Whether s may be a passphrase or a domain of a record: UTF-8 without byte 0.
pub fn is_record_text(s: &[u8]) -> bool
    ensures { result ≡ record_text s.now }
{
    is_text(s, false)
}
