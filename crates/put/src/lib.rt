// Writing into a lent buffer, and copies in arrays with zeros behind them.
//
// A writer is given a place in the buffer and answers the place behind what it wrote; every other byte stays as it was
// (specs/Put). Writers in turn make one writer of the texts together (specs/Laws, `then`).
#![tactic(auto)]

ghost use Rattle.std.specs.Prelude.{◌≡◌, [], ◌∷◌, ◌+◌, ◌≤◌, ◌<◌, length, take};
ghost use Rattle.text.specs.Parts.{padded};
ghost use Rattle.put.specs.Put.{Wrote};
ghost use Rattle.put.specs.Texts.{bounded};

// Writes s at a place of out, and returns the place behind it.
pub fn put_text(out: &mut [u8], at: usize, s: &[u8]) -> usize
    requires { at + length s.now ≤ length out.old }
    ensures { Wrote s.now at out.old out.new result }
{
    let end = at + s.len();
    out[at..end].copy_from_slice(s);
    end
}

// Writes one byte at a place of out, and returns the place behind it.
pub fn put_byte(out: &mut [u8], at: usize, b: u8) -> usize
    requires { at < length out.old }
    ensures { Wrote (b ∷ []) at out.old out.new result }
{
    out[at] = b;
    at + 1
}

// A text of at most N bytes, with zeros behind it.
#[derive(Clone, Copy)]
pub struct Bounded<const N: usize> {
    pub len: usize,
    pub bytes: [u8; N],
}

// s, and zeros up to N bytes.
pub fn padded<const N: usize>(s: &[u8]) -> [u8; N]
    requires { length s.now ≤ N }
    ensures { result ≡ padded N s.now }
{
    let mut a = [0u8; N];
    put_text(&mut a, 0, s);
    a
}

impl<const N: usize> Bounded<N> {
    // The text s.
    pub fn of(s: &[u8]) -> Self
        requires { length s.now ≤ N }
        ensures { result ≡ bounded N s.now }
    {
        Bounded {
            len: s.len(),
            bytes: padded(s),
        }
    }

    // No bytes.
    pub fn none() -> Self
        ensures { result ≡ bounded N [] }
    {
        Bounded {
            len: 0,
            bytes: [0; N],
        }
    }

    // The text itself.
    pub fn text(&self) -> &[u8]
        requires { self.now.len ≤ N }
        ensures { result.now ≡ take self.now.len self.now.bytes }
    {
        &self.bytes[..self.len]
    }
}
