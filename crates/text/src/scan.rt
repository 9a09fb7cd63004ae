// Where runs of bytes end: the end of a line, of a run of a class, of a value.
//
// The ends of lines, of printable text and of entries are looked for sixteen bytes at a time: the block test has no early exit, and
// where it can no bounds but constants, so that it compiles to vector instructions. What stands near is looked for byte by byte.
//
// What is searched for and is not there is at the end of s, and no Option: the run of other bytes ends there, as every run that nothing stops
// (`Stop`), and a line does ("or at the end of the file"), so that those that cut s there would turn None back into it.
ghost use Rattle.std.specs.Prelude.{◌≡◌, Bool, true, ℕ, ◌+◌, ◌≤◌, ◌<◌, length};
ghost use Rattle.text.specs.Bytes.{in_line, is_blank, is_key_byte, is_entry_byte, between, other, member_of};
ghost use Rattle.text.specs.ByteTable.{columns_of};
ghost use Rattle.text.specs.Parts.{all};
ghost use Rattle.text.specs.Scans.{Computes, Stop, Scan, Trim};

use crate::{Class, Dialect, classes, table};

// How many bytes a block has.
const BLOCK: usize = 16;

const HALF: usize = 8;

// The end of the run of bytes for which the test holds that starts at from. By a counted loop: where this is inlined the compiler keeps
// two indices of a `for`, which takes longer.
pub(crate) fn end_of<F: Fn(u8) -> bool + Drop>(s: &[u8], from: usize, is: F) -> usize
    requires within { from ≤ length s.now }
    requires callable { F.IsAlwaysCallable is }
    ensures { (p : ℕ → Bool) → Computes (F.post is) p → Stop p s.now from result }
{
    let mut i = from;
    while i < s.len() && is(s[i]) {
        i += 1;
    }
    i
}

// The end of the run of a class that starts at from, by comparing.
fn compared_end(s: &[u8], from: usize, c: Class) -> usize
    requires within { from ≤ length s.now }
    requires compared { columns_of c ≡ 0 }
    ensures { Stop (member_of c) s.now from result }
{
    end_of(s, from, |x| classes::is_compared(c, x))
}

// The end of the run of a class that starts at from.
pub fn run_end(s: &[u8], from: usize, c: Class) -> usize
    requires { from ≤ length s.now }
    ensures { Stop (member_of c) s.now from result }
{
    let columns = classes::columns_of(c);
    if columns == 0 {
        return compared_end(s, from, c);
    }
    table::masked_end(s, from, columns)
}

// The end of the blanks from from on.
pub fn blank_end(s: &[u8], from: usize) -> usize
    requires { from ≤ length s.now }
    ensures { Stop is_blank s.now from result }
{
    end_of(s, from, |x| classes::is_blank(x))
}

// The end of the key bytes from from on.
pub fn key_end(d: Dialect, s: &[u8], from: usize) -> usize
    requires { from ≤ length s.now }
    ensures { Stop (is_key_byte d) s.now from result }
{
    table::masked_end(s, from, classes::key_columns(d))
}

// Whether every byte of s is of the class.
pub fn all_of(s: &[u8], c: Class) -> bool
    ensures { result ≡ all (member_of c) s.now }
{
    run_end(s, 0, c) == s.len()
}

// The end of the bytes from from on without their trailing blanks.
pub fn trim_end(s: &[u8], from: usize) -> usize
    requires { from ≤ length s.now }
    ensures { Trim s.now from result }
{
    for i in (from..s.len()).rev() {
        if !classes::is_blank(s[i]) {
            return i + 1;
        }
    }
    from
}

// Whether the test holds of each of the N bytes at i. Where the compiler knows the test, it takes them together.
fn holds<const N: usize, F: Fn(u8) -> bool>(s: &[u8], i: usize, is: &F) -> bool
    requires within { i + N ≤ length s.now }
    requires callable { F.IsAlwaysCallable is.now }
    ensures { (p : ℕ → Bool) → Computes (F.post is.now) p → result ≡ true → Scan p s.now i (i + N) }
{
    let mut all = true;
    for j in 0..N {
        all &= is(s[i + j]);
    }
    all
}

// The first block from from on, of those that follow each other there, in which the test fails of a byte, or what is left behind them.
// By a counted loop: it goes by whole blocks, and its answer is where it stopped.
fn blocks_end<F: Fn(u8) -> bool>(s: &[u8], from: usize, is: &F) -> usize
    requires within { from ≤ length s.now }
    requires callable { F.IsAlwaysCallable is.now }
    ensures within { (from ≤ result) × (result ≤ length s.now) }
    ensures passed { (p : ℕ → Bool) → Computes (F.post is.now) p → Scan p s.now from result }
{
    let mut i = from;
    while BLOCK <= s.len() - i && holds::<BLOCK, F>(s, i, is) {
        i += BLOCK;
    }
    i
}

// The first place of the byte b from from on, or the end of s: byte by byte, for a byte that stands near.
pub fn find_near(s: &[u8], from: usize, b: u8) -> usize
    requires { from ≤ length s.now }
    ensures { Stop (other b) s.now from result }
{
    end_of(s, from, |x| x != b)
}

// The first place of the byte b from i on, or the end of s: first among the bytes of the block at i, so many that the compiler writes
// one test behind the other.
fn find_in_block(s: &[u8], i: usize, b: u8) -> usize
    requires { i + 16 ≤ length s.now }
    ensures { Stop (other b) s.now i result }
{
    for j in 0..BLOCK {
        if s[i + j] == b {
            return i + j;
        }
    }
    find_near(s, i + BLOCK, b)
}

// The first place of the byte b from from on, or the end of s. What is left behind the last whole block is asked with the last
// block of s.
pub fn find(s: &[u8], from: usize, b: u8) -> usize
    requires { from ≤ length s.now }
    ensures { Stop (other b) s.now from result }
{
    let is_other = |x: u8| x != b;
    let i = blocks_end(s, from, &is_other);
    if BLOCK <= s.len() - i {
        return find_in_block(s, i, b);
    }
    if BLOCK <= s.len() && holds::<BLOCK, _>(s, s.len() - BLOCK, &is_other) {
        return s.len();
    }
    find_near(s, i, b)
}

// The end of the line that starts at from: by a test of its own, for a byte that the compiler knows.
pub fn line_end(s: &[u8], from: usize) -> usize
    requires { from ≤ length s.now }
    ensures { Stop in_line s.now from result }
{
    let i = blocks_end(s, from, &|x: u8| x != 10);
    if BLOCK <= s.len() - i {
        return find_in_block(s, i, 10);
    }
    find_near(s, i, 10)
}

// Whether the bytes of s from i on, fewer than a block, are all printable ASCII, as far as its last sixteen or eight bytes tell.
fn tail_printable(s: &[u8], i: usize) -> bool
    requires { (i ≤ length s.now) × (length s.now < i + 16) }
    ensures { result ≡ true → Scan (between 32 126) s.now i (length s.now) }
{
    let n = s.len();
    let is = |x: u8| classes::within(32, 126, x);
    if BLOCK <= n {
        return holds::<BLOCK, _>(s, n - BLOCK, &is);
    }
    if n - i < HALF {
        return false;
    }
    holds::<HALF, _>(s, i, &is) && holds::<HALF, _>(s, n - HALF, &is)
}

// The end of the run of printable ASCII, bytes 32 to 126, that starts at from.
pub fn printable_end(s: &[u8], from: usize) -> usize
    requires { from ≤ length s.now }
    ensures { Stop (between 32 126) s.now from result }
{
    let is = |x: u8| classes::within(32, 126, x);
    let i = blocks_end(s, from, &is);
    if s.len() - i < BLOCK && tail_printable(s, i) {
        return s.len();
    }
    end_of(s, i, is)
}

// The end of the run of zeros that starts at from.
pub fn zeros_end(s: &[u8], from: usize) -> usize
    requires { from ≤ length s.now }
    ensures { Stop (between 0 0) s.now from result }
{
    let is = |x: u8| classes::within(0, 0, x);
    end_of(s, blocks_end(s, from, &is), is)
}

// The end of the entry that starts at from. A block whose bytes are all above the comma has only bytes of an entry.
pub fn entry_end(s: &[u8], from: usize) -> usize
    requires { from ≤ length s.now }
    ensures { Stop is_entry_byte s.now from result }
{
    let i = blocks_end(s, from, &|x: u8| classes::within(45, 255, x));
    compared_end(s, i, Class::Entry)
}
