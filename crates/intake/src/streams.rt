// Input and output: the whole input into its buffers, and what a program answers.
//
// Where reading fails nothing is whole, so that no file is judged that was cut off. Each `say` promises the bytes that it writes where
// it answers Ok; before the error of a write some of them may have been written.
ghost use Rattle.std.specs.Prelude.{◌≡◌, ◌++◌, ◌∷◌, [], IfOk, OnOk};
ghost use Rattle.std.specs.Fmt.{decimal};
ghost use Rattle.std.specs.Io.KnownBytes.{Appends};
ghost use Rattle.text.specs.Words.{word};
ghost use Rattle.rules.specs.Numbers.{number_of};
ghost use Rattle.intake.specs.Input.{SomeInput};

use crate::{FileBuffer, Input, NameBuffer, NumberBuffer, Progress, ReadInput, keeping};
use rules::Refusal;
use std::io;
use std::io::{Read, Write};

pub fn say<W: Write>(out: &mut W, s: &[u8]) -> io::Result<()>
    ensures ok { IfOk result (λ r. r ≡ tt) }
    ensures bytes { OnOk result (Appends (W.contents out.old) (W.contents out.new) s.now) }
{
    out.write_all(s)
}

pub fn say_number<W: Write>(out: &mut W, n: usize) -> io::Result<()>
    ensures ok { IfOk result (λ r. r ≡ tt) }
    ensures bytes { OnOk result (Appends (W.contents out.old) (W.contents out.new) (decimal n)) }
{
    write!(out, "{n}")
}

// A word, two numbers with a blank between, and the end of the line.
pub fn say_numbers<W: Write>(
    out: &mut W,
    word: &[u8],
    first: usize,
    second: usize,
) -> io::Result<()>
    ensures ok { IfOk result (λ r. r ≡ tt) }
    ensures bytes { OnOk result (Appends (W.contents out.old) (W.contents out.new) (word.now ++ decimal first ++ 32 ∷ decimal second ++ 10 ∷ [])) }
{
    say(out, word)?;
    write!(out, "{first} {second}\n")
}

// The line of a refusal.
pub fn say_refused<W: Write>(out: &mut W, refusal: Refusal, line: usize) -> io::Result<()>
    ensures ok { IfOk result (λ r. r ≡ tt) }
    ensures bytes { OnOk result (Appends (W.contents out.old) (W.contents out.new)
        (word "refused " ++ decimal (number_of refusal) ++ 32 ∷ decimal line ++ 10 ∷ [])) }
{
    let number = tables::numbers::number_of(refusal);
    write!(out, "refused {number} {line}\n")
}

// A file name as a line, and then the file.
pub fn say_file<W: Write>(out: &mut W, name: &[u8], file: &[u8]) -> io::Result<()>
    ensures ok { IfOk result (λ r. r ≡ tt) }
    ensures bytes { OnOk result (Appends (W.contents out.old) (W.contents out.new) (name.now ++ 10 ∷ [] ++ file.now)) }
{
    say(out, name)?;
    say(out, b"\n")?;
    say(out, file)
}

// Reads the next part of the input, and takes it. Nothing more is asked for where reading fails, where the input ends, and where
// the file is too long.
fn read_part<R: Read>(
    input: &mut R,
    number: &mut NumberBuffer,
    name: &mut NameBuffer,
    file: &mut FileBuffer,
    kept: Input,
) -> ReadInput
    requires { SomeInput number.old name.old file.old kept }
    ensures { SomeInput number.new name.new file.new result.kept }
{
    let mut buf = [0u8; 65536];
    let Ok(n) = input.read(&mut buf) else {
        return ReadInput {
            progress: Progress::CutOff,
            kept,
        };
    };
    let kept = keeping::take(number, name, file, kept, &buf[0..n]);
    ReadInput {
        progress: progress(n, kept),
        kept,
    }
}

// How reading goes after a part of n bytes: it was the last that is asked for where the input has ended, or the file is too long.
fn progress(n: usize, k: Input) -> Progress {
    if n == 0 || k.rest.file == 16385 {
        return Progress::Whole;
    }
    Progress::More
}

// Reads the input into the three buffers, as far as it is asked for. An input that is not numbered has no line with a number
// in front. The number of reads is bounded, so that the loop ends, by more than any input has.
pub fn read_input<R: Read>(
    input: &mut R,
    number: &mut NumberBuffer,
    name: &mut NameBuffer,
    file: &mut FileBuffer,
    numbered: bool,
) -> ReadInput
    ensures { SomeInput number.new name.new file.new result.kept }
{
    let mut kept = keeping::nothing(!numbered);
    for _ in 0..u64::MAX {
        let read = read_part(input, number, name, file, kept);
        if read.progress != Progress::More {
            return read;
        }
        kept = read.kept;
    }
    ReadInput {
        progress: Progress::CutOff,
        kept,
    }
}
