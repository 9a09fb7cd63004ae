// The input comes in parts of any size: what is kept with one more part.
ghost use Rattle.std.specs.Prelude.{List, ℕ, ◌≤◌, length};
ghost use Rattle.intake.specs.Input.{SomeInput, InBuffers};
ghost use Rattle.intake.specs.Steps.{Cuts, Appended, TakesFile, TakesInput};

use crate::{Cut, FileBuffer, Form, Input, NameBuffer, NamedFile, NumberBuffer, forms};

// Nothing yet: of an input with a number line, or of one that stands behind such a line, which has ended.
pub fn nothing(ended: bool) -> Input
    ensures { (number : List ℕ) (name : List ℕ) (file : List ℕ) → SomeInput number name file result }
{
    Input {
        ended,
        number: 0,
        rest: NamedFile {
            ended: false,
            name: 0,
            form: Form::Empty,
            file: 0,
        },
    }
}

// Cuts s, the next part of an input whose first line has ended or not.
fn cut_line(s: &[u8], ended: bool) -> Cut
    ensures { Cuts s.now ended result }
{
    if ended {
        return Cut {
            end: 0,
            from: 0,
            ended,
        };
    }
    let end = text::scan::line_end(s, 0);
    if end == s.len() {
        return Cut {
            end,
            from: end,
            ended,
        };
    }
    Cut {
        end,
        from: end + 1,
        ended: true,
    }
}

// Puts s at a place of out as far as there is room, and returns the place behind.
fn append(out: &mut [u8], at: usize, s: &[u8]) -> usize
    requires { at ≤ length out.old }
    ensures { Appended s.now at out.old out.new result }
{
    let room = s.len().min(out.len() - at);
    put::put_text(out, at, &s[..room])
}

// What is kept of a name line and a file with s behind.
fn take_file(name: &mut NameBuffer, file: &mut FileBuffer, k: NamedFile, s: &[u8]) -> NamedFile
    requires { (k.name ≤ length name.old) × (k.file ≤ length file.old) }
    ensures { TakesFile s.now k name.old file.old name.new file.new result }
{
    let cut = cut_line(s, k.ended);
    let line = &s[..cut.end];
    NamedFile {
        ended: cut.ended,
        name: append(name, k.name, line),
        form: forms::over(k.form, line),
        file: append(file, k.file, &s[cut.from..]),
    }
}

// What is kept with s behind, the next part of the input.
pub fn take(
    number: &mut NumberBuffer,
    name: &mut NameBuffer,
    file: &mut FileBuffer,
    k: Input,
    s: &[u8],
) -> Input
    requires { InBuffers number.old name.old file.old k }
    ensures { TakesInput s.now k number.old name.old file.old number.new name.new file.new result }
{
    let cut = cut_line(s, k.ended);
    Input {
        ended: cut.ended,
        number: append(number, k.number, &s[..cut.end]),
        rest: take_file(name, file, k.rest, &s[cut.from..]),
    }
}
