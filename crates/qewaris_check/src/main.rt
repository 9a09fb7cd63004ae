// The checking program: reads a first line with a file name and then the file, and writes one line with the answer.
//
// The line is `accepted` and the number of settings, or `refused` with the number and the line. Name and file may have any
// length. Where reading fails nothing is written: no file is judged that was cut off.
#![tactic(auto)]

ghost use Rattle.std.specs.Prelude.{◌≡◌, List, ℕ, ◌≤◌, length};
ghost use Rattle.names.specs.Dialects.{dialect_of};
ghost use Rattle.rules.specs.Reading.{reading};
ghost use Rattle.intake.specs.Input.{KeepsFile};
ghost use Rattle.qewaris_check.specs.Answers.{checked_input, long_answer};

use intake::{FileBuffer, Form, NameBuffer, NamedFile, Progress, forms, streams};
use rules::Reading;
use std::io;
use std::io::Write;
use text::Dialect;

fn say_reading<W: Write>(out: &mut W, r: Reading) -> io::Result<()> {
    match r {
        Ok(counts) => { write!(out, "accepted {}\n", counts.settings) }
        Err(fault) => streams::say_refused(out, fault.refusal, fault.line),
    }
}

// What the file answers under a name that is judged as it stands.
fn check_name(name: &[u8], file: &[u8]) -> Reading
    ensures { result ≡ reading (dialect_of name.now) name.now file.now }
{
    qewaris::check(names::dialects::dialect_of(name), name, file)
}

// What the file answers under a long name line: it can only be ConnMan's, and then counts as any other ConnMan name.
fn check_long(form: Form, file: &[u8]) -> Reading
    ensures { result ≡ long_answer form file.now }
{
    if forms::is_connman(form) {
        return qewaris::check(Dialect::ConnMan, b"a.config", file);
    }
    qewaris::check(Dialect::Iwd, b"", file)
}

// What the kept input answers. A full buffer of the name is a name line that is longer than any good iwd name, and a full
// buffer of the file is a file that is too long.
fn check_kept(k: NamedFile, name: &NameBuffer, file: &FileBuffer) -> Reading
    requires { (k.name ≤ length name.now) × (k.file ≤ length file.now) }
    ensures { (i : List ℕ) → KeepsFile i name.now file.now k → result ≡ checked_input i }
{
    let file = &file[0..k.file];
    if k.name == name.len() {
        return check_long(k.form, file);
    }
    check_name(&name[0..k.name], file)
}

fn main(rt: HostRuntime) -> io::Result<()> {
    let mut number = [0u8; 4];
    let mut name = [0u8; 129];
    let mut file = [0u8; 16385];
    let input = streams::read_input(&mut rt.stdin(), &mut number, &mut name, &mut file, false);
    if input.progress == Progress::Whole {
        say_reading(&mut rt.stdout(), check_kept(input.kept.rest, &name, &file))?;
    }
    Ok(())
}
