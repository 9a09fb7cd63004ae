// The moving program: reads a line with a service's number, a line with a file name and then the file, and writes the name of
// the new file as a line and then the new file, or one line with the refusal.
//
// The line is `refused` with the number and the line. Each part of the input may have any length. Where reading fails nothing
// is written: no file is judged that was cut off.
#![tactic(auto)]

ghost use Rattle.std.specs.Prelude.{List, ℕ, ◌≤◌, ◌≡◌, length};
ghost use Rattle.writer.specs.Writing.{Writes};
ghost use Rattle.mover.specs.Moves.{moving};
ghost use Rattle.intake.specs.declared.Form.TheVariants.{Empty};
ghost use Rattle.intake.specs.Forms.{form_from};
ghost use Rattle.intake.specs.Input.{KeepsInput};
ghost use Rattle.qewaris_move.specs.Answers.{moved_input, Sayable};

use intake::{FileBuffer, Form, Input, NumberBuffer, Progress, forms, numbers, streams};
use std::io;
use std::io::Write;
use writer::Written;
use written::buffers;
use written::buffers::{NewFile, NewName};

// Says what was written, or the refusal, which is never that a buffer was too short.
fn say_written<W: Write>(out: &mut W, w: Written, name: &NewName, file: &NewFile) -> io::Result<()>
    requires { Sayable name.now file.now w }
{
    match w.answer {
        Ok(()) => streams::say_file(out, &name[..w.name_len], &file[..w.file_len]),
        Err(fault) => streams::say_refused(out, fault.refusal, fault.line),
    }
}

// Moves a service of a file whose name line has this form. A move takes a ConnMan name, and every such name counts alike.
fn move_named(
    form: Form,
    file: &[u8],
    service: usize,
    name_out: &mut NewName,
    file_out: &mut NewFile,
) -> Written
    ensures { (line : List ℕ) → form ≡ form_from Empty line → Writes (moving line file.now service name_out.old file_out.old) name_out.old file_out.old name_out.new file_out.new result }
{
    if forms::is_connman(form) {
        return mover::move_service(b"a.config", file, service, name_out, file_out);
    }
    mover::move_service(b"", file, service, name_out, file_out)
}

// Moves what the kept input asks for. A full buffer of the number is a line with more than three digits, a full buffer of the
// file is a file that is too long, and of the name line only the form counts.
fn move_kept(
    k: Input,
    number: &NumberBuffer,
    file: &FileBuffer,
    name_out: &mut NewName,
    file_out: &mut NewFile,
) -> Written
    requires { (k.number ≤ length number.now) × (k.rest.file ≤ length file.now) }
    ensures { (i : List ℕ) (name : List ℕ) → KeepsInput i number.now name file.now k → Writes (moved_input i name_out.old file_out.old) name_out.old file_out.old name_out.new file_out.new result }
{
    let service = numbers::service_number(&number[0..k.number]);
    let rest = k.rest;
    move_named(rest.form, &file[0..rest.file], service, name_out, file_out)
}

fn main(rt: HostRuntime) -> io::Result<()> {
    let mut number = [0u8; 4];
    let mut name = [0u8; 129];
    let mut file = [0u8; 16385];
    let input = streams::read_input(&mut rt.stdin(), &mut number, &mut name, &mut file, true);
    if input.progress == Progress::Whole {
        let mut name_out = buffers::for_name();
        let mut file_out = buffers::for_file();
        let written = move_kept(input.kept, &number, &file, &mut name_out, &mut file_out);
        say_written(&mut rt.stdout(), written, &name_out, &file_out)?;
    }
    Ok(())
}
