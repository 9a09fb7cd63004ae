// Cases of whole files, checked and moved: reads a table, and writes each line again with its answer behind it.
//
// A case is what document 01's programs read, with `|` for the end of a line: a file name and the file, or one digit
// for the service and the file, which is shop.config then. A line without `|` is no case. Behind a case come ` = ` and
// the answer: `accepted` with the numbers of settings and services, the new name and the new file as the moving program
// writes them, or `refused` with the number and the line. The expected side, the file stdout, is written by hand from
// documents 01 and 02 and docs/DECISIONS.md.
#![tactic(auto)]

ghost use Rattle.std.specs.Prelude.{◌≤◌, length, IfOk};

use intake::streams;
use std::io;
use std::io::{Read, Write};
use written::buffers;

fn check<W: Write>(out: &mut W, name: &[u8], file: &[u8]) -> io::Result<()> {
    let read = qewaris::check(names::dialects::dialect_of(name), name, file);
    match read {
        Ok(counts) => { streams::say_numbers(out, b"accepted ", counts.settings, counts.services) }
        Err(fault) => streams::say_refused(out, fault.refusal, fault.line),
    }
}

// The new bytes of the two buffers.
fn say_moved<W: Write>(
    out: &mut W,
    name: &[u8],
    name_len: usize,
    file: &[u8],
    file_len: usize,
) -> io::Result<()> {
    if name.len() < name_len {
        return Ok(());
    }
    if file.len() < file_len {
        return Ok(());
    }
    streams::say_file(out, &name[0..name_len], &file[0..file_len])?;
    streams::say(out, b"\n")
}

fn move_service<W: Write>(out: &mut W, file: &[u8], service: usize) -> io::Result<()> {
    let mut name_out = buffers::for_name();
    let mut file_out = buffers::for_file();
    let written = qewaris::files::move_service(
        b"shop.config",
        file,
        service,
        &mut name_out,
        &mut file_out,
    );
    let answer = written.answer;
    match answer {
        Ok(()) => say_moved(
            out,
            &name_out,
            written.name_len,
            &file_out,
            written.file_len,
        ),
        Err(fault) => streams::say_refused(out, fault.refusal, fault.line),
    }
}

// The answer to the input of a program, to the end of its line: of the moving one where the first line has one byte, which is no
// file name.
fn answer<W: Write>(out: &mut W, input: &[u8]) -> io::Result<()> {
    let end = text::scan::line_end(input, 0);
    if end == input.len() {
        return streams::say(out, b"\n");
    }
    streams::say(out, b" = ")?;
    let from = end + 1;
    if end == 1 {
        let service = hex_digits::digit_value(input[0]).unwrap_or(0);
        move_service(out, &input[from..], service as usize)
    } else {
        check(out, &input[0..end], &input[from..])
    }
}

// The byte that stands for itself or, as `|`, for the end of a line.
fn byte_of(written: u8) -> u8 {
    if written == 124 {
        return 10;
    }
    written
}

// Writes the bytes that s stands for at the front of out, as far as there is room, and returns how many.
fn decode(out: &mut [u8], s: &[u8]) -> usize
    ensures { result ≤ length out.new }
{
    let n = s.len().min(out.len());
    for i in 0..n {
        out[i] = byte_of(s[i]);
    }
    n
}

// A line, with its answer where it is a case.
fn answer_line<W: Write>(out: &mut W, line: &[u8]) -> io::Result<()> {
    let mut input = [0u8; 1024];
    let n = decode(&mut input, line);
    streams::say(out, line)?;
    answer(out, &input[0..n])
}

fn answer_lines<W: Write>(out: &mut W, s: &[u8]) -> io::Result<()> {
    let mut at = 0;
    while at < s.len() {
        let end = text::scan::line_end(s, at);
        answer_line(out, &s[at..end])?;
        at = end + 1;
    }
    Ok(())
}

// Reads until buf is full or the input ends, and returns how many bytes it put at the front of buf.
fn read_full<R: Read>(input: &mut R, buf: &mut [u8]) -> io::Result<usize>
    ensures { IfOk result (λ n. n ≤ length buf.new) }
{
    let mut done = 0;
    while done < buf.len() {
        let n = input.read(&mut buf[done..])?;
        if n == 0 {
            break;
        }
        done += n;
    }
    Ok(done)
}

fn main(rt: HostRuntime) -> io::Result<()> {
    let mut buf = [0u8; 65536];
    let n = read_full(&mut rt.stdin(), &mut buf)?;
    answer_lines(&mut rt.stdout(), &buf[..n])
}
