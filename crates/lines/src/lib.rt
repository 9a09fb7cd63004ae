// What one line is: blank, a comment, a header, a setting by its key and value, or which rule it breaks.
//
// This is document 01's "Lines, alike in both": one grammar for both dialects, which differ in the bytes of a key, in
// where a value ends, and in `[@`. What a value means is not asked here.
#![tactic(auto)]

ghost use Rattle.std.specs.Prelude.{◌≡◌, ◌+◌, ◌≤◌, ◌<◌, length, drop};
ghost use Rattle.lines.specs.Lines.{bracket_of, setting_of};
ghost use Rattle.lines.specs.Forms.{Begins, ValueEnd, form_in, form_at};

use text::{Class, Dialect, Place};

// The rules that a line by itself can break: it is no line at all, an extension block's header, or no header.
#[derive(Clone, Copy)]
pub enum Break {
    Unrecognized,
    Extension,
    BadHeader,
}

// A line by the places in it: a header's name, a setting's key and its value.
#[derive(Clone, Copy)]
pub enum Form {
    Blank,
    Comment,
    Header(Place),
    Setting(Place, Place),
}

// Whether the line starts with `[@` where that begins an extension; from is the place behind the bracket.
fn is_extension(d: Dialect, line: &[u8], from: usize) -> bool
    requires { from ≤ length line.now }
    ensures { Begins d line.now from result }
{
    matches!(d, Dialect::Iwd) && from < line.len() && line[from] == 64
}

// The line whose bracket is at a place.
fn header_form(d: Dialect, line: &[u8], at: usize) -> Result<Form, Break>
    requires { at < length line.now }
    ensures { result ≡ form_in d line.now at (bracket_of d (drop (at + 1) line.now)) }
{
    let from = at + 1;
    if is_extension(d, line, from) {
        return Err(Break::Extension);
    }
    let end = text::scan::run_end(line, from, Class::Header);
    if end == line.len() || end == from || line[end] != 93 {
        return Err(Break::BadHeader);
    }
    let rest = text::scan::blank_end(line, end + 1);
    if rest != line.len() {
        return Err(Break::BadHeader);
    }
    Ok(Form::Header(Place { start: from, end }))
}

// The end of the value that starts at from.
fn value_end(d: Dialect, line: &[u8], from: usize) -> usize
    requires { from ≤ length line.now }
    ensures { ValueEnd d line.now from result }
{
    match d {
        Dialect::Iwd => line.len(),
        Dialect::ConnMan => text::scan::trim_end(line, from),
    }
}

// The line from its first byte that is no blank on, which is neither `#` nor `[`.
fn setting_form(d: Dialect, line: &[u8], at: usize) -> Result<Form, Break>
    requires { at ≤ length line.now }
    ensures { result ≡ form_in d line.now at (setting_of d (drop at line.now)) }
{
    let key_end = text::scan::key_end(d, line, at);
    let equal = text::scan::blank_end(line, key_end);
    if equal == line.len() || key_end == at || line[equal] != 61 {
        return Err(Break::Unrecognized);
    }
    let start = text::scan::blank_end(line, equal + 1);
    let end = value_end(d, line, start);
    let key = Place {
        start: at,
        end: key_end,
    };
    Ok(Form::Setting(key, Place { start, end }))
}

// What the line is, or which rule it breaks. The line is a part of the file without its byte 10, and the places are counted from its start.
pub fn form_of(d: Dialect, line: &[u8]) -> Result<Form, Break>
    ensures { result ≡ form_at d line.now }
{
    let at = text::scan::blank_end(line, 0);
    if at == line.len() {
        return Ok(Form::Blank);
    }
    match line[at] {
        35 => Ok(Form::Comment),
        91 => header_form(d, line, at),
        _ => setting_form(d, line, at),
    }
}
