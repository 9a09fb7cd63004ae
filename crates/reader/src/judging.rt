// What a line is after the lines before it: passed over, a header, a setting with its value, or why it is refused.
ghost use Rattle.std.specs.Prelude.{◌≡◌, ◌+◌, ◌≤◌, length};
ghost use Rattle.text.specs.Parts.{Inside, part};
ghost use Rattle.reader.specs.Says.{CurrentRow, SettingSays};
ghost use Rattle.reader.specs.Steps.{LineSays};

use crate::Line;
use lines::Form;
use places::{Current, LINES, Places};
use rules::Refusal;
use text::{Dialect, Place};

// A setting whose key and value stand at these places of the file, in the group in force.
pub fn setting_line(
    d: Dialect,
    file: &[u8],
    x: &Places,
    current: Current,
    key: Place,
    value: Place,
) -> Result<Line, Refusal>
    requires key_in { Inside (length file.now) key }
    requires value_in { Inside (length file.now) value }
    requires rows { CurrentRow x.now current }
    ensures { SettingSays d file.now x.now current key value result }
{
    let Current::In(g, row) = current else {
        return Err(Refusal::NoGroup);
    };
    let start = key.start;
    let end = key.end;
    let listed = tables::keys::key_of(g, &file[start..end]).ok_or(Refusal::UnknownKey)?;
    let i = row + listed.place;
    if x[LINES + i] != 0 {
        return Err(Refusal::RepeatedKey);
    }
    let v = kinds::judging::judge(d, listed.kind, file, value)?;
    Ok(Line::Setting(i, v))
}

// A place in the part of the file that starts at start, as a place in the file.
fn moved(file: &[u8], p: Place, start: usize) -> Place
    requires { (p.start ≤ p.end) × (start + p.end ≤ length file.now) }
    ensures { result ≡ record { start = start + p.start; end = start + p.end } }
{
    Place {
        start: start + p.start,
        end: start + p.end,
    }
}

// What the line from start to end is after the lines before it.
pub fn line_at(
    d: Dialect,
    file: &[u8],
    x: &Places,
    current: Current,
    start: usize,
    end: usize,
) -> Result<Line, Refusal>
    requires low { start ≤ end }
    requires within { end ≤ length file.now }
    requires rows { CurrentRow x.now current }
    ensures { LineSays d file.now x.now current start (part start end file.now) result }
{
    match lines::form_of(d, &file[start..end])? {
        Form::Blank => Ok(Line::Blank),
        Form::Comment => Ok(Line::Comment),
        Form::Header(name) => Ok(Line::Header(moved(file, name, start))),
        Form::Setting(key, value) => {
            let k = moved(file, key, start);
            let v = moved(file, value, start);
            setting_line(d, file, x, current, k, v)
        }
    }
}
