// The step over one line.
ghost use Rattle.std.specs.Prelude.{◌≤◌, ◌<◌, length};
ghost use Rattle.text.specs.Parts.{part};
ghost use Rattle.lines.specs.Lines.{line_of, value_start};
ghost use Rattle.places.specs.Store.{file_limit};
ghost use Rattle.reader.specs.Steps.{Known, StepSays};

use crate::Line;
use crate::judging::line_at;
use crate::opening::header_step;
use places::store::put_slot;
use places::value_codes::{text_place, value_code};
use places::{Places, State};
use rules::Refusal;
use text::Dialect;

// The step over the line from start to end: blank and comment lines are passed over, what a setting's value is, is stored.
pub fn step(
    d: Dialect,
    file: &[u8],
    x: &mut Places,
    st: State,
    start: usize,
    end: usize,
    line: usize,
) -> Result<State, Refusal>
    requires known { Known d file.now st x.old }
    requires low { start ≤ end }
    requires within { end ≤ length file.now }
    requires counted { st.settings < line }
    requires small { (length file.now ≤ file_limit) × (line ≤ file_limit) }
    ensures { StepSays d file.now st x.old line start (value_start d (part start end file.now)) (line_of d (part start end file.now)) x.new result }
{
    match line_at(d, file, x, st.current, start, end)? {
        Line::Blank | Line::Comment => Ok(st),
        Line::Header(name) => header_step(d, file, x, st, start, name, line),
        Line::Setting(i, v) => {
            let text = text_place(v);
            put_slot(x, i, text.start, text.end, line, value_code(v));
            Ok(State {
                settings: st.settings + 1,
                ..st
            })
        }
    }
}
