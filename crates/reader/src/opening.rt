// A header's line: the group that it opens is stored with what is known after it, or the line is refused.
ghost use Rattle.std.specs.Prelude.{◌≡◌, false, ◌&&◌, ◌≤◌, ◌<◌, leb, length};
ghost use Rattle.text.specs.Parts.{Inside, part_at};
ghost use Rattle.lines.specs.Lines.{header};
ghost use Rattle.rules.specs.Sections.{serves};
ghost use Rattle.places.specs.Store.{FitsSlot};
ghost use Rattle.reader.specs.Steps.{Opened, Known, StepSays};

use crate::headings::{heading, is_service};
use places::rows::base_of;
use places::store::put_slot;
use places::{Current, NAMES, Places, State};
use rules::{Group, Refusal};
use text::{Dialect, Place};

// Stores a good header, and returns what is known after it. Of a service the place of its name is stored too.
fn opened(x: &mut Places, st: State, g: Group, start: usize, name: Place, line: usize) -> State
    requires few { st.services ≤ 8 }
    requires room { (serves g && leb 8 st.services) ≡ false }
    requires header { FitsSlot start start line }
    requires named { FitsSlot name.start name.end line }
    ensures { Opened st x.old g start name line result x.new }
{
    let n = st.services;
    if is_service(g) {
        let row = base_of(g, n + 1);
        put_slot(x, row, start, start, line, 0);
        put_slot(x, NAMES + n, name.start, name.end, line, 0);
        return State {
            current: Current::In(g, row),
            services: n + 1,
            ..st
        };
    }
    let row = base_of(g, n);
    put_slot(x, row, start, start, line, 0);
    State {
        current: Current::In(g, row),
        ..st
    }
}

// The step over a header that starts at start and whose name stands at this place.
pub fn header_step(
    d: Dialect,
    file: &[u8],
    x: &mut Places,
    st: State,
    start: usize,
    name: Place,
    line: usize,
) -> Result<State, Refusal>
    requires known { Known d file.now st x.old }
    requires inside { Inside (length file.now) name }
    requires counted { 0 < line }
    requires header { FitsSlot start start line }
    requires named { FitsSlot name.start name.end line }
    ensures { StepSays d file.now st x.old line start 0 (header (part_at file.now name)) x.new result }
{
    let a = name.start;
    let e = name.end;
    let g = heading(d, file, x, st.services, &file[a..e])?;
    Ok(opened(x, st, g, start, name, line))
}
