// The reading of a file of either dialect, in one pass over its lines.
//
// The pass stops at the first faulty line; after the last line the groups are judged as a whole. What stands where is left
// in the lent table of places (`places::store`).
#![tactic(auto)]

ghost use Rattle.std.specs.Prelude.{◌≡◌, ◌≤◌, length, replicate};
ghost use Rattle.names.specs.Names.{network_of, connman_name};
ghost use Rattle.rules.specs.Reading.{name_in};
ghost use Rattle.verdicts.specs.Ending.{kind_of_name};
ghost use Rattle.pass.specs.Pass.{Walks, ReadsKind, ReadsFile};
ghost use Rattle.places.specs.Store.{file_limit, table_length};

use places::{Current, FILE_LIMIT, PLACES, Places, State};
use rules::{Fault, Reading, Refusal};
use text::Dialect;
use verdicts::FileKind;

fn iwd_kind(name: &[u8]) -> Option<FileKind>
    ensures { result ≡ kind_of_name (name_in Dialect.Iwd name.now) }
{
    let network = names::read_iwd_name(name)?;
    Some(FileKind::Iwd(network.suffix))
}

fn connman_kind(name: &[u8]) -> Option<FileKind>
    ensures { result ≡ kind_of_name (name_in Dialect.ConnMan name.now) }
{
    if names::is_connman_name(name) {
        return Some(FileKind::ConnMan);
    }
    None
}

// The kind that a name says, in a dialect, if it is a file's name.
fn kind_of(d: Dialect, name: &[u8]) -> Option<FileKind>
    ensures { result ≡ kind_of_name (name_in d name.now) }
{
    match d {
        Dialect::Iwd => iwd_kind(name),
        Dialect::ConnMan => connman_kind(name),
    }
}

// What is known after every line of a file, or the first faulty line. A line that starts with `#` is a comment: it is passed over at
// once, since it changes nothing of what is known.
fn walk(d: Dialect, file: &[u8], x: &mut Places) -> Result<State, Fault>
    requires small { length file.now ≤ file_limit }
    requires empty { x.old ≡ replicate table_length 0 }
    ensures { Walks d file.now x.new result }
{
    let mut st = State {
        current: Current::Outside,
        services: 0,
        settings: 0,
    };
    let mut at = 0;
    let mut line = 1;
    while at < file.len() {
        let end = text::scan::line_end(file, at);
        if file[at] == 35 {
            at = end + 1;
            line += 1;
            continue;
        }
        // A `match`: with `map_err` and `?` two goals stayed open, through the contract of the closure that takes the line along.
        match reader::steps::step(d, file, x, st, at, end, line) {
            Ok(next) => {
                st = next;
            }
            Err(refusal) => {
                return Err(Fault { refusal, line });
            }
        }
        at = end + 1;
        line += 1;
    }
    Ok(st)
}

// The reading of a file whose size is allowed and whose name says this kind.
fn read_kind(kind: FileKind, d: Dialect, file: &[u8], x: &mut Places) -> Reading
    requires small { length file.now ≤ file_limit }
    requires empty { x.old ≡ replicate table_length 0 }
    ensures { ReadsKind kind d file.now x.new result }
{
    let st = walk(d, file, x)?;
    verdicts::ending::ending(Some(kind), x, st)
}

// Reads a file, and leaves where its settings stand, those of each service in a row of their own, in the table. A refusal
// leaves the table as it was, empty.
pub fn read(d: Dialect, name: &[u8], file: &[u8], x: &mut Places) -> Reading
    requires empty { x.old ≡ replicate table_length 0 }
    ensures { ReadsFile d name.now file.now x.new result }
{
    if FILE_LIMIT < file.len() {
        return Err(Fault {
            refusal: Refusal::Size,
            line: 0,
        });
    }
    let Some(kind) = kind_of(d, name) else {
        return Err(Fault {
            refusal: Refusal::FileName,
            line: 0,
        });
    };
    let reading = read_kind(kind, d, file, x);
    match reading {
        Ok(_) => reading,
        Err(_) => {
            *x = [0; PLACES];
            reading
        }
    }
}
