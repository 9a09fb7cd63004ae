// The move of a ConnMan service to iwd: the file name and the file of the service's record, or the refusal.
//
// The definition is in specs/Moves, demand 3 in specs/Demand and its theorem in proofs/Theorem. `unplaced` finds the earliest
// line that iwd has no place for.
#![tactic(auto)]

pub mod unplaced;

ghost use Rattle.values.specs.Rows.{RowOf};
ghost use Rattle.mover.specs.Demand.{Moves};
ghost use Rattle.mover.specs.Places.{MovesBy};

use addresses::Separator;
use places::rows::base_of;
use places::{KeyName, PLACES, Places};
use rules::{Group, Refusal};
use tables::asking;
use text::Dialect;
use writer::Written;

// The move of a service that there is, by its row.
fn move_found(
    file: &[u8],
    x: &Places,
    row: usize,
    name_out: &mut [u8],
    file_out: &mut [u8],
) -> Written
    requires { RowOf Dialect.ConnMan file.now x.now row Group.Service }
    ensures { MovesBy file.now x.now row name_out.old file_out.old name_out.new file_out.new result }
{
    if let Some(line) = unplaced::unplaced_line(file, x, row) {
        return writer::refused(Refusal::NoPlace, line);
    }
    let mut servers = [[0u8; 4]; 4];
    let count = values::list_at(
        &mut servers,
        Separator::Comma,
        file,
        x,
        row,
        KeyName::Nameservers,
    );
    let record = joins::joining::service_join(file, x, row, count);
    writer::write_placed(record, servers, name_out, file_out)
}

// Moves a service, counted from 1, of a ConnMan file under its name: the new file name goes into the first lent buffer and the
// new file into the second, and the answer counts the new bytes of each. A refusal leaves both as they were.
pub fn move_service(
    name: &[u8],
    file: &[u8],
    service: usize,
    name_out: &mut [u8],
    file_out: &mut [u8],
) -> Written
    ensures { Moves name.now file.now service name_out.old file_out.old name_out.new file_out.new result }
{
    let mut x = [0; PLACES];
    let reading = pass::read(Dialect::ConnMan, name, file, &mut x);
    let answer = asking::asked_of(service, reading);
    match answer {
        Ok(()) => {
            let row = base_of(Group::Service, service);
            move_found(file, &x, row, name_out, file_out)
        }
        Err(fault) => writer::refused(fault.refusal, fault.line),
    }
}
