// The iwd file that is written of a join record, and of a ConnMan service.
ghost use Rattle.writer.specs.Writing.{writing, Writes};
ghost use Rattle.mover.specs.Demand.{Moves};
ghost use Rattle.demands.specs.Demands as Call;
ghost use Rattle.demands.specs.Telling.{TellsAnswer};

use records::JoinRecord;
use writer::Written;

// Writes the iwd file name of a record and its file, one into each buffer, in front of what they held. Refuses a record that is
// malformed (19), one that iwd has no place for (16) and a buffer that is too short (17), in this order; a refusal leaves both
// buffers as they were.
pub fn write_iwd(r: JoinRecord, servers: [[u8; 4]; 4], name: &mut [u8], file: &mut [u8]) -> Written
    ensures writes { Writes (writing r servers name.old file.old) name.old file.old name.new file.new result }
    ensures tells_answer { TellsAnswer (Call.write r servers name.old file.old) result.answer }
{
    writer::write_iwd(r, servers, name, file)
}

// Moves a service, counted from 1, of a ConnMan file under its name to iwd: writes the file name and the file of the service's
// record, one into each buffer, in front of what they held. Refuses what `check` refuses, then a service that there is not (18),
// then a service with a line that iwd has no place for (16, at the earliest such line), then a buffer that is too short (17); a
// refusal leaves both buffers as they were.
pub fn move_service(
    name: &[u8],
    file: &[u8],
    service: usize,
    name_out: &mut [u8],
    file_out: &mut [u8],
) -> Written
    ensures moves { Moves name.now file.now service name_out.old file_out.old name_out.new file_out.new result }
    ensures tells_answer { TellsAnswer (Call.move name.now file.now service name_out.old file_out.old) result.answer }
{
    mover::move_service(name, file, service, name_out, file_out)
}
