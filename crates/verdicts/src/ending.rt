// The end of a file whose lines are all good: its groups are judged as a whole.
ghost use Rattle.std.specs.Prelude.{◌≡◌, ◌≤◌};
ghost use Rattle.verdicts.specs.Ending.{slots_groups, EndSays};

use crate::FileKind;
use crate::closing::services_fault;
use crate::file_rules::file_fault;
use places::{Places, State};
use rules::{Counts, Fault, Reading};

// The first fault of the groups: of the services in file order, or of an iwd file; none where the name is no file's.
fn groups_fault(kind: Option<FileKind>, x: &Places, services: usize) -> Option<Fault>
    requires { services ≤ 8 }
    ensures { result ≡ slots_groups kind x.now services }
{
    match kind? {
        FileKind::Iwd(suffix) => file_fault(suffix, x),
        FileKind::ConnMan => services_fault(x, services),
    }
}

// The reading of a file whose lines are all good, by the kind that its name says, if it is a file's name.
pub fn ending(kind: Option<FileKind>, x: &Places, st: State) -> Reading
    requires { st.services ≤ 8 }
    ensures { EndSays kind st x.now result }
{
    match groups_fault(kind, x, st.services) {
        None => Ok(Counts {
            settings: st.settings,
            services: st.services,
        }),
        Some(fault) => Err(fault),
    }
}
