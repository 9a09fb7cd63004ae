// Headers: whether one may stand after the lines before it.
ghost use Rattle.std.specs.Prelude.{◌≡◌};
ghost use Rattle.rules.specs.Tables.{group_of};
ghost use Rattle.rules.specs.Sections.{serves};
ghost use Rattle.places.specs.Holds.{Spans};
ghost use Rattle.reader.specs.Headings.{slots_named, slots_open, slots_heading};

use places::rows::base_of;
use places::services::service_named;
use places::{LINES, Places};
use rules::{Group, Refusal};
use text::Dialect;

// Whether a group is a service.
pub fn is_service(g: Group) -> bool
    ensures { result ≡ serves g }
{
    g == Group::Service
}

// Whether a group was named before.
fn was_named(file: &[u8], x: &Places, services: usize, name: &[u8], g: Group) -> bool
    requires spans { Spans file.now x.now services }
    ensures { result ≡ slots_named file.now x.now services name.now g }
{
    if is_service(g) {
        return service_named(file, x, services, name);
    }
    let row = base_of(g, 0);
    x[LINES + row] != 0
}

// The listed group that a header opens, or why it may not stand here.
fn open_group(
    file: &[u8],
    x: &Places,
    services: usize,
    name: &[u8],
    g: Group,
) -> Result<Group, Refusal>
    requires spans { Spans file.now x.now services }
    ensures { result ≡ slots_open file.now x.now services name.now g }
{
    if was_named(file, x, services, name, g) {
        return Err(Refusal::RepeatedGroup);
    }
    if is_service(g) && 8 <= services {
        return Err(Refusal::ManyServices);
    }
    Ok(g)
}

// The group that a header opens, by its name, or why it may not stand here.
pub fn heading(
    d: Dialect,
    file: &[u8],
    x: &Places,
    services: usize,
    name: &[u8],
) -> Result<Group, Refusal>
    requires spans { Spans file.now x.now services }
    ensures { result ≡ slots_heading file.now x.now services name.now (group_of d name.now) }
{
    let g = tables::groups::group_of(d, name).ok_or(Refusal::UnknownGroup)?;
    open_group(file, x, services, name, g)
}
