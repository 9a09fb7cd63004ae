// The settings of a ConnMan service.
ghost use Rattle.std.specs.Prelude.{◌≡◌};
ghost use Rattle.settings.specs.Settings.{service_settings};
ghost use Rattle.values.specs.Rows.{RowOf, RowGives};
ghost use Rattle.settings.specs.Asked.{service_answered, service_servers_after};

use crate::{ServiceAnswer, ServiceSettings, rows};
use addresses::Separator;
use places::rows::base_of;
use places::{KeyName, PLACES, Places};
use rules::Group;
use tables::asking;
use text::Dialect;

// The settings of a service, by its row.
fn service_row(file: &[u8], x: &Places, row: usize) -> ServiceSettings
    requires { RowOf Dialect.ConnMan file.now x.now row Group.Service }
    ensures { RowGives Dialect.ConnMan file.now x.now row Group.Service service_settings result }
{
    ServiceSettings {
        network: rows::network_settings(file, x, row),
        addresses: rows::address_settings(file, x, row),
    }
}

// The typed settings of a service, counted from 1, and its name servers. A refusal gives settings that are all absent and
// leaves the name servers as they were.
pub fn service_settings(
    name: &[u8],
    file: &[u8],
    service: usize,
    servers: &mut [[u8; 4]; 4],
) -> ServiceAnswer
    ensures value { result ≡ service_answered name.now file.now service }
    ensures servers_after { servers.new ≡ service_servers_after name.now file.now service servers.old }
{
    let mut x = [0; PLACES];
    let reading = pass::read(Dialect::ConnMan, name, file, &mut x);
    let answer = asking::asked_of(service, reading);
    match answer {
        Ok(()) => {
            let row = base_of(Group::Service, service);
            *servers = values::servers_at(Separator::Comma, file, &x, row, KeyName::Nameservers);
            ServiceAnswer {
                answer: Ok(()),
                settings: service_row(file, &x, row),
            }
        }
        Err(fault) => ServiceAnswer {
            answer: Err(fault),
            settings: ServiceSettings::default(),
        },
    }
}
