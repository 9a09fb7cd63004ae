// The settings of an iwd file.
ghost use Rattle.std.specs.Prelude.{◌≡◌};
ghost use Rattle.settings.specs.Asked.{iwd_answered, iwd_servers_after};
ghost use Rattle.settings.specs.Rows.{IwdRowsGive};
ghost use Rattle.values.specs.Rows.{IwdRows};

use crate::{IwdAnswer, IwdSettings, rows};
use addresses::Separator;
use places::{IPV4_ROW, KeyName, PLACES, Places};
use text::Dialect;

// The settings of an iwd file, by the rows of its four groups.
fn iwd_rows(file: &[u8], x: &Places) -> IwdSettings
    requires { IwdRows file.now x.now }
    ensures { IwdRowsGive file.now x.now result }
{
    IwdSettings {
        general: rows::general_settings(file, x),
        security: rows::security_settings(file, x),
        ipv4: rows::ipv4_settings(file, x),
        ipv6: rows::ipv6_settings(file, x),
    }
}

// The typed settings of an iwd file, and its name servers. A refusal gives settings that are all absent and leaves the name
// servers as they were.
pub fn iwd_settings(name: &[u8], file: &[u8], servers: &mut [[u8; 4]; 4]) -> IwdAnswer
    ensures value { result ≡ iwd_answered name.now file.now }
    ensures servers_after { servers.new ≡ iwd_servers_after name.now file.now servers.old }
{
    let mut x = [0; PLACES];
    let reading = pass::read(Dialect::Iwd, name, file, &mut x);
    match reading {
        Ok(_) => {
            *servers = values::servers_at(Separator::Spaces, file, &x, IPV4_ROW, KeyName::Dns);
            IwdAnswer {
                answer: Ok(()),
                settings: iwd_rows(file, &x),
            }
        }
        Err(fault) => IwdAnswer {
            answer: Err(fault),
            settings: IwdSettings::default(),
        },
    }
}
