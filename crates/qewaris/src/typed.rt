// The typed settings of a file.
ghost use Rattle.std.specs.Prelude.{◌≡◌};
ghost use Rattle.settings.specs.Asked.{iwd_answered, iwd_servers_after, service_answered, service_servers_after};
ghost use Rattle.demands.specs.Demands as Call;
ghost use Rattle.demands.specs.Telling.{TellsAnswer};

use settings::{IwdAnswer, ServiceAnswer};

// The settings of an iwd file, and its name servers in the lent array. A refusal gives settings that are all absent and
// leaves the array as it was.
pub fn iwd_settings(name: &[u8], file: &[u8], servers: &mut [[u8; 4]; 4]) -> IwdAnswer
    ensures value { result ≡ iwd_answered name.now file.now }
    ensures servers_after { servers.new ≡ iwd_servers_after name.now file.now servers.old }
    ensures tells_answer { TellsAnswer (Call.iwd_settings_lem name.now file.now servers.old) result.answer }
{
    settings::iwd::iwd_settings(name, file, servers)
}

// The settings of a ConnMan service, counted from 1, and its name servers in the lent array. A refusal gives settings that
// are all absent and leaves the array as it was.
pub fn service_settings(
    name: &[u8],
    file: &[u8],
    service: usize,
    servers: &mut [[u8; 4]; 4],
) -> ServiceAnswer
    ensures value { result ≡ service_answered name.now file.now service }
    ensures servers_after { servers.new ≡ service_servers_after name.now file.now service servers.old }
    ensures tells_answer { TellsAnswer (Call.service_settings_lem name.now file.now service servers.old) result.answer }
{
    settings::services::service_settings(name, file, service, servers)
}
