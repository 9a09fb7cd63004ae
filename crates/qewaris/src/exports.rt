// The C boundary: the entry points with the structs of `boundary` and `record_layout`.
//
// They only translate: each calls the entry point of its name and lays out what it answers. C knows no generics, so that each has a name and
// a function of its own, those that are alike too. Crate `qewaris_c` hands them to C and
// Rust, and `include/qewaris.h` declares them there. None has a `requires`; a record that is brought in with a code that there is
// not is refused with 19.
ghost use Rattle.std.specs.Prelude.{◌≡◌};
ghost use Rattle.boundary.specs.Answers.{Leaves};
ghost use Rattle.demands.specs.Calls.{check_iwd, check_connman, iwd_settings_of, service_settings_of, iwd_passphrase, iwd_domain_name, global_name, global_description, service_name, service_passphrase, service_domain, iwd_record_of, service_record_of, write_iwd, move_service};

use boundary::{
    CIwdSettings, CReading, CRecordAnswer, CServiceSettings, CText, CWritten, answer_layout,
    settings_layout,
};
use lookups::by_place;
use record_layout::CRecord;
use rules::Refusal;
use text::Dialect;

pub fn qewaris_check_iwd(name: &[u8], file: &[u8]) -> CReading
    ensures { result ≡ check_iwd name.now file.now }
{
    answer_layout::reading_at(crate::check(Dialect::Iwd, name, file))
}

pub fn qewaris_check_connman(name: &[u8], file: &[u8]) -> CReading
    ensures { result ≡ check_connman name.now file.now }
{
    answer_layout::reading_at(crate::check(Dialect::ConnMan, name, file))
}

pub fn qewaris_iwd_settings_of(name: &[u8], file: &[u8]) -> CIwdSettings
    ensures { result ≡ iwd_settings_of name.now file.now }
{
    let mut servers = [[0; 4]; 4];
    let answer = crate::typed::iwd_settings(name, file, &mut servers);
    settings_layout::iwd_settings_at(answer, servers)
}

pub fn qewaris_service_settings_of(name: &[u8], file: &[u8], service: usize) -> CServiceSettings
    ensures { result ≡ service_settings_of name.now file.now service }
{
    let mut servers = [[0; 4]; 4];
    let answer = crate::typed::service_settings(name, file, service, &mut servers);
    settings_layout::service_settings_at(answer, servers)
}

pub fn qewaris_iwd_passphrase(name: &[u8], file: &[u8]) -> CText
    ensures { result ≡ iwd_passphrase name.now file.now }
{
    answer_layout::text_at(by_place::iwd_passphrase(name, file))
}

pub fn qewaris_iwd_domain_name(name: &[u8], file: &[u8]) -> CText
    ensures { result ≡ iwd_domain_name name.now file.now }
{
    answer_layout::text_at(by_place::iwd_domain_name(name, file))
}

pub fn qewaris_global_name(name: &[u8], file: &[u8]) -> CText
    ensures { result ≡ global_name name.now file.now }
{
    answer_layout::text_at(by_place::global_name(name, file))
}

pub fn qewaris_global_description(name: &[u8], file: &[u8]) -> CText
    ensures { result ≡ global_description name.now file.now }
{
    answer_layout::text_at(by_place::global_description(name, file))
}

pub fn qewaris_service_name(name: &[u8], file: &[u8], service: usize) -> CText
    ensures { result ≡ service_name name.now file.now service }
{
    answer_layout::text_at(by_place::service_name(name, file, service))
}

pub fn qewaris_service_passphrase(name: &[u8], file: &[u8], service: usize) -> CText
    ensures { result ≡ service_passphrase name.now file.now service }
{
    answer_layout::text_at(by_place::service_passphrase(name, file, service))
}

pub fn qewaris_service_domain(name: &[u8], file: &[u8], service: usize) -> CText
    ensures { result ≡ service_domain name.now file.now service }
{
    answer_layout::text_at(by_place::service_domain(name, file, service))
}

pub fn qewaris_iwd_record(name: &[u8], file: &[u8]) -> CRecordAnswer
    ensures { result ≡ iwd_record_of name.now file.now }
{
    let mut servers = [[0; 4]; 4];
    let answer = crate::joined::iwd_record(name, file, &mut servers);
    answer_layout::record_answer_at(answer, servers)
}

pub fn qewaris_service_record(name: &[u8], file: &[u8], service: usize) -> CRecordAnswer
    ensures { result ≡ service_record_of name.now file.now service }
{
    let mut servers = [[0; 4]; 4];
    let answer = crate::joined::service_record(name, file, service, &mut servers);
    answer_layout::record_answer_at(answer, servers)
}

pub fn qewaris_write_iwd(brought: CRecord, name_out: &mut [u8], file_out: &mut [u8]) -> CWritten
    ensures { Leaves (write_iwd brought name_out.old file_out.old) name_out.new file_out.new result }
{
    let Some(record) = record_layout::known_record(brought) else {
        return answer_layout::written_at(writer::refused(Refusal::Malformed, 0));
    };
    let servers = record_layout::fours(brought.servers);
    answer_layout::written_at(crate::files::write_iwd(record, servers, name_out, file_out))
}

pub fn qewaris_move_service(
    name: &[u8],
    file: &[u8],
    service: usize,
    name_out: &mut [u8],
    file_out: &mut [u8],
) -> CWritten
    ensures { Leaves (move_service name.now file.now service name_out.old file_out.old) name_out.new file_out.new result }
{
    answer_layout::written_at(crate::files::move_service(name, file, service, name_out, file_out))
}
