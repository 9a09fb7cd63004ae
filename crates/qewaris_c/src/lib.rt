// The static library: the functions that programs in C and Rust call. `include/qewaris.h` declares them.
//
// Each is the function of its name in `qewaris`, in `exports` or `version`, and has its contract. The header declares each by its name, so
// that each is a function here. A slice comes from C as a pointer
// and a length; a null pointer with length 0 is an empty one.
#![tactic(auto)]

ghost use Rattle.std.specs.Prelude.{◌≡◌};
ghost use Rattle.boundary.specs.Answers.{Leaves};
ghost use Rattle.demands.specs.Calls.{check_iwd, check_connman, iwd_settings_of, service_settings_of, iwd_passphrase, iwd_domain_name, global_name, global_description, service_name, service_passphrase, service_domain, iwd_record_of, service_record_of, write_iwd, move_service};
ghost use Rattle.qewaris.specs.Version.{version, layout};

use boundary::{CIwdSettings, CReading, CRecordAnswer, CServiceSettings, CText, CWritten};
use qewaris::exports;
use record_layout::CRecord;

#[unsafe(no_mangle)]
pub extern "C" fn qewaris_check_iwd(name: &[u8], file: &[u8]) -> CReading
    ensures { result ≡ check_iwd name.now file.now }
{
    exports::qewaris_check_iwd(name, file)
}

#[unsafe(no_mangle)]
pub extern "C" fn qewaris_check_connman(name: &[u8], file: &[u8]) -> CReading
    ensures { result ≡ check_connman name.now file.now }
{
    exports::qewaris_check_connman(name, file)
}

#[unsafe(no_mangle)]
pub extern "C" fn qewaris_iwd_settings_of(name: &[u8], file: &[u8]) -> CIwdSettings
    ensures { result ≡ iwd_settings_of name.now file.now }
{
    exports::qewaris_iwd_settings_of(name, file)
}

#[unsafe(no_mangle)]
pub extern "C" fn qewaris_service_settings_of(
    name: &[u8],
    file: &[u8],
    service: usize,
) -> CServiceSettings
    ensures { result ≡ service_settings_of name.now file.now service }
{
    exports::qewaris_service_settings_of(name, file, service)
}

#[unsafe(no_mangle)]
pub extern "C" fn qewaris_iwd_passphrase(name: &[u8], file: &[u8]) -> CText
    ensures { result ≡ iwd_passphrase name.now file.now }
{
    exports::qewaris_iwd_passphrase(name, file)
}

#[unsafe(no_mangle)]
pub extern "C" fn qewaris_iwd_domain_name(name: &[u8], file: &[u8]) -> CText
    ensures { result ≡ iwd_domain_name name.now file.now }
{
    exports::qewaris_iwd_domain_name(name, file)
}

#[unsafe(no_mangle)]
pub extern "C" fn qewaris_global_name(name: &[u8], file: &[u8]) -> CText
    ensures { result ≡ global_name name.now file.now }
{
    exports::qewaris_global_name(name, file)
}

#[unsafe(no_mangle)]
pub extern "C" fn qewaris_global_description(name: &[u8], file: &[u8]) -> CText
    ensures { result ≡ global_description name.now file.now }
{
    exports::qewaris_global_description(name, file)
}

#[unsafe(no_mangle)]
pub extern "C" fn qewaris_service_name(name: &[u8], file: &[u8], service: usize) -> CText
    ensures { result ≡ service_name name.now file.now service }
{
    exports::qewaris_service_name(name, file, service)
}

#[unsafe(no_mangle)]
pub extern "C" fn qewaris_service_passphrase(name: &[u8], file: &[u8], service: usize) -> CText
    ensures { result ≡ service_passphrase name.now file.now service }
{
    exports::qewaris_service_passphrase(name, file, service)
}

#[unsafe(no_mangle)]
pub extern "C" fn qewaris_service_domain(name: &[u8], file: &[u8], service: usize) -> CText
    ensures { result ≡ service_domain name.now file.now service }
{
    exports::qewaris_service_domain(name, file, service)
}

#[unsafe(no_mangle)]
pub extern "C" fn qewaris_iwd_record(name: &[u8], file: &[u8]) -> CRecordAnswer
    ensures { result ≡ iwd_record_of name.now file.now }
{
    exports::qewaris_iwd_record(name, file)
}

#[unsafe(no_mangle)]
pub extern "C" fn qewaris_service_record(name: &[u8], file: &[u8], service: usize) -> CRecordAnswer
    ensures { result ≡ service_record_of name.now file.now service }
{
    exports::qewaris_service_record(name, file, service)
}

#[unsafe(no_mangle)]
pub extern "C" fn qewaris_write_iwd(
    brought: CRecord,
    name_out: &mut [u8],
    file_out: &mut [u8],
) -> CWritten
    ensures { Leaves (write_iwd brought name_out.old file_out.old) name_out.new file_out.new result }
{
    exports::qewaris_write_iwd(brought, name_out, file_out)
}

#[unsafe(no_mangle)]
pub extern "C" fn qewaris_move_service(
    name: &[u8],
    file: &[u8],
    service: usize,
    name_out: &mut [u8],
    file_out: &mut [u8],
) -> CWritten
    ensures { Leaves (move_service name.now file.now service name_out.old file_out.old) name_out.new file_out.new result }
{
    exports::qewaris_move_service(name, file, service, name_out, file_out)
}

#[unsafe(no_mangle)]
pub extern "C" fn qewaris_version() -> u32
    ensures { result ≡ version }
{
    qewaris::version::qewaris_version()
}

#[unsafe(no_mangle)]
pub extern "C" fn qewaris_layout_2() -> u32
    ensures { result ≡ layout }
{
    qewaris::version::qewaris_layout_2()
}
