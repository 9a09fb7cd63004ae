// What a caller is answered who asks for more than a file's reading: the file's own refusals come first.
ghost use Rattle.std.specs.Prelude.{◌≡◌};
ghost use Rattle.rules.specs.Asking.{asked, asked_of};

use rules::{Answer, Fault, Reading, Refusal};

// What is answered of a file: good where it is accepted.
pub fn asked(r: Reading) -> Answer
    ensures { result ≡ asked r }
{
    r?;
    Ok(())
}

// What is answered of a service by its number, after the file's own refusals: 18 where there is none with this number.
pub fn asked_of(service: usize, r: Reading) -> Answer
    ensures { result ≡ asked_of service r }
{
    let counts = r?;
    if service < 1 || counts.services < service {
        return Err(Fault {
            refusal: Refusal::NoService,
            line: 0,
        });
    }
    Ok(())
}
