// The number of a service, from its line.
ghost use Rattle.std.specs.Prelude.{◌≡◌};
ghost use Rattle.intake.specs.Number.{service_number};

use text::classes;

// The number that 1 to 3 decimal digits write, and 0 for any other line, in document 01's words: "anything but 1 to 3 decimal digits counts
// as 0".
pub fn service_number(line: &[u8]) -> usize
    ensures { result ≡ service_number line.now }
{
    if 3 < line.len() {
        return 0;
    }
    let mut v: usize = 0;
    for &c in line {
        if !classes::is_digit(c) {
            return 0;
        }
        v = v * 10 + (c - 48) as usize;
    }
    v
}
