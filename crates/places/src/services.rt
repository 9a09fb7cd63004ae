// Services: whether a name was given before.
ghost use Rattle.std.specs.Prelude.{◌≡◌};
ghost use Rattle.places.specs.Holds.{Spans, among};

use crate::store::value_at;
use crate::{NAMES, Places};

// Whether a name is that of one of the first n services.
pub fn service_named(file: &[u8], x: &Places, n: usize, name: &[u8]) -> bool
    requires spans { Spans file.now x.now n }
    ensures { result ≡ among file.now x.now n name.now }
{
    for i in (0..n).rev() {
        if text::words::equal(name, value_at(file, x, NAMES + i)) {
            return true;
        }
    }
    false
}
