// The refusal of a line that breaks a rule by itself, and of a value that is not good: what a `?` makes of either.
ghost use Rattle.std.specs.Prelude.{◌≡◌};
ghost use Rattle.rules.specs.Faults.{break_of, broken_of};

use crate::Refusal;
use kinds::Broken;
use lines::Break;

impl From<Break> for Refusal {
    ghost from_gives = { λ b r. r ≡ break_of b };

    fn from(b: Break) -> Refusal {
        match b {
            Break::Unrecognized => Refusal::Unrecognized,
            Break::Extension => Refusal::Extension,
            Break::BadHeader => Refusal::BadHeader,
        }
    }
}

impl From<Broken> for Refusal {
    ghost from_gives = { λ b r. r ≡ broken_of b };

    fn from(b: Broken) -> Refusal {
        match b {
            Broken::Text => Refusal::ValueText,
            Broken::Kind => Refusal::ValueKind,
        }
    }
}
