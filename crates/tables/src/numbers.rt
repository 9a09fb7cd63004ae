// The number of each refusal, as document 01's table gives it, and its words ask for: "For each answer that is an enum, a definition gives
// this paper's number". It is the one place where a refusal becomes a number.
ghost use Rattle.std.specs.Prelude.{◌≡◌};
ghost use Rattle.rules.specs.Numbers.{number_of};

use rules::Refusal;

// The number of a refusal.
pub fn number_of(r: Refusal) -> u8
    ensures { result ≡ number_of r }
{
    match r {
        Refusal::Size => 1,
        Refusal::FileName => 2,
        Refusal::Unrecognized => 3,
        Refusal::Extension => 4,
        Refusal::BadHeader => 5,
        Refusal::UnknownGroup => 6,
        Refusal::RepeatedGroup => 7,
        Refusal::NoGroup => 8,
        Refusal::UnknownKey => 9,
        Refusal::RepeatedKey => 10,
        Refusal::ValueText => 11,
        Refusal::ValueKind => 12,
        Refusal::ManyServices => 13,
        Refusal::Missing => 14,
        Refusal::Contradiction => 15,
        Refusal::NoPlace => 16,
        Refusal::ShortBuffer => 17,
        Refusal::NoService => 18,
        Refusal::Malformed => 19,
    }
}
