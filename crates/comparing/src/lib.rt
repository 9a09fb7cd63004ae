// Comparing join records and their servers, every place of them.
//
// This is document 01's "Two records are equal when they agree in every place, unused ones included." What is compared is in
// specs/Same, and that it is equality in specs/SameLaws.
#![tactic(auto)]

ghost use Rattle.std.specs.Prelude.{◌≡◌};
ghost use Rattle.comparing.specs.Same.{same_record, same_servers};

use records::JoinRecord;

// Whether two records are the same.
pub fn same_record(a: JoinRecord, b: JoinRecord) -> bool
    ensures { result ≡ same_record a b }
{
    a == b
}

// Whether the servers beside two records are the same.
pub fn same_servers(s: [[u8; 4]; 4], t: [[u8; 4]; 4]) -> bool
    ensures { result ≡ same_servers s t }
{
    s == t
}
