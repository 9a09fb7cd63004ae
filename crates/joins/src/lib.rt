// The join record from the rows of the table of places: document 01's section "The join record".
//
// The definitions are in specs/Joins; that a Passphrase line is never lost and that every record answered is well formed, in
// specs/Saturday and specs/Answered. `parts` reads one part of a record each, by the rows of the table of places;
// `joining` puts them together.
#![tactic(auto)]

pub mod joining;
pub mod parts;

use put::Bounded;
use records::{Credential, JoinRecord};
use rules::Answer;

// The answer, and the record where it is good; a refused answer's record is all zero. No Result: document 01 wants "all other result fields
// zero" of a refusal, and demands `Demand1Refusal` says it of this record.
#[derive(Clone, Copy)]
pub struct RecordAnswer {
    pub answer: Answer,
    pub record: JoinRecord,
}

// A record's credential with its places.
#[derive(Clone, Copy)]
pub struct Login {
    pub credential: Credential,
    pub passphrase: Bounded<63>,
    pub key: [u8; 32],
}
