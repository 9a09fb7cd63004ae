// The round trip: what the writer writes reads back as the record that was written.
//
// There is no code here. The theorem is in specs/RoundTrip, and of structs in specs/Structs; `reading_back` says it of the code.
#![tactic(auto)]
