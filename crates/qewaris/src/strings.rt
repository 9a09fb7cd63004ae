// The string lookups: the value of a string setting as the part of the lent file where it stands, still escaped. They are those of
// crate `lookups`, with its contracts.
//
// `number` and `line` are result fields, set on every answer: document 01's number, and the line of the refusal or of the
// setting, 0 where it is absent. A refusal and an absent setting hand back the empty part.
pub use lookups::{
    global_description, global_name, iwd_domain_name, iwd_passphrase, service_domain, service_name,
    service_passphrase,
};
