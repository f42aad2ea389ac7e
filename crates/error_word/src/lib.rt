//! Whether a body is an Error object, whatever it was asked for (DAP 2.0, Error objects). In come the
//! bytes of a body, whole or in pieces; out goes whether its first word is `Error`, as `specs/Saying`
//! has it.
#![tactic(auto)]

mod bytes;
mod first_word;
mod whole;

pub use bytes::{is_sign, is_white};
pub use first_word::{FirstWord, Found};
pub use whole::{begins_at, says_error};
