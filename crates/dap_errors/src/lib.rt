//! The causes for which a request is refused, and the Error objects that carry them: a cause in, its
//! code, HTTP status, message and printed object out. `specs/Causes` has the table of causes, and
//! `specs/Printed` the text of an Error object (DAP 2.0, Error objects).
#![tactic(auto)]

mod cause;
mod code_word;
mod fields;
mod file_cause;
mod found;
mod laws;
mod object;
mod print;
mod read;
mod spot;
mod stray;

pub use cause::{Cause, code, message, status};
pub use file_cause::FileCause;
pub use laws::{one_reading, read_back};
pub use object::{ErrorObject, ErrorRefusal};
pub use print::print_error;
pub use read::read_error;
pub use spot::Spot;
