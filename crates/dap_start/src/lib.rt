//! The start of the program: `run` over the folder in which it was started, the standard streams and TCP. The
//! arguments come in; the number of the status goes out.
#![tactic(auto)]

mod start;
mod words;

pub use start::ended;
pub use words::{words_behind, words_of};
