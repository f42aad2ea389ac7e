//! The lines of printed DDS and DAS texts: a buffer and a piece in, the buffer with the piece behind
//! it out. The words and lines are those of `dap_model`.
#![tactic(auto)]

mod lines;
mod words;

pub use lines::{put, put_hex, put_line, put_number, put_spaces};
pub use words::{base_of_word, type_word};
