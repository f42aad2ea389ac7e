//! The server. The target of a request comes in, and a shelf of files: the text of the answer goes out,
//! or the body of a data response that reads its files as it is streamed, or the first cause for which
//! there is none. `specs/Results` says what a target asks of files, `specs/Files` what a file has.
#![tactic(auto)]

mod answer;
mod answers_by_kind;
mod bodies;
mod by_form;
mod connection;
mod data_body;
mod front;
mod joined_answer;
mod joined_answers_by_kind;
mod joined_texts;
mod joined_values;
pub mod laws;
mod marked;
mod members;
mod no_answer;
mod open;
mod open_joined;
mod open_saved;
mod prepared;
mod preparing;
mod put;
mod reply_outcome;
mod saved_answer;
mod saved_file;
mod saved_values;
mod served;
mod texts;
mod values;

pub use connection::serve_connection;
pub use prepared::Prepared;
pub use preparing::prepare;
pub use served::{Ending, Served};
