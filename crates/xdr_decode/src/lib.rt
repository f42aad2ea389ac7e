//! Reads the values of a data response (DAP 2.0, DODS; RFC 4506). In come the bytes of a body: out of
//! memory, whole, and then its dataset and the values of its variables go out; or in pieces of any
//! length behind its `Data:` line, and then a line for each element goes to a sink, and no memory is
//! taken. Either way the first thing that is wrong is told with its kind and its place: the one
//! verdict that `specs/Verdict` and `specs/After` define.
#![tactic(auto)]

mod check;
mod data_line;
mod decode;
mod decoder;
mod field;
mod filled;
mod judge;
mod line;
mod next_field;
mod numbers;
mod path;
mod place;
mod trees;
mod value_text;
mod values;

pub use check::{Checked, check_all};
pub use decode::decode_all;
pub use decoder::{Decoder, Pushed};
pub use filled::{AllRefusal, Filled};
pub use place::elements;
pub use reply_faults::{Bad, BadField};
pub use value_text::put_shown_text;
