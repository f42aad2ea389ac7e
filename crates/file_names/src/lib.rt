//! From the name of a file to that of its dataset. `specs/Names` says which bytes it has.
#![tactic(auto)]

mod names;

pub use names::{dataset_id, last_segment};
