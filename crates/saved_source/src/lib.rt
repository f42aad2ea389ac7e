//! Data responses that were saved (DAP 2.0, DODS). The bytes of a file come in, whole; its dataset goes
//! out, and, with the marks and the clauses of a constraint, the response for what the constraint leaves
//! of it, to a sink. They are `body` of `dap_model` over that dataset and those values, whichever of its
//! two spellings a Byte has in the file. No trees of values are kept: the values are found in the bytes
//! again as they go out.
#![tactic(auto)]

mod arrays;
mod body;
mod clauses;
mod containers;
mod cut;
pub mod laws;
mod members;
mod names;
mod put_value;
mod refusal;
mod renamed;
mod rows;
mod saved;
mod scalars;
mod sending;
mod verdict;

pub use body::SavedBody;
pub use refusal::{SavedBodyRefusal, SavedRefusal};
pub use saved::{Saved, hold_saved, read_saved};
