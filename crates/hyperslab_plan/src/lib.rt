//! From a layout and hyperslabs (DAP 2.0, constraint expressions) to the places of the picked
//! elements in a file, in row-major order, and to the reads that fetch them in batches of at most
//! 65,536 bytes. `specs/Nested` says which places these are, `specs/Batches` what is read.
#![tactic(auto)]

mod batch;
mod laws;
mod limits;
mod plan;
mod shape;
mod slabs;
mod spacing;

pub use batch::{Batch, Run};
pub use laws::{batches_hold, picked_are_within, plans_cut, turns_are_whole};
pub use plan::Plan;
pub use spacing::Spacing;
