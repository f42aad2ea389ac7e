//! From the raw bytes of a batch to the XDR forms of its elements (RFC 4506; DAP 2.0, arrays), by 1 to
//! 64 workers who each fill a part of the output. `specs/Elements` says which bytes these are.
#![tactic(auto)]

mod chunk;
mod copies;
mod gate;
mod rows;
mod shorts;
mod spots;
mod workers;

pub use gate::{Gate, NoGate};
pub use workers::fill;
