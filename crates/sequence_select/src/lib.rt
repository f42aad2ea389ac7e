//! The rows of a table that a constraint keeps (DAP 2.0, constraint expressions: selections). A table
//! and a constraint that was resolved on its dataset come in; a truth value for each row goes out, by
//! `kept` of `dap_model` and the constraint's `selections`, which stand in `specs/Selections`.
#![tactic(auto)]

mod clauses;
mod comparison;
mod constants;
pub mod laws;
mod numbers;
mod relation;
mod rows;
mod texts;
mod workers;

pub use clauses::{Tests, holds};
pub use comparison::Test;
pub use rows::keep;
pub use workers::mask;
