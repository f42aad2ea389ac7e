//! A constraint is applied to a dataset: a dataset, its index and a constraint come in; what each leaf
//! is marked with, and the constrained dataset, go out, or the first cause for which the constraint is
//! refused. `specs/Marks` says what a constraint marks, `specs/Items` and `specs/Clauses` have the
//! causes, and the constrained dataset is `constrained` of `dap_model`.
#![tactic(auto)]

mod clauses;
mod constrain;
mod copies;
mod grids;
mod items;
pub mod laws;
mod leaves;
mod marks;
mod members;
mod parts;
mod refusal;
mod resolver;
mod rows;
mod sequences;
mod slabs;

pub use marks::Marks;
pub use members::{Found, Members};
pub use parts::Part;
pub use refusal::Resolve;
pub use resolver::resolve;
