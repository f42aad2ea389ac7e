//! netCDF files that are joined along the record dimension (netCDF classic format). The list of their names, their
//! headers and the marks of a constraint come in; one dataset and the body of its data response go out, each record
//! read from the file that has it. The values are `joined_trees` of `specs/Trees`.
#![tactic(auto)]

mod body;
mod cutting;
mod joined;
mod joining;
pub mod laws;
mod list;
mod make;
mod name;
mod piece;
mod pieces;
mod plans;
mod refusal;
mod send;
mod stream;
mod texts;

pub use body::JoinBody;
pub use joined::Joined;
pub use joining::join;
pub use list::read_list;
pub use refusal::{JoinRefusal, ListRefusal};
