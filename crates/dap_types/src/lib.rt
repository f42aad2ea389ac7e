//! The values and declarations of DAP 2.0 that every other crate speaks of: names, arrays,
//! variables, datasets, and the values of each. `specs/Model` has them as plain data, and
//! `specs/WellFormed` says which datasets are well formed.
#![tactic(auto)]

mod bytes;
mod declarations;
mod held;
mod index;
pub mod limits;
mod list;
mod memory;
mod names;
mod size;
mod slabs;
mod unfit;
mod values;
mod well_formed;

pub use bytes::{Bytes, Id, Name};
pub use declarations::{ArrayDecl, BaseType, Column, Dataset, Decl, Dim};
pub use index::Index;
pub use list::List;
pub use memory::Memory;
pub use names::Names;
pub use slabs::{Layout, Slab};
pub use unfit::Unfit;
pub use values::{Tree, Value};
pub use well_formed::check;
