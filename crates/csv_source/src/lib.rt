//! The table of a CSV file. The bytes of a file and its name come in; its columns, its cells and its
//! dataset go out, or the first thing that is wrong. They are those of `table_of` in `specs/Causes`,
//! over the records that the crate `csv` defines for the bytes.
#![tactic(auto)]

mod cell;
mod fields;
mod header;
pub mod laws;
mod names;
mod numbers;
mod read;
mod records;
mod refusal;
mod table;
mod width;

pub use cell::Cell;
pub use read::read_table;
pub use refusal::TableRefusal;
pub use table::Table;
