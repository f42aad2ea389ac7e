//! Values where they stand in the bytes of a data response that was judged good (DAP 2.0, DODS; RFC 4506).
//! In come a declaration and the bytes from its first one on; out go the bytes of its own, and what stands
//! behind them. Nothing is copied and no memory is taken.
#![tactic(auto)]

mod arrays;
mod elements;
mod members;
mod rows;
mod scalars;

pub use arrays::{behind_array, elements_of};
pub use elements::behind;
pub use members::{behind_member, behind_members};
pub use rows::{behind_cells, behind_rows, is_row};
pub use scalars::{fill, first_word, split, value};
