//! The DDS of a dataset as text, both ways (DAP 2.0, Dataset Descriptor Structure). `print` takes a
//! dataset and gives its text, exactly `dds` of `dap_model`. `DdsReader` takes a text in pieces of any
//! length and gives its dataset, or the place of its first bad token, exactly by the grammar and the
//! rules of `dap_model`: `specs/Reading` says what bytes are to it, and `specs/After` which bytes it
//! stands after.
#![tactic(auto)]

mod count;
mod declarations;
mod declaring;
mod front;
mod keywords;
pub mod laws;
mod level;
mod lines;
mod lists;
mod measure;
mod parser;
mod printing;
mod reader;
mod refusal;
mod roles;
mod scan;
mod sign_steps;
mod state;
mod word_steps;
mod words;

pub use measure::length_within;
pub use printing::{print, print_short};
pub use reader::{DdsReader, DdsStep};
pub use refusal::PrintRefusal;
