//! The attributes of a dataset as text (DAP 2.0, Dataset Attribute Structure), both ways. Attributes
//! come in and their printed text goes out, exactly `das` of `specs/Das`; or a text comes in and what it
//! says goes out, by the grammar of `specs/Grammar`, or where it goes wrong, by `specs/Reading`.
#![tactic(auto)]

mod dds_tokens;
mod entries;
mod laws;
mod levels;
mod printing;
mod reader;
mod refusal;
mod scan;
mod state;
mod steps;

pub use dds_tokens::dds_tokens_agree;
pub use entries::{Attribute, Attributes, Entry, Word};
pub use laws::{every_reading, one_reading, read_back};
pub use printing::print;
pub use reader::read;
pub use refusal::DasRefusal;
