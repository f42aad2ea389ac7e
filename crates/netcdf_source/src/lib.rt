//! The header of a netCDF classic file, versions 1, 2 and 5. The first bytes of a file come in; its
//! dataset, its attributes and the places of its elements go out, or the first thing that fails from
//! the front, by `specs/Grammar`, `specs/Mapping`, `specs/Attributes` and `specs/Layouts`.
#![tactic(auto)]

mod attribute;
mod attributes;
mod coordinates;
mod copies;
mod das;
mod dimensions;
mod extents;
mod external_type;
mod failure;
mod file;
mod header;
mod ids;
mod joining;
mod laws;
mod layouts;
mod leaves;
mod mapping;
mod names;
mod parts;
mod read;
mod refusal;
mod shape;
mod sizes;
mod texts;
mod variables;
mod version;
mod words;

pub use das::without_zeros;
use external_type::ExternalType;
pub use file::Header;
use header::{Dimension, Variable};
pub use laws::{
    dataset_has_words, dataset_is_well_formed, each_has_verdict, leaves_agree, one_verdict,
    values_are_placed, values_fit, zeros_are_cut,
};
pub use read::{read_front, read_header};
pub use refusal::HeaderRefusal;
use shape::Shape;
