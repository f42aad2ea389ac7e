//! Saves a data response as a netCDF classic file (netCDF classic format specification). In come a
//! dataset with its values, a source of a body, or a dial and a URL; out goes, to a sink, the file that
//! `specs/File` defines for them, or the first cause why there is none, by `specs/Causes`.
#![tactic(auto)]

mod causes;
mod dims;
mod fetching;
mod header;
mod judging;
mod laws;
mod lent;
mod names;
mod plan;
mod room;
mod same;
mod saving;
mod sizes;
mod stored;
mod table;
mod tops;
mod values;
mod write;

pub use fetching::save_url;
pub use laws::{first_bytes_decide, names_are_undone, reads_back, reads_same, undone_are_bytes};
pub use saving::save;
pub use stored::{Stored, Why};
pub use write::write_cdf;
