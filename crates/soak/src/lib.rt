//! Both ends over one generated file. A seed and a number of records come in: a netCDF classic file with two
//! record variables is generated (`specs/File`) and served over a link in memory, and the reply is read. Out
//! come four numbers of what was read (`specs/Numbers`).
#![tactic(auto)]

mod file;
mod laws;
mod numbers;
mod reply;
mod request;
mod round_trip;

pub use file::soak_file;
pub use laws::{bytes_are_counted, elements_are_counted, header_is_read, is_read, is_served};
pub use numbers::Numbers;
pub use reply::soak_reply;
pub use request::soak_request;
pub use round_trip::soak;
