//! The bytes of a data response (DAP 2.0, DODS). A netCDF header or a table comes in with the marks of a
//! constraint; the DDS, the line `Data:` and the values as XDR (RFC 4506) go out to a sink, the file read
//! in batches. They are `body` of `dap_model` over what the constraint leaves of the dataset.
#![tactic(auto)]

mod array;
mod body;
mod buffered;
mod elements;
mod fault;
mod fetch;
mod kept;
pub mod laws;
mod leaf;
mod leaves;
mod make;
mod numbers;
mod plans;
mod put;
mod refusal;
mod scalar;
mod stream;
mod streamed;
mod table_rows;
mod texts;
mod wanted;

pub use array::filler;
pub use body::Body;
pub use elements::send_elements;
pub use fault::Fault;
pub use make::{head_of, left_dds, room};
pub use put::{padding, put_string, put_word};
pub use refusal::BodyRefusal;
pub use scalar::zeros_before;
pub use streamed::{Streamed, streamed_of};
pub use wanted::count_within;
