//! Shows what a server sent (DAP 2.0). In come the bytes of a source, in any pieces; out go the DDS,
//! a line for each element and a line that says that all came, as `shown` of `dap_model` defines
//! them, or what the verdict of `specs/Verdict` says is wrong.
#![tactic(auto)]

mod beginning;
mod body;
mod body_outcome;
mod das_body;
mod data_line;
mod dds_body;
mod fetching;
mod holding;
mod host;
pub mod laws;
mod nowhere;
mod object;
mod opening;
mod outcome;
mod part;
mod reader;
mod reading;
mod replies;
mod reply;
mod showing;
mod stage;
mod text_body;
mod text_stage;

pub use body_outcome::BodyOutcome;
pub use fetching::{Fetched, fetch, fetch_all};
pub use host::{host_of, host_text};
pub use outcome::Outcome;
pub use reading::read_body;
pub use replies::{Replies, Stop};
pub use reply::read_reply;
pub use showing::show;
