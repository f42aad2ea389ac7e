//! Gates for the tests of workers.
#![tactic(auto)]

mod meeting;
mod roll;

pub use meeting::Meeting;
pub use roll::Roll;
