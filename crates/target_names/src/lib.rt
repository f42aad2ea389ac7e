//! The names that a target may have (this project's): a path of segments, of which none is hidden or leads upwards.
//! Bytes come in; whether they are such a name (`specs/Names`) goes out.
#![tactic(auto)]

mod name;

pub use name::is_name;
