//! What can be wrong with a reply or with a data response in it (DAP 2.0, RFC 4506, RFC 9112): a kind for each rule
//! that a client looks at, with its name, and the place. No bytes are looked at here.
#![tactic(auto)]

mod bad;

pub use bad::{Bad, BadField};
