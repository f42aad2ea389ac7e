//! A gateway: what its clients ask it gets from another server of DAP 2.0, and keeps small whole bodies in
//! a cache. In come a link, a dial and a cache; out go a reply, a link that came back to the dial, and the
//! cache. `specs/Turns` says what a connection comes to, `specs/Backed` what a cache is worth.
#![tactic(auto)]

mod answering;
mod cache;
mod connection;
pub mod laws;
mod ready;
mod relayed;
mod replies;
mod upstream;
mod wanted;

pub use cache::Cache;
pub use connection::relay_connection;
pub use relayed::Relayed;
