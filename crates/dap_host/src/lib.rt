//! The outside as this machine gives it: the files of a folder, the standard streams, and links over TCP. Each is a
//! few lines over the real thing, proved against its trait, and tells nothing of content.
#![tactic(auto)]

mod budget;
mod folder_shelf;
mod read_limits;
mod std_streams;
mod tcp;
mod tcp_link;
mod watch;
mod write_limits;

pub use budget::Budget;
pub use folder_shelf::FolderShelf;
pub use read_limits::ReadLimits;
pub use std_streams::{StdSink, StdSource};
pub use tcp::{TcpDial, TcpDoor};
pub use tcp_link::TcpLink;
pub use watch::Watch;
pub use write_limits::WriteLimits;
