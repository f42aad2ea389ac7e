//! The outside as traits with a written meaning: a shelf of files, bytes that come, bytes that go, each
//! with a count of its faults; and their forms in memory. What stands above is proved over every
//! shelf, source and sink.
#![tactic(auto)]

mod buffer;
mod calls;
mod dial;
mod door;
mod failed;
pub mod laws;
mod link;
mod memory_dial;
mod memory_door;
mod memory_link;
mod memory_shelf;
mod memory_sink;
mod memory_source;
mod search;
mod shelf;
mod streams;
mod sure_shelf;
mod sure_source;

pub use buffer::Buffer;
pub use dial::Dial;
pub use door::Door;
pub use failed::Failed;
pub use link::Link;
pub use memory_dial::MemDial;
pub use memory_door::MemDoor;
pub use memory_link::MemLink;
pub use memory_shelf::{MemFile, MemShelf};
pub use memory_sink::MemSink;
pub use memory_source::MemSource;
pub use shelf::Shelf;
pub use streams::{Sink, Source, put_all, take_some};
pub use sure_shelf::SureShelf;
pub use sure_source::SureSource;
