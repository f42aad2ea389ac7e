//! HTTP/1.1 (RFC 9112) as a data server and its client speak it. In come the bytes of requests and
//! of replies, in pieces of any length; out go heads, targets, and the bytes of bodies with their
//! framing put on or taken off. `specs/Requests`, `specs/Replies`, `specs/Chunks` and `specs/Frames`
//! say what these are.
#![tactic(auto)]

mod body_parts;
mod chunk_step;
mod coding;
mod escapes;
mod fields;
mod first_byte;
mod framer;
mod framing;
mod gathered;
mod head_judge;
mod head_reader;
mod intake;
mod kind;
mod last_chunk;
pub mod laws;
mod reply_judge;
mod reply_reader;
mod sent;
mod target;
mod texts;
mod unframer;
mod url;

pub use body_parts::{Arrived, BodyParts};
pub use coding::Coding;
pub use framer::Framer;
pub use framing::Framing;
pub use head_reader::{Head, HeadRead, HeadReader};
pub use kind::Kind;
pub use reply_reader::{ReplyRead, ReplyReader};
pub use sent::{data_head, error_reply, put_framed, text_reply};
pub use target::{Target, TargetRefusal};
pub use texts::{memory_reply, reply_head, request_bytes, version_text};
pub use unframer::{Unframed, Unframer};
pub use url::{Url, UrlRefusal};
