use dap_errors::Cause;
use dap_http::Kind;
use dap_types::{Bytes, List};
use join_source::JoinBody;
use saved_source::SavedBody;
use xdr_encode::Body;

/// What a target is answered with, with all memory that the answer takes. `F` is a file of the shelf.
#[derive(Drop)]
pub enum Prepared<F> {
    /// A text of a kind that is no data.
    Text { kind: Kind, text: Bytes },
    /// A data response, and the file that it reads as it is streamed.
    Body { body: Body, file: F },
    /// A data response for what is left of a saved one. It has its values.
    Saved { body: SavedBody },
    /// A data response for what is left of joined files, and these files, which it reads as it is streamed.
    Joined { body: JoinBody, files: List<F> },
    /// The first cause for which there is none.
    Refuse(Cause),
    /// The shelf failed.
    ShelfFault,
    /// Memory was wanted.
    Memory,
}
