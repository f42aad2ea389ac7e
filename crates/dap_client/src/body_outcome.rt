use dap_types::Bytes;
use xdr_decode::BadField;

/// What a reply brought, read into memory.
#[derive(Debug, Drop)]
pub enum BodyOutcome {
    /// A good body.
    Good(Bytes),
    /// An Error object (DAP 2.0, Error objects), as it came.
    ServerError(Bytes),
    /// What is wrong with it, and where.
    Bad(BadField),
    /// The body has more bytes than are wanted.
    TooLarge,
    /// The source failed.
    ReadFault,
    /// No memory was left.
    Memory,
}
