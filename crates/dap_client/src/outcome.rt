use dap_types::Bytes;
use xdr_decode::BadField;

/// How the showing of a reply ended.
#[derive(Debug, Drop)]
pub enum Outcome {
    /// The body is good and was shown; it has so many bytes.
    Complete { bytes: u64 },
    /// The body is an Error object (DAP 2.0, Error objects) of this code and message.
    ServerError { code: i32, message: Bytes },
    /// What is wrong with it, and where.
    BadReply(BadField),
    /// The source failed.
    ReadFault,
    /// The sink failed.
    WriteFault,
    /// The link could not be had.
    LinkFault,
    /// No memory was left. Nothing was put to the sink.
    Memory,
}
