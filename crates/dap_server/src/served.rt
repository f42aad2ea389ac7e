/// How a connection was served.
#[derive(Clone, Copy, Debug, PartialEq, Eq)]
pub struct Served {
    /// The whole replies.
    pub replies: u32,
    /// The status of the last of them, or 0.
    pub status: u16,
    pub ending: Ending,
}

/// How a connection ended.
#[derive(Clone, Copy, Debug, PartialEq, Eq)]
pub enum Ending {
    /// The last reply said that it would.
    Closed,
    /// The peer sent no further request.
    Gone,
    /// Bytes of a request could not be taken.
    ReadFault,
    /// A reply could not be put whole.
    WriteFault,
    /// The file could not be read further while its values went out.
    Broken,
}
