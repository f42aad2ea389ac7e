/// How a connection ended on which one request was relayed.
#[derive(Clone, Copy, Debug, PartialEq, Eq)]
pub enum Relayed {
    /// A whole reply of this status was put. A hit came from the cache.
    Replied { status: u16, hit: bool },
    /// The client was gone before it had asked.
    Gone,
    /// The client's request could not be read.
    ReadFault,
    /// The reply could not be put whole.
    WriteFault,
}
