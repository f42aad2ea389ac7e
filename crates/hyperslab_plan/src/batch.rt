/// Elements that are fetched together, by reads that fill `raw_len` bytes.
#[derive(Clone, Copy, Debug, PartialEq, Eq)]
pub struct Batch {
    /// The position of the first element.
    pub first: u64,
    /// How many elements there are.
    pub count: u32,
    /// How many reads there are.
    pub runs: u32,
    /// The bytes of all reads.
    pub raw_len: u32,
}

/// One read of a batch.
#[derive(Clone, Copy, Debug, PartialEq, Eq)]
pub struct Run {
    /// The place of its first byte in the file.
    pub at: u64,
    /// How many bytes are read.
    pub len: u32,
    /// The place of its first byte in the batch's raw bytes.
    pub into: u32,
}
