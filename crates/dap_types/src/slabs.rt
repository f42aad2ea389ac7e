use crate::List;

/// A hyperslab of one dimension (DAP 2.0, constraint expressions): the indexes
/// `start + k * stride` for each `k` below `count`.
#[derive(Clone, Copy, Debug, PartialEq, Eq)]
pub struct Slab {
    /// The first index, from 0.
    pub start: u32,
    /// From one index to the next.
    pub stride: u32,
    /// How many indexes are picked.
    pub count: u32,
}

/// Where the elements of an array stand in a file: that of the indexes `i1, .., ir` has `size`
/// bytes from `base + i1 * s1 + .. + ir * sr`, with the steps in the order of the indexes.
#[derive(Debug, Drop)]
pub struct Layout {
    /// The place of the first element, in bytes from the front of the file.
    pub base: u64,
    /// For each dimension the bytes from one index to the next.
    pub steps: List<u64>,
    /// The bytes of an element.
    pub size: u32,
}
