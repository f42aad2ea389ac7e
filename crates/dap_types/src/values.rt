use crate::{Bytes, List};

/// One value of a base type (DAP 2.0, base types).
#[derive(Debug, Drop)]
pub enum Value {
    /// A Byte, Int16, UInt16, Int32 or UInt32.
    Whole(i64),
    /// The bytes of a String or Url.
    Text(Bytes),
    /// The bits of a Float32 (IEEE 754 single).
    Bits32(u32),
    /// The bits of a Float64 (IEEE 754 double).
    Bits64(u64),
}

/// The values of a variable. A scalar's is `One`; that of an array of rank r is a `Many` of trees of
/// rank r - 1; that of a Structure or Grid is the `Many` of its members; that of a Sequence is the
/// `Many` of its rows, each the `Many` of its cells.
#[derive(Debug, Drop)]
pub enum Tree {
    One(Value),
    Many(List<Tree>),
}
