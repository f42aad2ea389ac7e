/// How the elements of a batch stand in its raw bytes: element `j` at
/// `j / per_row * row_len + j % per_row * jump`.
#[derive(Clone, Copy, Debug, PartialEq, Eq)]
pub struct Spacing {
    /// The elements of a row, at least one.
    pub per_row: u64,
    /// The bytes from one element of a row to the next.
    pub jump: u64,
    /// The bytes from one row to the next.
    pub row_len: u64,
}
