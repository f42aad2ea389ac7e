//! How many elements, and how many rows, have few enough bytes for one batch.

ghost use Rattle.std.specs.Prelude.{◌≡◌, ℕ, ◌+◌, ◌-◌, ◌*◌, ◌^◌, ◌<◌, ◌≤◌};
ghost use Rattle.dap_types.specs.Limits.{most_piece};
ghost use Rattle.hyperslab_plan.specs.Numbers.{width_of};

use dap_types::BaseType;
use dap_types::limits::MOST_PIECE;

/// The most bytes of a batch, in the file and as XDR.
const BATCH: u64 = MOST_PIECE as u64;

/// The bytes of the XDR form of a number in an array (RFC 4506); 1 for a text.
pub fn xdr_width(base: BaseType) -> u64
    ensures width { result ≡ width_of base }
    ensures some { 0 < result }
    ensures few { result ≤ 8 }
{
    match base {
        BaseType::Byte | BaseType::Text | BaseType::Url => 1,
        BaseType::Float64 => 8,
        BaseType::Int16
        | BaseType::UInt16
        | BaseType::Int32
        | BaseType::UInt32
        | BaseType::Float32 => 4,
    }
}

/// The most elements of a row, `jump` bytes apart, whose bytes and whose XDR fit a batch.
pub fn part_of(jump: u64, size: u64, width: u64) -> u64
    requires sized { 0 < size }
    requires small { size ≤ most_piece }
    requires wide { 0 < width }
    requires narrow { width ≤ 8 }
    ensures some { 0 < result }
    ensures raw { (result - 1) * jump + size ≤ most_piece }
    ensures xdr { result * width ≤ most_piece }
    ensures most { (n : ℕ) → (n - 1) * jump + size ≤ most_piece → n * width ≤ most_piece → n ≤ result }
{
    let by_raw = if jump == 0 {
        BATCH
    } else {
        (BATCH - size) / jump + 1
    };
    by_raw.min(BATCH / width)
}

/// From the first byte of a row to its last, and 0 where a row is longer than a batch.
pub fn row_len_of(per_row: u64, jump: u64, size: u64, part: u64) -> u64
    requires filled { 0 < per_row }
    requires part_raw { (part - 1) * jump + size ≤ most_piece }
    ensures raw { result ≤ most_piece }
    ensures whole { 0 < result → result ≡ (per_row - 1) * jump + size }
    ensures fits { per_row ≤ part → result ≡ (per_row - 1) * jump + size }
{
    if per_row <= part {
        (per_row - 1) * jump + size
    } else {
        0
    }
}

/// The most whole rows whose bytes and whose XDR fit a batch.
pub fn rows_in(per_row: u64, row_len: u64, width: u64) -> u64
    requires filled { 0 < per_row }
    requires short { per_row < 2 ^ 31 }
    requires wide { 0 < width }
    requires narrow { width ≤ 8 }
    ensures some { 0 < result → 0 < row_len }
    ensures raw { result * row_len ≤ most_piece }
    ensures xdr { result * per_row * width ≤ most_piece }
    ensures most { 0 < row_len → (n : ℕ) → n * row_len ≤ most_piece → n * per_row * width ≤ most_piece → n ≤ result }
{
    if row_len == 0 {
        0
    } else {
        (BATCH / row_len).min(BATCH / (per_row * width))
    }
}
