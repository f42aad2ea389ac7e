ghost use Rattle.std.specs.Prelude.{◌≡◌};
ghost use Rattle.csv_source.specs.Cells.{is_cell};

use crate::numbers::{bits32, bits64, whole};
use dap_types::BaseType;

/// The value of a cell, as a table lends it.
#[derive(Clone, Copy, Debug, PartialEq, Eq)]
pub enum Cell<'a> {
    /// A whole number.
    Whole(i64),
    /// The bytes of a String or a Url.
    Text(&'a [u8]),
    /// The bits of a Float32.
    Bits32(u32),
    /// The bits of a Float64.
    Bits64(u64),
}

/// Whether a field can be a cell of a column of this type.
pub(crate) fn may_be_cell(base: BaseType, field: &[u8]) -> bool
    ensures { result ≡ is_cell base field.now }
{
    match base {
        BaseType::Float32 => bits32(field).is_some(),
        BaseType::Float64 => bits64(field).is_some(),
        BaseType::Text => true,
        BaseType::Url => true,
        _ => whole(base, field).is_some(),
    }
}
