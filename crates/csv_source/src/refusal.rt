use csv::Error;
use dap_types::Memory;
use std::alloc::AllocError;

/// Why a file gives no table. Rows and columns are numbered from 1.
#[derive(Clone, Copy, Debug, PartialEq, Eq)]
pub enum TableRefusal {
    /// The file has more than 67,108,864 bytes.
    TooLong,
    /// There is no record.
    NoHeader,
    /// The header has more than 1,024 fields.
    TooWide,
    /// This column has the name of an earlier one.
    RepeatedColumn { column: u32 },
    /// This row has another number of fields than the header.
    Ragged { row: u32 },
    /// This cell is no value of its column.
    BadCell { row: u32, column: u32 },
    /// Memory was wanted.
    Memory,
}

impl From<Memory> for TableRefusal {
    ghost use Rattle.std.specs.Prelude.{◌≡◌};
    ghost use Rattle.csv_source.specs.declared.refusal.TableRefusal.TheVariants as refusal;

    ghost from_gives = { λ _ e. e ≡ refusal.Memory };

    fn from(_: Memory) -> TableRefusal {
        TableRefusal::Memory
    }
}

impl From<AllocError> for TableRefusal {
    ghost use Rattle.std.specs.Prelude.{◌≡◌};
    ghost use Rattle.csv_source.specs.declared.refusal.TableRefusal.TheVariants as refusal;

    ghost from_gives = { λ _ e. e ≡ refusal.Memory };

    fn from(_: AllocError) -> TableRefusal {
        TableRefusal::Memory
    }
}

/// Over bytes in memory `csv` fails only where memory is wanted, or for the `Io` that std's `Read` cannot
/// rule out.
impl From<Error> for TableRefusal {
    ghost use Rattle.std.specs.Prelude.{◌≡◌};
    ghost use Rattle.csv_source.specs.declared.refusal.TableRefusal.TheVariants as refusal;

    ghost from_gives = { λ _ e. e ≡ refusal.Memory };

    fn from(_: Error) -> TableRefusal {
        TableRefusal::Memory
    }
}
