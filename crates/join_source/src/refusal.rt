ghost use Rattle.std.specs.Prelude.{◌≡◌};
ghost use Rattle.join_source.specs.declared.refusal.JoinRefusal.TheVariants.{Memory as JoinMemory};
ghost use Rattle.join_source.specs.declared.refusal.ListRefusal.TheVariants.{Memory as ListMemory};

use dap_types::Memory;

/// Why bytes are no list of files.
#[derive(Clone, Copy, Debug, PartialEq, Eq)]
pub enum ListRefusal {
    /// There are more than 65,536 bytes.
    TooLong,
    /// The line with this number, from 1, is the first one that is no name of a netCDF file, or is one more than 64,
    /// or the first one where there is none.
    BadLine { line: u32 },
    /// Memory was wanted.
    Memory,
}

impl From<Memory> for ListRefusal {
    ghost from_gives = { λ _ e. e ≡ ListMemory };

    fn from(_: Memory) -> ListRefusal {
        ListRefusal::Memory
    }
}

/// Why files are not joined.
#[derive(Clone, Copy, Debug, PartialEq, Eq)]
pub enum JoinRefusal {
    /// The first file has no record dimension.
    NoRecord,
    /// The file of the line with this number, from 1, is the first one that has other dimensions or variables than
    /// the first.
    Differs { line: u32 },
    /// There are more than 2,147,483,647 records in all.
    TooManyRecords,
    /// Memory was wanted.
    Memory,
}

impl From<Memory> for JoinRefusal {
    ghost from_gives = { λ _ e. e ≡ JoinMemory };

    fn from(_: Memory) -> JoinRefusal {
        JoinRefusal::Memory
    }
}
