ghost use Rattle.std.specs.Prelude.{◌≡◌};
ghost use Rattle.netcdf_source.specs.declared.refusal.HeaderRefusal.TheVariants.{Memory as WantOfMemory};

use dap_types::Memory;

/// Why the first bytes of a file are no header, or why its variables cannot be served: the first
/// thing that fails from the front.
#[derive(Clone, Copy, Debug, PartialEq, Eq)]
pub enum HeaderRefusal {
    /// The file does not begin with `CDF` and the version 1, 2 or 5.
    NotCdf,
    /// All bits of the number of records are 1: the file is still written.
    Streaming,
    /// The value of the field at this byte is not allowed.
    BadField { place: u64 },
    /// A field does not end within the file.
    HeaderCut,
    /// A field does not end within the first 1,048,576 bytes of a longer file.
    HeaderTooLong,
    /// The last byte of this variable, counted from 1, does not stand in the file.
    PastEnd { var: u32 },
    /// Memory was wanted.
    Memory,
}

impl From<Memory> for HeaderRefusal {
    ghost from_gives = { λ _ e. e ≡ WantOfMemory };

    fn from(_: Memory) -> HeaderRefusal {
        HeaderRefusal::Memory
    }
}
