ghost use Rattle.std.specs.Prelude.{◌≡◌};
ghost use Rattle.dds_text.specs.declared.refusal.PrintRefusal.TheVariants as refusal;

use dap_types::Memory;
use std::alloc::AllocError;

/// Why no DDS is printed.
#[derive(Clone, Copy, Debug, PartialEq, Eq)]
pub enum PrintRefusal {
    /// It has more than 16,777,216 bytes, this project's limit.
    TooLong,
    /// Memory was wanted.
    Memory,
}

impl From<Memory> for PrintRefusal {
    ghost from_gives = { λ _ e. e ≡ refusal.Memory };

    fn from(_: Memory) -> PrintRefusal {
        PrintRefusal::Memory
    }
}

impl From<AllocError> for PrintRefusal {
    ghost from_gives = { λ _ e. e ≡ refusal.Memory };

    fn from(_: AllocError) -> PrintRefusal {
        PrintRefusal::Memory
    }
}
