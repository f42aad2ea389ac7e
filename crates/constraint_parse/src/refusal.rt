ghost use Rattle.std.specs.Prelude.{◌≡◌};

use dap_types::Memory;
use std::alloc::AllocError;

/// Why a text is refused as a constraint.
#[derive(Clone, Copy, Debug, PartialEq, Eq)]
pub enum ParseRefusal {
    /// The text is no constraint. Its first `place` bytes begin one, and with the next byte, if there
    /// is one, they begin none.
    Syntax { place: u64 },
    /// Memory was wanted.
    Memory,
}

impl ParseRefusal {
    pub fn at(place: usize) -> ParseRefusal
        ensures { result ≡ ParseRefusal.Syntax place }
    {
        ParseRefusal::Syntax {
            place: place as u64,
        }
    }
}

impl From<Memory> for ParseRefusal {
    ghost use Rattle.constraint_parse.specs.declared.refusal.ParseRefusal.TheVariants.{Memory as OutOfMemory};

    ghost from_gives = { λ _ e. e ≡ OutOfMemory };

    fn from(_: Memory) -> Self {
        ParseRefusal::Memory
    }
}

impl From<AllocError> for ParseRefusal {
    ghost use Rattle.constraint_parse.specs.declared.refusal.ParseRefusal.TheVariants.{Memory as OutOfMemory};

    ghost from_gives = { λ _ e. e ≡ OutOfMemory };

    fn from(_: AllocError) -> Self {
        ParseRefusal::Memory
    }
}
