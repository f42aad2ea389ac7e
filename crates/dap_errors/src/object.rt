use dap_types::{Bytes, Memory};
use std::alloc::AllocError;

/// What an Error object says (DAP 2.0, Error objects).
#[derive(Debug, Drop)]
pub struct ErrorObject {
    pub code: i32,
    pub message: Bytes,
}

/// Why a text is no Error object.
#[derive(Clone, Copy, Debug, PartialEq, Eq)]
pub enum ErrorRefusal {
    /// Here stands the first whole token, or the first byte behind the object, with which the text no
    /// longer begins an Error object; or the object does not end within 65,536 bytes, and this is that
    /// place.
    Bad { place: u64 },
    /// The text ends within the object.
    Cut,
    /// Memory was wanted.
    Memory,
}

/// Why the reading of an object stopped.
#[derive(Clone, Copy, Debug, PartialEq, Eq)]
pub enum Stop {
    /// At the token of this place.
    Bad(usize),
    /// No whole token is left.
    End,
    Memory,
}

impl From<Memory> for Stop {
    ghost use Rattle.std.specs.Prelude.{◌≡◌};
    ghost use Rattle.dap_errors.specs.declared.object.Stop.TheVariants.{Memory as OutOfMemory};

    ghost from_gives = { λ _ e. e ≡ OutOfMemory };

    fn from(_: Memory) -> Self {
        Stop::Memory
    }
}

impl From<AllocError> for Stop {
    ghost use Rattle.std.specs.Prelude.{◌≡◌};
    ghost use Rattle.dap_errors.specs.declared.object.Stop.TheVariants.{Memory as OutOfMemory};

    ghost from_gives = { λ _ e. e ≡ OutOfMemory };

    fn from(_: AllocError) -> Self {
        Stop::Memory
    }
}
