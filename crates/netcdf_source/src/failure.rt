ghost use Rattle.std.specs.Prelude.{◌≡◌};
ghost use Rattle.netcdf_source.specs.declared.failure.Stop.TheVariants.{Failed, Memory as WantOfMemory};

use dap_types::Memory;
use std::alloc::{AllocError, AllocFailed};

/// What fails in a header. A place is told by the bytes from it to the end.
#[derive(Clone, Copy, Debug, PartialEq, Eq)]
pub enum Failure {
    /// A field does not end within the bytes.
    Cut,
    /// The number of records is that of a file that is still written.
    Streaming,
    /// The value of a field is not allowed: the field at so many bytes from the end.
    Bad(usize),
}

/// Why reading stopped.
#[derive(Debug, Drop)]
pub enum Stop {
    Memory,
    Failed(Failure),
}

impl From<Failure> for Stop {
    ghost from_gives = { λ f e. e ≡ Failed f };

    fn from(failure: Failure) -> Stop {
        Stop::Failed(failure)
    }
}

impl From<Memory> for Stop {
    ghost from_gives = { λ _ e. e ≡ WantOfMemory };

    fn from(_: Memory) -> Stop {
        Stop::Memory
    }
}

impl From<AllocError> for Stop {
    ghost from_gives = { λ _ e. e ≡ WantOfMemory };

    fn from(_: AllocError) -> Stop {
        Stop::Memory
    }
}

impl<T: Drop> From<AllocFailed<T>> for Stop {
    ghost from_gives = { λ _ e. e ≡ WantOfMemory };

    fn from(_: AllocFailed<T>) -> Stop {
        Stop::Memory
    }
}
