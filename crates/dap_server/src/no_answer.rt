//! Why a step has no value: the first cause, a fault of the shelf, or want of memory.

ghost use Rattle.std.specs.Prelude.{◌≡◌};

use dap_errors::{Cause, FileCause};
use dap_types::Memory as WantOfMemory;
use std::alloc::AllocError;

/// Why a step has no value.
#[derive(Clone, Copy, Debug, PartialEq, Eq)]
pub enum Stop {
    /// The first cause.
    Refused(Cause),
    /// The shelf failed.
    ShelfFault,
    /// Memory was wanted.
    Memory,
}

impl From<WantOfMemory> for Stop {
    ghost use Rattle.std.specs.Prelude.{◌≡◌};
    ghost use Rattle.dap_server.specs.declared.no_answer.Stop.TheVariants.{Memory};

    ghost from_gives = { λ _ e. e ≡ Memory };

    fn from(_: WantOfMemory) -> Stop {
        Stop::Memory
    }
}

impl From<AllocError> for Stop {
    ghost use Rattle.std.specs.Prelude.{◌≡◌};
    ghost use Rattle.dap_server.specs.declared.no_answer.Stop.TheVariants.{Memory};

    ghost from_gives = { λ _ e. e ≡ Memory };

    fn from(_: AllocError) -> Stop {
        Stop::Memory
    }
}

/// The stop for a cause of a file.
pub fn damaged(cause: FileCause) -> Stop
    ensures { result ≡ Stop.Refused (Cause.Damaged cause) }
{
    Stop::Refused(Cause::Damaged(cause))
}
