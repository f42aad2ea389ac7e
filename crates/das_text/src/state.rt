//! How much of a DAS was read (DAP 2.0, DAS), but for the containers that are open.

use crate::{Attribute, Attributes};
use dap_types::{Id, Memory};
use std::alloc::AllocError;

#[derive(Drop)]
pub enum State {
    /// Nothing.
    Begun,
    /// Behind `Attributes`.
    Headed,
    /// In a container, or in the DAS itself, behind its `{` or an entry.
    Inside,
    /// Behind the first word of an entry: the name of a container, or a type.
    Worded(Id),
    /// Behind the name of an attribute, which has no values yet.
    Named(Attribute),
    /// Behind a value.
    Valued(Attribute),
    /// Behind the comma that follows a value.
    Parted(Attribute),
    /// Behind the last `}`.
    Ended(Attributes),
}

/// Why the reading of a DAS stopped.
#[derive(Clone, Copy, Debug, PartialEq, Eq)]
pub enum Stop {
    /// At the token of this place.
    Bad(usize),
    /// No whole token is left.
    End,
    Memory,
}

impl From<Memory> for Stop {
    ghost use Rattle.std.specs.Prelude.{◌≡◌};
    ghost use Rattle.das_text.specs.declared.state.Stop.TheVariants.{Memory as OutOfMemory};

    ghost from_gives = { λ _ e. e ≡ OutOfMemory };

    fn from(_: Memory) -> Self {
        Stop::Memory
    }
}

impl From<AllocError> for Stop {
    ghost use Rattle.std.specs.Prelude.{◌≡◌};
    ghost use Rattle.das_text.specs.declared.state.Stop.TheVariants.{Memory as OutOfMemory};

    ghost from_gives = { λ _ e. e ≡ OutOfMemory };

    fn from(_: AllocError) -> Self {
        Stop::Memory
    }
}
