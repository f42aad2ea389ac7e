ghost use Rattle.std.specs.Prelude.{◌≡◌};
ghost use Rattle.saved_source.specs.declared.refusal.SavedRefusal.TheVariants.{Memory};
ghost use Rattle.saved_source.specs.declared.refusal.SavedBodyRefusal.TheVariants as body;

use dap_types::Memory;

/// Why a file holds no data response that is served.
#[derive(Clone, Copy, Debug, PartialEq, Eq)]
pub enum SavedRefusal {
    /// More than 67,108,864 bytes, this project's limit.
    TooLong,
    /// It is no data response (DAP 2.0, DODS). The place is that of what is wrong first, a number of
    /// bytes from the front.
    BadBody { place: u64 },
    /// This member has the name of an earlier one of its level, as constraints spell names. Members are
    /// counted from 1, each before its parts.
    RepeatedName { member: u32 },
    /// Memory was wanted.
    Memory,
}

impl From<Memory> for SavedRefusal {
    ghost from_gives = { λ _ e. e ≡ Memory };

    fn from(_: Memory) -> Self {
        SavedRefusal::Memory
    }
}

/// Why nothing of a saved response is sent.
#[derive(Clone, Copy, Debug, PartialEq, Eq)]
pub enum SavedBodyRefusal {
    /// The DDS of what is left has more than 16,777,216 bytes, this project's limit.
    TooLarge,
    /// Memory was wanted.
    Memory,
}

impl From<Memory> for SavedBodyRefusal {
    ghost from_gives = { λ _ e. e ≡ body.Memory };

    fn from(_: Memory) -> Self {
        SavedBodyRefusal::Memory
    }
}
