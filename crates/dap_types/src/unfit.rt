ghost use Rattle.std.specs.Prelude.{◌≡◌};

use crate::Memory as WantOfMemory;

/// Why a dataset is not well formed. A member's number is its place in preorder from 1: a whole
/// comes before its parts, and a Grid's array before its maps (DAP 2.0, DDS; the limits are this
/// project's).
#[derive(Clone, Copy, Debug, PartialEq, Eq)]
pub enum Unfit {
    /// An earlier member of the same level has this member's name.
    Repeated { member: u32 },
    /// The member stands deeper than 16 levels.
    TooDeep { member: u32 },
    /// There are more than 1,000,000 members.
    TooMany,
    /// The maps of this Grid are not those of its array's dimensions.
    BadGrid { member: u32 },
    /// This array has no dimension, more than 32, or one above 2,147,483,647.
    BadSize { member: u32 },
    /// Memory was wanted.
    Memory,
}

impl From<WantOfMemory> for Unfit {
    ghost use Rattle.dap_types.specs.declared.unfit.Unfit.TheVariants.{Memory};

    ghost from_gives = { λ _ e. e ≡ Memory };

    fn from(_: WantOfMemory) -> Self {
        Unfit::Memory
    }
}
