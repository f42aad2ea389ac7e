ghost use Rattle.std.specs.Prelude.{◌≡◌};
ghost use Rattle.xdr_decode.specs.declared.filled.AllRefusal.TheVariants.{Memory};

use crate::BadField;
use dap_types::{Dataset, List, Memory, Tree};

/// A dataset and the values of its variables in order.
#[derive(Debug, Drop)]
pub struct Filled {
    pub dataset: Dataset,
    pub values: List<Tree>,
}

/// Why a body gives no dataset.
#[derive(Debug, Drop)]
pub enum AllRefusal {
    /// Something is wrong with the body.
    Refused(BadField),
    /// No memory was left.
    Memory,
}

impl From<Memory> for AllRefusal {
    ghost from_gives = { λ _ e. e ≡ Memory };

    fn from(_: Memory) -> Self {
        AllRefusal::Memory
    }
}
