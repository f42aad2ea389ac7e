ghost use Rattle.std.specs.Prelude.{◌≡◌};
ghost use Rattle.xdr_encode.specs.declared.refusal.BodyRefusal.TheVariants.{Memory as WantOfMemory};

use dap_types::Memory;

/// Why no body is made.
#[derive(Clone, Copy, Debug, PartialEq, Eq)]
pub enum BodyRefusal {
    /// What the constraint leaves is too large: its DDS, where `leaf` is 0, or else that leaf of it, in
    /// order, is the first one with more than 2,147,483,647 elements.
    TooLarge { leaf: u32 },
    /// Memory was wanted.
    Memory,
}

impl From<Memory> for BodyRefusal {
    ghost from_gives = { λ _ e. e ≡ WantOfMemory };

    fn from(_: Memory) -> BodyRefusal {
        BodyRefusal::Memory
    }
}
