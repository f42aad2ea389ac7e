ghost use Rattle.std.specs.Prelude.{◌≡◌, [], ◌∷◌, ◌++◌, IfOk, OnOk, OnErr};

use dap_types::Memory;
use smallvec::SmallVec;
use std::alloc::Global;
use std::marker::Model;

/// The dimensions that are kept in place. Few variables have more.
const IN_PLACE: usize = 4;

/// The numbers of a variable's dimensions, from 0, the slowest first (netCDF classic format,
/// `dimid`). Contracts see their list.
#[derive(Debug, Drop)]
pub struct Shape {
    ids: SmallVec<u64, IN_PLACE>,
}

impl Model for Shape {
    ghost use Rattle.std.specs.Prelude.{ℕ, List};

    ghost Value = { List ℕ };

    ghost view = { λ s. s.ids.items };
}

impl Shape {
    /// Without dimensions, with room for so many.
    pub fn with_capacity(alloc: Global, count: usize) -> Result<Shape, Memory>
        ensures { IfOk result (λ shape. shape ≡ []) }
    {
        Ok(Shape {
            ids: SmallVec::with_capacity(alloc, count)?,
        })
    }

    /// The numbers, in order.
    pub fn items(&self) -> &[u64]
        ensures { result.now ≡ self.now }
    {
        self.ids.as_slice()
    }

    /// Puts a dimension behind the others. Where memory is wanted the shape is as before.
    pub fn push(&mut self, id: u64) -> Result<(), Memory>
        ensures ok { OnOk result (self.new ≡ self.old ++ id ∷ []) }
        ensures err { OnErr result (self.new ≡ self.old) }
    {
        self.ids.push(id)?;
        Ok(())
    }
}
