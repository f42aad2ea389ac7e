ghost use Rattle.std.specs.Prelude.{◌≡◌, [], ◌∷◌, ◌++◌, IfOk, OnOk, OnErr};
ghost use Rattle.std.specs.Borrow.{sem};

use crate::Memory;
use std::alloc::Global;
use std::marker::Model;

/// Items in order. Contracts see it as their list.
#[derive(Debug, Drop)]
pub struct List<T> {
    vec: Vec<T>,
}

impl<T> Model for List<T> {
    ghost use Rattle.std.specs.Prelude.{List as Items};
    ghost use Rattle.std.specs.Coded.{coded_list};

    ghost Value = { Items T };

    ghost coded = { coded_list T.code };

    ghost view = { λ l. l.vec.items };
}

impl<T> List<T> {
    ghost use Rattle.dap_types.specs.Lends.{LendsItems};

    /// An empty list, which keeps the allocator.
    pub fn new(alloc: Global) -> List<T>
        ensures { result ≡ [] }
    {
        List {
            vec: Vec::new(alloc),
        }
    }

    /// An empty list with room for so many items, which keeps the allocator.
    pub fn with_capacity(alloc: Global, count: usize) -> Result<List<T>, Memory>
        ensures { IfOk result (λ l. l ≡ []) }
    {
        Ok(List {
            vec: Vec::with_capacity(alloc, count)?,
        })
    }

    /// Makes room for so many more items, and no more than that. Fails where memory is wanted.
    pub fn reserve_exact(&mut self, additional: usize) -> Result<(), Memory>
        ensures { self.new ≡ self.old }
    {
        self.vec.reserve_exact(additional)?;
        Ok(())
    }

    /// Gives back the room behind the items, where there is a smaller block for them.
    pub fn shrink_to_fit(&mut self)
        ensures { self.new ≡ self.old }
    {
        self.vec.shrink_to_fit();
    }

    /// The items as a vector.
    pub fn into_vec(self) -> Vec<T>
        ensures { result.items ≡ self }
    {
        self.vec
    }

    /// The items, in order.
    pub fn items(&self) -> &[T]
        ensures { result.now ≡ self.now }
    {
        self.vec.as_slice()
    }

    /// The items, to be written in place.
    pub fn items_mut(&mut self) -> &mut [T]
        ensures* writes_back { sem 𝓛 (LendsItems T.row self.entry result) }
        ensures value { result.now ≡ self.old }
    {
        self.vec.as_mut_slice()
    }
}

impl<T: Drop> List<T> {
    /// Puts the item behind the others. Where memory is wanted the list is as before, and the item
    /// is dropped.
    pub fn push(&mut self, item: T) -> Result<(), Memory>
        ensures ok { OnOk result (self.new ≡ self.old ++ item ∷ []) }
        ensures err { OnErr result (self.new ≡ self.old) }
    {
        self.vec.push(item)?;
        Ok(())
    }
}
