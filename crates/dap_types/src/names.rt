ghost use Rattle.std.specs.Prelude.{◌≡◌, [], IfOk, OnErr, OnOk, not};
ghost use Rattle.std.specs.List.{list_any};
ghost use Rattle.std.specs.Str.{bytes_eq};
ghost use Rattle.dap_types.specs.NameSet.{HasAlso};

use crate::{Id, Memory};
use std::alloc::Global;
use std::collections::BTreeSet;
use std::marker::Model;

/// A set of names, which no choice of names slows down. Contracts see them in the order of their
/// bytes.
#[derive(Drop)]
pub struct Names {
    set: BTreeSet<Id>,
}

impl Model for Names {
    ghost use Rattle.std.specs.Prelude.{ℕ, List};

    ghost Value = { List (List ℕ) };

    ghost view = { λ n. n.set.keys };
}

impl Names {
    /// None, which keeps the allocator.
    pub fn new(alloc: Global) -> Names
        ensures { result ≡ [] }
    {
        Names {
            set: BTreeSet::new(alloc),
        }
    }

    /// Whether the name is one of them. Takes no memory.
    #[tactic(auto, using(crate::proofs::NameSets::in_order))]
    pub fn has(&self, name: &Id) -> bool
        ensures { result ≡ list_any (bytes_eq name.now) self.now }
    {
        self.set.contains(name)
    }

    /// Adds a name and answers true, or false where it is one of them. Where memory is wanted they
    /// are as before.
    #[tactic(auto, using(crate::proofs::NameSets::in_order))]
    pub fn insert(&mut self, name: &Id) -> Result<bool, Memory>
        ensures is_new { IfOk result (λ is_new. is_new ≡ not (list_any (bytes_eq name.now) self.old)) }
        ensures names { OnOk result (HasAlso self.old name.now self.new) }
        ensures err { OnErr result (self.new ≡ self.old) }
    {
        Ok(self.set.insert(name.try_clone()?)?)
    }
}
