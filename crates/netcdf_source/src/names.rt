ghost use Rattle.std.specs.Prelude.{◌≡◌, [], not, IfOk, OnOk};
ghost use Rattle.std.specs.List.{list_any};
ghost use Rattle.std.specs.Str.{bytes_eq};
ghost use Rattle.dap_types.specs.NameSet.{HasAlso};

use dap_types::Memory;
use std::alloc::Global;
use std::collections::BTreeSet;
use std::marker::Model;

/// A set of names where they stand in the header, which no choice of names slows down. Contracts see
/// them in the order of their bytes.
#[derive(Drop)]
pub struct Names<'a> {
    set: BTreeSet<&'a [u8]>,
}

impl<'a> Model for Names<'a> {
    ghost use Rattle.std.specs.Prelude.{ℕ, List, map};

    ghost Value = { List (List ℕ) };

    ghost view = { λ n. map (λ name. name.now) n.set.keys };
}

impl<'a> Names<'a> {
    /// No names.
    pub fn new(alloc: Global) -> Names<'a>
        ensures { result ≡ [] }
    {
        Names {
            set: BTreeSet::new(alloc),
        }
    }

    /// Adds a name and answers true, or false where it is one of them.
    pub fn insert(&mut self, name: &'a [u8]) -> Result<bool, Memory>
        ensures is_new { IfOk result (λ is_new. is_new ≡ not (list_any (bytes_eq name.now) self.old)) }
        ensures names { OnOk result (HasAlso self.old name.now self.new) }
    {
        Ok(self.set.insert(name)?)
    }
}
