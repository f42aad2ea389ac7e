ghost use Rattle.std.specs.Prelude.{◌≡◌, ◌<◌, ℕ, List, map, IfOk, MatchOption, None, Some};
ghost use Rattle.dap_types.specs.Numbered.{number_in};
ghost use Rattle.dap_types.specs.View.{dataset_view};
ghost use Rattle.dap_types.specs.WellFormed.{IsWellFormed, number_of};
ghost use Rattle.dap_types.specs.Preorder.{preorder_all};
ghost use Rattle.grid_projection.specs.Members.{named};
ghost use Rattle.grid_projection.specs.Resolved.{AreMembers, part_view, found_view};

use crate::parts::{Part, list_level};
use dap_types::{Dataset, Id, Index, Memory};
use std::alloc::Global;

/// The members of a dataset (DAP 2.0, variables), by number and by path. Contracts speak of one that
/// stands as `AreMembers` says: its list is that of the dataset, its index the dataset's.
#[derive(Drop)]
pub struct Members<'a> {
    dataset: &'a Dataset,
    index: &'a Index,
    parts: Vec<Part<'a>>,
}

/// A member of a dataset.
#[derive(Clone, Copy, Debug)]
pub struct Found<'a> {
    /// Its number, from 1 in preorder.
    pub number: u32,
    pub part: Part<'a>,
}

impl<'a> Members<'a> {
    /// Lists the members of a dataset that is well formed. Fails where memory is wanted.
    pub fn new(alloc: Global, dataset: &'a Dataset, index: &'a Index) -> Result<Members<'a>, Memory>
        requires well_formed { IsWellFormed (dataset_view dataset.now) }
        requires indexed { (path : List (List ℕ)) → number_in index.now path ≡ number_of (dataset_view dataset.now) path }
        ensures dataset { IfOk result (λ members. members.dataset.now ≡ dataset.now) }
        ensures members { IfOk result AreMembers }
    {
        let mut parts = Vec::new(alloc);
        list_level(&mut parts, dataset.members.items())?;
        Ok(Members {
            dataset,
            index,
            parts,
        })
    }

    /// All of them, in preorder.
    pub(crate) fn parts(&self) -> &[Part<'a>]
        requires { AreMembers self.now }
        ensures { map part_view result.now ≡ preorder_all (dataset_view self.now.dataset.now).members }
    {
        &self.parts
    }

    /// The member with this path, the names from the top down. None where there is none. Takes no
    /// memory.
    pub fn find(&self, path: &[Id]) -> Option<Found<'a>>
        requires { AreMembers self.now }
        ensures { let found = named (dataset_view self.now.dataset.now) path.now in MatchOption result (found ≡ None) (λ f. found ≡ Some (found_view f)) }
    {
        match self.index.member(path) {
            Some(number) => {
                let part = self.parts[number as usize - 1];
                Some(Found { number, part })
            }
            None => None,
        }
    }
}
