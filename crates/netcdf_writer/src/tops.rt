//! The top members of a dataset, each with its values.

ghost use Rattle.std.specs.Prelude.{◌≡◌, ◌+◌, ◌≤◌, ◌<◌, ◌^◌, false, [], ◌∷◌, ◌++◌, map, length, IfOk, OnOk};
ghost use Rattle.dap_types.specs.Model.{count};
ghost use Rattle.dap_types.specs.View.{member_view, members_view, tree_view};
ghost use Rattle.netcdf_writer.specs.Causes.{is_other_kind, is_other_than};
ghost use Rattle.netcdf_writer.specs.Variables.{is_array, maps_of, own, tops_of};
ghost use Rattle.netcdf_writer.specs.inner.Tables.{top_view, top_views, variable_view, variable_views};

use crate::lent::{Lent, array_variables, behind_first, parts_of, push};
use crate::same::is_same;
use dap_types::{Decl, Memory, Tree};
use std::alloc::Global;

/// A top member and its values.
#[derive(Clone, Copy, Debug)]
pub struct Top<'a> {
    pub decl: &'a Decl,
    pub tree: &'a Tree,
}

/// The top members of a dataset.
#[tactic(auto, using(crate::proofs::Owning::steps))]
pub fn tops_of<'a>(
    alloc: Global,
    decls: &'a [Decl],
    trees: &'a [Tree],
) -> Result<Vec<Top<'a>>, Memory>
    ensures { IfOk result (λ tops. top_views tops.items ≡ tops_of (members_view decls.now) (map tree_view trees.now)) }
{
    let mut tops = Vec::new(alloc);
    let count = decls.len().min(trees.len());
    for k in 0..count {
        tops.push(Top {
            decl: &decls[k],
            tree: &trees[k],
        })?;
    }
    Ok(tops)
}

impl<'a> Top<'a> {
    /// How many members it is, where it can be stored at all.
    #[tactic(auto, using(dap_types::proofs::Views::views), unfolding(crate::specs::Causes::is_other_kind))]
    pub fn count(&self) -> u64
        ensures { is_other_kind (member_view self.now.decl.now) ≡ false → result ≡ count (member_view self.now.decl.now) }
    {
        match self.decl {
            Decl::Grid(_, _, maps) => maps.items().len() as u64 + 2,
            Decl::Base(_) | Decl::Array(_) | Decl::Structure(_, _) | Decl::Sequence(_, _) => 1,
        }
    }

    /// Whether it is an array.
    #[tactic(auto, using(dap_types::proofs::Views::views))]
    pub fn is_array(&self) -> bool
        ensures { result ≡ is_array (top_view self.now) }
    {
        match self.decl {
            Decl::Array(_) => true,
            Decl::Base(_) | Decl::Grid(_, _, _) | Decl::Structure(_, _) | Decl::Sequence(_, _) => {
                false
            }
        }
    }

    /// Whether a map of its name cannot stand beside it.
    #[tactic(auto, using(dap_types::proofs::Views::views), unfolding(crate::specs::Causes::is_other_than))]
    pub fn is_other_than(&self, map: &Lent<'a>) -> bool
        ensures { result ≡ is_other_than (variable_view map.now) (top_view self.now) }
    {
        match self.decl {
            Decl::Base(_) | Decl::Grid(_, _, _) => true,
            Decl::Array(array) => !is_same(map, &Lent::of_array(array, self.tree)),
            Decl::Structure(_, _) | Decl::Sequence(_, _) => false,
        }
    }

    /// The maps of a Grid.
    #[tactic(auto, using(dap_types::proofs::Views::views), unfolding(crate::specs::Variables::maps_of))]
    pub fn maps(&self, alloc: Global) -> Result<Vec<Lent<'a>>, Memory>
        ensures { IfOk result (λ vs. variable_views vs.items ≡ maps_of (top_view self.now)) }
    {
        match self.decl {
            Decl::Grid(_, _, maps) => {
                array_variables(alloc, maps.items(), behind_first(parts_of(self.tree)))
            }
            Decl::Base(_) | Decl::Array(_) | Decl::Structure(_, _) | Decl::Sequence(_, _) => {
                Ok(Vec::new(alloc))
            }
        }
    }

    /// Appends the scalar or the array itself, or the array of the Grid.
    #[tactic(auto, using(dap_types::proofs::Views::views), unfolding(crate::specs::Variables::own))]
    pub fn push_own(&self, out: &mut Vec<Lent<'a>>) -> Result<(), Memory>
        ensures { OnOk result (variable_views out.new.items ≡ variable_views out.old.items ++ own (top_view self.now)) }
    {
        match self.decl {
            Decl::Base(column) => push(
                out,
                Lent {
                    name: &column.name,
                    base: column.base,
                    dims: &[],
                    tree: self.tree,
                },
            ),
            Decl::Array(array) => push(out, Lent::of_array(array, self.tree)),
            Decl::Grid(_, array, _) => match parts_of(self.tree) {
                [tree, ..] => push(out, Lent::of_array(array, tree)),
                [] => Ok(()),
            },
            Decl::Structure(_, _) => Ok(()),
            Decl::Sequence(_, _) => Ok(()),
        }
    }
}
