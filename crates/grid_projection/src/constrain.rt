ghost use Rattle.std.specs.Prelude.{◌≡◌, ◌+◌, ◌<◌, ◌^◌, ◌++◌, map, IfOk, OnOk};
ghost use Rattle.dap_model.specs.Filter.{constrained, filtered_all, SuitsAll};
ghost use Rattle.dap_types.specs.Model.{count, count_all};
ghost use Rattle.dap_types.specs.View.{dataset_view, member_view, members_view};
ghost use Rattle.dap_types.specs.WellFormed.{IsWellFormed};
ghost use Rattle.grid_projection.specs.inner.Left.{left_of, listed};
ghost use Rattle.grid_projection.specs.Resolved.{marks_in};

use crate::grids::leave_grid;
use crate::leaves::{leave_array, leave_scalar, push_structure};
use crate::marks::Marks;
use crate::sequences::leave_sequence;
use dap_types::{Dataset, Decl, List, Memory};
use std::alloc::Global;

impl Marks {
    /// What the marks leave of the dataset that they were made for (DAP 2.0, constraint expressions):
    /// the marked leaves in its order, each array with the counts of its hyperslabs as its sizes. A
    /// whole without a marked leaf is left out, and a Grid whose maps do not pick what its array picks
    /// becomes a Structure.
    pub fn constrained(&self, alloc: Global, dataset: &Dataset) -> Result<Dataset, Memory>
        requires { IsWellFormed (dataset_view dataset.now) }
        ensures left { IfOk result (λ d. dataset_view d ≡ constrained (marks_in self.now) (dataset_view dataset.now)) }
        ensures well_formed { SuitsAll (marks_in self.now) 1 (dataset_view dataset.now).members → IfOk result (λ d. IsWellFormed (dataset_view d)) }
    {
        let mut members = List::new(alloc);
        leave_level(alloc, self, 1, dataset.members.items(), &mut members)?;
        Ok(Dataset {
            name: dataset.name.try_clone()?,
            members,
        })
    }
}

/// Appends what is left of the members of a level, of which the first has this number. The answer is
/// the number behind the last.
#[cycle(leaving)]
fn leave_level(
    alloc: Global,
    marks: &Marks,
    first: u32,
    decls: &[Decl],
    left: &mut List<Decl>,
) -> Result<u32, Memory>
    requires { first + count_all (members_view decls.now) < 2 ^ 32 }
    ensures number { IfOk result (λ next. next ≡ first + count_all (members_view decls.now)) }
    ensures left { OnOk result (map member_view left.new ≡ map member_view left.old ++ listed (filtered_all (marks_in marks.now) first (members_view decls.now))) }
{
    let mut number = first;
    for decl in decls {
        number = leave_member(alloc, marks, number, decl, left)?;
    }
    Ok(number)
}

/// Appends what is left of a member with this number, nothing where no leaf of it is marked. The
/// answer is the number behind its parts.
#[cycle(leaving)]
#[tactic(auto, using(dap_types::proofs::Views::views))]
fn leave_member(
    alloc: Global,
    marks: &Marks,
    number: u32,
    decl: &Decl,
    left: &mut List<Decl>,
) -> Result<u32, Memory>
    requires { number + count (member_view decl.now) < 2 ^ 32 }
    ensures number { IfOk result (λ next. next ≡ number + count (member_view decl.now)) }
    ensures left { OnOk result (map member_view left.new ≡ map member_view left.old ++ left_of (marks_in marks.now) number (member_view decl.now)) }
{
    match decl {
        Decl::Base(column) => {
            leave_scalar(marks, number, column, left)?;
            Ok(number + 1)
        }
        Decl::Array(array) => {
            leave_array(alloc, marks, number, array, left)?;
            Ok(number + 1)
        }
        Decl::Structure(name, inner) => {
            let mut parts = List::new(alloc);
            let next = leave_level(alloc, marks, number + 1, inner.items(), &mut parts)?;
            push_structure(name, parts, left)?;
            Ok(next)
        }
        Decl::Grid(name, array, maps) => {
            leave_grid(alloc, marks, number, name, array, maps.items(), left)?;
            Ok(number + 2 + maps.items().len() as u32)
        }
        Decl::Sequence(name, columns) => {
            leave_sequence(alloc, marks, number, name, columns.items(), left)?;
            Ok(number + 1 + columns.items().len() as u32)
        }
    }
}
