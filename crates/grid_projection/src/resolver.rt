ghost use Rattle.std.specs.Prelude.{◌≡◌, ◌+◌, ◌≤◌, ℕ, List, [], ◌∷◌, map, length, None, Some, IfOk, IfErr, OnOk};
ghost use Rattle.dap_model.specs.Filter.{SuitsAll};
ghost use Rattle.dap_types.specs.Numbered.{number_in};
ghost use Rattle.dap_types.specs.View.{dataset_view};
ghost use Rattle.dap_types.specs.WellFormed.{IsWellFormed, number_of};
ghost use Rattle.grid_projection.specs.Clauses.{clauses_cause};
ghost use Rattle.grid_projection.specs.Items.{items_cause};
ghost use Rattle.grid_projection.specs.Marks.{marks, marks_of_items, whole};
ghost use Rattle.dap_types.specs.Preorder.{preorder_all};
ghost use Rattle.grid_projection.specs.Resolved.{AreMembers, Refuses, cause, marks_in};

use crate::clauses::judge_clause;
use crate::items::mark_item;
use crate::marks::Marks;
use crate::members::Members;
use crate::refusal::Resolve;
use crate::rows::append_whole;
use constraint_parse::{Clause, Constraint, Item};
use dap_errors::Cause;
use dap_types::{Dataset, Index, Memory};
use std::alloc::Global;

/// No member is marked.
fn nothing(alloc: Global, members: usize) -> Result<Marks, Memory>
    requires { members ≤ 1000000 }
    ensures marks { IfOk result (λ m. (n : ℕ) → marks_in m n ≡ None) }
    ensures length { IfOk result (λ m. length m ≡ members + 1) }
{
    let mut row = Vec::with_capacity(alloc, members + 1)?;
    row.push(None)?;
    for k in 0..members {
        row.push(None)?;
    }
    Ok(Marks::of_row(row))
}

/// Every leaf is marked whole.
fn everything(alloc: Global, members: &Members<'_>) -> Result<Marks, Memory>
    requires { AreMembers members.now }
    ensures { IfOk result (λ m. m ≡ None ∷ map whole (preorder_all (dataset_view members.now.dataset.now).members)) }
{
    let mut row = Vec::new(alloc);
    row.push(None)?;
    append_whole(alloc, &mut row, members.parts())?;
    Ok(Marks::of_row(row))
}

/// What the items mark, or their first cause.
fn mark_items(alloc: Global, members: &Members<'_>, items: &[Item]) -> Result<Marks, Resolve>
    requires { AreMembers members.now }
    ensures marks { IfOk result (λ m. (n : ℕ) → marks_in m n ≡ marks_of_items (dataset_view members.now.dataset.now) items.now n) }
    ensures accepted { OnOk result (items_cause (dataset_view members.now.dataset.now) [] items.now ≡ None) }
    ensures refused { IfErr result (Refuses (items_cause (dataset_view members.now.dataset.now) [] items.now)) }
{
    if items.is_empty() {
        return Ok(everything(alloc, members)?);
    }
    let mut marks = nothing(alloc, members.parts().len())?;
    let mut wholes = Vec::new(alloc);
    let mut number = 1;
    for item in items {
        mark_item(alloc, members, &mut marks, &mut wholes, number, item)?;
        number += 1;
    }
    Ok(marks)
}

/// Judges the clauses in order.
fn judge_clauses(members: &Members<'_>, clauses: &[Clause]) -> Result<(), Cause>
    requires { AreMembers members.now }
    ensures accepted { OnOk result (clauses_cause (dataset_view members.now.dataset.now) 1 clauses.now ≡ None) }
    ensures refused { IfErr result (λ c. clauses_cause (dataset_view members.now.dataset.now) 1 clauses.now ≡ Some c) }
{
    let mut number = 1;
    for clause in clauses {
        judge_clause(members, number, clause)?;
        number += 1;
    }
    Ok(())
}

/// What a constraint marks of a dataset (DAP 2.0, constraint expressions). Refused with the first cause,
/// items from the left and then clauses from the left, for one of them in the order of `item_tests` and
/// `clause_tests`; the other failure is that memory is wanted.
pub fn resolve(
    alloc: Global,
    dataset: &Dataset,
    index: &Index,
    constraint: &Constraint,
) -> Result<Marks, Resolve>
    requires well_formed { IsWellFormed (dataset_view dataset.now) }
    requires indexed { (path : List (List ℕ)) → number_in index.now path ≡ number_of (dataset_view dataset.now) path }
    ensures marks { IfOk result (λ m. (n : ℕ) → marks_in m n ≡ marks (dataset_view dataset.now) constraint.now n) }
    // They suit the dataset: an array has a hyperslab for each dimension, which picks within it.
    ensures suits { IfOk result (λ m. SuitsAll (marks_in m) 1 (dataset_view dataset.now).members) }
    ensures accepted { OnOk result (cause (dataset_view dataset.now) constraint.now ≡ None) }
    ensures refused { IfErr result (Refuses (cause (dataset_view dataset.now) constraint.now)) }
{
    let members = Members::new(alloc, dataset, index)?;
    let marks = mark_items(alloc, &members, constraint.items.items())?;
    judge_clauses(&members, constraint.clauses.items())?;
    Ok(marks)
}
