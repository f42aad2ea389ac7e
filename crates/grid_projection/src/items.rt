ghost use Rattle.std.specs.Prelude.{◌≡◌, ◌+◌, ◌++◌, ◌==◌, ◌&&◌, not, if◌then◌else◌, ℕ, [], ◌∷◌, length, None, Some, IfOk, IfErr, OnOk, false};
ghost use Rattle.std.specs.List.{list_any};
ghost use Rattle.std.specs.Option.{option_or};
ghost use Rattle.dap_types.specs.View.{dataset_view};
ghost use Rattle.grid_projection.specs.First.{first_there};
ghost use Rattle.grid_projection.specs.Items.{are_some, item_cause, slab_tests, sliced_inside, sliced_sizes};
ghost use Rattle.grid_projection.specs.Marks.{item_marks, last_slabs, path_of, row_of};
ghost use Rattle.dap_types.specs.Preorder.{preorder_all};
ghost use Rattle.grid_projection.specs.inner.Settled.{AreSettled};
ghost use Rattle.grid_projection.specs.Resolved.{AreMembers, Refuses, marks_in, part_view};

use crate::marks::Marks;
use crate::members::Members;
use crate::parts::Part;
use crate::refusal::Resolve;
use crate::rows::{Row, sliced_dims, sliced_row, whole_row};
use crate::slabs::{has_misfit, have_big, slabs_of};
use constraint_parse::{Item, RawSlab, Step};
use dap_errors::{Cause, Spot};
use dap_types::{Id, Memory, limits};
use std::alloc::Global;

/// The most items that a constraint may have, and the most clauses, and values of a clause.
pub const MOST: u32 = limits::MOST_ITEMS;

/// The names of an item.
fn path_of(alloc: Global, steps: &[Step]) -> Result<Vec<Id>, Memory>
    ensures { IfOk result (λ path. path.items ≡ path_of steps.now) }
{
    let mut path = Vec::with_capacity(alloc, steps.len())?;
    for step in steps {
        path.push(step.name.try_clone()?)?;
    }
    Ok(path)
}

/// The slabs behind the last name.
fn last_slabs(steps: &[Step]) -> &[RawSlab]
    ensures { result.now ≡ last_slabs steps.now }
{
    match steps {
        [.., last] => last.slabs.items(),
        [] => &[],
    }
}

/// Whether a name has slabs behind it.
fn are_sliced(steps: &[Step]) -> bool
    ensures { result ≡ list_any (λ s. are_some s.slabs) steps.now }
{
    for step in steps {
        if !step.slabs.items().is_empty() {
            return true;
        }
    }
    false
}

/// Whether a name before the last has slabs behind it.
#[tactic(auto, using(crate::proofs::Lasts::inside_take))]
fn is_sliced_inside(steps: &[Step]) -> bool
    ensures { result ≡ sliced_inside steps.now }
{
    if steps.is_empty() {
        return false;
    }
    are_sliced(&steps[..steps.len() - 1])
}

/// What is marked of a member that an item names, or the first cause of its slabs.
fn row_of(alloc: Global, part: Part<'_>, slabs: &[RawSlab], spot: Spot) -> Result<Row, Resolve>
    ensures ok { IfOk result (λ row. row.items ≡ row_of (part_view part.entry) slabs.now) }
    ensures accepted { OnOk result (first_there (slab_tests (sliced_sizes (part_view part.entry)) slabs.now) spot ≡ None) }
    ensures refused { IfErr result (Refuses (first_there (slab_tests (sliced_sizes (part_view part.entry)) slabs.now) spot)) }
{
    if slabs.is_empty() {
        return Ok(whole_row(alloc, part)?);
    }
    let Some(dims) = sliced_dims(part) else {
        return Err(Resolve::Refused(Cause::NotArray(spot)));
    };
    if slabs.len() != dims.len() {
        return Err(Resolve::Refused(Cause::SlabCount(spot)));
    }
    if have_big(slabs) {
        return Err(Resolve::Refused(Cause::BigNumber(spot)));
    }
    if has_misfit(slabs, dims) {
        return Err(Resolve::Refused(Cause::BadSlab(spot)));
    }
    let slabs = slabs_of(alloc, slabs, dims)?;
    Ok(sliced_row(alloc, part, slabs.items())?)
}

/// Whether the number is one of them.
fn has_number(numbers: &[u32], number: u32) -> bool
    ensures { result ≡ list_any (λ n. n == number) numbers.now }
{
    for n in numbers {
        if *n == number {
            return true;
        }
    }
    false
}

/// Whether a whole member is marked that was marked whole before.
fn is_settled(wholes: &[u32], slabs: &[RawSlab], number: u32) -> bool
    ensures { result ≡ (not (are_some slabs.now) && list_any (λ n. n == number) wholes.now) }
{
    slabs.is_empty() && has_number(wholes, number)
}

/// Keeps the number of a member that is marked whole.
fn keep_whole(wholes: &mut Vec<u32>, slabs: &[RawSlab], number: u32) -> Result<(), Memory>
    ensures { OnOk result (wholes.new.items ≡ (if are_some slabs.now then wholes.old.items else wholes.old.items ++ number ∷ [])) }
{
    if slabs.is_empty() {
        wholes.push(number)?;
    }
    Ok(())
}

/// Marks what item `number` picks, or tells its first cause. The members that were marked whole before
/// are kept by their numbers, so that each is walked over once.
pub fn mark_item(
    alloc: Global,
    members: &Members<'_>,
    marks: &mut Marks,
    wholes: &mut Vec<u32>,
    number: u32,
    item: &Item,
) -> Result<(), Resolve>
    requires members { AreMembers members.now }
    requires wholes { AreSettled (dataset_view members.now.dataset.now) (marks_in marks.old) wholes.old.items }
    requires row { length marks.old ≡ length (preorder_all (dataset_view members.now.dataset.now).members) + 1 }
    ensures length { length marks.new ≡ length marks.old }
    ensures wholes { OnOk result (AreSettled (dataset_view members.now.dataset.now) (marks_in marks.new) wholes.new.items) }
    ensures marks { OnOk result ((n : ℕ) → marks_in marks.new n ≡ option_or (marks_in marks.old n) (item_marks (dataset_view members.now.dataset.now) item.now n)) }
    ensures accepted { OnOk result (item_cause (dataset_view members.now.dataset.now) (marks_in marks.old) number item.now ≡ None) }
    ensures refused { IfErr result (Refuses (item_cause (dataset_view members.now.dataset.now) (marks_in marks.old) number item.now)) }
{
    let spot = Spot::Item(number);
    if number > MOST {
        return Err(Resolve::Refused(Cause::TooMany(spot)));
    }
    let Item::Path(steps) = item else {
        return Err(Resolve::Refused(Cause::Unsupported(spot)));
    };
    let steps = steps.items();
    let path = path_of(alloc, steps)?;
    let Some(found) = members.find(&path) else {
        return Err(Resolve::Refused(Cause::UnknownName(spot)));
    };
    if is_sliced_inside(steps) {
        return Err(Resolve::Refused(Cause::NotArray(spot)));
    }
    let slabs = last_slabs(steps);
    if is_settled(wholes, slabs, found.number) {
        return Ok(());
    }
    let row = row_of(alloc, found.part, slabs, spot)?;
    if marks.clashes(found.number, &row) {
        return Err(Resolve::Refused(Cause::TwoSlabs(spot)));
    }
    marks.add(found.number, row);
    keep_whole(wholes, slabs, found.number)?;
    Ok(())
}
