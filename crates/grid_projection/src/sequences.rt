ghost use Rattle.std.specs.Prelude.{◌≡◌, ◌+◌, ◌<◌, ◌^◌, ◌++◌, [], ◌∷◌, map, length, IfOk, OnOk};
ghost use Rattle.dap_model.specs.Filter.{marked, unchanged};
ghost use Rattle.dap_types.specs.Model.{Member};
ghost use Rattle.dap_types.specs.View.{member_view};
ghost use Rattle.grid_projection.specs.inner.Left.{left_of};
ghost use Rattle.grid_projection.specs.Resolved.{marks_in};

use crate::copies::copied;
use crate::marks::Marks;
use dap_types::{Column, Decl, Id, List, Memory};
use std::alloc::Global;

/// Appends what is left of a Sequence with this number.
#[tactic(auto, using(dap_types::proofs::Views::views))]
pub fn leave_sequence(
    alloc: Global,
    marks: &Marks,
    number: u32,
    name: &Id,
    columns: &[Column],
    left: &mut List<Decl>,
) -> Result<(), Memory>
    requires { number + 1 + length columns.now < 2 ^ 32 }
    ensures { OnOk result (map member_view left.new ≡ map member_view left.old ++ left_of (marks_in marks.now) number (Member.sequence name.now columns.now)) }
{
    let kept = kept_columns(alloc, marks, number + 1, columns)?;
    if kept.items().is_empty() {
        return Ok(());
    }
    left.push(Decl::Sequence(name.try_clone()?, kept))?;
    Ok(())
}

/// The marked ones of some columns, the first of which has this number.
fn kept_columns(
    alloc: Global,
    marks: &Marks,
    first: u32,
    columns: &[Column],
) -> Result<List<Column>, Memory>
    requires { first + length columns.now < 2 ^ 32 }
    ensures { IfOk result (λ l. l ≡ marked unchanged (marks_in marks.now) first columns.now) }
{
    let mut left = List::new(alloc);
    let mut number = first;
    for column in columns {
        push_kept(marks, number, column, &mut left)?;
        number += 1;
    }
    Ok(left)
}

/// Appends the column, if it is marked.
fn push_kept(
    marks: &Marks,
    number: u32,
    column: &Column,
    left: &mut List<Column>,
) -> Result<(), Memory>
    ensures { OnOk result (left.new ≡ left.old ++ marked unchanged (marks_in marks.now) number (column.now ∷ [])) }
{
    match marks.slabs(number) {
        Some(_) => {
            left.push(copied(column)?)?;
            Ok(())
        }
        None => Ok(()),
    }
}
