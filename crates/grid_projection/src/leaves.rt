ghost use Rattle.std.specs.Prelude.{◌≡◌, ◌++◌, map, OnOk};
ghost use Rattle.dap_types.specs.Model.{Member};
ghost use Rattle.dap_types.specs.View.{member_view};
ghost use Rattle.grid_projection.specs.inner.Left.{left_of, structure_of};
ghost use Rattle.grid_projection.specs.Resolved.{marks_in};

use crate::copies::{copied, counted};
use crate::marks::Marks;
use dap_types::{ArrayDecl, Column, Decl, Id, List, Memory};
use std::alloc::Global;

pub fn leave_scalar(
    marks: &Marks,
    number: u32,
    column: &Column,
    left: &mut List<Decl>,
) -> Result<(), Memory>
    ensures { OnOk result (map member_view left.new ≡ map member_view left.old ++ left_of (marks_in marks.now) number (Member.scalar column.now)) }
{
    match marks.slabs(number) {
        Some(_) => {
            left.push(Decl::Base(copied(column)?))?;
            Ok(())
        }
        None => Ok(()),
    }
}

pub fn leave_array(
    alloc: Global,
    marks: &Marks,
    number: u32,
    array: &ArrayDecl,
    left: &mut List<Decl>,
) -> Result<(), Memory>
    ensures { OnOk result (map member_view left.new ≡ map member_view left.old ++ left_of (marks_in marks.now) number (Member.array array.now)) }
{
    match marks.slabs(number) {
        Some(slabs) => {
            left.push(Decl::Array(counted(alloc, slabs, array)?))?;
            Ok(())
        }
        None => Ok(()),
    }
}

/// Appends a Structure, unless it has no parts.
#[tactic(auto, using(dap_types::proofs::Views::views))]
pub fn push_structure(name: &Id, parts: List<Decl>, left: &mut List<Decl>) -> Result<(), Memory>
    ensures { OnOk result (map member_view left.new ≡ map member_view left.old ++ structure_of name.now (map member_view parts)) }
{
    if parts.items().is_empty() {
        return Ok(());
    }
    left.push(Decl::Structure(name.try_clone()?, parts))?;
    Ok(())
}
