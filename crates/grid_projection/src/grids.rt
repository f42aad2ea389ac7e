ghost use Rattle.std.specs.Prelude.{◌≡◌, ◌+◌, ◌<◌, ◌^◌, ◌++◌, [], ◌∷◌, map, length, MatchOption, Some, true, false, IfOk, OnOk};
ghost use Rattle.dap_model.specs.Cutting.{counted, indexes};
ghost use Rattle.dap_model.specs.Filter.{all_pick, marked, picks, stays_grid};
ghost use Rattle.dap_types.specs.Model.{Member};
ghost use Rattle.dap_types.specs.View.{member_view};
ghost use Rattle.grid_projection.specs.inner.Left.{left_of, structure_of};
ghost use Rattle.grid_projection.specs.Resolved.{marks_in};

use crate::copies::counted;
use crate::leaves::{leave_array, push_structure};
use crate::marks::Marks;
use crate::slabs::picks_same;
use dap_types::{ArrayDecl, Decl, Id, List, Memory, Slab};
use std::alloc::Global;

/// Appends what is left of a Grid with this number.
pub fn leave_grid(
    alloc: Global,
    marks: &Marks,
    number: u32,
    name: &Id,
    array: &ArrayDecl,
    maps: &[ArrayDecl],
    left: &mut List<Decl>,
) -> Result<(), Memory>
    requires { number + 2 + length maps.now < 2 ^ 32 }
    ensures { OnOk result (map member_view left.new ≡ map member_view left.old ++ left_of (marks_in marks.now) number (Member.grid name.now array.now maps.now)) }
{
    match grid_slabs(marks, number) {
        Some(slabs) => {
            push_grid(alloc, marks, number, name, array, slabs, maps, left)?;
            Ok(())
        }
        None => {
            leave_parts(alloc, marks, number, name, array, maps, left)?;
            Ok(())
        }
    }
}

/// The hyperslabs of the array of the Grid with this number, where it stays a Grid.
#[tactic(auto, using(crate::proofs::Leaving::no_grid, crate::proofs::Leaving::other_grid))]
fn grid_slabs(marks: &Marks, number: u32) -> Option<&[Slab]>
    requires { number + 2 < 2 ^ 32 }
    ensures { MatchOption result (stays_grid (marks_in marks.now) number ≡ false) (λ slabs. (marks_in marks.now (number + 1) ≡ Some slabs.now) × (all_pick (marks_in marks.now) (number + 2) slabs.now ≡ true)) }
{
    match marks.slabs(number + 1) {
        Some(slabs) => {
            if all_pick(marks, number as usize + 2, slabs) {
                Some(slabs)
            } else {
                None
            }
        }
        None => None,
    }
}

/// Appends a Grid that stays one.
#[tactic(auto, using(dap_types::proofs::Views::views))]
fn push_grid(
    alloc: Global,
    marks: &Marks,
    number: u32,
    name: &Id,
    array: &ArrayDecl,
    slabs: &[Slab],
    maps: &[ArrayDecl],
    left: &mut List<Decl>,
) -> Result<(), Memory>
    requires { number + 2 + length maps.now < 2 ^ 32 }
    ensures { OnOk result (map member_view left.new ≡ map member_view left.old ++ Member.grid name.now (counted slabs.now array.now) (marked counted (marks_in marks.now) (number + 2) maps.now) ∷ []) }
{
    let array = counted(alloc, slabs, array)?;
    let maps = counted_each(alloc, marks, number + 2, maps)?;
    left.push(Decl::Grid(name.try_clone()?, array, maps))?;
    Ok(())
}

/// Appends a Structure of what is left of a Grid.
fn leave_parts(
    alloc: Global,
    marks: &Marks,
    number: u32,
    name: &Id,
    array: &ArrayDecl,
    maps: &[ArrayDecl],
    left: &mut List<Decl>,
) -> Result<(), Memory>
    requires { number + 2 + length maps.now < 2 ^ 32 }
    ensures { OnOk result (map member_view left.new ≡ map member_view left.old ++ structure_of name.now (map Member.array (marked counted (marks_in marks.now) (number + 1) (array.now ∷ maps.now)))) }
{
    let mut parts = List::new(alloc);
    leave_array(alloc, marks, number + 1, array, &mut parts)?;
    let mut part = number + 2;
    for map in maps {
        leave_array(alloc, marks, part, map, &mut parts)?;
        part += 1;
    }
    push_structure(name, parts, left)?;
    Ok(())
}

/// The marked ones of some arrays, the first of which has this number.
fn counted_each(
    alloc: Global,
    marks: &Marks,
    first: u32,
    arrays: &[ArrayDecl],
) -> Result<List<ArrayDecl>, Memory>
    requires { first + length arrays.now < 2 ^ 32 }
    ensures { IfOk result (λ l. l ≡ marked counted (marks_in marks.now) first arrays.now) }
{
    let mut left = List::new(alloc);
    let mut number = first;
    for array in arrays {
        push_counted(alloc, marks, number, array, &mut left)?;
        number += 1;
    }
    Ok(left)
}

/// Appends the array, counted, if it is marked.
fn push_counted(
    alloc: Global,
    marks: &Marks,
    number: u32,
    array: &ArrayDecl,
    left: &mut List<ArrayDecl>,
) -> Result<(), Memory>
    ensures { OnOk result (left.new ≡ left.old ++ marked counted (marks_in marks.now) number (array.now ∷ [])) }
{
    match marks.slabs(number) {
        Some(slabs) => {
            left.push(counted(alloc, slabs, array)?)?;
            Ok(())
        }
        None => Ok(()),
    }
}

/// Whether leaves from this one on pick in turn what the hyperslabs pick.
fn all_pick(marks: &Marks, first: usize, slabs: &[Slab]) -> bool
    requires { first < 2 ^ 32 }
    ensures { result ≡ all_pick (marks_in marks.now) first slabs.now }
{
    for (k, slab) in slabs.iter().enumerate() {
        if !picks(marks, first + k, slab) {
            return false;
        }
    }
    true
}

/// Whether the leaf is marked with one hyperslab that picks the indexes of this one.
fn picks(marks: &Marks, leaf: usize, slab: &Slab) -> bool
    ensures { result ≡ picks (marks_in marks.now) leaf (indexes slab.now) }
{
    match marks.slabs_at(leaf) {
        Some([other]) => picks_same(other, slab),
        _ => false,
    }
}
