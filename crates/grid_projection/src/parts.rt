ghost use Rattle.std.specs.Prelude.{◌≡◌, [], ◌∷◌, ◌++◌, map, OnOk};
ghost use Rattle.dap_types.specs.Model.{Member, scalar};
ghost use Rattle.dap_types.specs.View.{member_view, members_view};
ghost use Rattle.dap_types.specs.Preorder.{preorder, preorder_all};
ghost use Rattle.grid_projection.specs.Resolved.{part_view};

use dap_types::{ArrayDecl, Column, Decl, Memory};

/// A member of a dataset, by where it stands.
#[derive(Clone, Copy, Debug)]
pub enum Part<'a> {
    /// One that stands at the top or in a Structure.
    Whole(&'a Decl),
    /// The array of a Grid, or one of its maps.
    Array(&'a ArrayDecl),
    /// A column of a Sequence.
    Column(&'a Column),
}

/// Appends a member.
fn push_part<'a>(parts: &mut Vec<Part<'a>>, part: Part<'a>) -> Result<(), Memory>
    ensures { OnOk result (map part_view parts.new.items ≡ map part_view parts.old.items ++ part_view part.entry ∷ []) }
{
    parts.push(part)?;
    Ok(())
}

/// Appends the members of a level with their parts, in preorder.
#[cycle(listing)]
pub fn list_level<'a>(parts: &mut Vec<Part<'a>>, decls: &'a [Decl]) -> Result<(), Memory>
    ensures { OnOk result (map part_view parts.new.items ≡ map part_view parts.old.items ++ preorder_all (members_view decls.now)) }
{
    for decl in decls {
        list_member(parts, decl)?;
    }
    Ok(())
}

/// Appends a member with its parts, in preorder.
#[cycle(listing)]
#[tactic(auto, using(dap_types::proofs::Views::views))]
pub fn list_member<'a>(parts: &mut Vec<Part<'a>>, decl: &'a Decl) -> Result<(), Memory>
    ensures { OnOk result (map part_view parts.new.items ≡ map part_view parts.old.items ++ preorder (member_view decl.now)) }
{
    push_part(parts, Part::Whole(decl))?;
    match decl {
        Decl::Base(_) => Ok(()),
        Decl::Array(_) => Ok(()),
        Decl::Structure(_, inner) => {
            list_level(parts, inner.items())?;
            Ok(())
        }
        Decl::Grid(_, array, maps) => {
            push_part(parts, Part::Array(array))?;
            list_arrays(parts, maps.items())?;
            Ok(())
        }
        Decl::Sequence(_, columns) => {
            list_columns(parts, columns.items())?;
            Ok(())
        }
    }
}

fn list_arrays<'a>(parts: &mut Vec<Part<'a>>, arrays: &'a [ArrayDecl]) -> Result<(), Memory>
    ensures { OnOk result (map part_view parts.new.items ≡ map part_view parts.old.items ++ map Member.array arrays.now) }
{
    for array in arrays {
        push_part(parts, Part::Array(array))?;
    }
    Ok(())
}

fn list_columns<'a>(parts: &mut Vec<Part<'a>>, columns: &'a [Column]) -> Result<(), Memory>
    ensures { OnOk result (map part_view parts.new.items ≡ map part_view parts.old.items ++ map scalar columns.now) }
{
    for column in columns {
        push_part(parts, Part::Column(column))?;
    }
    Ok(())
}
