ghost use Rattle.std.specs.Prelude.{◌≡◌, ℕ, ◌-◌, ◌<◌, ◌^◌, ◌==◌, List, ◌++◌, map, length, IfOk, OnOk, None, option_and_then, slice_get, if◌then◌else◌};
ghost use Rattle.netcdf_source.specs.Coordinates.{AreCoordinates};
ghost use Rattle.netcdf_source.specs.Mapping.{coordinate_at, is_grid, leaves_of, leaves_from, leaf_in};

use crate::Variable;
use crate::coordinates::coordinate;
use crate::header::Contents;
use crate::texts::is_offered;
use dap_types::Memory;
use std::alloc::Global;

fn push_coordinates(
    leaves: &mut Vec<Option<u32>>,
    contents: &Contents,
    table: &[Option<u32>],
    ids: &[u64],
) -> Result<(), Memory>
    requires { AreCoordinates contents.now table.now }
    ensures { OnOk result (leaves.new.items ≡ leaves.old.items ++ map (coordinate_at contents.now) ids.now) }
{
    for id in ids {
        leaves.push(coordinate(contents, table, *id))?;
    }
    Ok(())
}

/// The members that a variable becomes: a Grid has no variable, its array and maps have.
fn push_leaves(
    leaves: &mut Vec<Option<u32>>,
    contents: &Contents,
    table: &[Option<u32>],
    number: u32,
    variable: &Variable,
    grid: bool,
) -> Result<(), Memory>
    requires table { AreCoordinates contents.now table.now }
    requires grid { grid ≡ is_grid contents.now variable.now }
    ensures { OnOk result (leaves.new.items ≡ leaves.old.items ++ leaves_of contents.now number variable.now) }
{
    if !grid {
        leaves.push(Some(number))?;
        return Ok(());
    }
    leaves.push(None)?;
    leaves.push(Some(number))?;
    push_coordinates(leaves, contents, table, variable.dimensions.items())?;
    Ok(())
}

/// The variable of each member of the dataset, none for a Grid.
#[tactic(auto, unfolding(crate::specs::Mapping::leaves_from))]
pub fn leaves(
    alloc: Global,
    contents: &Contents,
    table: &[Option<u32>],
    grids: &[bool],
) -> Result<Vec<Option<u32>>, Memory>
    requires table { AreCoordinates contents.now table.now }
    requires grids { grids.now ≡ map (is_grid contents.now) contents.now.variables }
    requires count { length contents.now.variables < 2 ^ 32 }
    ensures { IfOk result (λ ls. ls.items ≡ leaves_from contents.now 0 contents.now.variables) }
{
    let mut leaves = Vec::with_capacity(alloc, contents.variables.items().len())?;
    for (i, variable) in contents.variables.items().iter().enumerate() {
        if is_offered(contents, variable) {
            push_leaves(&mut leaves, contents, table, i as u32, variable, grids[i])?;
        }
    }
    Ok(leaves)
}

/// The variable of member number `leaf`, from 1.
pub fn leaf_in(leaves: &[Option<u32>], leaf: u32) -> Option<u32>
    ensures { result ≡ leaf_in leaves.now leaf }
{
    if leaf == 0 {
        return None;
    }
    match leaves.get(leaf as usize - 1) {
        Some(found) => *found,
        None => None,
    }
}
