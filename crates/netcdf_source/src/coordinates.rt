ghost use Rattle.std.specs.Prelude.{◌≡◌, ℕ, ◌<◌, ◌^◌, ◌==◌, Bool, true, false, List, Option, IfOk, IfSome, None, Some, get_or, length, vec_len, if◌then◌else◌};
ghost use Rattle.std.specs.Option.{option_copied, option_or, option_map_or, ForSome};
ghost use Rattle.netcdf_source.specs.Mapping.{own_dimension, coordinate_at, coordinate_variable, has_dimension_name};
ghost use Rattle.netcdf_source.specs.Coordinates.{AreCoordinates};

use crate::Variable;
use crate::header::Contents;
use crate::texts::{is_char, is_offered};
use dap_types::Memory;
use std::alloc::Global;

/// Whether a variable is offered and not char, and has the name of that dimension.
fn has_dimension_name(contents: &Contents, id: u64, variable: &Variable) -> bool
    ensures name { result ≡ has_dimension_name contents.now id variable.now }
    ensures within { result ≡ true → id < length contents.now.dimensions }
{
    match contents.dimensions.items().get(id as usize) {
        Some(dimension) => {
            is_offered(contents, variable)
                && !is_char(variable)
                && variable.name.bytes() == dimension.name.bytes()
        }
        None => false,
    }
}

/// The dimension that a variable is the coordinate variable of.
#[tactic(auto, unfolding(crate::specs::Mapping::own_dimension))]
pub fn own_dimension(contents: &Contents, variable: &Variable) -> Option<u64>
    ensures own { result ≡ own_dimension contents.now variable.now }
    ensures within { IfSome result (λ id. id < length contents.now.dimensions) }
{
    match variable.dimensions.items() {
        [id] if has_dimension_name(contents, *id, variable) => Some(*id),
        _ => None,
    }
}

/// Notes variable number `number` as the coordinate variable of its own dimension, if that has none.
fn note(table: &mut [Option<u32>], own: Option<u64>, number: u32)
    requires { ForSome own (λ id. id < length table.old) }
    ensures { (i : ℕ) → get_or table.new i None ≡ option_or (get_or table.old i None) (if option_map_or (λ j. j == i) own false then Some number else None) }
{
    if let Some(id) = own {
        let i = id as usize;
        if table[i].is_none() {
            table[i] = Some(number);
        }
    }
}

/// No coordinate variable for each of so many dimensions.
fn no_coordinates(alloc: Global, count: usize) -> Result<Vec<Option<u32>>, Memory>
    ensures len { IfOk result (λ table. vec_len table ≡ count) }
    ensures none { IfOk result (λ table. (i : ℕ) → get_or table.items i None ≡ None) }
{
    let mut table = Vec::with_capacity(alloc, count)?;
    for _ in 0..count {
        table.push(None)?;
    }
    Ok(table)
}

/// The coordinate variable of each dimension.
pub fn coordinates(alloc: Global, contents: &Contents) -> Result<Vec<Option<u32>>, Memory>
    requires { length contents.now.variables < 2 ^ 32 }
    ensures { IfOk result (λ table. AreCoordinates contents.now table.items) }
{
    let mut table = no_coordinates(alloc, contents.dimensions.items().len())?;
    for (i, variable) in contents.variables.items().iter().enumerate() {
        let own = own_dimension(contents, variable);
        note(table.as_mut_slice(), own, i as u32);
    }
    Ok(table)
}

/// The place of a dimension's coordinate variable among the variables.
pub fn coordinate(contents: &Contents, table: &[Option<u32>], id: u64) -> Option<u32>
    requires { AreCoordinates contents.now table.now }
    ensures { result ≡ coordinate_at contents.now id }
{
    let i = id as usize;
    if i >= table.len() {
        return None;
    }
    table[i]
}

/// A dimension's coordinate variable.
pub fn coordinate_variable<'a>(
    contents: &'a Contents,
    table: &[Option<u32>],
    id: u64,
) -> Option<&'a Variable>
    requires { AreCoordinates contents.now table.now }
    ensures { option_copied result ≡ coordinate_variable contents.now id }
{
    match coordinate(contents, table, id) {
        Some(number) => contents.variables.items().get(number as usize),
        None => None,
    }
}
