//! What stands against storing a member, by itself.

ghost use Rattle.std.specs.Prelude.{◌≡◌, not, map, is_none, None, Some, IfOk};
ghost use Rattle.std.specs.Cmp.Lexicographic.{pointwise};
ghost use Rattle.std.specs.List.{list_all, list_any};
ghost use Rattle.std.specs.Str.{bytes_eq};
ghost use Rattle.dap_types.specs.Model.{grid};
ghost use Rattle.dap_types.specs.View.{member_view};
ghost use Rattle.dap_model.specs.Laws.{is_number};
ghost use Rattle.netcdf_writer.specs.Causes.{has_bad_name, is_bad_grid, is_map_of, is_misnamed, is_other_kind, lacks_name};
ghost use Rattle.netcdf_writer.specs.Names.{is_file_name};
ghost use Rattle.netcdf_writer.specs.Variables.{dim_name};
ghost use Rattle.netcdf_writer.specs.inner.Planned.{why_alone};

use crate::Why;
use crate::lent::dim_name;
use crate::names::is_file_name;
use dap_types::{ArrayDecl, BaseType, Decl, Dim, Memory};
use std::alloc::Global;

fn is_number(base: BaseType) -> bool
    ensures { result ≡ is_number base }
{
    base != BaseType::Text && base != BaseType::Url
}

fn have_texts(arrays: &[ArrayDecl]) -> bool
    ensures { result ≡ list_any (λ b. not (is_number b.base)) arrays.now }
{
    arrays.iter().any(|array| !is_number(array.base))
}

/// Whether it is a Structure, a Sequence, or has texts.
#[tactic(auto, using(dap_types::proofs::Views::views), unfolding(crate::specs::Causes::is_other_kind))]
fn is_other_kind(decl: &Decl) -> bool
    ensures { result ≡ is_other_kind (member_view decl.now) }
{
    match decl {
        Decl::Base(column) => !is_number(column.base),
        Decl::Array(array) => !is_number(array.base),
        Decl::Grid(_, array, maps) => !is_number(array.base) || have_texts(maps.items()),
        Decl::Structure(_, _) | Decl::Sequence(_, _) => true,
    }
}

fn lacks(array: &ArrayDecl) -> bool
    ensures { result ≡ list_any (λ d. is_none d.name) array.now.dims }
{
    array.dims.items().iter().any(|dim| dim.name.is_none())
}

fn lack_names(arrays: &[ArrayDecl]) -> bool
    ensures { result ≡ list_any (λ a. list_any (λ d. is_none d.name) a.dims) arrays.now }
{
    arrays.iter().any(|array| lacks(array))
}

/// Whether one of its dimensions has no name.
#[tactic(auto, using(dap_types::proofs::Views::views), unfolding(crate::specs::Causes::lacks_name))]
fn lacks_name(decl: &Decl) -> bool
    ensures { result ≡ lacks_name (member_view decl.now) }
{
    match decl {
        Decl::Array(array) => lacks(array),
        Decl::Grid(_, array, maps) => lacks(array) || lack_names(maps.items()),
        Decl::Base(_) | Decl::Structure(_, _) | Decl::Sequence(_, _) => false,
    }
}

fn are_misnamed(room: &mut Vec<u8>, dims: &[Dim]) -> Result<bool, Memory>
    ensures { IfOk result (λ bad. bad ≡ list_any (λ d. not (is_file_name (dim_name d))) dims.now) }
{
    for dim in dims {
        if !is_file_name(room, dim_name(dim))? {
            return Ok(true);
        }
    }
    Ok(false)
}

/// Whether the name of an array or of one of its dimensions is none of a netCDF file.
#[tactic(auto, unfolding(crate::specs::Causes::is_misnamed))]
fn is_misnamed(room: &mut Vec<u8>, array: &ArrayDecl) -> Result<bool, Memory>
    ensures { IfOk result (λ bad. bad ≡ is_misnamed array.now) }
{
    if !is_file_name(room, array.name.bytes())? {
        return Ok(true);
    }
    are_misnamed(room, array.dims.items())
}

fn have_bad_names(room: &mut Vec<u8>, arrays: &[ArrayDecl]) -> Result<bool, Memory>
    ensures { IfOk result (λ bad. bad ≡ list_any is_misnamed arrays.now) }
{
    for array in arrays {
        if is_misnamed(room, array)? {
            return Ok(true);
        }
    }
    Ok(false)
}

/// Whether one of its names is none of a netCDF file.
#[tactic(auto, using(dap_types::proofs::Views::views), unfolding(crate::specs::Causes::has_bad_name))]
fn has_bad_name(room: &mut Vec<u8>, decl: &Decl) -> Result<bool, Memory>
    ensures { IfOk result (λ bad. bad ≡ has_bad_name (member_view decl.now)) }
{
    match decl {
        Decl::Base(column) => Ok(!is_file_name(room, column.name.bytes())?),
        Decl::Array(array) => is_misnamed(room, array),
        Decl::Grid(_, array, maps) => {
            Ok(is_misnamed(room, array)? || have_bad_names(room, maps.items())?)
        }
        Decl::Structure(_, _) | Decl::Sequence(_, _) => Ok(false),
    }
}

fn all_named(dims: &[Dim], name: &[u8]) -> bool
    ensures { result ≡ list_all (λ e. bytes_eq (dim_name e) name.now) dims.now }
{
    dims.iter().all(|dim| dim_name(dim) == name)
}

/// Whether a map and its dimension have the name of the dimension that it is the map of.
#[tactic(auto, unfolding(crate::specs::Causes::is_map_of))]
fn is_map_of(map: &ArrayDecl, dim: &Dim) -> bool
    ensures { result ≡ is_map_of map.now dim.now }
{
    map.name.bytes() == dim_name(dim) && all_named(map.dims.items(), dim_name(dim))
}

fn are_maps_of(maps: &[ArrayDecl], dims: &[Dim]) -> bool
    ensures { result ≡ pointwise is_map_of maps.now dims.now }
{
    if maps.len() != dims.len() {
        return false;
    }
    for (k, map) in maps.iter().enumerate() {
        if !is_map_of(map, &dims[k]) {
            return false;
        }
    }
    true
}

/// Whether it is a Grid whose array or one of whose maps does not have the name that it has in a file.
#[tactic(auto, using(dap_types::proofs::Views::views), unfolding(crate::specs::Causes::is_bad_grid))]
fn is_bad_grid(decl: &Decl) -> bool
    ensures { result ≡ is_bad_grid (member_view decl.now) }
{
    match decl {
        Decl::Grid(name, array, maps) => {
            array.name.bytes() != name.bytes() || !are_maps_of(maps.items(), array.dims.items())
        }
        Decl::Base(_) | Decl::Array(_) | Decl::Structure(_, _) | Decl::Sequence(_, _) => false,
    }
}

/// The first cause that a member has by itself.
#[tactic(auto, unfolding(crate::specs::inner::Planned::why_alone))]
pub fn why_alone(alloc: Global, decl: &Decl) -> Result<Option<Why>, Memory>
    ensures { IfOk result (λ why. why ≡ why_alone (member_view decl.now)) }
{
    if is_other_kind(decl) {
        return Ok(Some(Why::Kind));
    }
    if lacks_name(decl) {
        return Ok(Some(Why::NoName));
    }
    if has_bad_name(&mut Vec::new(alloc), decl)? {
        return Ok(Some(Why::BadName));
    }
    if is_bad_grid(decl) {
        return Ok(Some(Why::BadGrid));
    }
    Ok(None)
}
