ghost use Rattle.std.specs.Prelude.{◌≡◌, ℕ, ◌<◌, ◌≤◌, ◌^◌, Bool, true, List, map, filter, IfOk, IfSome, None, Some, get_or, length};
ghost use Rattle.std.specs.List.{list_all};
ghost use Rattle.std.specs.Prelude.{is_some};
ghost use Rattle.netcdf_source.specs.Coordinates.{AreCoordinates};
ghost use Rattle.dap_types.specs.Limits.{most_elements};
ghost use Rattle.dap_types.specs.Names.{file_id};
ghost use Rattle.dap_types.specs.View.{member_view, dataset_view};
ghost use Rattle.netcdf_source.specs.inner.Told.{AreSmall};
ghost use Rattle.netcdf_source.specs.Mapping.{size_at, dimension_ids, base_of, is_char, has_texts, element_dimensions, element_size, is_offered, own_dimension, coordinate_at, differ, is_grid, dim_of, column_of, array_of, coordinate_variable, maps_of, member_of, dataset_of};

use crate::coordinates::{coordinate, coordinate_variable, own_dimension};
use crate::header::Contents;
use crate::ids::{dimension_id, dimension_ids, file_id};
use crate::sizes::size_at;
use crate::texts::{element_dimensions, is_char, is_offered};
use crate::{ExternalType, Variable};
use dap_types::{ArrayDecl, BaseType, Column, Dataset, Decl, Dim, Id, List, Memory};
use file_names::dataset_id;
use std::alloc::Global;

/// The DAP type of values of a type. A char is a part of a String, and a number of 64 bits has no
/// other form than a text.
pub fn base_of(external_type: ExternalType) -> BaseType
    ensures { result ≡ base_of external_type }
{
    match external_type {
        ExternalType::Byte | ExternalType::UByte => BaseType::Byte,
        ExternalType::Short => BaseType::Int16,
        ExternalType::UShort => BaseType::UInt16,
        ExternalType::Int => BaseType::Int32,
        ExternalType::UInt => BaseType::UInt32,
        ExternalType::Float => BaseType::Float32,
        ExternalType::Double => BaseType::Float64,
        ExternalType::Char | ExternalType::Int64 | ExternalType::UInt64 => BaseType::Text,
    }
}

#[tactic(auto, using(crate::proofs::DimensionNames::dimension_names))]
fn dim_of(alloc: Global, contents: &Contents, names: &[Id], id: u64) -> Result<Dim, Memory>
    requires names { names.now ≡ dimension_ids contents.now }
    requires size { size_at contents.now id ≤ most_elements }
    ensures { IfOk result (λ d. d ≡ dim_of contents.now id) }
{
    let name = dimension_id(alloc, names, id)?;
    Ok(Dim {
        name: Some(name),
        size: size_at(contents, id) as u32,
    })
}

fn dims_of(
    alloc: Global,
    contents: &Contents,
    names: &[Id],
    ids: &[u64],
) -> Result<List<Dim>, Memory>
    requires names { names.now ≡ dimension_ids contents.now }
    requires sizes { AreSmall contents.now ids.now }
    ensures { IfOk result (λ ds. ds ≡ map (dim_of contents.now) ids.now) }
{
    let mut dims = List::with_capacity(alloc, ids.len())?;
    for id in ids {
        dims.push(dim_of(alloc, contents, names, *id)?)?;
    }
    Ok(dims)
}

fn column_of(alloc: Global, variable: &Variable) -> Result<Column, Memory>
    ensures { IfOk result (λ x. x ≡ column_of variable.now) }
{
    let name = file_id(alloc, &variable.name)?;
    Ok(Column {
        name,
        base: base_of(variable.external_type),
    })
}

fn element_dims(
    alloc: Global,
    contents: &Contents,
    names: &[Id],
    variable: &Variable,
) -> Result<List<Dim>, Memory>
    requires names { names.now ≡ dimension_ids contents.now }
    requires offered { is_offered contents.now variable.now ≡ true }
    ensures { IfOk result (λ ds. ds ≡ map (dim_of contents.now) (element_dimensions contents.now variable.now)) }
{
    let ids = element_dimensions(contents, variable);
    dims_of(alloc, contents, names, ids)
}

fn array_of(
    alloc: Global,
    contents: &Contents,
    names: &[Id],
    variable: &Variable,
) -> Result<ArrayDecl, Memory>
    requires names { names.now ≡ dimension_ids contents.now }
    requires offered { is_offered contents.now variable.now ≡ true }
    ensures { IfOk result (λ a. a ≡ array_of contents.now variable.now) }
{
    let dims = element_dims(alloc, contents, names, variable)?;
    Ok(ArrayDecl {
        name: file_id(alloc, &variable.name)?,
        base: base_of(variable.external_type),
        dims,
    })
}

/// The map for a dimension: its coordinate variable, which has the name of the dimension.
#[tactic(auto, using(crate::proofs::MapNames::map_names))]
fn map_of(
    alloc: Global,
    contents: &Contents,
    names: &[Id],
    id: u64,
    variable: &Variable,
) -> Result<ArrayDecl, Memory>
    requires names { names.now ≡ dimension_ids contents.now }
    requires coordinate { coordinate_variable contents.now id ≡ Some variable.now }
    ensures { IfOk result (λ a. a ≡ array_of contents.now variable.now) }
{
    let dims = element_dims(alloc, contents, names, variable)?;
    Ok(ArrayDecl {
        name: dimension_id(alloc, names, id)?,
        base: base_of(variable.external_type),
        dims,
    })
}

/// Whether no dimension comes twice.
#[tactic(auto, unfolding(crate::specs::Mapping::differ))]
fn differ(ids: &[u64]) -> bool
    ensures { result ≡ differ ids.now }
{
    for (i, id) in ids.iter().enumerate() {
        if ids[i + 1..].contains(id) {
            return false;
        }
    }
    true
}

/// Whether each dimension has a coordinate variable.
fn have_coordinates(contents: &Contents, table: &[Option<u32>], ids: &[u64]) -> bool
    requires { AreCoordinates contents.now table.now }
    ensures { result ≡ list_all (λ i. is_some (coordinate_at contents.now i)) ids.now }
{
    for id in ids {
        if coordinate(contents, table, *id).is_none() {
            return false;
        }
    }
    true
}

/// Whether a variable is the array of a Grid.
#[tactic(auto, unfolding(crate::specs::Mapping::is_grid))]
fn is_grid(contents: &Contents, table: &[Option<u32>], variable: &Variable) -> bool
    requires { AreCoordinates contents.now table.now }
    ensures { result ≡ is_grid contents.now variable.now }
{
    let ids = variable.dimensions.items();
    !is_char(variable)
        && own_dimension(contents, variable).is_none()
        && !ids.is_empty()
        && differ(ids)
        && have_coordinates(contents, table, ids)
}

/// Which variables are the arrays of Grids.
pub fn grids(alloc: Global, contents: &Contents, table: &[Option<u32>]) -> Result<Vec<bool>, Memory>
    requires { AreCoordinates contents.now table.now }
    ensures { IfOk result (λ grids. grids.items ≡ map (is_grid contents.now) contents.now.variables) }
{
    let mut grids = Vec::with_capacity(alloc, contents.variables.items().len())?;
    for variable in contents.variables.items() {
        grids.push(is_grid(contents, table, variable))?;
    }
    Ok(grids)
}

/// The coordinate variables of some dimensions, as the maps of a Grid.
fn maps_of(
    alloc: Global,
    contents: &Contents,
    table: &[Option<u32>],
    names: &[Id],
    ids: &[u64],
) -> Result<List<ArrayDecl>, Memory>
    requires table { AreCoordinates contents.now table.now }
    requires names { names.now ≡ dimension_ids contents.now }
    ensures { IfOk result (λ maps. maps ≡ maps_of contents.now ids.now) }
{
    let mut maps = List::with_capacity(alloc, ids.len())?;
    for id in ids {
        if let Some(variable) = coordinate_variable(contents, table, *id) {
            maps.push(map_of(alloc, contents, names, *id, variable)?)?;
        }
    }
    Ok(maps)
}

/// What a variable becomes in the dataset.
#[tactic(auto, unfolding(crate::specs::Mapping::member_of), using(dap_types::proofs::Views::views))]
fn member_of(
    alloc: Global,
    contents: &Contents,
    table: &[Option<u32>],
    names: &[Id],
    variable: &Variable,
    grid: bool,
) -> Result<Decl, Memory>
    requires table { AreCoordinates contents.now table.now }
    requires grid { grid ≡ is_grid contents.now variable.now }
    requires offered { is_offered contents.now variable.now ≡ true }
    requires names { names.now ≡ dimension_ids contents.now }
    ensures { IfOk result (λ d. member_view d ≡ member_of contents.now variable.now) }
{
    if element_dimensions(contents, variable).is_empty() {
        return Ok(Decl::Base(column_of(alloc, variable)?));
    }
    let array = array_of(alloc, contents, names, variable)?;
    if !grid {
        return Ok(Decl::Array(array));
    }
    let maps = maps_of(alloc, contents, table, names, variable.dimensions.items())?;
    let name = array.name.try_clone()?;
    Ok(Decl::Grid(name, array, maps))
}

fn members_of(
    alloc: Global,
    contents: &Contents,
    table: &[Option<u32>],
    grids: &[bool],
    names: &[Id],
) -> Result<List<Decl>, Memory>
    requires table { AreCoordinates contents.now table.now }
    requires grids { grids.now ≡ map (is_grid contents.now) contents.now.variables }
    requires names { names.now ≡ dimension_ids contents.now }
    ensures { IfOk result (λ ds. map member_view ds ≡ map (member_of contents.now) (filter (is_offered contents.now) contents.now.variables)) }
{
    let mut members = List::with_capacity(alloc, contents.variables.items().len())?;
    for (i, variable) in contents.variables.items().iter().enumerate() {
        if is_offered(contents, variable) {
            members.push(member_of(alloc, contents, table, names, variable, grids[i])?)?;
        }
    }
    Ok(members)
}

/// The dataset of a file with that name.
pub fn dataset_of(
    alloc: Global,
    contents: &Contents,
    table: &[Option<u32>],
    grids: &[bool],
    file_name: &[u8],
) -> Result<Dataset, Memory>
    requires table { AreCoordinates contents.now table.now }
    requires grids { grids.now ≡ map (is_grid contents.now) contents.now.variables }
    ensures { IfOk result (λ d. dataset_view d ≡ dataset_of contents.now file_name.now) }
{
    let name = dataset_id(alloc, file_name)?;
    let names = dimension_ids(alloc, contents.dimensions.items())?;
    let members = members_of(alloc, contents, table, grids, names.items())?;
    Ok(Dataset { name, members })
}
