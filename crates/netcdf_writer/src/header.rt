//! The bytes of the header of a file (netCDF classic format specification).

ghost use Rattle.std.specs.Prelude.{◌≡◌, ◌+◌, ◌<◌, ◌≤◌, ◌^◌, ◌++◌, ◌∷◌, [], List, map, length, IfOk, OnOk, true, false, MatchOption, if◌then◌else◌, ◌==◌};
ghost use Rattle.std.specs.List.{flat_map, list_any};
ghost use Rattle.dap_types.specs.Limits.{most_header, most_written};
ghost use Rattle.dap_model.specs.Xdr.{word};
ghost use Rattle.netcdf_source.specs.Header.{magic};
ghost use Rattle.netcdf_source.specs.Versions.{number_bytes};
ghost use Rattle.netcdf_writer.specs.File.{dimension, header_length, header_tree, id_of, is_header_too_long, is_unsigned, type_number, variable_trees, version_if};
ghost use Rattle.netcdf_writer.specs.Names.{file_name};
ghost use Rattle.netcdf_writer.specs.Printer.{dimension_bytes, header_bytes, ids_bytes, name_bytes, run_bytes, variable_bytes};
ghost use Rattle.netcdf_writer.specs.Variables.{all_dims, dims_of, fixed_bytes, first_uses, is_record, record_bytes, room, room_by_itself};
ghost use Rattle.netcdf_writer.specs.inner.Planned.{AreDims, number_in};
ghost use Rattle.netcdf_writer.specs.inner.Printing.{head_bytes, placed_bytes, width_if};
ghost use Rattle.netcdf_writer.specs.inner.Tables.{variable_view, variable_views};

use crate::dims::Dims;
use crate::lent::{Lent, dim_name};
use crate::names::undo;
use crate::sizes::{is_record, room, room_in_record};
use dap_types::{BaseType, Dim, Memory, limits};
use std::alloc::Global;

/// The most bytes of a header.
const MOST_HEADER: usize = limits::MOST_HEADER;

/// The tags of the lists of a header.
const DIMENSIONS: u32 = 10;

const VARIABLES: u32 = 11;

/// Where the values of a variable stand, and how many bytes they have.
#[derive(Clone, Copy, Debug)]
pub struct Place {
    begin: u64,
    size: u64,
}

/// The number of a type (netCDF classic format, nc_type).
fn type_number(base: BaseType) -> u32
    ensures { result ≡ type_number base }
{
    match base {
        BaseType::Byte => 1,
        BaseType::Text | BaseType::Url => 2,
        BaseType::Int16 => 3,
        BaseType::Int32 => 4,
        BaseType::Float32 => 5,
        BaseType::Float64 => 6,
        BaseType::UInt16 => 8,
        BaseType::UInt32 => 9,
    }
}

/// Whether version 5 alone has the type.
fn is_unsigned(base: BaseType) -> bool
    ensures { result ≡ is_unsigned base }
{
    base == BaseType::UInt16 || base == BaseType::UInt32
}

/// Whether the file has types that version 5 alone has.
fn is_five(variables: &[Lent<'_>]) -> bool
    ensures { result ≡ list_any (λ v. is_unsigned v.base) variables.now }
{
    variables.iter().any(|variable| is_unsigned(variable.base))
}

fn put(out: &mut Vec<u8>, bytes: &[u8]) -> Result<(), Memory>
    ensures { OnOk result (out.new.items ≡ out.old.items ++ bytes.now) }
{
    out.extend_from_slice(bytes)?;
    Ok(())
}

fn put_word(out: &mut Vec<u8>, number: u32) -> Result<(), Memory>
    ensures { OnOk result (out.new.items ≡ out.old.items ++ word number) }
{
    put(out, &number.to_be_bytes())
}

/// Appends a number of 8 or of 4 bytes.
fn put_number(out: &mut Vec<u8>, is_wide: bool, number: u64) -> Result<(), Memory>
    ensures { OnOk result (out.new.items ≡ out.old.items ++ number_bytes (width_if is_wide) number) }
{
    let bytes = number.to_be_bytes();
    if is_wide {
        put(out, &bytes)
    } else {
        put(out, &bytes[4..])
    }
}

/// Appends some bytes and their padding.
fn put_run(out: &mut Vec<u8>, bytes: &[u8]) -> Result<(), Memory>
    ensures { OnOk result (out.new.items ≡ out.old.items ++ run_bytes bytes.now) }
{
    put(out, bytes)?;
    let zeros = [0u8; 3];
    put(out, &zeros[bytes.len().wrapping_add(3) % 4..])
}

/// The name in the file, out of that of a variable or a dimension.
#[tactic(auto, unfolding(crate::specs::Names::file_name))]
fn file_name(alloc: Global, name: &[u8]) -> Result<Vec<u8>, Memory>
    ensures { IfOk result (λ bytes. bytes.items ≡ file_name name.now) }
{
    let mut bytes = Vec::new(alloc);
    if !undo(&mut bytes, name)? {
        bytes.clear();
    }
    Ok(bytes)
}

#[tactic(auto, unfolding(crate::specs::Printer::name_bytes))]
fn put_name(alloc: Global, out: &mut Vec<u8>, is_five: bool, name: &[u8]) -> Result<(), Memory>
    ensures { OnOk result (out.new.items ≡ out.old.items ++ name_bytes (width_if is_five) (file_name name.now)) }
{
    let name = file_name(alloc, name)?;
    put_number(out, is_five, name.len() as u64)?;
    put_run(out, name.as_slice())
}

/// Appends the tag and the count of a list.
#[tactic(auto, unfolding(crate::specs::inner::Printing::head_bytes))]
fn put_head(out: &mut Vec<u8>, is_five: bool, tag: u32, count: usize) -> Result<(), Memory>
    ensures { OnOk result (out.new.items ≡ out.old.items ++ head_bytes (width_if is_five) tag count) }
{
    put_word(out, if count == 0 { 0 } else { tag })?;
    put_number(out, is_five, count as u64)
}

#[tactic(auto, unfolding(crate::specs::Printer::dimension_bytes))]
fn put_dimension(alloc: Global, out: &mut Vec<u8>, is_five: bool, dim: &Dim) -> Result<(), Memory>
    ensures { OnOk result (out.new.items ≡ out.old.items ++ dimension_bytes (width_if is_five) (dimension dim.now)) }
{
    put_name(alloc, out, is_five, dim_name(dim))?;
    put_number(out, is_five, u64::from(dim.size))
}

fn put_dimensions(
    alloc: Global,
    out: &mut Vec<u8>,
    is_five: bool,
    dims: &[&Dim],
) -> Result<(), Memory>
    ensures { OnOk result (out.new.items ≡ out.old.items ++ flat_map (λ d. dimension_bytes (width_if is_five) (dimension d.now)) dims.now) }
{
    for dim in dims {
        put_dimension(alloc, out, is_five, dim)?;
    }
    Ok(())
}

fn put_ids(out: &mut Vec<u8>, is_five: bool, numbers: &Dims<'_>, dims: &[Dim]) -> Result<(), Memory>
    ensures { OnOk result (out.new.items ≡ out.old.items ++ flat_map (λ d. number_bytes (width_if is_five) (number_in numbers.now d)) dims.now) }
{
    for dim in dims {
        put_number(out, is_five, numbers.number(dim) as u64)?;
    }
    Ok(())
}

/// Appends the name, dimensions, attributes, type, size and place of a variable.
#[tactic(auto, unfolding(crate::specs::inner::Printing::placed_bytes))]
fn put_variable(
    alloc: Global,
    out: &mut Vec<u8>,
    is_five: bool,
    numbers: &Dims<'_>,
    variable: &Lent<'_>,
    place: Place,
) -> Result<(), Memory>
    ensures { OnOk result (out.new.items ≡ out.old.items ++ placed_bytes is_five (number_in numbers.now) (variable_view variable.now) place) }
{
    put_name(alloc, out, is_five, variable.name.bytes())?;
    put_number(out, is_five, variable.dims.len() as u64)?;
    put_ids(out, is_five, numbers, variable.dims)?;
    put_head(out, is_five, 0, 0)?;
    put_word(out, type_number(variable.base))?;
    put_number(out, is_five, place.size)?;
    put_number(out, is_five, place.begin)
}

/// The bytes of a variable, where it is not over the record dimension.
fn room_by_itself(variable: &Lent<'_>) -> u64
    ensures { room_by_itself (variable_view variable.now) < 2 ^ 32 → result ≡ room_by_itself (variable_view variable.now) }
{
    if is_record(variable) {
        0
    } else {
        room(variable)
    }
}

/// The bytes of all variables without the record dimension.
pub fn fixed_bytes(variables: &[Lent<'_>]) -> u64
    requires { fixed_bytes (variable_views variables.now) ≤ most_written }
    ensures { result ≡ fixed_bytes (variable_views variables.now) }
{
    let mut bytes = 0;
    for variable in variables {
        bytes += room_by_itself(variable);
    }
    bytes
}

/// Where a variable stands: with those over the record dimension, or with the others.
fn placed(variable: &Lent<'_>, fixed: u64, records: u64) -> Place
    ensures begin { result.begin ≡ (if is_record (variable_view variable.now) then records else fixed) }
    ensures size { room (variable_view variable.now) < 2 ^ 32 → result.size ≡ room (variable_view variable.now) }
{
    Place {
        begin: if is_record(variable) { records } else { fixed },
        size: room(variable),
    }
}

/// Appends the variables, the values of which begin behind so many bytes.
fn put_variables(
    alloc: Global,
    out: &mut Vec<u8>,
    is_five: bool,
    numbers: &Dims<'_>,
    variables: &[Lent<'_>],
    front: u64,
) -> Result<(), Memory>
    requires dims { AreDims numbers.now (all_dims (variable_views variables.now)) }
    requires fixed { fixed_bytes (variable_views variables.now) ≤ most_written }
    requires records { record_bytes (variable_views variables.now) ≤ 2 ^ 30 }
    requires front { front ≤ most_header }
    ensures { OnOk result (out.new.items ≡ out.old.items ++ flat_map (variable_bytes (version_if is_five)) (variable_trees front (variable_views variables.now) [] (variable_views variables.now))) }
{
    let mut fixed = front;
    let mut records = front + fixed_bytes(variables);
    for variable in variables {
        let place = placed(variable, fixed, records);
        put_variable(alloc, out, is_five, numbers, variable, place)?;
        fixed += room_by_itself(variable);
        records += room_in_record(variable);
    }
    Ok(())
}

/// Appends the first bytes of a file.
fn put_magic(out: &mut Vec<u8>, is_five: bool) -> Result<(), Memory>
    ensures { OnOk result (out.new.items ≡ out.old.items ++ magic (version_if is_five)) }
{
    if is_five {
        return put(out, b"CDF\x05");
    }
    put(out, b"CDF\x01")
}

/// Appends the header of a file the values of which begin behind so many bytes.
fn put_header(
    alloc: Global,
    out: &mut Vec<u8>,
    dims: &Dims<'_>,
    variables: &[Lent<'_>],
    front: u64,
) -> Result<(), Memory>
    requires dims { AreDims dims.now (all_dims (variable_views variables.now)) }
    requires fixed { fixed_bytes (variable_views variables.now) ≤ most_written }
    requires records { record_bytes (variable_views variables.now) ≤ 2 ^ 30 }
    requires front { front ≤ most_header }
    ensures { OnOk result (out.new.items ≡ out.old.items ++ header_bytes (header_tree front (variable_views variables.now))) }
{
    let is_five = is_five(variables);
    put_magic(out, is_five)?;
    put_number(out, is_five, 0)?;
    put_head(out, is_five, DIMENSIONS, dims.items().len())?;
    put_dimensions(alloc, out, is_five, dims.items())?;
    put_head(out, is_five, 0, 0)?;
    put_head(out, is_five, VARIABLES, variables.len())?;
    put_variables(alloc, out, is_five, dims, variables, front)?;
    Ok(())
}

/// The header of the file of some variables. None where it is too long.
pub fn header(
    alloc: Global,
    dims: &Dims<'_>,
    variables: &[Lent<'_>],
) -> Result<Option<Vec<u8>>, Memory>
    requires dims { AreDims dims.now (all_dims (variable_views variables.now)) }
    requires fixed { fixed_bytes (variable_views variables.now) ≤ most_written }
    requires records { record_bytes (variable_views variables.now) ≤ 2 ^ 30 }
    ensures { let vs = variable_views variables.now in IfOk result (λ found. MatchOption found (is_header_too_long vs ≡ true)
        (λ bytes. (is_header_too_long vs ≡ false) × (bytes.items ≡ header_bytes (header_tree (header_length vs) vs)))) }
{
    let mut bytes = Vec::new(alloc);
    put_header(alloc, &mut bytes, dims, variables, 0)?;
    let front = bytes.as_slice().len();
    if front > MOST_HEADER {
        return Ok(None);
    }
    bytes.clear();
    put_header(alloc, &mut bytes, dims, variables, front as u64)?;
    Ok(Some(bytes))
}
