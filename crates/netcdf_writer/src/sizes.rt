//! The bytes of the values of a variable.

ghost use Rattle.std.specs.Prelude.{◌≡◌, ◌*◌, ◌^◌, ◌<◌, ◌≤◌, map};
ghost use Rattle.netcdf_source.specs.Parts.{inner};
ghost use Rattle.netcdf_writer.specs.Variables.{is_empty_dim, is_record, part, room, room_in_record, width_of};
ghost use Rattle.netcdf_writer.specs.inner.Tables.{variable_view};
ghost use Rattle.std.specs.List.{list_any};
ghost use Rattle.dap_model.specs.Xdr.{padded};

use crate::lent::Lent;
use dap_types::{BaseType, Dim};
use xdr_decode::elements;

/// The bytes of a value (netCDF classic format, nc_type).
pub fn width_of(base: BaseType) -> u64
    ensures width { result ≡ width_of base }
    ensures few { result ≤ 8 }
{
    match base {
        BaseType::Byte | BaseType::Text | BaseType::Url => 1,
        BaseType::Int16 | BaseType::UInt16 => 2,
        BaseType::Int32 | BaseType::UInt32 | BaseType::Float32 => 4,
        BaseType::Float64 => 8,
    }
}

/// The dimensions inside one record.
fn inner(dims: &[Dim]) -> &[Dim]
    ensures { map (λ dim. dim.size) result.now ≡ inner (map (λ dim. dim.size) dims.now) }
{
    match dims {
        [first, rest @ ..] if first.size == 0 => rest,
        _ => dims,
    }
}

/// Whether a variable is over a dimension of size 0.
pub fn is_record(variable: &Lent<'_>) -> bool
    ensures { result ≡ is_record (variable_view variable.now) }
{
    variable.dims.iter().any(|dim| dim.size == 0)
}

/// So many bytes up to a multiple of four.
fn padded(bytes: u64) -> u64
    requires { bytes ≤ 2 ^ 35 }
    ensures { result ≡ padded bytes }
{
    bytes + (3 - (bytes + 3) % 4)
}

/// The bytes of all values, or of those of one record. Where they are 2^32 or more, so is the answer.
#[tactic(auto, unfolding(crate::specs::Variables::part))]
pub fn part(variable: &Lent<'_>) -> u64
    ensures few { part (variable_view variable.now) < 2 ^ 32 → result ≡ part (variable_view variable.now) }
    ensures many { 2 ^ 32 ≤ part (variable_view variable.now) → 2 ^ 32 ≤ result }
    ensures within { result ≤ 2 ^ 35 }
{
    elements(inner(variable.dims)) * width_of(variable.base)
}

/// The same up to a multiple of four.
pub fn room(variable: &Lent<'_>) -> u64
    ensures few { room (variable_view variable.now) < 2 ^ 32 → result ≡ room (variable_view variable.now) }
    ensures many { 2 ^ 32 ≤ room (variable_view variable.now) → 2 ^ 32 ≤ result }
    ensures within { result ≤ 2 ^ 36 }
{
    padded(part(variable))
}

/// The bytes of a variable in a record. Where they are 2^32 or more, so is the answer.
pub fn room_in_record(variable: &Lent<'_>) -> u64
    ensures few { room_in_record (variable_view variable.now) < 2 ^ 32 → result ≡ room_in_record (variable_view variable.now) }
    ensures many { 2 ^ 32 ≤ room_in_record (variable_view variable.now) → 2 ^ 32 ≤ result }
{
    if is_record(variable) {
        room(variable)
    } else {
        0
    }
}
