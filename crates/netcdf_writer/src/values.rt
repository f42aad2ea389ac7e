//! The values of variables on their way to a sink (netCDF classic format, "Computing file offsets").

ghost use Rattle.std.specs.Prelude.{◌≡◌, ◌<◌, ◌≤◌, ◌^◌, [], map, filter, length, All, false, true};
ghost use Rattle.std.specs.List.{flat_map};
ghost use Rattle.dap_types.specs.Model.{items};
ghost use Rattle.dap_types.specs.View.{tree_view, trees_view};
ghost use Rattle.dap_model.specs.Fits.{IsOf, values_in, values_in_all};
ghost use Rattle.dap_model.specs.Xdr.{zeros};
ghost use Rattle.dap_outside.specs.Buffered.{Puts};
ghost use Rattle.dap_outside.specs.Causes.{HasCause};
ghost use Rattle.netcdf_writer.specs.File.{data_bytes, part_bytes, value_bytes, values_bytes, whole_bytes};
ghost use Rattle.netcdf_writer.specs.Variables.{is_record};
ghost use Rattle.netcdf_writer.specs.inner.Tables.{variable_view, variable_views};
ghost use Rattle.netcdf_writer.specs.inner.Parts.{AreFilled, IsFilled, fixed_part};

use crate::lent::Lent;
use crate::sizes::{is_record, part};
use dap_outside::{Buffer, Failed, Sink};
use dap_types::{BaseType, Tree, Value};

/// Puts a whole number in as many bytes as its type has.
fn put_whole<O: Sink>(
    buffer: &mut Buffer,
    out: &mut O,
    base: BaseType,
    whole: i64,
) -> Result<(), Failed>
    ensures puts { Puts (O.written out.old) buffer.old.bytes.items (O.written out.new) buffer.new.bytes.items result (whole_bytes base whole) }
    ensures cause { HasCause (O.put_faults out.old) (O.put_faults out.new) result }
    ensures beside { O.beside_writing out.new ≡ O.beside_writing out.old }
{
    let bytes = whole.to_be_bytes();
    match base {
        BaseType::Byte => buffer.put(out, &bytes[7..]),
        BaseType::Int16 | BaseType::UInt16 => buffer.put(out, &bytes[6..]),
        _ => buffer.put(out, &bytes[4..]),
    }
}

/// Puts a value in as many bytes as its type has.
fn put_value<O: Sink>(
    buffer: &mut Buffer,
    out: &mut O,
    base: BaseType,
    value: &Value,
) -> Result<(), Failed>
    ensures puts { Puts (O.written out.old) buffer.old.bytes.items (O.written out.new) buffer.new.bytes.items result (value_bytes base value.now) }
    ensures cause { HasCause (O.put_faults out.old) (O.put_faults out.new) result }
    ensures beside { O.beside_writing out.new ≡ O.beside_writing out.old }
{
    match value {
        Value::Whole(whole) => put_whole(buffer, out, base, *whole),
        Value::Bits32(bits) => buffer.put(out, &bits.to_be_bytes()),
        Value::Bits64(bits) => buffer.put(out, &bits.to_be_bytes()),
        Value::Text(_) => buffer.put(out, &[]),
    }
}

/// Puts the values of a tree in order.
#[cycle(values)]
#[tactic(auto, using(dap_types::proofs::Views::views))]
fn put_tree<O: Sink>(
    buffer: &mut Buffer,
    out: &mut O,
    base: BaseType,
    tree: &Tree,
) -> Result<(), Failed>
    ensures puts { Puts (O.written out.old) buffer.old.bytes.items (O.written out.new) buffer.new.bytes.items result (values_bytes base (values_in (tree_view tree.now))) }
    ensures cause { HasCause (O.put_faults out.old) (O.put_faults out.new) result }
    ensures beside { O.beside_writing out.new ≡ O.beside_writing out.old }
{
    match tree {
        Tree::One(value) => put_value(buffer, out, base, value),
        Tree::Many(parts) => put_trees(buffer, out, base, parts.items()),
    }
}

/// Puts the values of some trees in order.
#[cycle(values)]
fn put_trees<O: Sink>(
    buffer: &mut Buffer,
    out: &mut O,
    base: BaseType,
    trees: &[Tree],
) -> Result<(), Failed>
    ensures puts { Puts (O.written out.old) buffer.old.bytes.items (O.written out.new) buffer.new.bytes.items result (values_bytes base (values_in_all (trees_view trees.now))) }
    ensures cause { HasCause (O.put_faults out.old) (O.put_faults out.new) result }
    ensures beside { O.beside_writing out.new ≡ O.beside_writing out.old }
{
    for tree in trees {
        put_tree(buffer, out, base, tree)?;
    }
    Ok(())
}

/// So many zero bytes lead up to a multiple of four.
fn padding(bytes: u64) -> &'static [u8]
    requires { bytes ≤ 2 ^ 36 }
    ensures { result.now ≡ zeros bytes }
{
    match (bytes + 3) % 4 {
        0 => &[0, 0, 0],
        1 => &[0, 0],
        2 => &[0],
        _ => &[],
    }
}

/// Puts the values of a variable, up to a multiple of four bytes.
#[tactic(auto, unfolding(crate::specs::File::part_bytes))]
fn put_part<O: Sink>(buffer: &mut Buffer, out: &mut O, variable: &Lent<'_>) -> Result<(), Failed>
    requires filled { IsFilled (variable_view variable.now) }
    requires fixed { is_record (variable_view variable.now) ≡ false }
    ensures puts { Puts (O.written out.old) buffer.old.bytes.items (O.written out.new) buffer.new.bytes.items result (part_bytes (variable_view variable.now)) }
    ensures cause { HasCause (O.put_faults out.old) (O.put_faults out.new) result }
    ensures beside { O.beside_writing out.new ≡ O.beside_writing out.old }
{
    put_tree(buffer, out, variable.base, variable.tree)?;
    buffer.put(out, padding(part(variable)))
}

/// Puts the values of a variable that is not over the record dimension.
fn put_fixed<O: Sink>(buffer: &mut Buffer, out: &mut O, variable: &Lent<'_>) -> Result<(), Failed>
    requires { IsFilled (variable_view variable.now) }
    ensures puts { Puts (O.written out.old) buffer.old.bytes.items (O.written out.new) buffer.new.bytes.items result (fixed_part (variable_view variable.now)) }
    ensures cause { HasCause (O.put_faults out.old) (O.put_faults out.new) result }
    ensures beside { O.beside_writing out.new ≡ O.beside_writing out.old }
{
    if is_record(variable) {
        return Ok(());
    }
    put_part(buffer, out, variable)
}

/// Puts the values of the variables that are not over the record dimension.
pub fn put_parts<O: Sink>(
    buffer: &mut Buffer,
    out: &mut O,
    variables: &[Lent<'_>],
) -> Result<(), Failed>
    requires { AreFilled (variable_views variables.now) }
    ensures puts { Puts (O.written out.old) buffer.old.bytes.items (O.written out.new) buffer.new.bytes.items result (data_bytes (variable_views variables.now)) }
    ensures cause { HasCause (O.put_faults out.old) (O.put_faults out.new) result }
    ensures beside { O.beside_writing out.new ≡ O.beside_writing out.old }
{
    for variable in variables {
        put_fixed(buffer, out, variable)?;
    }
    Ok(())
}
