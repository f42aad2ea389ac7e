ghost use Rattle.std.specs.Prelude.{◌≡◌, ◌<◌, ◌^◌, ◌++◌, OnOk};
ghost use Rattle.std.specs.List.{flat_map};
ghost use Rattle.dap_model.specs.Dds.{array_text, column_text, dim_text};

use dap_types::{ArrayDecl, Column, Dim, Memory};
use text_lines::{put, put_number, put_spaces, type_word};

fn put_dim(out: &mut Vec<u8>, dim: &Dim) -> Result<(), Memory>
    ensures { OnOk result (out.new.items ≡ out.old.items ++ dim_text dim.now) }
{
    put(out, b"[")?;
    if let Some(name) = &dim.name {
        put(out, name.bytes())?;
        put(out, b" = ")?;
    }
    put_number(out, dim.size)?;
    put(out, b"]")
}

fn put_dims(out: &mut Vec<u8>, dims: &[Dim]) -> Result<(), Memory>
    ensures { OnOk result (out.new.items ≡ out.old.items ++ flat_map dim_text dims.now) }
{
    for dim in dims {
        put_dim(out, dim)?;
    }
    Ok(())
}

/// Appends the line of a scalar or a column.
#[tactic(auto, unfolding(dap_model::specs::Dds::line, dap_model::specs::Dds::column_text))]
pub fn put_column(out: &mut Vec<u8>, depth: u32, column: &Column) -> Result<(), Memory>
    requires { depth < 2 ^ 24 }
    ensures { OnOk result (out.new.items ≡ out.old.items ++ column_text depth column.now) }
{
    put_spaces(out, 4 * depth)?;
    put(out, type_word(column.base))?;
    put(out, b" ")?;
    put(out, column.name.bytes())?;
    put(out, b";\n")
}

/// Appends the lines of a Sequence's columns.
pub fn put_columns(out: &mut Vec<u8>, depth: u32, columns: &[Column]) -> Result<(), Memory>
    requires { depth < 2 ^ 24 }
    ensures { OnOk result (out.new.items ≡ out.old.items ++ flat_map (column_text depth) columns.now) }
{
    for column in columns {
        put_column(out, depth, column)?;
    }
    Ok(())
}

/// Appends the line of an array.
#[tactic(auto, unfolding(dap_model::specs::Dds::line, dap_model::specs::Dds::array_text))]
pub fn put_array(out: &mut Vec<u8>, depth: u32, array: &ArrayDecl) -> Result<(), Memory>
    requires { depth < 2 ^ 24 }
    ensures { OnOk result (out.new.items ≡ out.old.items ++ array_text depth array.now) }
{
    put_spaces(out, 4 * depth)?;
    put(out, type_word(array.base))?;
    put(out, b" ")?;
    put(out, array.name.bytes())?;
    put_dims(out, array.dims.items())?;
    put(out, b";\n")
}

/// Appends the lines of a Grid's maps.
pub fn put_arrays(out: &mut Vec<u8>, depth: u32, arrays: &[ArrayDecl]) -> Result<(), Memory>
    requires { depth < 2 ^ 24 }
    ensures { OnOk result (out.new.items ≡ out.old.items ++ flat_map (array_text depth) arrays.now) }
{
    for array in arrays {
        put_array(out, depth, array)?;
    }
    Ok(())
}
