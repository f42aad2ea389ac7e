ghost use Rattle.std.specs.Prelude.{◌≡◌, ◌+◌, ◌*◌, ◌<◌, ◌≤◌, ◌^◌, All, length, IfOk, Some, slice_get, true};
ghost use Rattle.dap_model.specs.Fits.{IsOf};
ghost use Rattle.das_text.specs.View.{attributes_view};
ghost use Rattle.dap_types.specs.Limits.{most_columns};
ghost use Rattle.dap_types.specs.View.{dataset_view};
ghost use Rattle.dap_types.specs.WellFormed.{IsWellFormed};
ghost use Rattle.dap_types.specs.declared.declarations.Column as declared;
ghost use Rattle.csv_source.specs.Cells.{cell_value, is_cell};
ghost use Rattle.csv_source.specs.Dataset.{table_attributes, table_dataset};
ghost use Rattle.csv_source.specs.Lent.{lent_value};
ghost use Rattle.csv_source.specs.Table.{value_at};

use crate::cell::Cell;
use crate::fields::Fields;
use crate::names::sequence_id;
use crate::numbers::{bits32, bits64, whole};
use dap_types::{BaseType, Bytes, Column, Dataset, Decl, List, Memory};
use das_text::{Attributes, Entry};
use file_names::dataset_id;
use std::alloc::Global;
use std::marker::Model;

/// The table of a CSV file. Contracts see it as a `CsvTable`: the name of the file, the columns,
/// and for each row a value of every column.
#[derive(Drop)]
pub struct Table {
    pub(crate) file_name: Bytes,
    pub(crate) columns: List<Column>,
    /// The fields of all rows, one row after the other. Their values are read from them each time.
    pub(crate) cells: Fields,
    pub(crate) rows: u32,
}

impl Model for Table {
    ghost use Rattle.csv_source.specs.Table.{CsvTable, table};

    ghost Value = { CsvTable };

    ghost use Rattle.csv_source.specs.inner.Held.{IsHeld, fields_in, held_rows};

    ghost view = { λ t. table t.file_name t.columns (held_rows t.columns t.rows (fields_in t.cells.ends.items t.cells.text.items)) };

    ghost invariant = { λ t. IsHeld t.columns t.rows t.cells.ends.items t.cells.text.items };
}

impl Table {
    /// The dataset of the table: one Sequence with its columns, named by the file (DAP 2.0,
    /// Sequence). Fails where memory is wanted.
    pub fn dataset(&self, alloc: Global) -> Result<Dataset, Memory>
        ensures dataset { IfOk result (λ d. dataset_view d ≡ table_dataset self.now) }
        ensures well_formed { IfOk result (λ d. IsWellFormed (dataset_view d)) }
    {
        let mut members = List::new(alloc);
        let columns = copied(alloc, self.columns.items())?;
        members.push(Decl::Sequence(sequence_id(alloc, self.file_name.bytes())?, columns))?;
        Ok(Dataset {
            name: dataset_id(alloc, self.file_name.bytes())?,
            members,
        })
    }

    /// The attributes of the table: one container without entries, of the Sequence's name (DAP 2.0,
    /// DAS). Fails where memory is wanted.
    pub fn attributes(&self, alloc: Global) -> Result<Attributes, Memory>
        ensures { IfOk result (λ a. attributes_view a ≡ table_attributes self.now) }
    {
        let name = sequence_id(alloc, self.file_name.bytes())?;
        let mut containers = List::new(alloc);
        containers.push(Entry::Container(name, List::new(alloc)))?;
        Ok(Attributes { containers })
    }

    /// The number of rows.
    pub fn rows(&self) -> u32
        ensures { result ≡ length self.now.rows }
    {
        self.rows
    }

    /// The number of columns.
    pub fn columns(&self) -> u32
        ensures count { result ≡ length self.now.columns }
        ensures each_row { All (λ row. length row ≡ length self.now.columns) self.now.rows }
    {
        self.columns.items().len() as u32
    }

    /// The value at a row and a column, both from 0.
    pub fn cell(&self, row: u32, column: u32) -> Cell<'_>
        requires row { row < length self.now.rows }
        requires column { column < length self.now.columns }
        ensures value { value_at self.now row column ≡ Some (lent_value result) }
        ensures fits { (c : declared.Column) → slice_get self.now.columns column ≡ Some c → IsOf c.base (lent_value result) }
    {
        let base = self.columns.items()[column as usize].base;
        let at = place(row, column, self.columns.items().len());
        lent(base, self.cells.get(at))
    }
}

/// The number of the field at a row and a column among those of all rows, each of which has so many.
#[tactic(auto, using(crate::proofs::CellFacts::row_fits))]
fn place(row: u32, column: u32, width: usize) -> usize
    requires few { width ≤ most_columns }
    ensures { result ≡ row * width + column }
{
    row as usize * width + column as usize
}

/// The value of a field that is a cell of a column of this type.
fn lent(base: BaseType, field: &[u8]) -> Cell<'_>
    requires cell { is_cell base field.now ≡ true }
    requires short { length field.now < 2 ^ 31 }
    ensures value { lent_value result ≡ cell_value base field.now }
    ensures fits { IsOf base (lent_value result) }
{
    match base {
        BaseType::Float32 => Cell::Bits32(bits32(field).unwrap_or(0)),
        BaseType::Float64 => Cell::Bits64(bits64(field).unwrap_or(0)),
        BaseType::Text => Cell::Text(field),
        BaseType::Url => Cell::Text(field),
        _ => Cell::Whole(whole(base, field).unwrap_or(0)),
    }
}

fn copied(alloc: Global, columns: &[Column]) -> Result<List<Column>, Memory>
    ensures { IfOk result (λ copies. copies ≡ columns.now) }
{
    let mut copies = List::new(alloc);
    for column in columns {
        copies.push(Column {
            name: column.name.try_clone()?,
            base: column.base,
        })?;
    }
    Ok(copies)
}
