ghost use Rattle.std.specs.Prelude.{◌≡◌, ◌≢◌, ◌≤◌, ◌+◌, ◌∷◌, ◌++◌, [], length, Err, Ok, IfErr, IfOk, OnOk, Some, true};
ghost use Rattle.std.specs.List.{list_all};
ghost use Rattle.dap_types.specs.Limits.{most_columns, most_table};
ghost use Rattle.csv.specs.Records.{fields_of};
ghost use Rattle.csv_source.specs.Causes.{is_row, row_cause, table_of};
ghost use Rattle.csv_source.specs.Csv.{csv_records};
ghost use Rattle.csv_source.specs.inner.Held.{AreEnds, fields_in, rows_of, total};
ghost use Rattle.csv_source.specs.inner.Standing.{HasBadRow, Stands};
ghost use Rattle.csv_source.specs.declared.refusal.TableRefusal.TheVariants.{Memory};

use crate::cell::may_be_cell;
use crate::fields::Fields;
use crate::header::{first_repeated, header_columns};
use crate::records::{next_record, open};
use crate::width::is_too_wide;
use crate::{Table, TableRefusal};
use csv::{ByteRecord, Reader};
use dap_types::{Bytes, Column, limits};
use std::alloc::Global;

/// The most bytes of a file.
const MOST_BYTES: usize = limits::MOST_TABLE;

/// The table of the bytes of a file, as `table_of` has it: the first record names the columns, the
/// others are the rows (RFC 4180; the typed header and the limits are this project's).
///
/// # Errors
///
/// The first cause of `table_of`, or `Memory` where memory was wanted.
pub fn read_table(alloc: Global, bytes: &[u8], file_name: &[u8]) -> Result<Table, TableRefusal>
    ensures table { IfOk result (λ t. table_of file_name.now bytes.now ≡ Ok t) }
    ensures first_cause { IfErr result (λ e. e ≢ Memory → table_of file_name.now bytes.now ≡ Err e) }
{
    if bytes.len() > MOST_BYTES {
        return Err(TableRefusal::TooLong);
    }
    if is_too_wide(bytes) {
        return Err(TableRefusal::TooWide);
    }
    let mut reader = open(alloc, bytes);
    let mut header = ByteRecord::new(alloc);
    if !next_record(&mut reader, &mut header)? {
        return Err(TableRefusal::NoHeader);
    }
    let columns = header_columns(alloc, &header)?;
    if let Some(column) = first_repeated(alloc, columns.items())? {
        return Err(TableRefusal::RepeatedColumn { column });
    }
    let (cells, rows) = read_rows(alloc, bytes, reader, header, columns.items())?;
    Ok(Table {
        file_name: Bytes::new(alloc, file_name)?,
        columns,
        cells,
        rows,
    })
}

/// The fields of all rows, one row after the other, and the number of rows. The reader stands behind
/// the header.
fn read_rows(
    alloc: Global,
    bytes: &[u8],
    mut reader: Reader<&[u8]>,
    header: ByteRecord,
    columns: &[Column],
) -> Result<(Fields, u32), TableRefusal>
    requires stands { Stands bytes.now (fields_of header ∷ []) reader }
    requires short { length bytes.now ≤ most_table }
    requires few { length columns.now ≤ most_columns }
    ensures rows { IfOk result (λ r. csv_records bytes.now ≡ fields_of header ∷ rows_of (length columns.now) r.1 (fields_in r.0.ends.items r.0.text.items)) }
    ensures are_rows { IfOk result (λ r. list_all (is_row columns.now) (rows_of (length columns.now) r.1 (fields_in r.0.ends.items r.0.text.items)) ≡ true) }
    ensures are_ends { IfOk result (λ r. AreEnds 0 r.0.ends.items (length r.0.text.items)) }
    ensures short { IfOk result (λ r. length r.0.text.items ≤ most_table) }
    ensures first_cause { IfErr result (λ e. e ≢ Memory → HasBadRow columns.now (fields_of header) e (csv_records bytes.now)) }
{
    let mut cells = Fields::with_room(alloc, bytes.len())?;
    let mut row = header;
    'records: for rows in 0..u32::MAX {
        if !next_record(&mut reader, &mut row)? {
            return Ok((cells, rows));
        }
        push_row(&mut cells, rows + 1, &row, columns)?;
    }
    unreachable!()
}

/// Adds the fields of the row of this number.
fn push_row(
    cells: &mut Fields,
    number: u32,
    row: &ByteRecord,
    columns: &[Column],
) -> Result<(), TableRefusal>
    requires are_ends { AreEnds 0 cells.old.ends.items (length cells.old.text.items) }
    requires short { length cells.old.text.items + total (fields_of row.now) ≤ most_table }
    requires few { length columns.now ≤ most_columns }
    ensures fields { OnOk result (fields_in cells.new.ends.items cells.new.text.items ≡ fields_in cells.old.ends.items cells.old.text.items ++ fields_of row.now) }
    ensures are_ends { OnOk result (AreEnds 0 cells.new.ends.items (length cells.new.text.items)) }
    ensures length { OnOk result (length cells.new.text.items ≡ length cells.old.text.items + total (fields_of row.now)) }
    ensures row { OnOk result (is_row columns.now (fields_of row.now) ≡ true) }
    ensures first_cause { IfErr result (λ e. e ≢ Memory → row_cause columns.now number (fields_of row.now) ≡ Some e) }
{
    if row.len() != columns.len() {
        return Err(TableRefusal::Ragged { row: number });
    }
    for (i, column) in columns.iter().enumerate() {
        if let Some(field) = row.get(i) {
            if !may_be_cell(column.base, field) {
                return Err(TableRefusal::BadCell {
                    row: number,
                    column: i as u32 + 1,
                });
            }
            cells.push(field)?;
        }
    }
    Ok(())
}
