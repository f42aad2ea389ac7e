//! The rows of a table on their way to a sink.

ghost use Rattle.std.specs.Prelude.{◌≡◌, ◌<◌, ◌≤◌, ◌^◌, ◌≤ℤ◌, ◌<ℤ◌, neg_ℤ, pos, ◌∷◌, [], ◌++◌, IsOk, OnErr, get_or, false, OnOk, length};
ghost use Rattle.std.specs.Io.KnownBytes.{Appends};
ghost use Rattle.std.specs.List.{flat_map};
ghost use Rattle.csv_source.specs.Lent.{lent_value};
ghost use Rattle.csv_source.specs.Dataset.{row_tree};
ghost use Rattle.dap_model.specs.Xdr as xdr;
ghost use Rattle.dap_outside.specs.Buffered.{Puts};
ghost use Rattle.dap_outside.specs.Causes.{HasCause};
ghost use Rattle.dap_outside.specs.Streams.{AppendsFront};
ghost use Rattle.dap_types.specs.Model.{one};
ghost use Rattle.dap_types.specs.declared.declarations.BaseType.TheVariants.{Int32};
ghost use Rattle.xdr_encode.specs.Masks.{masked};
ghost use Rattle.xdr_encode.specs.Rows.{chosen_fields, front_text, row_at, rows_text, rows_xdr};
ghost use Rattle.xdr_encode.specs.RowSteps.{cell_sent, cells_from, row_sent, rows_from};
ghost use Rattle.xdr_encode.specs.Typed.{IsTyped};

use crate::buffered::{put_text, put_word, word_of};
use crate::kept::Rows;
use csv_source::Cell;
use dap_outside::{Buffer, Failed, Sink};

/// The mark before a row of a Sequence (DAP 2.0, Sequence).
const ROW_MARK: [u8; 4] = [0x5a, 0, 0, 0];
/// The mark behind the rows of a Sequence.
const END_MARK: [u8; 4] = [0xa5, 0, 0, 0];

fn is_set(flags: &[bool], at: u32) -> bool
    requires { at < length flags.now }
    ensures { result ≡ get_or flags.now at false }
{
    flags[at as usize]
}

/// Puts the value of a cell. Its bytes are the same for each type that has such a value.
#[tactic(auto, using(crate::proofs::Typing::typed_low, crate::proofs::Typing::typed_high, crate::proofs::Typing::typed_short), unfolding(dap_model::specs::Xdr::bytes_of, dap_model::specs::Xdr::field_bytes))]
fn put_cell<O: Sink>(buffer: &mut Buffer, out: &mut O, cell: Cell<'_>) -> Result<(), Failed>
    requires { IsTyped (lent_value cell) }
    ensures puts { Puts (O.written out.old) buffer.old.bytes.items (O.written out.new) buffer.new.bytes.items result (xdr.bytes_of (xdr.value_fields Int32 (lent_value cell.entry))) }
    ensures cause { HasCause (O.put_faults out.old) (O.put_faults out.new) result }
    ensures beside { O.beside_writing out.new ≡ O.beside_writing out.old }
{
    match cell {
        Cell::Whole(whole) => put_word(buffer, out, word_of(whole)),
        Cell::Text(text) => put_text(buffer, out, text),
        Cell::Bits32(bits) => buffer.put(out, &bits.to_be_bytes()),
        Cell::Bits64(bits) => buffer.put(out, &bits.to_be_bytes()),
    }
}

/// Puts the cell of a row in a column, where that column is sent.
fn put_chosen<O: Sink>(
    buffer: &mut Buffer,
    out: &mut O,
    rows: &Rows,
    row: u32,
    column: u32,
) -> Result<(), Failed>
    requires row { row < length rows.now.table.rows }
    requires column { column < length rows.now.table.columns }
    ensures puts { Puts (O.written out.old) buffer.old.bytes.items (O.written out.new) buffer.new.bytes.items result (cell_sent rows.now row column) }
    ensures cause { HasCause (O.put_faults out.old) (O.put_faults out.new) result }
    ensures beside { O.beside_writing out.new ≡ O.beside_writing out.old }
{
    if is_set(rows.columns.items(), column) {
        put_cell(buffer, out, rows.table.cell(row, column))
    } else {
        Ok(())
    }
}

/// Puts the cells of a row in the columns that are sent.
fn put_cells<O: Sink>(buffer: &mut Buffer, out: &mut O, rows: &Rows, row: u32) -> Result<(), Failed>
    requires row { row < length rows.now.table.rows }
    ensures puts { Puts (O.written out.old) buffer.old.bytes.items (O.written out.new) buffer.new.bytes.items result (cells_from rows.now row 0) }
    ensures cause { HasCause (O.put_faults out.old) (O.put_faults out.new) result }
    ensures beside { O.beside_writing out.new ≡ O.beside_writing out.old }
{
    for column in 0..rows.table.columns() {
        put_chosen(buffer, out, rows, row, column)?;
    }
    Ok(())
}

/// Puts a row: its mark, and its cells in the columns that are sent.
fn put_row<O: Sink>(buffer: &mut Buffer, out: &mut O, rows: &Rows, row: u32) -> Result<(), Failed>
    requires row { row < length rows.now.table.rows }
    ensures puts { Puts (O.written out.old) buffer.old.bytes.items (O.written out.new) buffer.new.bytes.items result (xdr.bytes_of (chosen_fields rows.now.table.columns rows.now.columns (row_at rows.now.table row))) }
    ensures cause { HasCause (O.put_faults out.old) (O.put_faults out.new) result }
    ensures beside { O.beside_writing out.new ≡ O.beside_writing out.old }
{
    buffer.put(out, &ROW_MARK)?;
    put_cells(buffer, out, rows, row)
}

/// Puts a row, where it is sent.
fn put_kept<O: Sink>(buffer: &mut Buffer, out: &mut O, rows: &Rows, row: u32) -> Result<(), Failed>
    requires row { row < length rows.now.table.rows }
    ensures puts { Puts (O.written out.old) buffer.old.bytes.items (O.written out.new) buffer.new.bytes.items result (row_sent rows.now row) }
    ensures cause { HasCause (O.put_faults out.old) (O.put_faults out.new) result }
    ensures beside { O.beside_writing out.new ≡ O.beside_writing out.old }
{
    if is_set(rows.mask.items(), row) {
        put_row(buffer, out, rows, row)
    } else {
        Ok(())
    }
}

/// Puts the rows that are sent.
fn put_all_kept<O: Sink>(buffer: &mut Buffer, out: &mut O, rows: &Rows) -> Result<(), Failed>
    ensures puts { Puts (O.written out.old) buffer.old.bytes.items (O.written out.new) buffer.new.bytes.items result (rows_from rows.now 0) }
    ensures cause { HasCause (O.put_faults out.old) (O.put_faults out.new) result }
    ensures beside { O.beside_writing out.new ≡ O.beside_writing out.old }
{
    for row in 0..rows.table.rows() {
        put_kept(buffer, out, rows, row)?;
    }
    Ok(())
}

/// Puts the rows that are sent, and the mark behind them.
fn put_rows<O: Sink>(buffer: &mut Buffer, out: &mut O, rows: &Rows) -> Result<(), Failed>
    ensures puts { Puts (O.written out.old) buffer.old.bytes.items (O.written out.new) buffer.new.bytes.items result (rows_xdr rows.now) }
    ensures cause { HasCause (O.put_faults out.old) (O.put_faults out.new) result }
    ensures beside { O.beside_writing out.new ≡ O.beside_writing out.old }
{
    put_all_kept(buffer, out, rows)?;
    buffer.put(out, &END_MARK)
}

fn put_any_rows<O: Sink>(
    buffer: &mut Buffer,
    out: &mut O,
    rows: &Option<Rows>,
) -> Result<(), Failed>
    ensures puts { Puts (O.written out.old) buffer.old.bytes.items (O.written out.new) buffer.new.bytes.items result (rows_text rows.now) }
    ensures cause { HasCause (O.put_faults out.old) (O.put_faults out.new) result }
    ensures beside { O.beside_writing out.new ≡ O.beside_writing out.old }
{
    match rows {
        Some(rows) => put_rows(buffer, out, rows),
        None => Ok(()),
    }
}

/// Puts what stands before the values of a file: a head, and the rows of a table, if there is one.
pub fn put_front<O: Sink>(
    buffer: &mut Buffer,
    out: &mut O,
    head: &[u8],
    rows: &Option<Rows>,
) -> Result<(), Failed>
    ensures ok { OnOk result (Appends (O.written out.old) (O.written out.new) (front_text head.now rows.now)) }
    ensures err { OnErr result (AppendsFront (O.written out.old) (O.written out.new) (front_text head.now rows.now)) }
    ensures cause { HasCause (O.put_faults out.old) (O.put_faults out.new) result }
    ensures beside { O.beside_writing out.new ≡ O.beside_writing out.old }
{
    buffer.clear();
    buffer.put(out, head)?;
    put_any_rows(buffer, out, rows)?;
    buffer.flush(out)
}
