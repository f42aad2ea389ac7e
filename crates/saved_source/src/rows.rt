//! The rows of a Sequence in the bytes of a response (DAP 2.0, Sequence).

ghost use Rattle.std.specs.Prelude.{◌≡◌, ◌<◌, ◌≤◌, ◌+◌, ◌^◌, ◌==◌, ◌∷◌, [], ℕ, List, length, true, IfOk, if◌then◌else◌};
ghost use Rattle.dap_model.specs.Filter.{one_marked};
ghost use Rattle.dap_model.specs.Rows.{kept};
ghost use Rattle.dap_model.specs.Xdr as xdr;
ghost use Rattle.dap_outside.specs.Buffered.{Puts};
ghost use Rattle.dap_outside.specs.Causes.{HasCause};
ghost use Rattle.dap_types.specs.Model.{Tree};
ghost use Rattle.grid_projection.specs.Resolved.{marks_in};
ghost use Rattle.xdr_values.specs.Walked.{StandCells, StandRows};
ghost use Rattle.saved_source.specs.Walked.{cells_sent, row_if_kept, rows_sent};
ghost use Rattle.sequence_select.specs.Tests.{tested};

use crate::clauses::keep;
use crate::scalars::{is_marked, put_marked};
use dap_outside::{Buffer, Failed, Sink};
use dap_types::Column;
use grid_projection::Marks;
use sequence_select::Tests;
use xdr_values::{behind_cells, behind_rows, is_row, split};

/// The mark before a row of a Sequence.
const ROW_MARK: [u8; 4] = [0x5a, 0, 0, 0];
/// The mark behind the rows of a Sequence.
const END_MARK: [u8; 4] = [0xa5, 0, 0, 0];

/// Whether a column of these is marked, the first being this member.
fn is_any_marked(marks: &Marks, first: u32, columns: &[Column]) -> bool
    requires { first + length columns.now ≤ 2 ^ 32 }
    ensures { result ≡ one_marked (marks_in marks.now) first (length columns.now) }
{
    for k in 0..columns.len() {
        if is_marked(marks, first + k as u32) {
            return true;
        }
    }
    false
}

/// Puts the marked cells of a row, the first being this member.
fn put_cells<O: Sink>(
    buffer: &mut Buffer,
    out: &mut O,
    marks: &Marks,
    first: u32,
    columns: &[Column],
    bytes: &[u8],
) -> Result<(), Failed>
    requires { first + length columns.now ≤ 2 ^ 32 }
    ensures puts { (cells : List Tree) (rest : List ℕ) → StandCells columns.now cells bytes.now rest →
        Puts (O.written out.old) buffer.old.bytes.items (O.written out.new) buffer.new.bytes.items result (xdr.bytes_of (cells_sent (marks_in marks.now) first columns.now cells)) }
    ensures cause { HasCause (O.put_faults out.old) (O.put_faults out.new) result }
    ensures beside { O.beside_writing out.new ≡ O.beside_writing out.old }
{
    let mut rest = bytes;
    for (k, column) in columns.iter().enumerate() {
        rest = put_marked(buffer, out, marks, first + k as u32, column.base, rest)?;
    }
    Ok(())
}

/// Puts a row, its mark and its marked cells, where all clauses hold in it.
fn put_row<O: Sink>(
    buffer: &mut Buffer,
    out: &mut O,
    marks: &Marks,
    tests: &Tests,
    sequence: u32,
    columns: &[Column],
    row: &[u8],
) -> Result<(), Failed>
    requires { sequence + length columns.now + 1 < 2 ^ 32 }
    ensures puts { (cells : List Tree) (rest : List ℕ) → StandCells columns.now cells row.now rest →
        Puts (O.written out.old) buffer.old.bytes.items (O.written out.new) buffer.new.bytes.items result (xdr.bytes_of (row_if_kept (marks_in marks.now) (kept (tested tests.now)) sequence columns.now cells)) }
    ensures cause { HasCause (O.put_faults out.old) (O.put_faults out.new) result }
    ensures beside { O.beside_writing out.new ≡ O.beside_writing out.old }
{
    if !keep(sequence, columns, tests, row) {
        return Ok(());
    }
    buffer.put(out, &ROW_MARK)?;
    put_cells(buffer, out, marks, sequence + 1, columns, row)
}

/// Puts the rows of a Sequence in which all clauses hold, each with its marked cells, and the mark of
/// their end. The answer is what stands behind them.
fn put_marked_rows<'a, O: Sink>(
    buffer: &mut Buffer,
    out: &mut O,
    marks: &Marks,
    tests: &Tests,
    sequence: u32,
    columns: &[Column],
    bytes: &'a [u8],
) -> Result<&'a [u8], Failed>
    requires { sequence + length columns.now + 1 < 2 ^ 32 }
    ensures puts { (rows : List Tree) (rest : List ℕ) → StandRows columns.now rows bytes.now rest →
        Puts (O.written out.old) buffer.old.bytes.items (O.written out.new) buffer.new.bytes.items result (xdr.bytes_of (rows_sent (marks_in marks.now) (kept (tested tests.now)) sequence columns.now rows)) }
    ensures rest { (rows : List Tree) (rest : List ℕ) → StandRows columns.now rows bytes.now rest → IfOk result (λ left. left.now ≡ rest) }
    ensures cause { HasCause (O.put_faults out.old) (O.put_faults out.new) result }
    ensures beside { O.beside_writing out.new ≡ O.beside_writing out.old }
{
    let mut rest = bytes;
    while is_row(rest) {
        let (_, row) = split(rest, 4);
        put_row(buffer, out, marks, tests, sequence, columns, row)?;
        rest = behind_cells(columns, row);
    }
    buffer.put(out, &END_MARK)?;
    Ok(split(rest, 4).1)
}

/// The same, or nothing where no column is marked.
pub fn put_rows<'a, O: Sink>(
    buffer: &mut Buffer,
    out: &mut O,
    marks: &Marks,
    tests: &Tests,
    sequence: u32,
    columns: &[Column],
    bytes: &'a [u8],
) -> Result<&'a [u8], Failed>
    requires { sequence + length columns.now + 1 < 2 ^ 32 }
    ensures puts { (rows : List Tree) (rest : List ℕ) → StandRows columns.now rows bytes.now rest →
        Puts (O.written out.old) buffer.old.bytes.items (O.written out.new) buffer.new.bytes.items result
        (xdr.bytes_of (if one_marked (marks_in marks.now) (sequence + 1) (length columns.now) then rows_sent (marks_in marks.now) (kept (tested tests.now)) sequence columns.now rows else [])) }
    ensures rest { (rows : List Tree) (rest : List ℕ) → StandRows columns.now rows bytes.now rest → IfOk result (λ left. left.now ≡ rest) }
    ensures cause { HasCause (O.put_faults out.old) (O.put_faults out.new) result }
    ensures beside { O.beside_writing out.new ≡ O.beside_writing out.old }
{
    if is_any_marked(marks, sequence + 1, columns) {
        put_marked_rows(buffer, out, marks, tests, sequence, columns, bytes)
    } else {
        Ok(behind_rows(columns, bytes))
    }
}
