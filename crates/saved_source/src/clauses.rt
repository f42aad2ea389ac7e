//! The clauses of a constraint on the rows of a Sequence (DAP 2.0, constraint expressions: selections).

ghost use Rattle.std.specs.Prelude.{◌≡◌, ◌<◌, ◌≤◌, ◌+◌, ◌^◌, ◌++◌, ◌∷◌, [], ℕ, List, length, take, drop};
ghost use Rattle.std.specs.Int.{to_be_bytes, w64};
ghost use Rattle.csv_source.specs.Lent.{lent_value};
ghost use Rattle.dap_model.specs.Rows.{kept};
ghost use Rattle.dap_model.specs.Xdr as xdr;
ghost use Rattle.dap_types.specs.Model.{Tree, many, trees_of};
ghost use Rattle.dap_types.specs.declared.values.Value.{Value};
ghost use Rattle.xdr_values.specs.Walked.{IsValue, StandCells};
ghost use Rattle.sequence_select.specs.Tests.{selection_of, tested};

use csv_source::Cell;
use dap_types::{BaseType, Column};
use sequence_select::{Test, Tests, holds};
use xdr_values::{behind_cells, first_word, split, value};

/// The double word that eight bytes are.
fn first_double(own: &[u8]) -> u64
    ensures { (n : ℕ) → own.now ≡ to_be_bytes w64 n → n < 2 ^ 64 → result ≡ n }
{
    if own.len() < 8 {
        return 0;
    }
    u64::from_be_bytes([
        own[0], own[1], own[2], own[3], own[4], own[5], own[6], own[7],
    ])
}

/// The bytes of a string that has its length before it and its padding behind it.
fn text_of(own: &[u8]) -> &[u8]
    ensures { (text : List ℕ) → length text < 2 ^ 31 → own.now ≡ xdr.bytes_of (xdr.string_fields text) → result.now ≡ text }
{
    let size = first_word(own) as usize;
    let (_, rest) = split(own, 4);
    split(rest, size).0
}

/// The value of a type that stands in its own bytes.
fn cell_of(base: BaseType, own: &[u8]) -> Cell<'_>
    ensures { (v : Value) → IsValue base v own.now → lent_value result ≡ v }
{
    match base {
        BaseType::Byte => Cell::Whole(i64::from(first_word(own) % 256)),
        BaseType::Int16 | BaseType::Int32 => {
            Cell::Whole(i64::from(first_word(own).cast_signed()))
        }
        BaseType::UInt16 | BaseType::UInt32 => Cell::Whole(i64::from(first_word(own))),
        BaseType::Float32 => Cell::Bits32(first_word(own)),
        BaseType::Float64 => Cell::Bits64(first_double(own)),
        BaseType::Text | BaseType::Url => Cell::Text(text_of(own)),
    }
}

/// Whether a clause keeps a row of the Sequence that is this member. One on what is no column of it keeps
/// each.
fn keeps(sequence: u32, columns: &[Column], test: &Test, row: &[u8]) -> bool
    requires { sequence + length columns.now < 2 ^ 32 }
    ensures { (cells : List Tree) (rest : List ℕ) → StandCells columns.now cells row.now rest → result ≡ kept (selection_of test.now ∷ []) sequence (many (trees_of cells)) }
{
    if test.column <= sequence {
        return true;
    }
    let at = (test.column - sequence - 1) as usize;
    if at >= columns.len() {
        return true;
    }
    let before = behind_cells(&columns[..at], row);
    let base = columns[at].base;
    let (own, _) = value(base, before);
    holds(cell_of(base, own), test)
}

/// Whether all clauses hold in a row of the Sequence that is this member.
pub fn keep(sequence: u32, columns: &[Column], tests: &Tests, row: &[u8]) -> bool
    requires { sequence + length columns.now < 2 ^ 32 }
    ensures { (cells : List Tree) (rest : List ℕ) → StandCells columns.now cells row.now rest → result ≡ kept (tested tests.now) sequence (many (trees_of cells)) }
{
    for test in tests.tests.items() {
        if !keeps(sequence, columns, test, row) {
            return false;
        }
    }
    true
}
