ghost use Rattle.std.specs.Prelude.{◌≡◌, ◌<◌, [], ◌∷◌, length};
ghost use Rattle.dap_model.specs.Rows.{kept};
ghost use Rattle.csv_source.specs.Dataset.{row_tree};
ghost use Rattle.sequence_select.specs.Selections.{row_of};
ghost use Rattle.sequence_select.specs.Tests.{selection_of, tested};

use crate::clauses::{Tests, holds};
use crate::comparison::Test;
use csv_source::Table;

/// Whether one clause keeps a row. One on what is no column of the table keeps each.
fn keeps(table: &Table, test: &Test, row: u32) -> bool
    requires row { row < length table.now.rows }
    ensures { result ≡ kept (selection_of test.now ∷ []) 1 (row_tree (row_of table.now row)) }
{
    if test.column < 2 {
        return true;
    }
    let column = test.column - 2;
    if column >= table.columns() {
        return true;
    }
    holds(table.cell(row, column), test)
}

/// Whether all clauses hold in a row, which counts from 0 (DAP 2.0, selections).
pub fn keep(table: &Table, tests: &Tests, row: u32) -> bool
    requires row { row < length table.now.rows }
    ensures { result ≡ kept (tested tests.now) 1 (row_tree (row_of table.now row)) }
{
    for test in tests.tests.items() {
        if !keeps(table, test, row) {
            return false;
        }
    }
    true
}
