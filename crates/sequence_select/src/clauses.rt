ghost use Rattle.std.specs.Prelude.{◌≡◌, ◌++◌, ℕ, List, None, map, IfOk, OnOk};
ghost use Rattle.dap_types.specs.Numbered.{number_in};
ghost use Rattle.dap_types.specs.View.{dataset_view};
ghost use Rattle.dap_types.specs.WellFormed.{number_of};
ghost use Rattle.dap_model.specs.Rows.{holds};
ghost use Rattle.csv_source.specs.Dataset.{table_dataset};
ghost use Rattle.csv_source.specs.Lent.{lent_value};
ghost use Rattle.grid_projection.specs.Resolved.{cause};
ghost use Rattle.sequence_select.specs.Selections.{selection_in, selections};
ghost use Rattle.sequence_select.specs.Tests.{selection_of, tested};

use crate::comparison::Test;
use crate::constants::operands;
use crate::numbers::Numbers;
use crate::texts::Texts;
use constraint_parse::{Clause, Constraint};
use csv_source::{Cell, Table};
use dap_types::{Dataset, Index, List, Memory};
use std::alloc::Global;

/// The clauses of a constraint. Contracts speak of them as its selections, `tested`.
#[derive(Debug, Drop)]
pub struct Tests {
    pub tests: List<Test>,
}

impl Tests {
    /// The clauses of a constraint for which `resolve` has no cause, on the dataset of a table. Fails
    /// where memory is wanted.
    pub fn new(
        alloc: Global,
        _table: &Table,
        _dataset: &Dataset,
        index: &Index,
        constraint: &Constraint,
    ) -> Result<Tests, Memory>
        requires table { dataset_view _dataset.now ≡ table_dataset _table.now }
        requires indexed { (path : List (List ℕ)) → number_in index.now path ≡ number_of (dataset_view _dataset.now) path }
        requires accepted { cause (dataset_view _dataset.now) constraint.now ≡ None }
        ensures { IfOk result (λ tests. tested tests ≡ selections (dataset_view _dataset.now) constraint.now) }
    {
        Tests::of_dataset(alloc, _dataset, index, constraint)
    }

    /// The clauses of a constraint for which `resolve` has no cause, on any dataset. Fails where memory
    /// is wanted.
    pub fn of_dataset(
        alloc: Global,
        _dataset: &Dataset,
        index: &Index,
        constraint: &Constraint,
    ) -> Result<Tests, Memory>
        requires indexed { (path : List (List ℕ)) → number_in index.now path ≡ number_of (dataset_view _dataset.now) path }
        requires accepted { cause (dataset_view _dataset.now) constraint.now ≡ None }
        ensures { IfOk result (λ tests. tested tests ≡ selections (dataset_view _dataset.now) constraint.now) }
    {
        let mut tests = List::new(alloc);
        for clause in constraint.clauses.items() {
            push_test(alloc, index, clause, &mut tests)?;
        }
        Ok(Tests { tests })
    }
}

/// Appends a clause on a column.
fn push_test(
    alloc: Global,
    index: &Index,
    clause: &Clause,
    tests: &mut List<Test>,
) -> Result<(), Memory>
    ensures { OnOk result (map selection_of tests.new ≡ map selection_of tests.old ++ selection_in (number_in index.now) clause.now) }
{
    let Clause::Compare { path, op, values } = clause else {
        return Ok(());
    };
    let Some(column) = index.member(path.items()) else {
        return Ok(());
    };
    let operands = operands(alloc, values.items())?;
    let numbers = Numbers::of(alloc, operands.items())?;
    let texts = Texts::of(alloc, operands.items())?;
    tests.push(Test {
        column,
        op: *op,
        operands,
        numbers,
        texts,
    })?;
    Ok(())
}

/// Whether a clause holds of a cell. Takes no memory.
pub fn holds(cell: Cell<'_>, test: &Test) -> bool
    ensures { result ≡ holds (selection_of test.now) (lent_value cell.entry) }
{
    match cell {
        Cell::Whole(number) => test.numbers.relates(test.op, number),
        Cell::Text(text) => test.texts.relates(test.op, text),
        Cell::Bits32(_) => false,
        Cell::Bits64(_) => false,
    }
}
