//! Tables of 67,108,864 bytes, of 1,024 columns and of 1,048,576 rows.

ghost use Rattle.std.specs.Prelude.{◌≡◌, ◌<◌, ◌≤◌};
ghost use Rattle.csv_source.specs.Dataset.{table_dataset};
ghost use Rattle.dap_types.specs.View.{dataset_view};
ghost use Rattle.dap_types.specs.WellFormed.{IsWellFormed};

use crate::building::{append_times, expect_length, name_of, sum_of};
use crate::constraint_limits::append_names;
use crate::expecting::expect;
use crate::marking::{constraint_of, marks_of};
use csv_source::{Cell, Table, read_table};
use dap_types::{Dataset, Index, Memory};
use grid_projection::{Marks, resolve};
use sequence_select::{Tests, mask};
use slab_fill::{Gate, NoGate};
use std::alloc::Global;
use std::process::Abort;
use std::test::Fail;
use std::thread::Threads;

/// The bytes of the longest table.
pub const LONGEST: usize = 67_108_864;

/// The columns of the widest table, of which every second is of texts.
pub const COLUMNS: u32 = 1024;

/// The rows of the widest table.
pub const ROWS: u32 = 32_764;

/// The rows of the tallest table.
pub const TALL: u32 = 1_048_576;

/// The digit in a cell of a wide table.
pub fn digit_at(row: u32, column: u32) -> u32
    ensures { result < 10 }
{
    (row % 10 + column % 10) % 10
}

/// What ends a cell.
fn end_of_cell(column: u32, columns: u32) -> u8 {
    if column.saturating_add(1) < columns {
        b','
    } else {
        b'\n'
    }
}

/// A row of a wide table.
fn row_text(alloc: Global, row: u32, columns: u32) -> Result<Vec<u8>, Memory> {
    let mut text = Vec::new(alloc);
    for column in 0..columns {
        text.push(b'0' + digit_at(row, column) as u8)?;
        text.push(end_of_cell(column, columns))?;
    }
    Ok(text)
}

/// The header of a wide table.
fn append_header(text: &mut Vec<u8>, columns: u32) -> Result<(), Memory> {
    for column in 0..columns {
        text.extend_from_slice(&name_of(column))?;
        if column % 2 == 0 {
            text.extend_from_slice(b":Byte")?;
        }
        text.push(end_of_cell(column, columns))?;
    }
    Ok(())
}

/// The rows of a wide table, which are the same from the eleventh on.
fn ten_rows(alloc: Global, columns: u32) -> Result<Vec<Vec<u8>>, Memory> {
    let mut ten = Vec::new(alloc);
    for row in 0..10 {
        ten.push(row_text(alloc, row, columns)?)?;
    }
    Ok(ten)
}

fn append_rows(text: &mut Vec<u8>, rows: u32, ten: &[Vec<u8>]) -> Result<(), Memory> {
    for row in 0..rows {
        if let Some(cells) = ten.get(row as usize % 10) {
            text.extend_from_slice(cells)?;
        }
    }
    Ok(())
}

/// A table of so many rows and columns, with line feeds behind them up to that length.
pub fn wide_table(
    alloc: Global,
    rows: u32,
    columns: u32,
    length: usize,
) -> Result<Vec<u8>, Memory> {
    let mut text = Vec::with_capacity(alloc, length)?;
    append_header(&mut text, columns)?;
    append_rows(&mut text, rows, &ten_rows(alloc, columns)?)?;
    let left = length.saturating_sub(text.len());
    append_times(&mut text, b"\n", left)?;
    Ok(text)
}

fn digit(number: u32) -> u8 {
    b'0' + (number % 10) as u8
}

/// The number in seven digits, and a line feed.
pub fn line_of(number: u32) -> [u8; 8] {
    [
        digit(number / 1_000_000),
        digit(number / 100_000),
        digit(number / 10_000),
        digit(number / 1_000),
        digit(number / 100),
        digit(number / 10),
        digit(number),
        b'\n',
    ]
}

/// A table of one column `n`, the numbers from 0 on.
pub fn tall_table(alloc: Global, rows: u32) -> Result<Vec<u8>, Memory> {
    let mut text = Vec::from_slice(alloc, b"n:Int32\n")?;
    for number in 0..rows {
        text.extend_from_slice(&line_of(number))?;
    }
    Ok(text)
}

/// The number in a cell, or the sum of the bytes of its text.
fn value_of(cell: Cell<'_>) -> u64 {
    match cell {
        Cell::Whole(number) => number.unsigned_abs(),
        Cell::Text(text) => sum_of(text),
        Cell::Bits32(bits) => u64::from(bits),
        Cell::Bits64(bits) => bits,
    }
}

fn row_sum(table: &Table, row: u32) -> u64 {
    let mut sum = 0u64;
    if row < table.rows() {
        for column in 0..table.columns() {
            sum = sum.wrapping_add(value_of(table.cell(row, column)));
        }
    }
    sum
}

/// The sum of the values of a table.
fn cells_sum(table: &Table) -> u64 {
    let mut sum = 0u64;
    for row in 0..table.rows() {
        sum = sum.wrapping_add(row_sum(table, row));
    }
    sum
}

/// The sum of the digits of a row of a wide table, with so much more for each text.
pub fn digits_sum(row: u32, columns: u32, text: u32) -> u64 {
    let mut sum = 0u64;
    for column in 0..columns {
        let more = if column % 2 == 0 { 0 } else { text };
        sum = sum.wrapping_add(u64::from(digit_at(row, column)));
        sum = sum.wrapping_add(u64::from(more));
    }
    sum
}

/// The sum of the values of a wide table, out of its digits.
fn wide_sum(rows: u32, columns: u32) -> u64 {
    let mut sum = 0u64;
    for row in 0..rows {
        sum = sum.wrapping_add(digits_sum(row, columns, 48));
    }
    sum
}

/// The table has so many rows and columns, and that sum.
fn expect_table<R: Abort>(
    rt: &R,
    alloc: Global,
    text: &[u8],
    size: (u32, u32),
    sum: u64,
) -> Result<(), Fail> {
    let Ok(table) = read_table(alloc, text, b"t.csv") else {
        panic!(rt; "no table");
    };
    expect(rt, (table.rows(), table.columns()), size);
    expect(rt, cells_sum(&table), sum);
    Ok(())
}

fn expect_wide<R: Abort>(rt: &R, alloc: Global, rows: u32, length: usize) -> Result<(), Fail> {
    let text = wide_table(alloc, rows, COLUMNS, length)?;
    expect_length(rt, &text, length);
    expect_table(rt, alloc, &text, (rows, COLUMNS), wide_sum(rows, COLUMNS))
}

fn expect_tall<R: Abort>(rt: &R, alloc: Global, rows: u32) -> Result<(), Fail> {
    let text = tall_table(alloc, rows)?;
    let sum = u64::from(rows).saturating_sub(1) * u64::from(rows) / 2;
    expect_table(rt, alloc, &text, (rows, 1), sum)
}

/// A table of one cell, of that length with its header.
fn expect_cell<R: Abort>(rt: &R, alloc: Global, length: usize) -> Result<(), Fail> {
    let mut text = Vec::from_slice(alloc, b"s\n")?;
    append_times(&mut text, b"x", length.saturating_sub(3))?;
    let sum = sum_of(&text).wrapping_sub(u64::from(b's')).wrapping_sub(10);
    text.push(b'\n')?;
    expect_length(rt, &text, length);
    expect_table(rt, alloc, &text, (1, 1), sum)
}

#[test]
fn largest_tables_are_read(rt: HostRuntime) -> Result<(), Fail> {
    expect_wide(&rt, rt.alloc(), ROWS, LONGEST)?;
    expect_tall(&rt, rt.alloc(), TALL)?;
    expect_cell(&rt, rt.alloc(), LONGEST)
}

/// Clauses on the columns of a wide table behind the first, which hold in each row.
fn append_clauses(text: &mut Vec<u8>, many: u32) -> Result<(), Memory> {
    for column in 1..many {
        text.extend_from_slice(b"&t.")?;
        text.extend_from_slice(&name_of(column))?;
        text.extend_from_slice(if column % 2 == 0 { b">=0" } else { b">=\"0\"" })?;
    }
    Ok(())
}

/// Items on the columns of a wide table, a clause on each that holds in each row, and one with so many values,
/// which holds where the first digit is 0 or 3.
pub fn wide_query(alloc: Global, many: u32) -> Result<Vec<u8>, Memory> {
    let mut text = Vec::from_slice(alloc, b"t.aaaa")?;
    append_names(&mut text, many, b",t.", b"")?;
    append_clauses(&mut text, many)?;
    text.extend_from_slice(b"&t.aaaa={0")?;
    append_times(&mut text, b",3", many.saturating_sub(1) as usize)?;
    text.extend_from_slice(b"}")?;
    Ok(text)
}

/// Whether that query keeps a row of a wide table.
pub fn is_kept(row: u32) -> bool {
    row % 10 == 0 || row % 10 == 3
}

/// Whether the columns are marked, which are the members from 2 on.
fn are_marked(marks: &Marks, columns: u32) -> bool {
    for column in 0..columns {
        if marks.slabs(column.wrapping_add(2)).is_none() {
            return false;
        }
    }
    true
}

/// Whether a mask of so many rows keeps those.
fn keeps_those(kept: &[bool], rows: u32) -> bool {
    if kept.len() != rows as usize {
        return false;
    }
    let mut row = 0u32;
    for is_now in kept {
        if *is_now != is_kept(row) {
            return false;
        }
        row = row.wrapping_add(1);
    }
    true
}

/// Whether the items mark all columns.
fn marked_by(alloc: Global, text: &[u8], query: &[u8]) -> Result<bool, Fail> {
    let table = read_table(alloc, text, b"t.csv")?;
    let dataset = table.dataset(alloc)?;
    let marks = marks_of(alloc, &dataset, query)?;
    Ok(are_marked(&marks, table.columns()))
}

/// A table, and the clauses of a constraint on it.
#[derive(Drop)]
struct Case {
    table: Table,
    tests: Tests,
}

/// The clauses of a constraint on the dataset of a table.
fn tests_of(alloc: Global, table: &Table, dataset: &Dataset, query: &[u8]) -> Result<Tests, Fail>
    requires table { dataset_view dataset.now ≡ table_dataset table.now }
    requires well_formed { IsWellFormed (dataset_view dataset.now) }
{
    let index = Index::new(alloc, dataset)?;
    let constraint = constraint_of(alloc, query)?;
    let _marks = resolve(alloc, dataset, &index, &constraint)?;
    Ok(Tests::new(alloc, table, dataset, &index, &constraint)?)
}

fn case_of(alloc: Global, text: &[u8], query: &[u8]) -> Result<Case, Fail> {
    let table = read_table(alloc, text, b"t.csv")?;
    let dataset = table.dataset(alloc)?;
    let tests = tests_of(alloc, &table, &dataset, query)?;
    Ok(Case { table, tests })
}

/// The rows of a table, kept or not, by so many workers.
pub fn kept_rows<R: Threads + Abort + Sync, G: Gate>(
    rt: &R,
    alloc: Global,
    text: &[u8],
    query: &[u8],
    workers: u32,
    gate: &G,
) -> Result<Vec<bool>, Fail>
    requires some { 1 ≤ workers }
    requires many { workers ≤ 64 }
{
    let Case { table, tests } = case_of(alloc, text, query)?;
    let mut kept = vec![in alloc; false; table.rows() as usize]?;
    assert!(rt; kept.len() == table.rows() as usize);
    mask(rt, &table, &tests, &mut kept, workers, gate);
    Ok(kept)
}

fn expect_selected<R: Threads + Abort + Sync>(
    rt: &R,
    alloc: Global,
    rows: u32,
    length: usize,
) -> Result<(), Fail> {
    let text = wide_table(alloc, rows, COLUMNS, length)?;
    let query = wide_query(alloc, COLUMNS)?;
    assert!(rt; marked_by(alloc, &text, &query)?);
    let kept = kept_rows(rt, alloc, &text, &query, 2, &NoGate)?;
    assert!(rt; keeps_those(&kept, rows));
    Ok(())
}

#[test]
fn most_clauses_are_judged(rt: HostRuntime) -> Result<(), Fail> {
    expect_selected(&rt, rt.alloc(), ROWS, LONGEST)
}
