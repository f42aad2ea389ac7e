ghost use Rattle.std.specs.Prelude.{◌≡◌, ℕ, ◌+◌, ◌<◌, ◌≤◌, ◌^◌, length, map, get_or, false};
ghost use Rattle.dap_model.specs.Rows.{kept};
ghost use Rattle.csv_source.specs.Dataset.{row_tree};
ghost use Rattle.sequence_select.specs.Selections.{row_of};
ghost use Rattle.sequence_select.specs.Tests.{tested};

use crate::clauses::Tests;
use crate::rows::keep;
use csv_source::Table;
use slab_fill::Gate;
use std::thread;
use std::thread::Threads;

/// Writes for each row of a part whether it is kept. The part begins at row `start`.
fn mask_part(table: &Table, tests: &Tests, start: u32, part: &mut [bool])
    requires inside { start + length part.old ≤ length table.now.rows }
    requires small { start + length part.old < 2 ^ 32 }
    ensures { (k : ℕ) → k < length part.old → get_or part.new k false ≡ kept (tested tests.now) 1 (row_tree (row_of table.now (start + k))) }
{
    for k in 0..part.len() {
        part[k] = keep(table, tests, start + k as u32);
    }
}

/// Lends each worker its part of the mask, which it writes once it has passed the gate with its
/// number.
fn mask_parts<R: Threads + Sync, G: Gate>(
    rt: &R,
    table: &Table,
    tests: &Tests,
    out: &mut [bool],
    workers: u32,
    gate: &G,
)
    requires room { length out.old ≡ length table.now.rows }
    requires rows { 1 ≤ length table.now.rows }
    requires some { 1 ≤ workers }
    requires many { workers ≤ 64 }
    ensures { (k : ℕ) → k < length out.old → get_or out.new k false ≡ kept (tested tests.now) 1 (row_tree (row_of table.now k)) }
{
    let size = table.rows().div_ceil(workers) as usize;
    thread::for_each_chunk_mut(
        rt,
        out,
        size,
        &|start: usize, part: &mut [bool]|
            requires sized { 0 < size }
            requires small { start + length part.old < 2 ^ 32 }
            requires inside { start + length part.old ≤ length table.now.rows }
            ensures { (k : ℕ) → k < length part.old → get_or part.new k false ≡ kept (tested tests.entry.now) 1 (row_tree (row_of table.entry.now (start + k))) }
        {
            gate.enter((start / size) as u32);
            mask_part(table, tests, start as u32, part);
        },
    );
}

/// Writes for each row whether it is kept (DAP 2.0, selections). The workers, 1 to 64, get
/// `ceil(rows / workers)` rows each, in order. They need no memory, and cannot be refused.
pub fn mask<R: Threads + Sync, G: Gate>(
    rt: &R,
    table: &Table,
    tests: &Tests,
    out: &mut [bool],
    workers: u32,
    gate: &G,
)
    requires room { length out.old ≡ length table.now.rows }
    requires some { 1 ≤ workers }
    requires many { workers ≤ 64 }
    ensures kept { out.new ≡ map (λ values. kept (tested tests.now) 1 (row_tree values)) table.now.rows }
{
    if table.rows() > 0 {
        mask_parts(rt, table, tests, out, workers, gate);
    }
}
