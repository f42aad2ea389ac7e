//! Each call of the shelf and each put that a run makes fails in turn.

use super::samples::{alone, coads, file, files};
use super::texts::{
    COADS_TARGET, EACH_SECOND, Row, SAVED_DEPTHS, UNSIGNED, WHOLE_GRID, WHOLE_TABLE, answer_of,
    coads_body,
};
use super::{Faults, SURE, answered, joins, sink};
use crate::counted::Counted;
use crate::expecting::expect;
use crate::said::{Said, no_dial, run_words};
use dap_commands::Status;
use dap_outside::{MemFile, MemShelf, MemSink, Shelf, Sink, SureSource};
use dap_types::{Bytes, List, Memory};
use std::alloc::Global;
use std::process::Abort;
use std::test::Fail;
use std::thread::Threads;

/// The small files, or the usual grid alone where its bytes are given.
pub fn files_or(alloc: Global, grid: &[u8]) -> Result<List<MemFile>, Memory> {
    if grid.is_empty() {
        return files(alloc);
    }
    alone(alloc, file(alloc, "coads.nc", &[], grid)?)
}

/// Answers the target by seven workers, without room for a line.
fn answer<R: Threads + AllocGlobal + Sync, S: Shelf, O: Sink>(
    rt: &R,
    target: &str,
    shelf: &mut S,
    out: &mut O,
) -> Result<Status, Memory> {
    let alloc = rt.alloc();
    let mut input = SureSource::new(Bytes::new(alloc, b"")?, 1);
    let mut err = MemSink::new(alloc, 0, 1, List::new(alloc))?;
    let mut dial = no_dial(alloc)?;
    let words = ["answer", target, "7"];
    run_words(rt, &words, shelf, &mut input, out, &mut err, &mut dial)
}

/// How often the shelf is called in a run without a fault, and how often such a piece is put.
fn calls_of<R: Threads + Abort + AllocGlobal + Sync>(
    rt: &R,
    target: &str,
    grid: &[u8],
    whole: &[u8],
    piece: u32,
) -> Result<(u64, u64), Fail> {
    let alloc = rt.alloc();
    let mut shelf = Counted::new(MemShelf::new(files_or(alloc, grid)?, List::new(alloc)));
    let mut out = Counted::new(sink(alloc, Faults { piece, ..SURE })?);
    let status = answer(rt, target, &mut shelf, &mut out)?;
    expect(rt, status, Status::Complete);
    expect(rt, out.inner.bytes(), whole);
    Ok((shelf.calls, out.calls))
}

/// A run ended with this fault, a front of the text and this line.
fn expect_front<R: Abort>(rt: &R, found: &Said, fault: Status, whole: &[u8], line: &[u8]) {
    expect(rt, found.status, fault);
    expect(rt, found.err.bytes(), line);
    assert!(rt; whole.starts_with(found.out.bytes()));
}

/// A run of which a call fails ends with that fault, a front of the text and the line.
fn expect_fault<R: Threads + Abort + AllocGlobal + Sync>(
    rt: &R,
    target: &str,
    grid: &[u8],
    whole: &[u8],
    faults: Faults<'_>,
) -> Result<(), Fail> {
    let files = files_or(rt.alloc(), grid)?;
    let found = answered(rt, files, &["answer", target, "7"], faults)?;
    if faults.out.is_empty() {
        expect_front(rt, &found, Status::ReadFault, whole, b"dap2: read fault\n");
    } else {
        expect_front(
            rt,
            &found,
            Status::WriteFault,
            whole,
            b"dap2: write fault\n",
        );
    }
    Ok(())
}

fn shelf_fault(shelf: &[u64]) -> Faults<'_> {
    Faults { shelf, ..SURE }
}

fn put_fault(out: &[u64], piece: u32) -> Faults<'_> {
    Faults { out, piece, ..SURE }
}

/// Each call of the shelf fails, at least two, the look-up and a read; and each put of such a piece.
fn expect_each_fault<R: Threads + Abort + AllocGlobal + Sync>(
    rt: &R,
    target: &str,
    grid: &[u8],
    whole: &[u8],
    piece: u32,
) -> Result<(), Fail> {
    let (calls, puts) = calls_of(rt, target, grid, whole, piece)?;
    assert!(rt; calls >= 2 && puts >= 1);
    for n in 1..=calls {
        let fails: [u64; 1] = [n];
        expect_fault(rt, target, grid, whole, shelf_fault(&fails))?;
    }
    for n in 1..=puts {
        let fails: [u64; 1] = [n];
        expect_fault(rt, target, grid, whole, put_fault(&fails, piece))?;
    }
    Ok(())
}

fn expect_faults<R: Threads + Abort + AllocGlobal + Sync>(rt: &R, row: Row) -> Result<(), Fail> {
    let (target, _, _) = row;
    let whole = answer_of(rt.alloc(), row)?;
    expect_each_fault(rt, target, b"", &whole, 7)
}

#[test]
fn each_call_for_a_table_may_fail(rt: HostRuntime) -> Result<(), Fail> {
    expect_faults(&rt, WHOLE_TABLE)
}

#[test]
fn each_call_for_a_saved_response_may_fail(rt: HostRuntime) -> Result<(), Fail> {
    expect_faults(&rt, SAVED_DEPTHS)
}

#[test]
fn each_call_for_a_list_may_fail(rt: HostRuntime) -> Result<(), Fail> {
    expect_faults(&rt, joins::EACH_SECOND)
}

#[test]
fn each_call_for_an_array_may_fail(rt: HostRuntime) -> Result<(), Fail> {
    expect_faults(&rt, EACH_SECOND)?;
    expect_faults(&rt, UNSIGNED)
}

#[test]
fn each_call_for_a_grid_may_fail(rt: HostRuntime) -> Result<(), Fail> {
    expect_faults(&rt, WHOLE_GRID)
}

#[test]
fn each_call_for_a_usual_grid_may_fail(rt: HostRuntime) -> Result<(), Fail> {
    let alloc = rt.alloc();
    let grid = coads(alloc)?;
    let whole = coads_body(alloc)?;
    expect_each_fault(&rt, COADS_TARGET, &grid, &whole, 8192)
}
