//! Workers of the mask of a table: their numbers, and two of them at once.

use crate::tests::expecting::expect;
use constraint_parse::parse;
use csv_source::{Table, read_table};
use dap_types::Index;
use grid_projection::resolve;
use sequence_select::{Tests, mask};
use slab_fill::Gate;
use std::alloc::Global;
use std::process::Abort;
use std::test::Fail;
use std::thread::Threads;
use worker_gates::{Meeting, Roll};

const BUOYS: &[u8] =
    b"station,depth:Int32,salt:Float32\nA1,5,0x3f800000\nB22,-7,0x00000000\nA1,30,0x40000000\nb,5,0x00000001\n\"\",0,0x00000000\n";

fn crosses<T: Send + Sync>(_: &T) {}

/// A table, and the clauses of a constraint on it.
#[derive(Drop)]
struct Case {
    table: Table,
    tests: Tests,
}

/// The table, and a clause that two of its rows meet.
fn read_case(alloc: Global) -> Result<Case, Fail> {
    let table = read_table(alloc, BUOYS, b"buoys.csv")?;
    let dataset = table.dataset(alloc)?;
    let index = Index::new(alloc, &dataset)?;
    let constraint = parse(alloc, b"&buoys.depth=5")?;
    let _marks = resolve(alloc, &dataset, &index, &constraint)?;
    let tests = Tests::new(alloc, &table, &dataset, &index, &constraint)?;
    Ok(Case { table, tests })
}

/// Writes which rows so many workers keep.
fn write_kept<R: Threads + Abort + Sync, G: Gate>(
    rt: &R,
    case: &Case,
    out: &mut [bool],
    workers: u32,
    gate: &G,
) {
    assert!(rt; out.len() == case.table.rows() as usize);
    assert!(rt; workers >= 1 && workers <= 64);
    mask(rt, &case.table, &case.tests, out, workers, gate);
}

/// The machine has to give the process a second thread.
#[test]
fn two_workers_of_a_mask_meet(rt: HostRuntime) -> Result<(), Fail> {
    let case = read_case(rt.alloc())?;
    let mut met = false;
    for _ in 0..8 {
        if !met {
            let gate = Meeting::new();
            let mut out = [false; 5];
            write_kept(&rt, &case, &mut out, 2, &gate);
            met = gate.both_met();
        }
    }
    assert!(rt; met, "two workers met");
    Ok(())
}

/// Four workers for five rows: two get two each and one gets one, and they are numbered from 0.
#[test]
fn numbers_of_workers_of_a_mask(rt: HostRuntime) -> Result<(), Fail> {
    let case = read_case(rt.alloc())?;
    crosses(&case);
    let roll = Roll::new();
    let mut out = [true, false, true, false, true];
    write_kept(&rt, &case, &mut out, 4, &roll);
    expect(&rt, roll.told(), (0b111, 3));
    expect(&rt, out, [true, false, false, true, false]);
    Ok(())
}
