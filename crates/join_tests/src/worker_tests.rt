//! Workers of a body of joined files: as many come as are asked for, each once for each file, and two of
//! them at once.

ghost use Rattle.std.specs.Prelude.{◌≤◌};

use crate::testing::{body_of, file_of, joined, put_of, r};
use slab_fill::Gate;
use std::alloc::Global;
use std::process::Abort;
use std::test::Fail;
use std::thread::Threads;
use worker_gates::{Meeting, Roll};

/// The body of two files of 14 records each goes out, by so many workers.
fn expect_sent<R: Threads + Abort + Sync, G: Gate>(
    rt: &R,
    alloc: Global,
    workers: u32,
    gate: &G,
) -> Result<(), Fail>
    requires some { 1 ≤ workers }
    requires many { workers ≤ 64 }
{
    let file = file_of(alloc, &r(14), &[7; 28])?;
    let files = [file.as_slice(), file.as_slice()];
    let mut body = body_of(rt, alloc, &files, b"")?;
    let out = put_of(rt, alloc, &files, &mut body, 65536, workers, gate)?;
    let head = body.dds().len() + 6;
    assert!(rt; out.bytes().len() >= head && out.bytes().len() - head == 120);
    Ok(())
}

/// So many workers are asked for, and these come, once for each of the two files.
fn expect_workers<R: Threads + Abort + Sync>(
    rt: &R,
    alloc: Global,
    workers: u32,
    numbers: u64,
) -> Result<(), Fail>
    requires some { 1 ≤ workers }
    requires many { workers ≤ 64 }
{
    let roll = Roll::new();
    expect_sent(rt, alloc, workers, &roll)?;
    assert_eq!(rt; roll.told(), (numbers, 2 * u64::from(workers)));
    Ok(())
}

#[test]
fn each_worker_comes_for_each_file(rt: HostRuntime) -> Result<(), Fail> {
    let alloc = rt.alloc();
    expect_workers(&rt, alloc, 1, 0b1)?;
    expect_workers(&rt, alloc, 2, 0b11)?;
    expect_workers(&rt, alloc, 7, 0b1111111)?;
    expect_workers(&rt, alloc, 14, 0b11111111111111)
}

/// The machine has to give the process a second thread.
#[test]
fn two_workers_meet(rt: HostRuntime) -> Result<(), Fail> {
    let mut met = false;
    for _ in 0..8 {
        if !met {
            let gate = Meeting::new();
            expect_sent(&rt, rt.alloc(), 2, &gate)?;
            met = gate.both_met();
        }
    }
    assert!(rt; met, "two workers met");
    Ok(())
}

fn crosses<T: Send + Sync>(_: &T) {}

#[test]
fn workers_may_have_them(rt: HostRuntime) -> Result<(), Fail> {
    let alloc = rt.alloc();
    let some = file_of(alloc, &r(1), b"\x00\x01")?;
    let Ok(one) = joined(&rt, alloc, &[some.as_slice()])? else {
        panic!(&rt; "not joined");
    };
    crosses(&one);
    let body = body_of(&rt, alloc, &[some.as_slice()], b"")?;
    crosses(&body);
    Ok(())
}
