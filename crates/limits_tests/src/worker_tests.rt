//! Workers by their numbers: as many come as are asked for, each once, each for its part.

use crate::building::{append_times, append_words};
use crate::expecting::expect;
use crate::sending::{cut_body, sent_of};
use crate::table_limits::{kept_rows, tall_table};
use dap_types::Memory;
use std::alloc::Global;
use std::process::Abort;
use std::test::Fail;
use std::thread::Threads;
use worker_gates::Roll;

/// How many are asked for, over how many elements or rows, and how many come: as many as there are parts of
/// `ceil(elements / workers)`.
const ASKED: [(u32, u32, u32); 8] = [
    (1, 1000, 1),
    (2, 1000, 2),
    (7, 1000, 7),
    (64, 1000, 63),
    (64, 1024, 64),
    (64, 64, 64),
    (64, 3, 3),
    (7, 50, 7),
];

/// Each of the first numbers, once.
fn each_once(count: u32) -> (u64, u64) {
    let mut seen = 0u64;
    for number in 0..count.min(64) {
        seen |= 1 << number;
    }
    (seen, u64::from(count))
}

/// As many came as the row tells.
fn expect_roll<R: Abort>(rt: &R, roll: &Roll, row: (u32, u32, u32)) {
    let (workers, elements, come) = row;
    assert_eq!(rt; roll.told(), each_once(come), "{workers} over {elements}");
}

/// A variable `v` of ints over the one dimension, which stands behind the header.
const DECLARED: &[u32] = &[0, 0, 0x0b, 1, 1, 0x76000000, 1, 0, 0, 0, 4, 0, 80];

/// A file of a variable `v` of so many ints.
fn ints(alloc: Global, count: u32) -> Result<Vec<u8>, Memory> {
    let mut bytes = Vec::new(alloc);
    append_words(&mut bytes, &[0x43444601, 0, 0x0a, 1, 1, 0x78000000])?;
    append_words(&mut bytes, &[count])?;
    append_words(&mut bytes, DECLARED)?;
    append_times(&mut bytes, &[0; 4], count as usize)?;
    Ok(bytes)
}

fn expect_body<R: Threads + Abort + Sync>(
    rt: &R,
    alloc: Global,
    workers: u32,
    count: u32,
    roll: &Roll,
) -> Result<(), Fail> {
    let file = ints(alloc, count)?;
    let size = file.len() as u64;
    let Ok(mut body) = cut_body(rt, alloc, &file, size, b"f.nc", b"")? else {
        panic!(rt; "no body");
    };
    let sent = sent_of(rt, alloc, &mut body, size, workers.clamp(1, 64), roll)?;
    let head = sent.dds.bytes().len() as u64;
    let behind = sent.tally.bytes.wrapping_sub(head);
    expect(rt, behind, 14 + 4 * u64::from(count));
    Ok(())
}

#[test]
fn workers_of_a_body_come_once_each(rt: HostRuntime) -> Result<(), Fail> {
    for (workers, count, come) in ASKED {
        let roll = Roll::new();
        expect_body(&rt, rt.alloc(), workers, count, &roll)?;
        expect_roll(&rt, &roll, (workers, count, come));
    }
    Ok(())
}

/// Whether all of so many rows but the first two are kept.
fn keeps_later(kept: &[bool], rows: u32) -> bool {
    if kept.len() != rows as usize {
        return false;
    }
    for (row, is_kept) in kept.iter().enumerate() {
        if *is_kept != (row >= 2) {
            return false;
        }
    }
    true
}

fn expect_mask<R: Threads + Abort + Sync>(
    rt: &R,
    alloc: Global,
    workers: u32,
    rows: u32,
    roll: &Roll,
) -> Result<(), Fail> {
    let text = tall_table(alloc, rows)?;
    let kept = kept_rows(rt, alloc, &text, b"&t.n>=2", workers.clamp(1, 64), roll)?;
    assert!(rt; keeps_later(&kept, rows));
    Ok(())
}

#[test]
fn workers_of_a_mask_come_once_each(rt: HostRuntime) -> Result<(), Fail> {
    for (workers, rows, come) in ASKED {
        let roll = Roll::new();
        expect_mask(&rt, rt.alloc(), workers, rows, &roll)?;
        expect_roll(&rt, &roll, (workers, rows, come));
    }
    Ok(())
}
