//! How often a large case calls a shelf, a sink and a source.

use crate::building::{append_times, append_words};
use crate::header_limits::LONGEST;
use crate::sending::{sent_cut, sent_rows};
use crate::table_limits::{TALL, tall_table};
use dap_types::Memory;
use std::alloc::Global;
use std::process::Abort;
use std::test::Fail;
use std::thread::Threads;

/// The bytes of a batch, and of a buffer before a sink.
const BATCH: u64 = 65_536;

/// The header of a file of a variable `v[y = 1000][x = 1000]` of ints.
const MILLION: &[u32] = &[
    0x43444601, 0, 0x0a, 2, 1, 0x79000000, 1000, 1, 0x78000000, 1000, 0, 0, 0x0b, 1, 1, 0x76000000,
    2, 0, 1, 0, 0, 4, 0, 96,
];

/// That file up to that length.
fn million(alloc: Global, length: u32) -> Result<Vec<u8>, Memory> {
    let mut bytes = Vec::new(alloc);
    append_words(&mut bytes, MILLION)?;
    bytes.resize(length as usize, 0)?;
    Ok(bytes)
}

/// The bytes of that file.
const MILLION_FILE: u64 = 96 + 4_000_000;

/// Constraints, the most reads and the most batches that each needs: elements that stand end to end are
/// read batch by batch, others row by row.
const CUTS: [(&[u8], u64, u64); 4] = [
    (b"", 62, 62),
    (b"v[0:999][0:2:999]", 1000, 63),
    (b"v[100:899][0:999]", 49, 49),
    (b"v[0:999][7]", 1000, 1),
];

fn expect_reads<R: Abort>(rt: &R, reads: u64, most: u64) {
    assert!(rt; reads <= most, "{reads} reads");
}

fn expect_puts<R: Abort>(rt: &R, puts: u64, most: u64) {
    assert!(rt; puts <= most, "{puts} puts");
}

/// What the constraint leaves of the file takes so many reads and so many batches at most.
fn expect_calls<R: Threads + Abort + Sync>(
    rt: &R,
    alloc: Global,
    file: &[u8],
    query: &[u8],
    most: (u64, u64),
) -> Result<(), Fail> {
    let (most_reads, batches) = most;
    let sent = sent_cut(rt, alloc, file, MILLION_FILE, query, 1)?;
    expect_reads(rt, sent.reads, most_reads);
    // One for what stands before, and two for the counts.
    expect_puts(rt, sent.tally.puts.saturating_sub(3), batches);
    Ok(())
}

#[test]
fn arrays_take_a_read_a_row_and_a_put_a_batch(rt: HostRuntime) -> Result<(), Fail> {
    let alloc = rt.alloc();
    let file = million(alloc, LONGEST)?;
    for (query, most_reads, batches) in &CUTS {
        expect_calls(&rt, alloc, &file, query, (*most_reads, *batches))?;
    }
    Ok(())
}

/// A dimension of one letter, and a variable `c` of texts of that.
const LETTERS: &[u32] = &[
    1, 0x77000000, 1, 0, 0, 0x0b, 1, 1, 0x63000000, 2, 0, 1, 0, 0, 2, 0, 96,
];

/// A file of so many texts `c` of one letter.
fn letters(alloc: Global, many: u32) -> Result<Vec<u8>, Memory> {
    let mut bytes = Vec::new(alloc);
    append_words(&mut bytes, &[0x43444601, 0, 0x0a, 2, 1, 0x6b000000])?;
    append_words(&mut bytes, &[many])?;
    append_words(&mut bytes, LETTERS)?;
    append_times(&mut bytes, b"q", many as usize)?;
    Ok(bytes)
}

#[test]
fn texts_are_put_together(rt: HostRuntime) -> Result<(), Fail> {
    let alloc = rt.alloc();
    let file = letters(alloc, 60_000)?;
    let sent = sent_cut(&rt, alloc, &file, file.len() as u64, b"", 1)?;
    expect_reads(&rt, sent.reads, 1);
    assert!(rt; sent.tally.bytes >= 240_000);
    expect_puts(&rt, sent.tally.puts, sent.tally.bytes / BATCH + 4);
    Ok(())
}

#[test]
fn cells_are_put_together(rt: HostRuntime) -> Result<(), Fail> {
    let alloc = rt.alloc();
    let text = tall_table(alloc, TALL)?;
    let sent = sent_rows(&rt, alloc, &text, b"")?;
    expect_puts(&rt, sent.tally.puts, sent.tally.bytes / BATCH + 2);
    Ok(())
}
