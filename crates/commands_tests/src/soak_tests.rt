//! The word `soak`.

use crate::said::{Said, expect_said, numbers, said_alone};
use dap_commands::Status;
use dap_outside::{MemSink, SureShelf, SureSource};
use dap_types::{Bytes, List, Memory};
use std::process::Abort;
use std::test::Fail;
use std::thread::Threads;

const THREE: &[u8] = b"elements 800\nbytes 3314\nshown 16518\nsum 1036990\n";

/// Runs the words over a shelf without files and a sink whose calls with these numbers fail.
fn soaked<R: Threads + AllocGlobal + Sync>(
    rt: &R,
    words: &[&str],
    fails: &[u64],
) -> Result<Said, Memory> {
    let alloc = rt.alloc();
    let mut shelf = SureShelf::new(List::new(alloc));
    let mut input = SureSource::new(Bytes::new(alloc, b"")?, 1);
    let out = MemSink::new(alloc, 100, 20, numbers(alloc, fails)?)?;
    said_alone(rt, words, &mut shelf, &mut input, out)
}

/// Where the put with this number fails, this is out.
fn expect_front<R: Threads + Abort + AllocGlobal + Sync>(
    rt: &R,
    number: u64,
    front: &[u8],
) -> Result<(), Fail> {
    let found = soaked(rt, &["soak", "1", "3"], &[number])?;
    expect_said(
        rt,
        &found,
        Status::WriteFault,
        front,
        b"dap2: write fault\n",
    );
    Ok(())
}

#[test]
fn a_front_of_the_lines_is_out_where_a_put_fails(rt: HostRuntime) -> Result<(), Fail> {
    expect_front(&rt, 1, b"")?;
    expect_front(&rt, 2, &THREE[..20])?;
    expect_front(&rt, 3, &THREE[..40])
}
