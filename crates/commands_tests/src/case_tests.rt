//! The runner of cases, over a shelf in memory.

use crate::expecting::expect;
use dap_cases::{Stop, all_agree, run_cases};
use dap_outside::{MemFile, MemShelf, MemSink};
use dap_types::{Bytes, List, Memory, Name};
use std::alloc::Global;
use std::process::Abort;
use std::test::Fail;
use std::thread::Threads;

const FILES: &[(&str, &[u8])] = &[
    ("cases/same/args", b"answer\nt.csv.dds\n"),
    ("cases/same/data/t.csv", b"a\n"),
    (
        "cases/same/stdout",
        b"Dataset {\n    Sequence {\n        String a;\n    } t;\n} t.csv;\n",
    ),
    ("cases/number/args", b"ver\n"),
    ("cases/number/status", b"3\n"),
    ("cases/output/args", b"ver\n"),
    ("cases/output/stdout", b"Core version: DAP/4.0\n"),
    ("cases/line/args", b"answer\n"),
    ("cases/line/status", b"2\n"),
    ("cases/line/stderr", b"usage: dap2\n"),
    ("cases/bytes/args", b"\xff\n"),
];

fn file(alloc: Global, name: &str, bytes: &[u8]) -> Result<MemFile, Memory> {
    let name = Name::new(alloc, name)?;
    let bytes = Bytes::new(alloc, bytes)?;
    Ok(MemFile { name, bytes })
}

/// A shelf of these files and a list of this name.
fn shelf(alloc: Global, name: &str, list: &[u8]) -> Result<MemShelf, Memory> {
    let mut files = List::new(alloc);
    files.push(file(alloc, name, list)?)?;
    for (name, bytes) in FILES {
        files.push(file(alloc, name, bytes)?)?;
    }
    Ok(MemShelf::new(files, List::new(alloc)))
}

/// Whether all cases of the list agree.
fn agree<R: Threads + Sync>(
    rt: &R,
    alloc: Global,
    shelf: &mut MemShelf,
    out: &mut MemSink,
) -> Result<bool, Fail> {
    let Ok(outcomes) = run_cases(rt, alloc, shelf, out) else {
        return Err(Fail::from("not run"));
    };
    Ok(all_agree(outcomes.items()))
}

/// The cases of the list have these lines, and pass or not.
fn expect_lines<R: Threads + Abort + AllocGlobal + Sync>(
    rt: &R,
    list: &[u8],
    lines: &[u8],
    passed: bool,
) -> Result<(), Fail> {
    let alloc = rt.alloc();
    let mut shelf = shelf(alloc, "list", list)?;
    let mut out = MemSink::new(alloc, 1_000, 7, List::new(alloc))?;
    let agree = agree(rt, alloc, &mut shelf, &mut out)?;
    expect(rt, out.bytes(), lines);
    expect(rt, agree, passed);
    Ok(())
}

#[test]
fn each_difference_has_its_line(rt: HostRuntime) -> Result<(), Fail> {
    expect_lines(&rt, b"same\n", b"same ok\n1 of 1 passed\n", true)?;
    expect_lines(
        &rt,
        b"same\nnumber\noutput\nline\nmissing\nbytes\n",
        b"same ok\nnumber status 0 and not 3\noutput stdout differs at 18\nline stderr differs at 11\nmissing status 2 and not 0\nbytes is not read\n1 of 6 passed\n",
        false,
    )
}

#[test]
fn without_a_list_nothing_passes(rt: HostRuntime) -> Result<(), Fail> {
    let alloc = rt.alloc();
    let mut shelf = shelf(alloc, "lists", b"same\n")?;
    let mut out = MemSink::new(alloc, 1_000, 7, List::new(alloc))?;
    let ran = run_cases(&rt, alloc, &mut shelf, &mut out);
    assert!(rt; matches!(&ran, Err(Stop::Unread)));
    assert!(rt; out.bytes().is_empty());
    Ok(())
}
