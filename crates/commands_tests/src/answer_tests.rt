//! What `answer` writes over outsides and files that are no data of a case, worked out by hand.

mod each_call;
mod hostile;
mod joins;
mod samples;
mod texts;

use crate::expecting::expect;
use crate::said::{Said, expect_out, no_dial, numbers, run_words, said_alone};
use dap_commands::Status;
use dap_host::FolderShelf;
use dap_outside::{MemFile, MemShelf, MemSink, MemSource, Shelf, SureShelf, SureSource};
use dap_types::{Bytes, List, Memory, Name};
use samples::{alone, bytes_of, coads, file, files};
use std::alloc::Global;
use std::fs::{self, Files};
use std::os::unix::fs as unix;
use std::process::Abort;
use std::test::Fail;
use std::thread::Threads;
use texts::{COADS_TARGET, coads_body};

/// The numbers of the calls of the shelf and of the output that fail, and how much is put at once.
#[derive(Clone, Copy)]
struct Faults<'a> {
    shelf: &'a [u64],
    out: &'a [u64],
    piece: u32,
}

const SURE: Faults<'static> = Faults {
    shelf: &[],
    out: &[],
    piece: 100000,
};

fn answered<R: Threads + AllocGlobal + Sync>(
    rt: &R,
    files: List<MemFile>,
    words: &[&str],
    faults: Faults<'_>,
) -> Result<Said, Memory> {
    let mut shelf = MemShelf::new(files, numbers(rt.alloc(), faults.shelf)?);
    answered_by(rt, &mut shelf, words, faults)
}

fn answered_by<R: Threads + AllocGlobal + Sync, S: Shelf>(
    rt: &R,
    shelf: &mut S,
    words: &[&str],
    faults: Faults<'_>,
) -> Result<Said, Memory> {
    let alloc = rt.alloc();
    let mut input = MemSource::new(Bytes::new(alloc, b"")?, 1, List::new(alloc));
    let out = sink(alloc, faults)?;
    said_alone(rt, words, shelf, &mut input, out)
}

fn sink(alloc: Global, faults: Faults<'_>) -> Result<MemSink, Memory> {
    let fails = numbers(alloc, faults.out)?;
    MemSink::new(alloc, 100000, faults.piece.max(1), fails)
}

/// The words over these files are answered with this whole text.
fn expect_answer<R: Threads + Abort + AllocGlobal + Sync>(
    rt: &R,
    files: List<MemFile>,
    words: &[&str],
    text: &[u8],
) -> Result<(), Fail> {
    let found = answered(rt, files, words, SURE)?;
    expect_out(rt, &found, Status::Complete, text);
    Ok(())
}

const USAGE: &[u8] =
    b"usage: dap2 answer TARGET [WORKERS] | show | serve PORT WORKERS REQUESTS | fetch URL KIND CE [CE ..] | soak START SIZE | relay HOST UPPORT PORT ROOM REQUESTS | save [URL CE] | ver\n";

/// Runs the word `answer` alone over the small files.
fn run_answer<R: Threads + AllocGlobal + Sync>(
    rt: &R,
    out: &mut MemSink,
    err: &mut MemSink,
) -> Result<Status, Memory> {
    let alloc = rt.alloc();
    let mut shelf = SureShelf::new(files(alloc)?);
    let mut input = SureSource::new(Bytes::new(alloc, b"")?, 1);
    let mut dial = no_dial(alloc)?;
    run_words(rt, &["answer"], &mut shelf, &mut input, out, err, &mut dial)
}

/// The line does not fit on standard error; the status stays.
#[test]
fn a_line_that_does_not_fit(rt: HostRuntime) -> Result<(), Fail> {
    let alloc = rt.alloc();
    let mut out = MemSink::new(alloc, 100, 7, List::new(alloc))?;
    let mut err = MemSink::new(alloc, 100, 7, List::new(alloc))?;
    let status = run_answer(&rt, &mut out, &mut err)?;
    expect(&rt, status, Status::Words);
    expect(&rt, out.bytes(), b"".as_slice());
    expect(&rt, Some(err.bytes()), USAGE.get(..100));
    Ok(())
}

/// A name of a table of so many bytes before its ending.
fn long_name(alloc: Global, many: u32) -> Result<String, Memory> {
    let mut name = String::new(alloc);
    for _ in 0..many {
        name.push('n')?;
    }
    name.push_str(".csv")?;
    Ok(name)
}

/// A table of such a name is answered so.
fn expect_name<R: Threads + Abort + AllocGlobal + Sync>(
    rt: &R,
    many: u32,
    status: Status,
) -> Result<(), Fail> {
    let alloc = rt.alloc();
    let mut name = long_name(alloc, many)?;
    let files = alone(alloc, file(alloc, name.as_str(), &[], b"a\n")?)?;
    name.push_str(".dds")?;
    let found = answered(rt, files, &["answer", name.as_str()], SURE)?;
    expect(rt, found.status, status);
    Ok(())
}

/// Names of 255 and of 256 bytes.
#[test]
fn names_at_their_limit(rt: HostRuntime) -> Result<(), Fail> {
    expect_name(&rt, 251, Status::Complete)?;
    expect_name(&rt, 252, Status::Refused)
}

#[test]
fn a_part_of_a_usual_grid_by_one_and_by_seven_workers(rt: HostRuntime) -> Result<(), Fail> {
    let alloc = rt.alloc();
    let whole = coads_body(alloc)?;
    expect(&rt, whole.len(), 48696);
    for workers in ["1", "7"] {
        let files = alone(alloc, file(alloc, "coads.nc", &[], &coads(alloc)?)?)?;
        expect_answer(&rt, files, &["answer", COADS_TARGET, workers], &whole)?;
    }
    Ok(())
}

/// A folder with a table, a folder and a link to the table.
fn make_folder<R: Files + Alloc>(rt: &R) -> Result<(), Fail> {
    let _ = fs::remove_dir_all(rt, "tried_answered");
    fs::create_dir(rt, "tried_answered")?;
    fs::write(rt, "tried_answered/own.csv", b"n:Byte\n7\n")?;
    fs::create_dir(rt, "tried_answered/inner.csv")?;
    unix::symlink(rt, "own.csv", "tried_answered/way.csv")?;
    Ok(())
}

/// A target in folders of this machine is answered so.
fn expect_target<R: Threads + Files + Abort + AllocGlobal + Sync>(
    rt: &R,
    target: &str,
    status: Status,
) -> Result<(), Fail> {
    let mut shelf = FolderShelf::new(rt);
    let found = answered_by(rt, &mut shelf, &["answer", target], SURE)?;
    expect(rt, found.status, status);
    Ok(())
}

#[test]
fn a_folder_and_a_link_are_no_files(rt: HostRuntime) -> Result<(), Fail> {
    make_folder(&rt)?;
    expect_target(&rt, "tried_answered/own.csv.dods", Status::Complete)?;
    expect_target(&rt, "tried_answered/inner.csv.dods", Status::Refused)?;
    expect_target(&rt, "tried_answered/way.csv.dods", Status::Refused)?;
    expect_target(
        &rt,
        "tried_answered/inner.csv/own.csv.dods",
        Status::Refused,
    )?;
    fs::remove_dir_all(&rt, "tried_answered")?;
    Ok(())
}

/// The header of a file of 1,600,080 bytes.
const LONG: &[u32] = &[
    0x43444601, 0, 0x0a, 1, 1, 0x6e000000, 400000, 0, 0, 0x0b, 1, 1, 0x76000000, 1, 0, 0, 0, 4,
    1600000, 0x50,
];

fn long(alloc: Global) -> Result<Vec<u8>, Memory> {
    let mut bytes = bytes_of(alloc, LONG, b"\0\0\0\x07")?;
    bytes.resize(1600076, 0)?;
    bytes.extend_from_slice(b"\0\0\0\x09")?;
    Ok(bytes)
}

/// Of that file the first and the last element are asked.
#[test]
fn a_long_file_with_a_short_header(rt: HostRuntime) -> Result<(), Fail> {
    let alloc = rt.alloc();
    let files = alone(alloc, file(alloc, "long.nc", &[], &long(alloc)?)?)?;
    let words = ["answer", "long.nc.dods?v[0:399999:399999]", "2"];
    let text =
        b"Dataset {\n    Int32 v[n = 2];\n} long.nc;\nData:\n\0\0\0\x02\0\0\0\x02\0\0\0\x07\0\0\0\x09";
    expect_answer(&rt, files, &words, text)
}
