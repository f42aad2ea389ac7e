use crate::counted::Counted;
use crate::expecting::expect;
use crate::said::{Said, expect_out, expect_said, no_dial, numbers, run_words, said_alone};
use dap_commands::Status;
use dap_host::{StdSink, StdSource};
use dap_outside::{MemFile, MemShelf, MemSink, MemSource, Sink, Source, SureShelf};
use dap_start::ended;
use dap_types::{Bytes, List, Memory, Name};
use std::alloc::Global;
use std::io::{self, ErrorKind, Read, Write};
use std::process::{Abort, ExitCode};
use std::test::Fail;
use std::thread::Threads;

const BUOYS: &[u8] = b"station,depth:Int32\nA1,5\nB22,-7\n";

const BUOYS_BODY: &[u8] =
    b"Dataset {\n    Sequence {\n        String station;\n        Int32 depth;\n    } buoys;\n} buoys.csv;\nData:\n\x5a\0\0\0\0\0\0\x02A1\0\0\0\0\0\x05\x5a\0\0\0\0\0\0\x03B22\0\xff\xff\xff\xf9\xa5\0\0\0";

const BUOYS_SHOWN: &[u8] =
    b"Dataset {\n    Sequence {\n        String station;\n        Int32 depth;\n    } buoys;\n} buoys.csv;\nbuoys[0].station = \"A1\"\nbuoys[0].depth = 5\nbuoys[1].station = \"B22\"\nbuoys[1].depth = -7\ncomplete 138\n";

const TWICE: &[u8] =
    b"Error {\n    code = 19;\n    message = \"damaged file: repeated column 2\";\n};\n";

/// How many bytes are taken and put at once.
const PIECE: u32 = 64;

/// The outside of a run: what comes in, the calls that fail, and how much can be put.
#[derive(Clone, Copy)]
struct Outside<'a> {
    input: &'a [u8],
    shelf_fails: &'a [u64],
    take_fails: &'a [u64],
    out_fails: &'a [u64],
    room: u32,
}

const SURE: Outside<'static> = Outside {
    input: b"",
    shelf_fails: &[],
    take_fails: &[],
    out_fails: &[],
    room: 1000,
};

fn file(alloc: Global, name: &str, bytes: &[u8]) -> Result<MemFile, Memory> {
    let name = Name::new(alloc, name)?;
    let bytes = Bytes::new(alloc, bytes)?;
    Ok(MemFile { name, bytes })
}

fn files(alloc: Global) -> Result<List<MemFile>, Memory> {
    let mut files = List::new(alloc);
    files.push(file(alloc, "buoys.csv", BUOYS)?)?;
    files.push(file(alloc, "twice.csv", b"a,a\n")?)?;
    Ok(files)
}

fn source(alloc: Global, outside: Outside<'_>) -> Result<MemSource, Memory> {
    let fails = numbers(alloc, outside.take_fails)?;
    let input = Bytes::new(alloc, outside.input)?;
    Ok(MemSource::new(input, PIECE, fails))
}

fn sink(alloc: Global, outside: Outside<'_>) -> Result<MemSink, Memory> {
    let fails = numbers(alloc, outside.out_fails)?;
    MemSink::new(alloc, outside.room, PIECE, fails)
}

fn ran<R: Threads + AllocGlobal + Sync>(
    rt: &R,
    words: &[&str],
    outside: Outside<'_>,
) -> Result<Said, Memory> {
    let alloc = rt.alloc();
    let mut shelf = MemShelf::new(files(alloc)?, numbers(alloc, outside.shelf_fails)?);
    let mut input = source(alloc, outside)?;
    let out = sink(alloc, outside)?;
    said_alone(rt, words, &mut shelf, &mut input, out)
}

/// These puts fail.
fn out_faults(out_fails: &[u64]) -> Outside<'_> {
    Outside { out_fails, ..SURE }
}

/// The answer to the target ends with a write fault, behind this.
fn expect_write_fault<R: Threads + Abort + AllocGlobal + Sync>(
    rt: &R,
    target: &str,
    outside: Outside<'_>,
    out: &[u8],
) -> Result<(), Fail> {
    let found = ran(rt, &["answer", target], outside)?;
    expect_said(rt, &found, Status::WriteFault, out, b"dap2: write fault\n");
    Ok(())
}

/// Where these calls of the shelf fail, the answer is a read fault.
fn expect_read_fault<R: Threads + Abort + AllocGlobal + Sync>(
    rt: &R,
    shelf_fails: &[u64],
) -> Result<(), Fail> {
    let outside = Outside {
        shelf_fails,
        ..SURE
    };
    let found = ran(rt, &["answer", "buoys.csv.dods"], outside)?;
    expect_said(rt, &found, Status::ReadFault, b"", b"dap2: read fault\n");
    Ok(())
}

#[test]
fn each_fault_has_its_status(rt: HostRuntime) -> Result<(), Fail> {
    let short = Outside { room: 100, ..SURE };
    expect_write_fault(&rt, "twice.csv.dods", out_faults(&[2]), &TWICE[..64])?;
    expect_write_fault(&rt, "none.csv.dods", out_faults(&[1]), b"")?;
    expect_read_fault(&rt, &[1])?;
    expect_read_fault(&rt, &[2])?;
    expect_write_fault(&rt, "buoys.csv.dods", short, &BUOYS_BODY[..100])
}

/// Where this put fails, this is out.
fn expect_put_fails<R: Threads + Abort + AllocGlobal + Sync>(
    rt: &R,
    put: &[u64],
    front: &[u8],
) -> Result<(), Fail> {
    let found = ran(rt, &["answer", "buoys.csv.dods"], out_faults(put))?;
    expect_out(rt, &found, Status::WriteFault, front);
    Ok(())
}

#[test]
fn a_put_that_fails_leaves_a_front(rt: HostRuntime) -> Result<(), Fail> {
    expect_put_fails(&rt, &[1], &BUOYS_BODY[..0])?;
    expect_put_fails(&rt, &[2], &BUOYS_BODY[..64])?;
    expect_put_fails(&rt, &[3], &BUOYS_BODY[..128])?;
    let found = ran(&rt, &["answer", "buoys.csv.dods"], out_faults(&[4]))?;
    expect(&rt, found.status, Status::Complete);
    Ok(())
}

/// The outside of a showing of the worked body.
const SHOWN: Outside<'static> = Outside {
    input: BUOYS_BODY,
    ..SURE
};

/// Shows what comes in, without room for a line.
fn show<R: Threads + AllocGlobal + Sync, I: Source, O: Sink>(
    rt: &R,
    input: &mut I,
    out: &mut O,
) -> Result<Status, Memory> {
    let alloc = rt.alloc();
    let mut shelf = SureShelf::new(List::new(alloc));
    let mut err = MemSink::new(alloc, 0, 1, List::new(alloc))?;
    let mut dial = no_dial(alloc)?;
    run_words(rt, &["show"], &mut shelf, input, out, &mut err, &mut dial)
}

/// How often a showing of the worked body takes and puts.
fn calls_of_a_showing<R: Threads + Abort + AllocGlobal + Sync>(rt: &R) -> Result<(u64, u64), Fail> {
    let alloc = rt.alloc();
    let mut input = Counted::new(source(alloc, SHOWN)?);
    let mut out = Counted::new(sink(alloc, SHOWN)?);
    let status = show(rt, &mut input, &mut out)?;
    expect(rt, status, Status::Complete);
    expect(rt, out.inner.bytes(), BUOYS_SHOWN);
    Ok((input.calls, out.calls))
}

/// A showing of the worked body over this outside ends with this fault, and a front of the text.
fn expect_fault<R: Threads + Abort + AllocGlobal + Sync>(
    rt: &R,
    outside: Outside<'_>,
    fault: Status,
) -> Result<(), Fail> {
    let found = ran(rt, &["show"], outside)?;
    expect(rt, found.status, fault);
    assert!(rt; BUOYS_SHOWN.starts_with(found.out.bytes()));
    Ok(())
}

fn expect_take_fault<R: Threads + Abort + AllocGlobal + Sync>(
    rt: &R,
    take_fails: &[u64],
) -> Result<(), Fail> {
    let outside = Outside {
        take_fails,
        ..SHOWN
    };
    expect_fault(rt, outside, Status::ReadFault)
}

fn expect_put_fault<R: Threads + Abort + AllocGlobal + Sync>(
    rt: &R,
    out_fails: &[u64],
) -> Result<(), Fail> {
    let outside = Outside { out_fails, ..SHOWN };
    expect_fault(rt, outside, Status::WriteFault)
}

#[test]
fn each_take_and_each_put_of_a_showing_may_fail(rt: HostRuntime) -> Result<(), Fail> {
    let (takes, puts) = calls_of_a_showing(&rt)?;
    assert!(rt; takes > 3 && puts > 3);
    for n in 1..=takes {
        expect_take_fault(&rt, &[n])?;
    }
    for n in 1..=puts {
        expect_put_fault(&rt, &[n])?;
    }
    Ok(())
}

/// A reader and a writer of which every call fails.
#[derive(Drop)]
struct Broken;

impl Read for Broken {
    fn read(&mut self, _into: &mut [u8]) -> io::Result<usize> {
        Err(io::Error::from(ErrorKind::Other))
    }
}

impl Write for Broken {
    fn write(&mut self, _bytes: &[u8]) -> io::Result<usize> {
        Err(io::Error::from(ErrorKind::Other))
    }

    fn flush(&mut self) -> io::Result<()> {
        Err(io::Error::from(ErrorKind::Other))
    }
}

#[test]
fn a_run_over_broken_streams_is_a_fault(rt: HostRuntime) -> Result<(), Fail> {
    let alloc = rt.alloc();
    let mut shelf = MemShelf::new(files(alloc)?, List::new(alloc));
    let mut input = StdSource::new(Broken);
    let mut out = StdSink::new(Broken);
    let mut err = StdSink::new(Broken);
    let mut dial = no_dial(alloc)?;
    let rows: [(&[&str], Status); 4] = [
        (&["show"], Status::ReadFault),
        (&["answer", "buoys.csv.dods"], Status::WriteFault),
        (&["answer", "none.csv.dods"], Status::WriteFault),
        (&["answer", "buoys.csv.dds"], Status::WriteFault),
    ];
    for (words, status) in rows {
        let ended = run_words(
            &rt, words, &mut shelf, &mut input, &mut out, &mut err, &mut dial,
        )?;
        expect(&rt, ended, status);
    }
    Ok(())
}

// The tests are started with no words, which are no command.
#[test]
fn the_program_ends_with_the_number_of_its_status(rt: HostRuntime) -> Result<(), Fail> {
    let code = ended(&rt, &rt);
    assert_eq!(rt; code, ExitCode::from(2));
    Ok(())
}
