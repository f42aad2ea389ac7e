//! Reads and puts that fail, each in turn, and the call after one; and two workers at once.

ghost use Rattle.std.specs.Prelude.{◌≡◌, ◌≤◌, ℕ, IfOk, length};
ghost use Rattle.xdr_encode.specs.Bodies.{FitsFile};

use crate::testing::{
    append_many, cdf_body, expect_xdr, file_of, files_of, header_of, put_of, rows_body,
};
use dap_outside::{MemShelf, MemSink, Shelf};
use dap_types::{List, Memory};
use slab_fill::NoGate;
use std::alloc::Global;
use std::process::Abort;
use std::test::Fail;
use std::thread::Threads;
use worker_gates::Meeting;
use xdr_encode::{Body, Streamed};

/// Int32 `v[y = 3]`, and texts `c[k = 2]` of 4 chars.
const F: [u32; 41] = [
    0x43444601, 0, 0x0a, 3, 1, 0x6b000000, 2, 1, 0x77000000, 4, 1, 0x79000000, 3, 0, 0, 0x0b, 2, 1,
    0x76000000, 1, 2, 0, 0, 4, 12, 0x90, 1, 0x63000000, 2, 0, 1, 0, 0, 2, 8, 0x9c, 0x01020304, 5,
    0x00070000, 0x61620000, 0x7778797a,
];

fn only(alloc: Global, number: u64) -> Result<List<u64>, Memory> {
    let mut numbers = List::new(alloc);
    numbers.push(number)?;
    Ok(numbers)
}

/// The answer where one call of the shelf and one of the sink fail, none where their number is 0, and
/// what the sink got.
fn put_failing<R: Threads + Abort + Sync>(
    rt: &R,
    alloc: Global,
    bytes: &[u8],
    body: &mut Body,
    call: u64,
    put: u64,
) -> Result<(Streamed, MemSink), Fail>
    requires fits { FitsFile body.old (length bytes.now) }
    ensures fits { IfOk result (λ r. FitsFile body.new (length bytes.now)) }
{
    let mut shelf = MemShelf::new(files_of(alloc, bytes)?, only(alloc, call)?);
    let Ok(Some(mut file)) = shelf.find("f") else {
        panic!(rt; "no file");
    };
    assert!(rt; shelf.size(&file) == bytes.len() as u64);
    let mut out = MemSink::new(alloc, 1000, 7, only(alloc, put)?)?;
    let answer = body.stream(rt, &mut shelf, &mut file, &mut out, 2, &NoGate);
    Ok((answer, out))
}

/// Whether it is a front of the text, and not all of it.
fn is_front(text: &[u8], front: &[u8]) -> bool {
    front.len() < text.len() && text.starts_with(front)
}

/// Each put of the body fails in turn, and behind each the body goes out whole.
fn expect_write_faults<R: Threads + Abort + Sync>(
    rt: &R,
    alloc: Global,
    bytes: &[u8],
    body: &mut Body,
    puts: u32,
) -> Result<(), Fail>
    requires fits { FitsFile body.old (length bytes.now) }
{
    let puts = u64::from(puts);
    let (answer, whole) = put_failing(rt, alloc, bytes, body, 0, 0)?;
    assert!(rt; answer == Streamed::Sent);
    for put in 1..puts + 1 {
        let (answer, front) = put_failing(rt, alloc, bytes, body, 0, put)?;
        assert!(rt; answer == Streamed::WriteFault);
        assert!(rt; is_front(whole.bytes(), front.bytes()));
        let (again, all) = put_failing(rt, alloc, bytes, body, 0, 0)?;
        assert!(rt; again == Streamed::Sent);
        assert_eq!(rt; all.bytes(), whole.bytes());
    }
    let (answer, _all) = put_failing(rt, alloc, bytes, body, 0, puts + 1)?;
    assert!(rt; answer == Streamed::Sent);
    Ok(())
}

#[test]
fn puts_fail(rt: HostRuntime) -> Result<(), Fail> {
    let alloc = rt.alloc();
    let file = file_of(alloc, &F, b"")?;
    let mut body = cdf_body(&rt, alloc, &file, b"f.nc", b"")?;
    expect_write_faults(&rt, alloc, &file, &mut body, 18)?;
    let text = b"station,depth:Int32\nA1,5\nB22,-7\n";
    let mut rows = rows_body(&rt, alloc, text, b"k.csv", b"", &[true, true])?;
    expect_write_faults(&rt, alloc, b"", &mut rows, 19)
}

/// One call of the shelf fails behind so many bytes, and behind it the body goes out whole.
fn expect_read_fault<R: Threads + Abort + Sync>(
    rt: &R,
    alloc: Global,
    bytes: &[u8],
    body: &mut Body,
    call: u64,
    put: usize,
) -> Result<(), Fail>
    requires fits { FitsFile body.old (length bytes.now) }
    ensures fits { IfOk result (λ r. FitsFile body.new (length bytes.now)) }
{
    let (answer, front) = put_failing(rt, alloc, bytes, body, call, 0)?;
    assert!(rt; answer == Streamed::ShelfFault);
    assert_eq!(rt; front.bytes().len(), put);
    let (again, _all) = put_failing(rt, alloc, bytes, body, 4, 0)?;
    assert!(rt; again == Streamed::Sent);
    Ok(())
}

/// Each read fails in turn. The call that finds the file is the first.
#[test]
fn reads_fail(rt: HostRuntime) -> Result<(), Fail> {
    let alloc = rt.alloc();
    let file = file_of(alloc, &F, b"")?;
    let mut body = cdf_body(&rt, alloc, &file, b"f.nc", b"")?;
    let head = body.dds().len() + 6;
    expect_read_fault(&rt, alloc, &file, &mut body, 2, head + 8)?;
    expect_read_fault(&rt, alloc, &file, &mut body, 3, head + 24)
}

/// Nothing is read before what stands before the values was put.
#[test]
fn first_put_fails(rt: HostRuntime) -> Result<(), Fail> {
    let alloc = rt.alloc();
    let file = file_of(alloc, &F, b"")?;
    let mut body = cdf_body(&rt, alloc, &file, b"f.nc", b"")?;
    let (answer, none) = put_failing(&rt, alloc, &file, &mut body, 2, 1)?;
    assert!(rt; answer == Streamed::WriteFault);
    assert!(rt; none.bytes().is_empty());
    Ok(())
}

/// Of a long variable one element takes one read: the call that finds the file is the first, and the third
/// would fail.
#[test]
fn one_element_takes_one_read(rt: HostRuntime) -> Result<(), Fail> {
    let alloc = rt.alloc();
    let mut file = header_of(alloc, 1, &[200000, 0, 0, 0, 0, 0], 4)?;
    append_many(&mut file, 800000, 7)?;
    let mut body = cdf_body(&rt, alloc, &file, b"f.nc", b"v[199999]")?;
    let (answer, put) = put_failing(&rt, alloc, &file, &mut body, 3, 0)?;
    assert!(rt; answer == Streamed::Sent);
    expect_xdr(
        &rt,
        &body,
        put.bytes(),
        b"\0\0\0\x01\0\0\0\x01\x07\x07\x07\x07",
    );
    Ok(())
}

/// The machine has to give the process a second thread.
#[test]
fn two_workers_meet(rt: HostRuntime) -> Result<(), Fail> {
    let alloc = rt.alloc();
    let file = file_of(alloc, &F, b"")?;
    let mut met = false;
    for _ in 0..8 {
        if !met {
            let gate = Meeting::new();
            let mut body = cdf_body(&rt, alloc, &file, b"f.nc", b"v")?;
            let out = put_of(&rt, alloc, &file, &mut body, 65536, 2, &gate)?;
            assert!(rt; out.bytes().len() == body.dds().len() + 26);
            met = gate.both_met();
        }
    }
    assert!(rt; met, "two workers met");
    Ok(())
}
