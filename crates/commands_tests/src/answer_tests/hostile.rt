//! Connections of which each call of the shelf fails in turn.

use super::each_call::files_or;
use super::samples::{bytes_of, coads};
use super::texts::{EACH_SECOND, answer_of, coads_body};
use crate::counted::Counted;
use crate::expecting::expect;
use crate::said::numbers;
use dap_outside::{MemLink, MemShelf, Shelf};
use dap_server::{Ending, Served, serve_connection};
use dap_types::{Bytes, List, Memory};
use std::alloc::Global;
use std::process::Abort;
use std::test::Fail;
use std::thread::Threads;

const HEAD: &[u8] =
    b"HTTP/1.1 200 OK\r\nXDODS-Server: dap2/1.0\r\nXDAP: 2.0\r\nContent-Description: dods_data\r\nContent-Type: application/octet-stream\r\nTransfer-Encoding: chunked\r\n\r\n";

const READ_FAILED: &[u8] =
    b"HTTP/1.1 500 Internal Server Error\r\nXDODS-Server: dap2/1.0\r\nXDAP: 2.0\r\nContent-Description: dods_error\r\nContent-Type: text/plain\r\nContent-Length: 55\r\n\r\nError {\n    code = 20;\n    message = \"read failed\";\n};\n";

const GET_PART: &[u8] = b"GET /v.nc.dods?v%5B0:2:2%5D%5B1:3%5D HTTP/1.1\r\nHost: x\r\n\r\n";

const GET_COADS: &[u8] =
    b"GET /coads.nc.dods?SST%5B0:11%5D%5B40:50%5D%5B0:2:179%5D HTTP/1.1\r\nHost: x\r\n\r\n";

/// The reply that brings a body in one chunk, of which this is the line.
fn reply_of(alloc: Global, line: &[u8], body: &[u8]) -> Result<Vec<u8>, Memory> {
    let mut reply = Vec::from_slice(alloc, HEAD)?;
    reply.extend_from_slice(line)?;
    reply.extend_from_slice(body)?;
    reply.extend_from_slice(b"\r\n0\r\n\r\n")?;
    Ok(reply)
}

/// How a connection was served, what was written, and how often the shelf was called.
#[derive(Drop)]
struct Done {
    served: Served,
    written: Bytes,
    calls: u64,
}

fn link(alloc: Global, input: &[u8]) -> Result<MemLink, Memory> {
    let input = Bytes::new(alloc, input)?;
    let none = List::new(alloc);
    MemLink::new(alloc, input, 100_000, 65_536, none, List::new(alloc))
}

fn serve<R: Threads + Sync, S: Shelf>(
    rt: &R,
    alloc: Global,
    shelf: &mut S,
    link: &mut MemLink,
) -> Served {
    serve_connection(rt, alloc, shelf, link, 7)
}

/// Serves a connection over a shelf whose calls with these numbers fail.
fn served_over<R: Threads + AllocGlobal + Sync>(
    rt: &R,
    grid: &[u8],
    input: &[u8],
    fails: &[u64],
) -> Result<Done, Memory> {
    let alloc = rt.alloc();
    let fails = numbers(alloc, fails)?;
    let mut shelf = Counted::new(MemShelf::new(files_or(alloc, grid)?, fails));
    let mut link = link(alloc, input)?;
    let served = serve(rt, alloc, &mut shelf, &mut link);
    let written = Bytes::new(alloc, link.written())?;
    Ok(Done {
        served,
        written,
        calls: shelf.calls,
    })
}

fn expect_ending<R: Abort>(rt: &R, found: &Done, replies: u32, ending: Ending) {
    expect(
        rt,
        (found.served.replies, found.served.ending),
        (replies, ending),
    );
}

/// The reply tells a failed read.
fn expect_told<R: Abort>(rt: &R, found: &Done) {
    expect(rt, found.written.bytes(), READ_FAILED);
    expect_ending(rt, found, 1, Ending::Gone);
}

/// A front of the whole reply is written, and no reply is counted.
fn expect_broken_off<R: Abort>(rt: &R, found: &Done, whole: &[u8]) {
    let written = found.written.bytes();
    assert!(rt; whole.starts_with(written) && written.len() < whole.len());
    expect_ending(rt, found, 0, Ending::Broken);
}

/// The first two calls that fail are told by the reply; each later one breaks it off.
fn expect_failed_reads<R: Threads + Abort + AllocGlobal + Sync>(
    rt: &R,
    grid: &[u8],
    input: &[u8],
    whole: &[u8],
) -> Result<(), Fail> {
    let sure = served_over(rt, grid, input, &[])?;
    expect(rt, sure.written.bytes(), whole);
    assert!(rt; sure.calls > 2);
    for n in 1..=sure.calls {
        let found = served_over(rt, grid, input, &[n])?;
        if n < 3 {
            expect_told(rt, &found);
        } else {
            expect_broken_off(rt, &found, whole);
        }
    }
    Ok(())
}

#[test]
fn each_read_for_a_reply_may_fail(rt: HostRuntime) -> Result<(), Fail> {
    let alloc = rt.alloc();
    let part = answer_of(alloc, EACH_SECOND)?;
    expect_failed_reads(&rt, b"", GET_PART, &reply_of(alloc, b"53\r\n", &part)?)
}

#[test]
fn each_read_for_a_long_reply_may_fail(rt: HostRuntime) -> Result<(), Fail> {
    let alloc = rt.alloc();
    let whole = reply_of(alloc, b"be38\r\n", &coads_body(alloc)?)?;
    expect_failed_reads(&rt, &coads(alloc)?, GET_COADS, &whole)
}
