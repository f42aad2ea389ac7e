//! `relay` by its words, over links in memory; the lines are worked out by hand.

use crate::expecting::expect;
use crate::linked::link;
use crate::said::{Said, expect_out, finished, named, numbers};
use dap_commands::{Status, run};
use dap_outside::{MemDial, MemDoor, MemSink, SureShelf, SureSource};
use dap_types::{Bytes, List, Memory};
use std::alloc::Global;
use std::process::Abort;
use std::test::Fail;
use std::thread::Threads;

/// The reply of a server to a request for the buoys: 138 bytes in one chunk.
const BUOYS: &[u8] =
    b"HTTP/1.1 200 OK\r\nXDODS-Server: dap2/1.0\r\nXDAP: 2.0\r\nContent-Description: dods_data\r\nContent-Type: application/octet-stream\r\nTransfer-Encoding: chunked\r\nConnection: close\r\n\r\n8a\r\nDataset {\n    Sequence {\n        String station;\n        Int32 depth;\n    } buoys;\n} buoys.csv;\nData:\n\x5a\0\0\0\0\0\0\x02A1\0\0\0\0\0\x05\x5a\0\0\0\0\0\0\x03B22\0\xff\xff\xff\xf9\xa5\0\0\0\r\n0\r\n\r\n";

const GET_BUOYS: &[u8] = b"GET /buoys.csv.dods HTTP/1.1\r\n\r\n";

const GET_V: &[u8] = b"GET /v.nc.dods HTTP/1.1\r\n\r\n";

/// The end of the reply for the other server's.
const UPSTREAM_FAULT: &[u8] = b"code = 23;\n    message = \"upstream fault\";\n};\n";

const LINES: &[u8] = b"connection 1 200 miss\nconnection 2 200 hit\nconnection 3 502 miss\n";

/// How a run ended, its lines, what its links gained, and how many links came back to the dial.
#[derive(Drop)]
struct Done {
    said: Said,
    gained: List<Bytes>,
    asked: usize,
}

/// Three clients, of which the first two ask for the same.
fn door(alloc: Global, fails: &[u64]) -> Result<MemDoor, Memory> {
    let fails = numbers(alloc, fails)?;
    let first = Bytes::new(alloc, GET_BUOYS)?;
    let second = Bytes::new(alloc, GET_BUOYS)?;
    let third = Bytes::new(alloc, GET_V)?;
    let mut links = List::new(alloc);
    links.push(link(alloc, first, 50)?)?;
    links.push(link(alloc, second, 50)?)?;
    links.push(link(alloc, third, 50)?)?;
    MemDoor::new(alloc, links, fails)
}

/// A server that gives one reply.
fn dial(alloc: Global) -> Result<MemDial, Memory> {
    let reply = Bytes::new(alloc, BUOYS)?;
    let mut links = List::new(alloc);
    links.push(link(alloc, reply, 50)?)?;
    MemDial::new(alloc, links, List::new(alloc))
}

/// Runs the words over no files.
fn run_over<R: Threads + AllocGlobal + Sync>(
    rt: &R,
    words: &[&str],
    out: &mut MemSink,
    err: &mut MemSink,
    door: &mut MemDoor,
    dial: &mut MemDial,
) -> Result<Status, Memory> {
    let alloc = rt.alloc();
    let words = named(alloc, words)?;
    let mut shelf = SureShelf::new(List::new(alloc));
    let mut input = SureSource::new(Bytes::new(alloc, b"")?, 7);
    let status = run(
        rt,
        alloc,
        words.items(),
        &mut shelf,
        &mut input,
        out,
        err,
        door,
        dial,
    );
    Ok(status)
}

/// What the links gained that came back to the door.
pub fn gained(alloc: Global, door: &MemDoor) -> Result<List<Bytes>, Memory> {
    let mut gained = List::new(alloc);
    for link in door.back() {
        gained.push(Bytes::new(alloc, link.written())?)?;
    }
    Ok(gained)
}

fn sink(alloc: Global, fails: &[u64]) -> Result<MemSink, Memory> {
    MemSink::new(alloc, 1_000, 1_000, numbers(alloc, fails)?)
}

/// What three clients get of that server, where these calls of the door and of the output fail.
fn relayed<R: Threads + AllocGlobal + Sync>(
    rt: &R,
    words: &[&str],
    door_fails: &[u64],
    out_fails: &[u64],
) -> Result<Done, Memory> {
    let alloc = rt.alloc();
    let mut out = sink(alloc, out_fails)?;
    let mut err = sink(alloc, &[])?;
    let mut door = door(alloc, door_fails)?;
    let mut dial = dial(alloc)?;
    let status = run_over(rt, words, &mut out, &mut err, &mut door, &mut dial)?;
    let said = finished(alloc, status, &out, &err)?;
    let gained = gained(alloc, &door)?;
    let asked = dial.back().len();
    Ok(Done {
        said,
        gained,
        asked,
    })
}

const WORDS: &[&str] = &["relay", "up.example", "8080", "8090", "4", "3"];

/// The first two clients got the reply, and the third an Error object.
fn expect_gained<R: Abort>(rt: &R, gained: &[Bytes]) {
    let [first, second, third] = gained else {
        panic!(rt; "not three links");
    };
    expect(rt, first.bytes(), BUOYS);
    expect(rt, second.bytes(), BUOYS);
    assert!(rt; third.bytes().ends_with(UPSTREAM_FAULT));
}

#[test]
fn each_link_is_relayed_and_handed_back(rt: HostRuntime) -> Result<(), Fail> {
    let done = relayed(&rt, WORDS, &[], &[])?;
    expect_out(&rt, &done.said, Status::Complete, LINES);
    expect(&rt, done.asked, 1);
    expect_gained(&rt, done.gained.items());
    Ok(())
}

/// Where these calls of the door and of the output fail, the run ends so, behind so many links.
fn expect_fault<R: Threads + Abort + AllocGlobal + Sync>(
    rt: &R,
    fails: (&[u64], &[u64]),
    status: Status,
    back: usize,
    line: &[u8],
) -> Result<(), Fail> {
    let (door_fails, out_fails) = fails;
    let done = relayed(rt, WORDS, door_fails, out_fails)?;
    expect(rt, done.said.status, status);
    expect(rt, done.said.err.bytes(), line);
    expect(rt, done.gained.items().len(), back);
    Ok(())
}

/// The lines, where the port, a link that was to come, or the output fails.
#[test]
fn a_door_or_an_output_that_fails_ends_it(rt: HostRuntime) -> Result<(), Fail> {
    expect_fault(
        &rt,
        (&[1], &[]),
        Status::LinkFault,
        0,
        b"dap2: link fault\n",
    )?;
    expect_fault(
        &rt,
        (&[3], &[]),
        Status::LinkFault,
        1,
        b"dap2: link fault\n",
    )?;
    expect_fault(
        &rt,
        (&[], &[1]),
        Status::WriteFault,
        1,
        b"dap2: write fault\n",
    )
}
