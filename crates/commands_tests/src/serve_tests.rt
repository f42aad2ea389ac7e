//! `serve` over links in memory, a link over the real door, and `ver`; the lines and the replies are worked
//! out by hand.

ghost use Rattle.std.specs.Prelude.{◌≡◌, ◌<◌, IfOk, IfSome, Some};
ghost use Rattle.dap_outside.specs.MemLinks.{IsNew};

use crate::expecting::expect;
use crate::relay_tests::gained;
use crate::said::numbers;
use dap_commands::{Status, serve, ver};
use dap_host::{TcpDial, TcpDoor, TcpLink};
use dap_outside::{
    Dial, Door, Link, MemDoor, MemLink, MemShelf, MemSink, Sink, Source, put_all, take_some,
};
use dap_server::{Ending, Served, serve_connection};
use dap_types::{Bytes, List, Memory};
use std::alloc::Global;
use std::cell::Cell;
use std::net::Net;
use std::process::Abort;
use std::test::Fail;
use std::thread::Threads;
use std::time::Clock;

const GET: &[u8] = b"GET /any.ver HTTP/1.1\r\n\r\n";

const CLOSE: &[u8] = b"GET /any.ver HTTP/1.1\r\nConnection: close\r\n\r\n";

const REPLY: &[u8] =
    b"HTTP/1.1 200 OK\r\nXDODS-Server: dap2/1.0\r\nXDAP: 2.0\r\nContent-Description: dods_version\r\nContent-Type: text/plain\r\nContent-Length: 47\r\n\r\nCore version: DAP/2.0\nServer version: dap2/1.0\n";

const LAST_REPLY: &[u8] =
    b"HTTP/1.1 200 OK\r\nXDODS-Server: dap2/1.0\r\nXDAP: 2.0\r\nContent-Description: dods_version\r\nContent-Type: text/plain\r\nContent-Length: 47\r\nConnection: close\r\n\r\nCore version: DAP/2.0\nServer version: dap2/1.0\n";

const LINES: &[u8] = b"connection 1 1 gone\nconnection 2 0 read fault\nconnection 3 1 closed\n";

/// What a run of `serve` wrote, what its links gained, and how it ended.
#[derive(Drop)]
struct Done {
    status: Status,
    out: Bytes,
    gained: List<Bytes>,
}

/// A link that gives this, and whose calls of `take` with these numbers fail.
fn link(alloc: Global, input: Bytes, takes: List<u64>) -> Result<MemLink, Memory>
    ensures { IfOk result IsNew }
{
    MemLink::new(alloc, input, 1_000, 50, takes, List::new(alloc))
}

/// Three links of which the second fails at its first take.
fn door(alloc: Global, fails: &[u64]) -> Result<MemDoor, Memory> {
    let fails = numbers(alloc, fails)?;
    let first_take = numbers(alloc, &[1])?;
    let first = Bytes::new(alloc, GET)?;
    let second = Bytes::new(alloc, GET)?;
    let third = Bytes::new(alloc, CLOSE)?;
    let mut links = List::new(alloc);
    links.push(link(alloc, first, List::new(alloc))?)?;
    links.push(link(alloc, second, first_take)?)?;
    links.push(link(alloc, third, List::new(alloc))?)?;
    MemDoor::new(alloc, links, fails)
}

/// Serves so many links over no files.
fn serve_at<R: Threads + AllocGlobal + Sync>(
    rt: &R,
    requests: u32,
    out: &mut MemSink,
    door: &mut MemDoor,
) -> Status {
    let alloc = rt.alloc();
    let mut shelf = MemShelf::new(List::new(alloc), List::new(alloc));
    serve(rt, alloc, 8080, 2, requests.max(1), &mut shelf, out, door)
}

fn served_over<R: Threads + AllocGlobal + Sync>(
    rt: &R,
    requests: u32,
    door_fails: &[u64],
    out_fails: &[u64],
) -> Result<Done, Memory> {
    let alloc = rt.alloc();
    let mut out = MemSink::new(alloc, 1_000, 1_000, numbers(alloc, out_fails)?)?;
    let mut door = door(alloc, door_fails)?;
    let status = serve_at(rt, requests, &mut out, &mut door);
    let gained = gained(alloc, &door)?;
    let out = Bytes::new(alloc, out.bytes())?;
    Ok(Done {
        status,
        out,
        gained,
    })
}

/// The first and the third link got their replies.
fn expect_gained<R: Abort>(rt: &R, gained: &[Bytes]) {
    let [first, second, third] = gained else {
        panic!(rt; "not three links");
    };
    expect(rt, first.bytes(), REPLY);
    expect(rt, second.bytes(), b"".as_slice());
    expect(rt, third.bytes(), LAST_REPLY);
}

#[test]
fn each_link_is_served_and_handed_back(rt: HostRuntime) -> Result<(), Fail> {
    let found = served_over(&rt, 3, &[], &[])?;
    expect(&rt, found.status, Status::Complete);
    expect(&rt, found.out.bytes(), LINES);
    expect_gained(&rt, found.gained.items());
    Ok(())
}

/// Where these calls of the door and of the output fail, the run ends so, behind so many links and these lines.
fn expect_fault<R: Threads + Abort + AllocGlobal + Sync>(
    rt: &R,
    requests: u32,
    fails: (&[u64], &[u64]),
    status: Status,
    left: (usize, &[u8]),
) -> Result<(), Fail> {
    let (door_fails, out_fails) = fails;
    let (back, lines) = left;
    let found = served_over(rt, requests, door_fails, out_fails)?;
    expect(rt, found.status, status);
    expect(rt, found.gained.items().len(), back);
    expect(rt, found.out.bytes(), lines);
    Ok(())
}

/// The links that came back, and the lines, where the door or the output fails.
#[test]
fn a_door_that_fails_ends_it(rt: HostRuntime) -> Result<(), Fail> {
    expect_fault(&rt, 3, (&[1], &[]), Status::LinkFault, (0, b""))?;
    expect_fault(&rt, 3, (&[2], &[]), Status::LinkFault, (0, b""))?;
    expect_fault(&rt, 3, (&[3], &[]), Status::LinkFault, (1, &LINES[..20]))?;
    expect_fault(&rt, 4, (&[], &[]), Status::LinkFault, (3, LINES))?;
    expect_fault(&rt, 3, (&[], &[1]), Status::WriteFault, (1, b""))
}

/// What is put where there is room for so many bytes.
fn expect_version<R: Abort>(
    rt: &R,
    alloc: Global,
    room: u32,
    status: Status,
    text: &[u8],
) -> Result<(), Fail> {
    let mut out = MemSink::new(alloc, room, 5, List::new(alloc))?;
    let ended = ver(&mut out);
    expect(rt, ended, status);
    expect(rt, out.bytes(), text);
    Ok(())
}

#[test]
fn the_version_is_put(rt: HostRuntime) -> Result<(), Fail> {
    let text = b"Core version: DAP/2.0\nServer version: dap2/1.0\n";
    expect_version(&rt, rt.alloc(), 100, Status::Complete, text)?;
    expect_version(&rt, rt.alloc(), 10, Status::WriteFault, b"Core versi")
}

/// Lets the door listen at some free port.
fn port_of<D: Door>(door: &mut D) -> Option<u16>
    ensures { IfSome result (λ port. D.listens_at door.new ≡ Some port) }
{
    for port in 20_000..20_200u16 {
        if door.listen(port).is_ok() {
            return Some(port);
        }
    }
    None
}

/// A peer that is connected to the door at some free port, and the door's link to it.
fn joined<'a, N: Net + Clock>(
    dial: &mut TcpDial<'a, N>,
    door: &mut TcpDoor<'a, N>,
) -> Result<(TcpLink<N::Stream, &'a N>, TcpLink<N::Stream, &'a N>), Fail> {
    let Some(port) = port_of(door) else {
        return Err(Fail::from("no port"));
    };
    let Ok(peer) = dial.connect("127.0.0.1", port) else {
        return Err(Fail::from("not connected"));
    };
    let Ok(link) = door.accept() else {
        return Err(Fail::from("not accepted"));
    };
    Ok((peer, link))
}

fn send<O: Sink>(out: &mut O, bytes: &[u8]) -> Result<(), Fail> {
    match put_all(out, bytes) {
        Ok(()) => Ok(()),
        Err(_) => Err(Fail::from("not sent")),
    }
}

/// Serves the link over no files.
fn serve_link<R: Threads + Sync, L: Link>(rt: &R, alloc: Global, link: &mut L) -> Served {
    let mut shelf = MemShelf::new(List::new(alloc), List::new(alloc));
    serve_connection(rt, alloc, &mut shelf, link, 1)
}

/// What comes of at most 1,000 bytes.
fn taken<I: Source>(alloc: Global, source: &mut I) -> Result<Bytes, Fail> {
    let mut bytes = [0u8; 1000];
    let Ok(count) = take_some(source, &mut bytes) else {
        return Err(Fail::from("no reply"));
    };
    Ok(Bytes::new(alloc, &bytes[..count])?)
}

/// How a link over the real door is served whose peer sends this, and the reply that the peer gets.
fn served_over_the_door<R: Threads + Net + Clock + AllocGlobal + Sync>(
    rt: &R,
    request: &[u8],
) -> Result<(Served, Bytes), Fail> {
    let alloc = rt.alloc();
    let (here, there) = (Cell::new(None), Cell::new(None));
    let mut door = TcpDoor::new(rt, &here);
    let mut dial = TcpDial::new(rt, &there);
    let (mut peer, mut link) = joined(&mut dial, &mut door)?;
    send(&mut peer, request)?;
    let served = serve_link(rt, alloc, &mut link);
    door.done(link);
    let reply = taken(alloc, &mut peer)?;
    dial.done(peer);
    Ok((served, reply))
}

#[test]
fn a_request_over_the_real_door(rt: HostRuntime) -> Result<(), Fail> {
    let (served, reply) = served_over_the_door(&rt, CLOSE)?;
    expect(&rt, reply.bytes(), LAST_REPLY);
    expect(&rt, served.replies, 1);
    expect(&rt, served.ending, Ending::Closed);
    Ok(())
}

// It takes the 2 seconds for which a peer may be silent.
#[test]
fn a_silent_peer_is_a_fault_of_its_link(rt: HostRuntime) -> Result<(), Fail> {
    let (served, reply) = served_over_the_door(&rt, &GET[..9])?;
    expect(&rt, reply.bytes(), b"".as_slice());
    expect(&rt, served.replies, 0);
    expect(&rt, served.ending, Ending::ReadFault);
    Ok(())
}
