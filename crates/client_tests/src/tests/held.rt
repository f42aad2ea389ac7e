//! Bodies of replies that are read into memory, up to a limit on their bytes.

use crate::tests::cases::TABLE;
use crate::tests::replies::reply_of;
use crate::tests::showing::source;
use dap_client::{BodyOutcome, read_body};
use dap_http::Kind;
use dap_outside::Source;
use std::alloc::Global;
use std::process::Abort;
use std::test::Fail;
use xdr_decode::Bad;

/// What reading is to give.
#[derive(Clone, Copy)]
enum Wanted<'a> {
    Good(&'a [u8]),
    Object(&'a [u8]),
    Wrong(Bad, u64),
    Large,
    Fault,
}

fn is_wanted(outcome: &BodyOutcome, wanted: Wanted) -> bool {
    match (outcome, wanted) {
        (BodyOutcome::Good(body), Wanted::Good(bytes)) => body.bytes() == bytes,
        (BodyOutcome::ServerError(body), Wanted::Object(bytes)) => body.bytes() == bytes,
        (BodyOutcome::Bad(field), Wanted::Wrong(kind, place)) => {
            field.kind == kind && field.place == place
        }
        (BodyOutcome::TooLarge, Wanted::Large) => true,
        (BodyOutcome::ReadFault, Wanted::Fault) => true,
        _ => false,
    }
}

fn read_dods<I: Source>(alloc: Global, source: &mut I, limit: u32) -> BodyOutcome {
    read_body(alloc, source, Kind::Dods, limit)
}

/// Reads the body of a reply to a request for a data response, that comes in pieces of a size.
fn read(
    alloc: Global,
    reply: &[u8],
    piece: u32,
    limit: u32,
    fails: Option<u64>,
) -> Result<BodyOutcome, Fail> {
    let mut source = source(alloc, reply, piece, fails)?;
    Ok(read_dods(alloc, &mut source, limit))
}

/// This is read of a reply in pieces of each of these sizes, within a limit.
fn expect_read<R: Abort>(
    rt: &R,
    alloc: Global,
    reply: &[u8],
    pieces: &[u32],
    limit: u32,
    wanted: Wanted<'_>,
) -> Result<(), Fail> {
    for piece in pieces {
        let outcome = read(alloc, reply, *piece, limit, None)?;
        assert!(rt; is_wanted(&outcome, wanted), "{outcome:?} at {limit}");
    }
    Ok(())
}

#[test]
fn a_body_is_held_up_to_the_limit(rt: HostRuntime) -> Result<(), Fail> {
    let reply = reply_of(rt.alloc(), TABLE)?;
    for (limit, wanted) in [
        (0, Wanted::Large),
        (1, Wanted::Large),
        (137, Wanted::Large),
        (138, Wanted::Good(TABLE)),
        (139, Wanted::Good(TABLE)),
        (4_294_967_295, Wanted::Good(TABLE)),
    ] {
        expect_read(
            &rt,
            rt.alloc(),
            reply.as_slice(),
            &[1, 7, 65536],
            limit,
            wanted,
        )?;
    }
    Ok(())
}

/// Replies, limits, and what is read: objects in place of a body, and what is wrong within the limit or
/// behind it.
const CASES: [(&[u8], u32, Wanted<'static>); 8] = [
    (
        b"HTTP/1.1 404 Not Found\r\nContent-Length: 35\r\n\r\nError { code = 7; message = \"x\"; };",
        35,
        Wanted::Object(b"Error { code = 7; message = \"x\"; };"),
    ),
    (
        b"HTTP/1.1 404 Not Found\r\nContent-Length: 35\r\n\r\nError { code = 7; message = \"x\"; };",
        34,
        Wanted::Large,
    ),
    (
        b"HTTP/1.1 404 Not Found\r\nContent-Length: 36\r\n\r\nError { code = 7; message = \"x\"; };",
        64,
        Wanted::Wrong(Bad::Cut, 35),
    ),
    (
        b"HTTP/1.1 200 OK\r\nContent-Length: 3\r\n\r\n} a",
        1,
        Wanted::Wrong(Bad::BadDds, 0),
    ),
    (
        b"HTTP/1.1 200 OK\r\nContent-Length: 3\r\n\r\n} a",
        0,
        Wanted::Large,
    ),
    (
        b"HTTP/1.1 200 OK\r\nContent-Length: 12\r\n\r\nDataset } a ",
        9,
        Wanted::Wrong(Bad::BadDds, 8),
    ),
    (
        b"HTTP/1.1 200 OK\r\nContent-Length: 12\r\n\r\nDataset } a ",
        8,
        Wanted::Large,
    ),
    (
        b"HTTP/1.1 200 OK\r\nContent-",
        64,
        Wanted::Wrong(Bad::Cut, 0),
    ),
];

#[test]
fn what_is_wrong_within_the_limit_goes_first(rt: HostRuntime) -> Result<(), Fail> {
    for (reply, limit, wanted) in &CASES {
        expect_read(&rt, rt.alloc(), reply, &[1, 65536], *limit, *wanted)?;
    }
    Ok(())
}

#[test]
fn a_held_body_is_cut(rt: HostRuntime) -> Result<(), Fail> {
    let reply = reply_of(rt.alloc(), TABLE)?;
    let cut = &reply.as_slice()[..reply.len().saturating_sub(5)];
    expect_read(
        &rt,
        rt.alloc(),
        cut,
        &[7],
        1000,
        Wanted::Wrong(Bad::Cut, 138),
    )
}

#[test]
fn a_fault_of_the_source_is_told(rt: HostRuntime) -> Result<(), Fail> {
    let reply = reply_of(rt.alloc(), TABLE)?;
    for take in [1, 2, 3] {
        let outcome = read(rt.alloc(), reply.as_slice(), 70, 1000, Some(take))?;
        assert!(rt; is_wanted(&outcome, Wanted::Fault), "{take}: {outcome:?}");
    }
    Ok(())
}
