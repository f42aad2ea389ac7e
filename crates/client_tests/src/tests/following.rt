//! Replies one behind the other; they are worked out by hand.

use crate::tests::cases::{TABLE, TABLE_SHOWN};
use crate::tests::expecting::expect;
use crate::tests::replies::reply_of;
use crate::tests::showing::{Answer, answers, sink, source};
use dap_client::{Outcome, Replies};
use dap_http::Kind;
use dap_outside::{MemSink, MemSource, Sink, Source};
use dap_types::Bytes;
use std::alloc::Global;
use std::process::Abort;
use std::test::Fail;
use xdr_decode::Bad;

const OBJECT: &[u8] =
    b"HTTP/1.1 404 Not Found\r\nContent-Length: 36\r\n\r\nError { code = 7; message = \"x\"; };\n";

const DDS: &[u8] = b"HTTP/1.1 200 OK\r\nContent-Length: 20\r\n\r\nDataset{Byte b;}d;  ";

/// The table, an Error object, the table, then a DDS, which is no data response.
fn input(alloc: Global) -> Result<Bytes, Fail> {
    let mut input = reply_of(alloc, TABLE)?;
    input.extend_from_slice(OBJECT)?;
    input.extend_from_slice(reply_of(alloc, TABLE)?.as_slice())?;
    input.extend_from_slice(DDS)?;
    input.extend_from_slice(reply_of(alloc, TABLE)?.as_slice())?;
    Ok(Bytes::from_vec(input))
}

fn next<I: Source, O: Sink>(replies: &mut Replies, source: &mut I, out: &mut O) -> Outcome {
    replies.next(source, Kind::Dods, out)
}

fn next_dds<I: Source, O: Sink>(replies: &mut Replies, source: &mut I, out: &mut O) -> Outcome {
    replies.next(source, Kind::Dds, out)
}

/// A source of those replies, which come in pieces of a size. That take fails, if any.
fn replying(alloc: Global, piece: u32, fails: Option<u64>) -> Result<MemSource, Fail> {
    let input = input(alloc)?;
    Ok(source(alloc, input.bytes(), piece, fails)?)
}

/// The next reply is this, and so much is put of it.
fn expect_next<R: Abort>(
    rt: &R,
    replies: &mut Replies,
    source: &mut MemSource,
    out: &mut MemSink,
    expected: (Answer, usize),
) {
    let (answer, more) = expected;
    let before = out.bytes().len();
    let outcome = next(replies, source, out);
    assert!(rt; answers(&outcome, answer));
    expect(rt, out.bytes().len().saturating_sub(before), more);
}

/// The replies are these, in pieces of a size.
fn expect_replies<R: Abort>(
    rt: &R,
    alloc: Global,
    piece: u32,
    expected: &[(Answer, usize)],
) -> Result<(), Fail> {
    let mut source = replying(alloc, piece, None)?;
    let mut out = sink(alloc, 65536, None)?;
    let mut replies = Replies::new(alloc)?;
    for told in expected {
        expect_next(rt, &mut replies, &mut source, &mut out, *told);
    }
    Ok(())
}

/// Each begins where the framing before it ended. Behind a bad one the same is answered again, and
/// nothing is put.
#[test]
fn replies_follow_one_another(rt: HostRuntime) -> Result<(), Fail> {
    let expected = [
        (Answer::Shown(138), TABLE_SHOWN.len()),
        (Answer::Object(7, b"x"), 0),
        (Answer::Shown(138), TABLE_SHOWN.len()),
        (Answer::Wrong(Bad::Cut, 20), 0),
        (Answer::Wrong(Bad::Cut, 20), 0),
        (Answer::Wrong(Bad::Cut, 20), 0),
    ];
    for piece in [1, 7, 65536] {
        expect_replies(&rt, rt.alloc(), piece, &expected)?;
    }
    Ok(())
}

/// Whether the outcome is the fault of the call that fails.
fn is_fault(outcome: &Outcome, take: Option<u64>, put: Option<u64>) -> bool {
    match outcome {
        Outcome::ReadFault => take.is_some(),
        Outcome::WriteFault => put.is_some(),
        _ => false,
    }
}

/// The fault of a call stays, and nothing is put.
fn expect_fault<R: Abort>(
    rt: &R,
    alloc: Global,
    take: Option<u64>,
    put: Option<u64>,
) -> Result<(), Fail> {
    let mut source = replying(alloc, 64, take)?;
    let mut out = sink(alloc, 65536, put)?;
    let mut replies = Replies::new(alloc)?;
    for _ in 0..3 {
        assert!(rt; is_fault(&next(&mut replies, &mut source, &mut out), take, put));
        assert!(rt; out.bytes().is_empty());
    }
    Ok(())
}

/// A fault stays, though the source would go on; so does one of the sink.
#[test]
fn a_fault_stays(rt: HostRuntime) -> Result<(), Fail> {
    expect_fault(&rt, rt.alloc(), Some(3), None)?;
    expect_fault(&rt, rt.alloc(), None, Some(1))
}

/// A reply up to the end leaves none behind it.
#[test]
fn the_end_is_cut(rt: HostRuntime) -> Result<(), Fail> {
    let reply = b"HTTP/1.1 200 OK\r\n\r\nDataset{Byte b;}d;\n";
    let mut source = source(rt.alloc(), reply, 7, None)?;
    let mut out = sink(rt.alloc(), 65536, None)?;
    let mut replies = Replies::new(rt.alloc())?;
    for answer in [
        Answer::Shown(19),
        Answer::Wrong(Bad::Cut, 0),
        Answer::Wrong(Bad::Cut, 0),
    ] {
        assert!(rt; answers(&next_dds(&mut replies, &mut source, &mut out), answer));
    }
    expect(
        &rt,
        out.bytes(),
        b"Dataset {\n    Byte b;\n} d;\n".as_slice(),
    );
    Ok(())
}
