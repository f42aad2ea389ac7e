ghost use Rattle.std.specs.Prelude.{◌<◌, length};

use crate::tests::counted::{Counted, sink};
use crate::tests::expecting::expect;
use dap_http::{Framer, put_framed};
use dap_outside::{Failed, MemSink, Sink, put_all};
use dap_types::Memory;
use std::alloc::Global;
use std::process::Abort;
use std::test::Fail;

/// What goes out before a body.
const HEAD: &[u8] = b"HTTP/1.1 200 OK\r\n\r\n";

/// Puts a body and its end.
fn put_whole<O: Sink>(framer: Framer, out: &mut O, body: &[u8]) -> Result<(), Failed> {
    let mut framing = framer.over(out);
    put_all(&mut framing, body)?;
    framing.end()
}

/// Puts a body, which has to go well, and breaks it off.
fn put_broken<R: Abort, O: Sink>(
    rt: &R,
    framer: Framer,
    out: &mut O,
    body: &[u8],
) -> Result<(), Failed> {
    let mut framing = framer.over(out);
    assert!(rt; put_all(&mut framing, body).is_ok());
    framing.break_off()
}

/// Puts a body in one call.
fn put_at_once<O: Sink>(framer: Framer, out: &mut O, body: &[u8]) -> Result<(), Failed> {
    put_framed(framer, out, body)
}

/// A body is put so.
fn expect_framed<R: Abort>(
    rt: &R,
    alloc: Global,
    chunked: bool,
    body: &[u8],
    wanted: &[u8],
) -> Result<(), Fail> {
    let mut out = sink(alloc, 3, 0)?;
    let framer = Framer::new(alloc, chunked)?;
    expect(rt, put_whole(framer, &mut out, body), Ok(()));
    expect(rt, out.inner.bytes(), wanted);
    Ok(())
}

#[test]
fn short_bodies_are_one_chunk_or_none(rt: HostRuntime) -> Result<(), Fail> {
    let rows: [(bool, &[u8], &[u8]); 5] = [
        (true, b"", b"0\r\n\r\n"),
        (true, b"a", b"1\r\na\r\n0\r\n\r\n"),
        (
            true,
            b"0123456789abcdef0123456789",
            b"1a\r\n0123456789abcdef0123456789\r\n0\r\n\r\n",
        ),
        (false, b"", b""),
        (false, b"abc", b"abc"),
    ];
    for (chunked, body, wanted) in rows {
        expect_framed(&rt, rt.alloc(), chunked, body, wanted)?;
    }
    Ok(())
}

/// A body is put so behind a front, in one put.
fn expect_behind<R: Abort>(
    rt: &R,
    alloc: Global,
    chunked: bool,
    front: &[u8],
    body: &[u8],
    wanted: &[u8],
) -> Result<(), Fail> {
    let mut out = sink(alloc, 1_000_000, 0)?;
    let framer = Framer::behind(alloc, chunked, front)?;
    expect(rt, put_at_once(framer, &mut out, body), Ok(()));
    expect(rt, out.inner.bytes(), wanted);
    expect(rt, out.calls, 1);
    Ok(())
}

#[test]
fn a_short_body_goes_out_with_its_front(rt: HostRuntime) -> Result<(), Fail> {
    let rows: [(bool, &[u8], &[u8], &[u8]); 6] = [
        (true, HEAD, b"", b"HTTP/1.1 200 OK\r\n\r\n0\r\n\r\n"),
        (
            true,
            HEAD,
            b"0123456789abcdef0123456789",
            b"HTTP/1.1 200 OK\r\n\r\n1a\r\n0123456789abcdef0123456789\r\n0\r\n\r\n",
        ),
        (true, b"x", b"a", b"x1\r\na\r\n0\r\n\r\n"),
        (true, b"", b"a", b"1\r\na\r\n0\r\n\r\n"),
        (false, HEAD, b"", b"HTTP/1.1 200 OK\r\n\r\n"),
        (false, HEAD, b"abc", b"HTTP/1.1 200 OK\r\n\r\nabc"),
    ];
    for (chunked, front, body, wanted) in rows {
        expect_behind(&rt, rt.alloc(), chunked, front, body, wanted)?;
    }
    Ok(())
}

/// So many bytes.
fn bytes(alloc: Global, count: usize) -> Result<Vec<u8>, Memory> {
    let mut body = Vec::new(alloc);
    body.resize(count, b'a')?;
    Ok(body)
}

/// So many bytes were put in so many puts, with this front and this end.
fn expect_put<R: Abort>(
    rt: &R,
    out: &Counted<MemSink>,
    front: &[u8],
    end: &[u8],
    wanted: (usize, u64),
) {
    let put = out.inner.bytes();
    assert!(rt; put.starts_with(front));
    assert!(rt; put.ends_with(end));
    expect(rt, (put.len(), out.calls), wanted);
}

/// A body of so many bytes is put as so many bytes in so many puts, with this front and this end.
fn expect_cut<R: Abort>(
    rt: &R,
    alloc: Global,
    framer: Framer,
    count: usize,
    front: &[u8],
    end: &[u8],
    wanted: (usize, u64),
) -> Result<(), Fail> {
    let body = bytes(alloc, count)?;
    let mut out = sink(alloc, 1_000_000, 0)?;
    expect(rt, put_whole(framer, &mut out, body.as_slice()), Ok(()));
    expect_put(rt, &out, front, end, wanted);
    Ok(())
}

/// Each whole chunk is one put, and the last one that is not whole goes out with the end of the body.
#[test]
fn long_bodies_are_cut_at_65_536(rt: HostRuntime) -> Result<(), Fail> {
    let rows: [(usize, &[u8], &[u8], (usize, u64)); 4] = [
        (65_535, b"ffff\r\na", b"a\r\n0\r\n\r\n", (65_548, 1)),
        (65_536, b"10000\r\na", b"a\r\n0\r\n\r\n", (65_550, 2)),
        (
            65_537,
            b"10000\r\na",
            b"a\r\n1\r\na\r\n0\r\n\r\n",
            (65_556, 2),
        ),
        (131_072, b"10000\r\na", b"a\r\n0\r\n\r\n", (131_095, 3)),
    ];
    for (count, front, end, wanted) in rows {
        let framer = Framer::new(rt.alloc(), true)?;
        expect_cut(&rt, rt.alloc(), framer, count, front, end, wanted)?;
    }
    Ok(())
}

/// The front, of 19 bytes, goes out in one put with the first 65,536 bytes of the body.
#[test]
fn a_front_takes_no_room_of_the_body(rt: HostRuntime) -> Result<(), Fail> {
    let chunks: [(usize, &[u8], &[u8], (usize, u64)); 3] = [
        (
            65_535,
            b"HTTP/1.1 200 OK\r\n\r\nffff\r\na",
            b"a\r\n0\r\n\r\n",
            (65_567, 1),
        ),
        (
            65_536,
            b"HTTP/1.1 200 OK\r\n\r\n10000\r\na",
            b"a\r\n0\r\n\r\n",
            (65_569, 2),
        ),
        (
            65_537,
            b"HTTP/1.1 200 OK\r\n\r\n10000\r\na",
            b"a\r\n1\r\na\r\n0\r\n\r\n",
            (65_575, 2),
        ),
    ];
    for (count, front, end, wanted) in chunks {
        let framer = Framer::behind(rt.alloc(), true, HEAD)?;
        expect_cut(&rt, rt.alloc(), framer, count, front, end, wanted)?;
    }
    Ok(())
}

/// So it does where the body is sent as it is.
#[test]
fn a_front_takes_no_room_of_a_plain_body(rt: HostRuntime) -> Result<(), Fail> {
    let plain: [(usize, (usize, u64)); 3] = [
        (65_535, (65_554, 1)),
        (65_536, (65_555, 1)),
        (65_537, (65_556, 2)),
    ];
    for (count, wanted) in plain {
        let framer = Framer::behind(rt.alloc(), false, HEAD)?;
        let front = b"HTTP/1.1 200 OK\r\n\r\na";
        expect_cut(&rt, rt.alloc(), framer, count, front, b"aa", wanted)?;
    }
    Ok(())
}

/// A body that is broken off behind so many bytes is put with this end, as so many bytes in so many puts.
fn expect_broken<R: Abort>(
    rt: &R,
    alloc: Global,
    framer: Framer,
    count: usize,
    end: &[u8],
    wanted: (usize, u64),
) -> Result<(), Fail> {
    let body = bytes(alloc, count)?;
    let mut out = sink(alloc, 1_000_000, 0)?;
    expect(
        rt,
        put_broken(rt, framer, &mut out, body.as_slice()),
        Ok(()),
    );
    expect_put(rt, &out, b"", end, wanted);
    Ok(())
}

/// Of a chunk that is not whole nothing goes out, nor does the last chunk; of a body that is sent as it is all does.
#[test]
fn a_broken_body_is_its_whole_chunks(rt: HostRuntime) -> Result<(), Fail> {
    let rows: [(bool, &[u8], usize, &[u8], (usize, u64)); 10] = [
        (true, HEAD, 0, HEAD, (19, 1)),
        (true, HEAD, 3, HEAD, (19, 1)),
        (true, HEAD, 65_535, HEAD, (19, 1)),
        (true, HEAD, 65_536, b"a\r\n", (65_564, 1)),
        (true, HEAD, 65_537, b"a\r\n", (65_564, 1)),
        (true, b"", 3, b"", (0, 0)),
        (true, b"", 131_072, b"a\r\n", (131_090, 2)),
        (false, HEAD, 0, HEAD, (19, 1)),
        (false, HEAD, 3, b"\r\n\r\naaa", (22, 1)),
        (false, HEAD, 65_537, b"aa", (65_556, 2)),
    ];
    for (chunked, front, count, end, wanted) in rows {
        let framer = Framer::behind(rt.alloc(), chunked, front)?;
        expect_broken(&rt, rt.alloc(), framer, count, end, wanted)?;
    }
    Ok(())
}

/// A put that fails then is told, and what was put is a front.
#[test]
fn a_body_may_fail_as_it_is_broken_off(rt: HostRuntime) -> Result<(), Fail> {
    for chunked in [true, false] {
        let mut out = sink(rt.alloc(), 7, 2)?;
        let framer = Framer::behind(rt.alloc(), chunked, HEAD)?;
        expect(&rt, put_broken(&rt, framer, &mut out, b"abc"), Err(Failed));
        expect(&rt, out.inner.bytes(), b"HTTP/1.".as_slice());
    }
    Ok(())
}

fn put<O: Sink>(framing: &mut O, bytes: &[u8]) -> Result<usize, Failed>
    requires { 0 < length bytes.now }
{
    framing.put(bytes)
}

/// Puts a body in at most ten calls and then its end, and answers how many of these failed.
fn put_anyhow<O: Sink>(framer: Framer, out: &mut O, body: &[u8]) -> u64 {
    let mut framing = framer.over(out);
    let mut at = 0usize;
    let mut failed = 0u64;
    for _ in 0..10 {
        if let Some(rest) = body.get(at..) {
            if !rest.is_empty() {
                match put(&mut framing, rest) {
                    Ok(count) => at = at.saturating_add(count),
                    Err(_) => failed = failed.saturating_add(1),
                }
            }
        }
    }
    if framing.end().is_err() {
        failed = failed.saturating_add(1);
    }
    failed
}

/// What a body becomes over a sink of which a call fails: that sink, and how many calls of the framing
/// failed.
fn sent(
    alloc: Global,
    framer: Framer,
    body: &[u8],
    failing: u64,
) -> Result<(Counted<MemSink>, u64), Memory> {
    let mut out = sink(alloc, 40_000, failing)?;
    let failed = put_anyhow(framer, &mut out, body);
    Ok((out, failed))
}

/// 65,536 bytes and one other.
fn body(alloc: Global) -> Result<Vec<u8>, Memory> {
    let mut body = bytes(alloc, 65_536)?;
    body.push(b'b')?;
    Ok(body)
}

/// Of that body this is put in three calls where none of them fails.
fn expect_whole<R: Abort>(
    rt: &R,
    alloc: Global,
    framer: Framer,
    end: &[u8],
    wanted: usize,
) -> Result<Counted<MemSink>, Fail> {
    let (whole, failed) = sent(alloc, framer, body(alloc)?.as_slice(), 0)?;
    expect(rt, failed, 0);
    expect_put(rt, &whole, b"", end, (wanted, 3));
    Ok(whole)
}

/// Behind a failed `put` the next goes on in the middle of the chunk; behind a failed end, the third call, a
/// front was put.
fn expect_failed<R: Abort>(
    rt: &R,
    alloc: Global,
    framer: Framer,
    failing: u64,
    whole: &[u8],
) -> Result<(), Fail> {
    let (out, failed) = sent(alloc, framer, body(alloc)?.as_slice(), failing)?;
    expect(rt, failed, 1);
    assert!(rt; whole.starts_with(out.inner.bytes()));
    expect(rt, out.inner.bytes().len() == whole.len(), failing < 3);
    Ok(())
}

/// Each call of the other sink fails in turn, of as many as a run without a fault makes.
fn expect_goes_on<R: Abort>(
    rt: &R,
    alloc: Global,
    chunked: bool,
    front: &[u8],
    end: &[u8],
    wanted: usize,
) -> Result<(), Fail> {
    let framer = Framer::behind(alloc, chunked, front)?;
    let whole = expect_whole(rt, alloc, framer, end, wanted)?;
    for failing in 1..whole.calls.saturating_add(1) {
        let framer = Framer::behind(alloc, chunked, front)?;
        expect_failed(rt, alloc, framer, failing, whole.inner.bytes())?;
    }
    Ok(())
}

#[test]
fn a_chunk_goes_on_behind_a_fault(rt: HostRuntime) -> Result<(), Fail> {
    let end = b"a\r\n1\r\nb\r\n0\r\n\r\n".as_slice();
    expect_goes_on(&rt, rt.alloc(), true, b"", end, 65_556)?;
    expect_goes_on(&rt, rt.alloc(), true, HEAD, end, 65_575)?;
    expect_goes_on(&rt, rt.alloc(), false, HEAD, b"ab", 65_556)
}
