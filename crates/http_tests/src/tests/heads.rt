use crate::tests::counted::{Counted, source};
use crate::tests::expecting::expect;
use dap_http::{HeadRead, HeadReader};
use dap_outside::{MemSource, Source, SureSource};
use dap_types::{Bytes, Memory};
use std::alloc::{AllocError, Global};
use std::process::Abort;
use std::test::Fail;

/// What a first read comes to.
#[derive(Clone, Copy, Debug, PartialEq, Eq)]
enum Read {
    Head,
    Gone,
    Bad,
    TooLong,
}

fn kind_of(read: &HeadRead) -> Option<Read> {
    match read {
        HeadRead::Head(_) => Some(Read::Head),
        HeadRead::Gone => Some(Read::Gone),
        HeadRead::BadRequest => Some(Read::Bad),
        HeadRead::HeadTooLong => Some(Read::TooLong),
        HeadRead::ReadFault | HeadRead::Memory { .. } => None,
    }
}

fn next<I: Source>(reader: &mut HeadReader, source: &mut I) -> HeadRead {
    reader.read(source)
}

/// What the first read of an input gives that comes in pieces.
fn first(alloc: Global, input: &[u8], piece: u32) -> Result<Option<Read>, Memory> {
    let mut source = SureSource::new(Bytes::new(alloc, input)?, piece.max(1));
    let mut reader = HeadReader::new(alloc)?;
    Ok(kind_of(&next(&mut reader, &mut source)))
}

/// The first read of an input that comes in pieces of each of these sizes comes to this.
fn expect_first<R: Abort>(
    rt: &R,
    alloc: Global,
    input: &[u8],
    pieces: &[u32],
    wanted: Read,
) -> Result<(), Fail> {
    for piece in pieces {
        expect(rt, first(alloc, input, *piece)?, Some(wanted));
    }
    Ok(())
}

#[test]
fn a_head_is_read_refused_or_cut(rt: HostRuntime) -> Result<(), Fail> {
    let rows: [(&[u8], Read); 16] = [
        (b"GET / HTTP/1.1\r\n\r\n", Read::Head),
        (b"\r\n\nGET / HTTP/1.0\nA:b\n\nmore", Read::Head),
        (b"GET / HTTP/1.1\r\nHost: h\r\nHost:\r\n\r\n", Read::Head),
        (b"PUT x HTTP/1.1\r\n\r\n", Read::Head),
        (b"", Read::Gone),
        (b"G", Read::Gone),
        (b"\r", Read::Gone),
        (b"GET / HTTP/1.1\r\n", Read::Gone),
        (b"GET / HTTP/1.1\r\nA: b\r\n\r", Read::Gone),
        (b"GET / HTTP/2.0\r\n\r\n", Read::Bad),
        (b"GET / HTTP/1.1\r\nA : b\r\n\r\n", Read::Bad),
        (b"GET / HTTP/1.1\r\nA: b\r\n c\r\n\r\n", Read::Bad),
        (b"GET / HTTP/1.1\r\nA: \0\r\n\r\n", Read::Bad),
        (b"GET /\0 HTTP/1.1\r\n\r\n", Read::Bad),
        (b"G(T / HTTP/1.1\r\n\r\n", Read::Bad),
        (b"\r\rGET / HTTP/1.1\r\n\r\n", Read::Bad),
    ];
    for (input, wanted) in rows {
        expect_first(&rt, rt.alloc(), input, &[1, 3, 4_096], wanted)?;
    }
    Ok(())
}

/// A head of so many fields, whose target has so many bytes, without its end.
fn long(alloc: Global, target: usize, fields: usize) -> Result<Vec<u8>, AllocError> {
    let mut input = Vec::from_slice(alloc, b"GET ")?;
    for _ in 0..target {
        input.push(b'/')?;
    }
    input.extend_from_slice(b" HTTP/1.1\r\n")?;
    for _ in 0..fields {
        input.extend_from_slice(b"A:b\r\n")?;
    }
    Ok(input)
}

#[test]
fn heads_have_limits(rt: HostRuntime) -> Result<(), Fail> {
    let rows: [(usize, usize, &[u8], Read); 9] = [
        (1, 64, b"\r\n", Read::Head),
        (1, 64, b"", Read::Gone),
        (1, 64, b"A:b", Read::Gone),
        (1, 65, b"", Read::Bad),
        (1, 65, b"\r\n", Read::Bad),
        (16_367, 0, b"\r\n", Read::Head),
        (16_368, 0, b"\r\n", Read::TooLong),
        (16_368, 0, b"", Read::Gone),
        (16_369, 0, b"", Read::TooLong),
    ];
    for (target, fields, end, wanted) in rows {
        let mut input = long(rt.alloc(), target, fields)?;
        input.extend_from_slice(end)?;
        expect_first(&rt, rt.alloc(), input.as_slice(), &[4_000], wanted)?;
    }
    Ok(())
}

/// A method, a target, the minor version, and whether the connection ends behind it.
type Request<'t> = (&'t str, &'t [u8], u8, bool);

/// The next head of a source is this.
fn expect_next<R: Abort>(
    rt: &R,
    reader: &mut HeadReader,
    source: &mut SureSource,
    request: Request<'_>,
) -> Result<(), Fail> {
    let (method, target, minor, ends) = request;
    let HeadRead::Head(head) = next(reader, source) else {
        return Err(Fail::new("no head"));
    };
    expect(rt, head.method.as_str(), method);
    expect(rt, head.target.bytes(), target);
    expect(rt, (head.minor, head.ends), (minor, ends));
    Ok(())
}

/// The heads of an input that comes in pieces are these, and no more.
fn expect_requests<R: Abort>(
    rt: &R,
    alloc: Global,
    input: &[u8],
    piece: u32,
    requests: &[Request<'_>],
) -> Result<(), Fail> {
    let mut source = SureSource::new(Bytes::new(alloc, input)?, piece.max(1));
    let mut reader = HeadReader::new(alloc)?;
    for request in requests {
        expect_next(rt, &mut reader, &mut source, *request)?;
    }
    expect(
        rt,
        kind_of(&next(&mut reader, &mut source)),
        Some(Read::Gone),
    );
    Ok(())
}

#[test]
fn requests_follow_each_other(rt: HostRuntime) -> Result<(), Fail> {
    let input =
        b"GET /a HTTP/1.1\r\nContent-Length: 0\r\n\r\nHEAD /b HTTP/1.1\r\nConnection: Keep-Alive , CLOSE\r\n\r\nPUT /c HTTP/1.1\r\n\r\nGET /d HTTP/1.0\r\n\r\nGET /e HTTP/1.1\r\ncontent-length:00\r\n\r\nGET /f HTTP/1.1\r\nTransfer-Encoding:\r\n\r\nGET /g HTTP/1.1\r\nConnection: closed\r\n\r\n".as_slice();
    let rows: [Request<'_>; 7] = [
        ("GET", b"/a", 1, false),
        ("HEAD", b"/b", 1, true),
        ("PUT", b"/c", 1, true),
        ("GET", b"/d", 0, true),
        ("GET", b"/e", 1, true),
        ("GET", b"/f", 1, true),
        ("GET", b"/g", 1, false),
    ];
    for piece in [1, 50, 4_096] {
        expect_requests(&rt, rt.alloc(), input, piece, &rows)?;
    }
    Ok(())
}

#[test]
fn a_head_cut_behind_any_byte_is_gone(rt: HostRuntime) -> Result<(), Fail> {
    let whole = b"\r\nGET /a HTTP/1.1\r\nA: b\nC:\r\n\r\n".as_slice();
    for end in 0..whole.len() {
        if let Some(part) = whole.get(..end) {
            expect_first(&rt, rt.alloc(), part, &[1, 4_096], Read::Gone)?;
        }
    }
    Ok(())
}

/// The head of a request with that method tells it.
fn expect_method<R: Abort>(rt: &R, alloc: Global, method: &str, ends: bool) -> Result<(), Fail> {
    let mut input = Vec::from_slice(alloc, method.as_bytes())?;
    input.extend_from_slice(b" * HTTP/1.1\r\n\r\n")?;
    let mut source = SureSource::new(Bytes::new(alloc, input.as_slice())?, 7);
    let mut reader = HeadReader::new(alloc)?;
    expect_next(rt, &mut reader, &mut source, (method, b"*", 1, ends))
}

#[test]
fn heads_tell_their_methods(rt: HostRuntime) -> Result<(), Fail> {
    let rows = [
        ("GET", false),
        ("HEAD", false),
        ("POST", true),
        ("PUT", true),
        ("DELETE", true),
        ("CONNECT", true),
        ("OPTIONS", true),
        ("TRACE", true),
        ("PATCH", true),
        ("get", true),
        ("a-!9", true),
    ];
    for (method, ends) in rows {
        expect_method(&rt, rt.alloc(), method, ends)?;
    }
    Ok(())
}

/// The next read of the source is a head, and so many calls were made of it then.
fn expect_head<R: Abort>(
    rt: &R,
    reader: &mut HeadReader,
    source: &mut Counted<MemSource>,
    calls: u64,
) {
    expect(rt, kind_of(&next(reader, source)), Some(Read::Head));
    expect(rt, source.calls, calls);
}

/// A call of the source fails, and the next read goes on with what was kept.
fn expect_goes_on<R: Abort>(rt: &R, alloc: Global, input: &[u8], failing: u64) -> Result<(), Fail> {
    let mut broken = source(alloc, input, failing)?;
    let mut reader = HeadReader::new(alloc)?;
    assert!(rt; matches!(next(&mut reader, &mut broken), HeadRead::ReadFault));
    expect(rt, broken.calls, failing);
    expect_head(rt, &mut reader, &mut broken, 5);
    Ok(())
}

/// Each call of the source fails in turn, of as many as a run without a fault makes. Behind a whole head nothing
/// is taken.
#[test]
fn a_head_goes_on_behind_a_fault(rt: HostRuntime) -> Result<(), Fail> {
    let input = b"GET /a HTTP/1.1\r\n\r\nGET /b HTTP/1.1\r\n\r\n".as_slice();
    let mut whole = source(rt.alloc(), input, 0)?;
    let mut reader = HeadReader::new(rt.alloc())?;
    expect_head(&rt, &mut reader, &mut whole, 4);
    for failing in 1..whole.calls.saturating_add(1) {
        expect_goes_on(&rt, rt.alloc(), input, failing)?;
    }
    Ok(())
}
