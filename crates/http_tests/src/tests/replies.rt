use crate::tests::counted::source;
use crate::tests::expecting::expect;
use dap_http::{Coding, ReplyRead, ReplyReader};
use dap_outside::{Source, SureSource};
use dap_types::{Bytes, Memory};
use reply_faults::{Bad, BadField};
use std::alloc::{AllocError, Global};
use std::process::Abort;
use std::test::Fail;

fn next<I: Source>(reader: &mut ReplyReader, source: &mut I) -> ReplyRead {
    reader.read(source)
}

/// The coding or the fault that a read gives, where its place is 0.
fn answer_of(read: &ReplyRead) -> Option<Result<Coding, Bad>> {
    match read {
        ReplyRead::Final(coding) => Some(Ok(*coding)),
        ReplyRead::Refused(BadField { kind, place: 0 }) => Some(Err(*kind)),
        _ => None,
    }
}

/// What a first read of an input gives that comes in pieces, and how many bytes it keeps.
fn first(
    alloc: Global,
    input: &[u8],
    piece: u32,
) -> Result<(Option<Result<Coding, Bad>>, usize), Memory> {
    let mut source = SureSource::new(Bytes::new(alloc, input)?, piece.max(1));
    let mut reader = ReplyReader::new(alloc)?;
    let answer = answer_of(&next(&mut reader, &mut source));
    Ok((answer, reader.rest().len()))
}

/// The first read of an input that comes in pieces gives this.
fn expect_first<R: Abort>(
    rt: &R,
    alloc: Global,
    input: &[u8],
    piece: u32,
    wanted: Result<Coding, Bad>,
) -> Result<(), Fail> {
    let (answer, _) = first(alloc, input, piece)?;
    expect(rt, answer, Some(wanted));
    Ok(())
}

/// Replies, and what is told of them.
const CODINGS: [(&[u8], Result<Coding, Bad>); 19] = [
    (b"HTTP/1.1 200 OK\r\n\r\n", Ok(Coding::ToEnd)),
    (b"HTTP/1.0 404\n\n", Ok(Coding::ToEnd)),
    (
        b"HTTP/1.1 200 OK\r\nContent-Length: 057\r\n\r\n",
        Ok(Coding::Length(57)),
    ),
    (
        b"HTTP/1.1 200 OK\r\nContent-Length: 5\r\ncontent-length:5\t\r\n\r\n",
        Ok(Coding::Length(5)),
    ),
    (
        b"HTTP/1.1 200 OK\r\nContent-Length: 999999999999999999\r\n\r\n",
        Ok(Coding::Length(999_999_999_999_999_999)),
    ),
    (
        b"HTTP/1.1 200 OK\r\nTransfer-Encoding: Chunked\r\n\r\n",
        Ok(Coding::Chunked),
    ),
    (
        b"HTTP/1.1 200 OK\r\nContent-Length: x\r\nTransfer-Encoding: chunked\r\nContent-Encoding: IDENTITY\r\n\r\n",
        Ok(Coding::Chunked),
    ),
    (
        b"HTTP/1.1 100 Continue\r\n\r\nHTTP/1.1 199\r\nContent-Encoding: gzip\r\n\r\nHTTP/1.1 200 OK\r\n\r\n",
        Ok(Coding::ToEnd),
    ),
    (
        b"HTTP/1.1 200 OK\r\nContent-Length: 1000000000000000000\r\n\r\n",
        Err(Bad::BadHead),
    ),
    (
        b"HTTP/1.1 200 OK\r\nContent-Length:\r\n\r\n",
        Err(Bad::BadHead),
    ),
    (
        b"HTTP/1.1 200 OK\r\nContent-Length: 5\r\nContent-Length: 05\r\n\r\n",
        Err(Bad::BadHead),
    ),
    (
        b"HTTP/1.1 200 OK\r\nContent-Length: x\r\nContent-Encoding: gzip\r\n\r\n",
        Err(Bad::Coded),
    ),
    (
        b"HTTP/1.1 200 OK\r\nTransfer-Encoding: gzip, chunked\r\n\r\n",
        Err(Bad::Coded),
    ),
    (
        b"HTTP/1.1 200 OK\r\nTransfer-Encoding: chunked\r\nTransfer-Encoding: gzip\r\n\r\n",
        Err(Bad::Coded),
    ),
    (b"HTTP/1.1 2x0 OK\r\n\r\n", Err(Bad::BadHead)),
    (b"HTTP/1.1 100\r\n\r\nx", Err(Bad::BadHead)),
    (b"", Err(Bad::Cut)),
    (b"HTTP/1.1 200 OK\r\nA: b\r\n\r", Err(Bad::Cut)),
    (b"HTTP/1.1 100\r\n\r\nHTTP", Err(Bad::Cut)),
];

#[test]
fn the_coding_of_the_final_head_is_told(rt: HostRuntime) -> Result<(), Fail> {
    for (input, wanted) in CODINGS {
        for piece in [1, 5, 4_096] {
            expect_first(&rt, rt.alloc(), input, piece, wanted)?;
        }
    }
    Ok(())
}

/// The heads of a reply, in all so many bytes.
fn long(alloc: Global, heads: usize, fill: usize) -> Result<Vec<u8>, AllocError> {
    let mut input = Vec::new(alloc);
    for _ in 0..heads {
        input.extend_from_slice(b"HTTP/1.1 100\r\n\r\n")?;
    }
    input.extend_from_slice(b"HTTP/1.1 200 ")?;
    for _ in 0..fill {
        input.push(b'x')?;
    }
    input.extend_from_slice(b"\r\n\r\n")?;
    Ok(input)
}

#[test]
fn heads_of_replies_have_limits(rt: HostRuntime) -> Result<(), Fail> {
    let rows = [
        (0, 65_519, Ok(Coding::ToEnd)),
        (0, 65_520, Err(Bad::HeadTooLong)),
        (4_095, 0, Err(Bad::HeadTooLong)),
        (4_094, 0, Ok(Coding::ToEnd)),
    ];
    for (heads, fill, wanted) in rows {
        let input = long(rt.alloc(), heads, fill)?;
        expect_first(&rt, rt.alloc(), input.as_slice(), 4_096, wanted)?;
    }
    Ok(())
}

/// A head of so many fields, without its end.
fn fields(alloc: Global, count: usize) -> Result<Vec<u8>, AllocError> {
    let mut input = Vec::from_slice(alloc, b"HTTP/1.1 200 OK\r\n")?;
    for _ in 0..count {
        input.extend_from_slice(b"A:b\r\n")?;
    }
    Ok(input)
}

#[test]
fn heads_of_replies_have_128_fields(rt: HostRuntime) -> Result<(), Fail> {
    let rows: [(usize, &[u8], Result<Coding, Bad>); 5] = [
        (128, b"\r\n", Ok(Coding::ToEnd)),
        (128, b"", Err(Bad::Cut)),
        (128, b"A:b", Err(Bad::Cut)),
        (129, b"", Err(Bad::BadHead)),
        (129, b"\r\n", Err(Bad::BadHead)),
    ];
    for (count, end, wanted) in rows {
        let mut input = fields(rt.alloc(), count)?;
        input.extend_from_slice(end)?;
        expect_first(&rt, rt.alloc(), input.as_slice(), 100, wanted)?;
    }
    Ok(())
}

#[test]
fn heads_cut_behind_any_byte_are_cut(rt: HostRuntime) -> Result<(), Fail> {
    let whole = b"HTTP/1.1 100\r\n\r\nHTTP/1.1 200 OK\r\nContent-Length: 3\r\n\r\n".as_slice();
    for end in 0..whole.len() {
        if let Some(part) = whole.get(..end) {
            let found = first(rt.alloc(), part, 4_096)?;
            expect(&rt, found, (Some(Err(Bad::Cut)), end));
        }
    }
    Ok(())
}

/// The next read of the source gives this coding.
fn expect_final<R: Abort, I: Source>(
    rt: &R,
    reader: &mut ReplyReader,
    source: &mut I,
    coding: Coding,
) {
    expect(rt, answer_of(&next(reader, source)), Some(Ok(coding)));
}

fn skip(reader: &mut ReplyReader, count: usize) -> Result<(), Fail> {
    if reader.rest().len() < count {
        return Err(Fail::new("too few"));
    }
    reader.skip(count);
    Ok(())
}

fn keep(reader: &mut ReplyReader, bytes: &[u8]) -> Result<(), Fail> {
    if reader.rest().len() > 100 || bytes.len() > 100 {
        return Err(Fail::new("too many"));
    }
    reader.keep(bytes);
    Ok(())
}

#[test]
fn a_reader_goes_on_behind_a_reply(rt: HostRuntime) -> Result<(), Fail> {
    let input =
        b"HTTP/1.1 200 OK\r\nContent-Length: 3\r\n\r\nabcHTTP/1.1 404 \r\n\r\nxyz".as_slice();
    let mut source = SureSource::new(Bytes::new(rt.alloc(), input)?, 4_096);
    let mut reader = ReplyReader::new(rt.alloc())?;
    expect_final(&rt, &mut reader, &mut source, Coding::Length(3));
    assert!(rt; reader.rest().starts_with(b"abcHTTP"));
    skip(&mut reader, 3)?;
    expect_final(&rt, &mut reader, &mut source, Coding::ToEnd);
    expect(&rt, reader.rest(), b"xyz");
    let rest = reader.rest().len();
    skip(&mut reader, rest)?;
    keep(&mut reader, b"HTTP/1.1 200\r\n\r\n")?;
    expect_final(&rt, &mut reader, &mut source, Coding::ToEnd);
    Ok(())
}

/// A read of a source of which a call fails is a fault, behind so many calls.
fn expect_fault<R: Abort>(rt: &R, alloc: Global, input: &[u8], failing: u64) -> Result<(), Fail> {
    let mut broken = source(alloc, input, failing)?;
    let mut reader = ReplyReader::new(alloc)?;
    assert!(rt; matches!(next(&mut reader, &mut broken), ReplyRead::ReadFault));
    expect(rt, broken.calls, failing);
    Ok(())
}

/// Each call of the source fails in turn, of as many as a run without a fault makes.
#[test]
fn each_take_fails(rt: HostRuntime) -> Result<(), Fail> {
    let input = b"HTTP/1.1 100\r\n\r\nHTTP/1.1 200\r\n\r\nabcdef".as_slice();
    let mut whole = source(rt.alloc(), input, 0)?;
    let mut reader = ReplyReader::new(rt.alloc())?;
    expect_final(&rt, &mut reader, &mut whole, Coding::ToEnd);
    expect(&rt, whole.calls, 7);
    for failing in 1..whole.calls.saturating_add(1) {
        expect_fault(&rt, rt.alloc(), input, failing)?;
    }
    Ok(())
}
