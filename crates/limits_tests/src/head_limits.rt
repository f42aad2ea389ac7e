//! Heads, targets and addresses of the greatest lengths, and what they cost.

use crate::building::{append_times, expect_length, expect_same, sum_of, times};
use crate::expecting::expect;
use crate::tallies::Fed;
use dap_http::{
    Coding, HeadRead, HeadReader, Kind, ReplyRead, ReplyReader, Target, Url, request_bytes,
};
use dap_types::{Bytes, Memory};
use std::alloc::Global;
use std::process::Abort;
use std::test::Fail;

/// The bytes of the longest head of a request, of the longest heads of a reply, and of the longest target.
const REQUEST: usize = 16_384;

const REPLY: usize = 65_536;

const TARGET: usize = 16_384;

/// Appends so many header fields, the last of them so long that the head has so many bytes.
fn append_fields(head: &mut Vec<u8>, fields: usize, length: usize) -> Result<(), Memory> {
    append_times(head, b"a: b\r\n", fields.saturating_sub(1))?;
    head.extend_from_slice(b"x: ")?;
    let left = length.saturating_sub(head.len()).saturating_sub(4);
    append_times(head, b"y", left)?;
    head.extend_from_slice(b"\r\n\r\n")?;
    Ok(())
}

/// A request with so many header fields, whose head has so many bytes.
fn request(alloc: Global, fields: usize, length: usize) -> Result<Vec<u8>, Memory> {
    let mut head = Vec::from_slice(alloc, b"GET /v.nc.dds HTTP/1.1\r\n")?;
    append_fields(&mut head, fields, length)?;
    Ok(head)
}

/// The heads of a reply with so many header fields behind its length, which have so many bytes.
fn reply_heads(alloc: Global, fields: usize, length: usize) -> Result<Vec<u8>, Memory> {
    let mut heads = Vec::from_slice(alloc, b"HTTP/1.1 200 OK\r\nContent-Length: 138\r\n")?;
    append_fields(&mut heads, fields, length)?;
    Ok(heads)
}

fn target_in(alloc: Global, read: HeadRead) -> Result<Option<Vec<u8>>, Memory> {
    match read {
        HeadRead::Head(head) => Ok(Some(Vec::from_slice(alloc, head.target.bytes())?)),
        _ => Ok(None),
    }
}

/// The target of a head that is read in pieces of so many bytes, and how often bytes were taken.
fn read_target(
    alloc: Global,
    head: Vec<u8>,
    piece: usize,
) -> Result<(Option<Vec<u8>>, u64), Memory> {
    let mut source = Fed::new(head, piece);
    let mut reader = HeadReader::new(alloc)?;
    let read = reader.read(&mut source);
    Ok((target_in(alloc, read)?, source.takes))
}

fn expect_takes<R: Abort>(rt: &R, takes: u64, most: u64) {
    assert!(rt; takes <= most, "{takes} takes");
}

/// The longest request of so many header fields has its target.
fn expect_request<R: Abort>(rt: &R, alloc: Global, fields: usize) -> Result<(), Fail> {
    let head = request(alloc, fields, REQUEST)?;
    expect_length(rt, &head, REQUEST);
    let (target, takes) = read_target(alloc, head, 100_000)?;
    expect(rt, target.as_deref(), Some(b"/v.nc.dds".as_slice()));
    expect_takes(rt, takes, 5);
    Ok(())
}

#[test]
fn longest_request_is_read(rt: HostRuntime) -> Result<(), Fail> {
    expect_request(&rt, rt.alloc(), 1)?;
    expect_request(&rt, rt.alloc(), 64)
}

fn coding_in(read: ReplyRead) -> Option<Coding> {
    match read {
        ReplyRead::Final(coding) => Some(coding),
        _ => None,
    }
}

/// The coding that a reply's heads tell, read in pieces of so many bytes, and how often bytes were taken.
fn read_reply(
    alloc: Global,
    heads: Vec<u8>,
    piece: usize,
) -> Result<(Option<Coding>, u64), Memory> {
    let mut source = Fed::new(heads, piece);
    let mut reader = ReplyReader::new(alloc)?;
    let read = reader.read(&mut source);
    Ok((coding_in(read), source.takes))
}

#[test]
fn longest_reply_heads_are_read(rt: HostRuntime) -> Result<(), Fail> {
    let alloc = rt.alloc();
    let heads = reply_heads(alloc, 127, REPLY)?;
    expect_length(&rt, &heads, REPLY);
    let (coding, takes) = read_reply(alloc, heads, 100_000)?;
    expect(&rt, coding, Some(Coding::Length(138)));
    expect_takes(&rt, takes, 17);
    Ok(())
}

/// What stands before the query of the longest target, which has a name of 255 bytes.
fn path(alloc: Global) -> Result<Vec<u8>, Memory> {
    let mut path = Vec::from_slice(alloc, b"/")?;
    append_times(&mut path, b"n", 252)?;
    path.extend_from_slice(b".nc.dods?")?;
    Ok(path)
}

fn target_of<R: Abort>(rt: &R, alloc: Global, text: &[u8]) -> Target {
    let Ok(target) = Target::read(alloc, text) else {
        panic!(rt; "no target");
    };
    target
}

#[test]
fn longest_target_is_read(rt: HostRuntime) -> Result<(), Fail> {
    let alloc = rt.alloc();
    let mut text = path(alloc)?;
    let query = TARGET.saturating_sub(text.len());
    append_times(&mut text, b"q", query)?;
    expect_length(&rt, &text, TARGET);
    let found = target_of(&rt, alloc, &text);
    expect(&rt, found.kind, Kind::Dods);
    expect(&rt, found.name.as_str().len(), 255);
    expect_length(&rt, found.query.bytes(), query);
    expect(&rt, sum_of(found.query.bytes()), 113 * query as u64);
    Ok(())
}

/// A URL with a host and a path of so many bytes.
fn address(alloc: Global, host: usize, path: usize) -> Result<Vec<u8>, Memory> {
    let mut text = Vec::from_slice(alloc, b"http://")?;
    append_times(&mut text, b"h", host)?;
    text.extend_from_slice(b":8080/")?;
    append_times(&mut text, b"p", path)?;
    Ok(text)
}

/// The lines behind the first of a request at that host.
fn append_lines(text: &mut Vec<u8>, host: usize) -> Result<(), Memory> {
    text.extend_from_slice(b" HTTP/1.1\r\nHost: ")?;
    append_times(text, b"h", host)?;
    text.extend_from_slice(b":8080\r\nUser-Agent: dap2/1.0\r\n")?;
    text.extend_from_slice(b"Accept-Encoding: identity\r\nConnection: close\r\n\r\n")?;
    Ok(())
}

/// The request for that path with a constraint of so many brackets, which are escaped.
fn expected(alloc: Global, host: usize, path: usize, ce: usize) -> Result<Vec<u8>, Memory> {
    let mut text = Vec::from_slice(alloc, b"GET /")?;
    append_times(&mut text, b"p", path)?;
    text.extend_from_slice(b".dods?")?;
    append_times(&mut text, b"%5B", ce)?;
    append_lines(&mut text, host)?;
    Ok(text)
}

fn text_of<'a, R: Abort>(rt: &R, bytes: &'a [u8]) -> &'a str {
    let Ok(text) = str::from_utf8(bytes) else {
        panic!(rt; "no text");
    };
    text
}

fn url_of<R: Abort>(rt: &R, alloc: Global, address: &str) -> Url {
    let Ok(url) = Url::read(alloc, address) else {
        panic!(rt; "no address");
    };
    url
}

fn written(alloc: Global, url: &Url, ce: usize) -> Result<Bytes, Memory> {
    let constraint = times(alloc, b"[", ce)?;
    request_bytes(alloc, url, Kind::Dods, &constraint, true)
}

/// A request at a host of 255 bytes, a path and a constraint whose bytes are all escaped.
#[test]
fn long_request_is_written(rt: HostRuntime) -> Result<(), Fail> {
    let alloc = rt.alloc();
    let address = address(alloc, 255, 16_000)?;
    let url = url_of(&rt, alloc, text_of(&rt, &address));
    let bytes = written(alloc, &url, 16_384)?;
    expect_same(&rt, bytes.bytes(), &expected(alloc, 255, 16_000, 16_384)?);
    Ok(())
}
