//! Replies at their limits, held in memory or shown.

use crate::making::{append_times, append_words, many_bytes};
use dap_client::{BodyOutcome, Outcome, read_body, read_reply};
use dap_http::Kind;
use dap_outside::{MemSink, MemSource};
use dap_types::{Bytes, List, Memory};
use std::alloc::Global;
use std::process::Abort;
use std::test::Fail;

/// The bytes of the longest body that is held.
const MOST: u32 = 67_108_864;

/// The bytes of the longest DDS and of the longest DAS.
const LONGEST: usize = 16_777_216;

/// A reply whose body goes on up to the end.
fn source_of(alloc: Global, body: &[u8]) -> Result<MemSource, Memory> {
    let mut reply = Vec::from_slice(alloc, b"HTTP/1.0 200 OK\r\n\r\n")?;
    reply.extend_from_slice(body)?;
    Ok(MemSource::new(Bytes::from_vec(reply), 65_536, List::new(alloc)))
}

/// A data response of one text, of that length, which is a multiple of four.
fn one_text(alloc: Global, length: u32) -> Result<Vec<u8>, Memory> {
    let mut body = Vec::from_slice(alloc, b"Dataset {\n    String s;\n} ff;\nData:\n")?;
    let count = length.saturating_sub(40);
    append_words(&mut body, &[count])?;
    append_times(&mut body, b"x", count as usize)?;
    Ok(body)
}

/// What reading a body up to that limit gives.
fn held(alloc: Global, body: &[u8], limit: u32) -> Result<BodyOutcome, Memory> {
    let mut source = source_of(alloc, body)?;
    Ok(read_body(alloc, &mut source, Kind::Dods, limit))
}

fn is_good(outcome: &BodyOutcome, body: &[u8]) -> bool {
    match outcome {
        BodyOutcome::Good(bytes) => bytes.bytes() == body,
        _ => false,
    }
}

/// A body of so many bytes is held where that is the limit, and too large where the limit is one less.
fn expect_held<R: Abort>(rt: &R, alloc: Global, length: u32) -> Result<(), Fail> {
    let body = one_text(alloc, length)?;
    assert!(rt; body.len() == length as usize);
    assert!(rt; is_good(&held(alloc, &body, length)?, &body));
    let outcome = held(alloc, &body, length.saturating_sub(1))?;
    assert!(rt; matches!(outcome, BodyOutcome::TooLarge));
    Ok(())
}

#[test]
fn longest_body_is_held(rt: HostRuntime) -> Result<(), Fail> {
    expect_held(&rt, rt.alloc(), MOST)
}

/// A DDS of that length: Bytes, and a long name.
fn long_dds(alloc: Global, members: u32, length: usize) -> Result<Vec<u8>, Memory> {
    let mut text = many_bytes(alloc, members)?;
    text.truncate(text.len().saturating_sub(2));
    let left = length.saturating_sub(text.len()).saturating_sub(2);
    append_times(&mut text, b"n", left)?;
    text.extend_from_slice(b";\n")?;
    Ok(text)
}

/// A DAS of that length: so many attributes, and a long value.
fn long_das(alloc: Global, many: usize, length: usize) -> Result<Vec<u8>, Memory> {
    let mut text = Vec::from_slice(alloc, b"Attributes {\n    v {\n")?;
    append_times(&mut text, b"        Url u \"x\";\n", many)?;
    text.extend_from_slice(b"        String s \"")?;
    let left = length.saturating_sub(text.len()).saturating_sub(11);
    append_times(&mut text, b"q", left)?;
    text.extend_from_slice(b"\";\n    }\n}\n")?;
    Ok(text)
}

fn read_text(alloc: Global, source: &mut MemSource, is_das: bool, out: &mut MemSink) -> Outcome {
    if is_das {
        read_reply(alloc, source, Kind::Das, out)
    } else {
        read_reply(alloc, source, Kind::Dds, out)
    }
}

/// The text comes out as it is.
fn expect_shown<R: Abort>(rt: &R, alloc: Global, text: &[u8], is_das: bool) -> Result<(), Fail> {
    assert!(rt; text.len() == LONGEST);
    let mut source = source_of(alloc, text)?;
    let mut out = MemSink::new(alloc, 17_000_000, 65_536, List::new(alloc))?;
    let outcome = read_text(alloc, &mut source, is_das, &mut out);
    assert!(rt; matches!(outcome, Outcome::Complete { bytes: 16_777_216 }));
    assert!(rt; out.bytes() == text);
    Ok(())
}

#[test]
fn longest_texts_are_shown(rt: HostRuntime) -> Result<(), Fail> {
    let alloc = rt.alloc();
    expect_shown(&rt, alloc, &long_dds(alloc, 1_000_000, LONGEST)?, false)?;
    expect_shown(&rt, alloc, &long_das(alloc, 100_000, LONGEST)?, true)
}
