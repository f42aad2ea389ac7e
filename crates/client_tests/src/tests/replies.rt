use crate::tests::cases::{TABLE, TABLE_ROWS, TABLE_SHOWN};
use crate::tests::counted::Counted;
use crate::tests::cut::answer_of;
use crate::tests::expecting::expect;
use crate::tests::showing::{Answer, Showing, answers, is_shown, sink, source, told};
use dap_client::{Outcome, read_reply};
use dap_http::Kind;
use dap_outside::{Sink, Source};
use std::alloc::Global;
use std::process::Abort;
use std::test::Fail;
use xdr_decode::Bad;

fn read_dds<I: Source, O: Sink>(alloc: Global, source: &mut I, out: &mut O) -> Outcome {
    read_reply(alloc, source, Kind::Dds, out)
}

fn read_das<I: Source, O: Sink>(alloc: Global, source: &mut I, out: &mut O) -> Outcome {
    read_reply(alloc, source, Kind::Das, out)
}

fn read_dods<I: Source, O: Sink>(alloc: Global, source: &mut I, out: &mut O) -> Outcome {
    read_reply(alloc, source, Kind::Dods, out)
}

/// Reads a reply to a request of that kind.
fn read_kind<I: Source, O: Sink>(
    alloc: Global,
    source: &mut I,
    kind: Kind,
    out: &mut O,
) -> Outcome {
    match kind {
        Kind::Dds => read_dds(alloc, source, out),
        Kind::Das => read_das(alloc, source, out),
        Kind::Dods => read_dods(alloc, source, out),
        Kind::Ver => Outcome::LinkFault,
    }
}

/// Reads a reply that is taken in pieces of a size, of which the sink takes as much at once.
pub fn read(
    alloc: Global,
    reply: &[u8],
    kind: Kind,
    piece: u32,
    take_fails: Option<u64>,
    put_fails: Option<u64>,
) -> Result<Showing, Fail> {
    let mut source = Counted::new(source(alloc, reply, piece, take_fails)?);
    let mut out = Counted::new(sink(alloc, piece, put_fails)?);
    let outcome = read_kind(alloc, &mut source, kind, &mut out);
    Ok(told(alloc, outcome, &out, source.calls)?)
}

/// How a server begins its reply with a data response.
pub const DATA_HEAD: &[u8] =
    b"HTTP/1.1 200 OK\r\nXDODS-Server: dap2/1.0\r\nXDAP: 2.0\r\nContent-Description: dods_data\r\nContent-Type: application/octet-stream\r\nTransfer-Encoding: chunked\r\nConnection: close\r\n\r\n";

/// The reply that brings a body of 138 bytes in one chunk.
pub fn reply_of(alloc: Global, body: &[u8]) -> Result<Vec<u8>, Fail> {
    let mut reply = Vec::from_slice(alloc, DATA_HEAD)?;
    reply.extend_from_slice(b"8a\r\n")?;
    reply.extend_from_slice(body)?;
    reply.extend_from_slice(b"\r\n0\r\n\r\n")?;
    Ok(reply)
}

#[test]
fn a_reply_is_read_in_any_pieces(rt: HostRuntime) -> Result<(), Fail> {
    let reply = reply_of(rt.alloc(), TABLE)?;
    for piece in [1, 7, 65536] {
        let found = read(rt.alloc(), reply.as_slice(), Kind::Dods, piece, None, None)?;
        assert!(rt; is_shown(&found, Answer::Shown(138), TABLE_SHOWN));
    }
    Ok(())
}

/// The first bytes.
fn front(bytes: &[u8], length: usize) -> &[u8] {
    &bytes[..length.min(bytes.len())]
}

/// What a reply that ends behind so many bytes is: this much of its body has come.
fn cut_at(length: usize) -> Answer {
    let behind = length.saturating_sub(DATA_HEAD.len());
    let come = behind.saturating_sub(4).min(138);
    Answer::Wrong(Bad::Cut, come as u64)
}

#[test]
fn a_reply_is_cut_anywhere(rt: HostRuntime) -> Result<(), Fail> {
    let reply = reply_of(rt.alloc(), TABLE)?;
    for length in 0..reply.len() {
        let part = front(reply.as_slice(), length);
        let found = read(rt.alloc(), part, Kind::Dods, 7, None, None)?;
        assert!(rt; answers(&found.outcome, cut_at(length)), "{length}");
    }
    Ok(())
}

#[test]
fn a_reply_without_its_last_chunk_is_cut(rt: HostRuntime) -> Result<(), Fail> {
    let reply = reply_of(rt.alloc(), TABLE)?;
    let part = front(reply.as_slice(), reply.len().saturating_sub(5));
    let found = read(rt.alloc(), part, Kind::Dods, 7, None, None)?;
    assert!(rt; is_shown(&found, Answer::Wrong(Bad::Cut, 138), TABLE_ROWS));
    Ok(())
}

/// Whether a body in a reply is judged as the reader of whole bodies judges it.
fn same(alloc: Global, body: &[u8]) -> Result<bool, Fail> {
    let reply = reply_of(alloc, body)?;
    let found = read(alloc, reply.as_slice(), Kind::Dods, 64, None, None)?;
    Ok(answers(&found.outcome, answer_of(alloc, body)?))
}

#[test]
fn each_byte_of_a_body_is_changed(rt: HostRuntime) -> Result<(), Fail> {
    for at in 0..TABLE.len() {
        let mut body = Vec::from_slice(rt.alloc(), TABLE)?;
        body.as_mut_slice()[at] ^= 0x5a;
        assert!(rt; same(rt.alloc(), body.as_slice())?, "{at}");
    }
    Ok(())
}

/// A take fails of the source of a reply.
fn expect_take_fault<R: Abort>(
    rt: &R,
    alloc: Global,
    reply: &[u8],
    number: u64,
) -> Result<(), Fail> {
    let found = read(alloc, reply, Kind::Dods, 48, Some(number), None)?;
    assert!(rt; matches!(found.outcome, Outcome::ReadFault), "{number}");
    expect(rt, found.takes, number);
    assert!(rt; TABLE_ROWS.starts_with(found.out.bytes()));
    Ok(())
}

/// Each call of the source fails in turn: as many as a run without a fault makes.
#[test]
fn each_take_of_a_reply_fails(rt: HostRuntime) -> Result<(), Fail> {
    let reply = reply_of(rt.alloc(), TABLE)?;
    let sure = read(rt.alloc(), reply.as_slice(), Kind::Dods, 48, None, None)?;
    assert!(rt; answers(&sure.outcome, Answer::Shown(138)));
    expect(&rt, sure.takes, reply.len().div_ceil(48) as u64);
    for number in 1..sure.takes.saturating_add(1) {
        expect_take_fault(&rt, rt.alloc(), reply.as_slice(), number)?;
    }
    Ok(())
}

/// A put fails of what is shown of a reply, behind so many bytes at once: a front of that is out.
fn expect_put_fault<R: Abort>(
    rt: &R,
    found: &Showing,
    number: u64,
    shown: &[u8],
) -> Result<(), Fail> {
    assert!(rt; matches!(found.outcome, Outcome::WriteFault), "{number}");
    assert!(rt; shown.starts_with(found.out.bytes()));
    assert!(rt; found.out.bytes().len() < shown.len());
    Ok(())
}

/// Each call of the sink fails in turn, in the same way.
#[test]
fn each_put_of_a_reply_fails(rt: HostRuntime) -> Result<(), Fail> {
    let reply = reply_of(rt.alloc(), TABLE)?;
    let reply = reply.as_slice();
    let sure = read(rt.alloc(), reply, Kind::Dods, 48, None, None)?;
    assert!(rt; sure.puts > 2);
    for number in 1..sure.puts.saturating_add(1) {
        let found = read(rt.alloc(), reply, Kind::Dods, 48, None, Some(number))?;
        expect(&rt, found.puts, number);
        expect_put_fault(&rt, &found, number, TABLE_SHOWN)?;
    }
    Ok(())
}

/// A text in a reply of which each put fails in turn: nothing is put before its body has ended, and a front
/// of the text is out then.
fn expect_text_faults<R: Abort>(
    rt: &R,
    alloc: Global,
    kind: Kind,
    reply: &[u8],
    shown: &[u8],
) -> Result<(), Fail> {
    let sure = read(alloc, reply, kind, 5, None, None)?;
    expect(rt, sure.out.bytes(), shown);
    expect(rt, sure.puts, shown.len().div_ceil(5) as u64);
    for number in 1..sure.puts.saturating_add(1) {
        let found = read(alloc, reply, kind, 5, None, Some(number))?;
        expect(rt, found.takes, sure.takes);
        expect_put_fault(rt, &found, number, shown)?;
    }
    Ok(())
}

#[test]
fn each_put_of_a_text_fails(rt: HostRuntime) -> Result<(), Fail> {
    expect_text_faults(&rt, rt.alloc(), Kind::Dds, DDS_REPLY, DDS_SHOWN)?;
    expect_text_faults(&rt, rt.alloc(), Kind::Das, DAS_REPLY, DAS_SHOWN)
}

const DDS_REPLY: &[u8] =
    b"HTTP/1.1 200 OK\r\nContent-Length: 25\r\n\r\nDataset {\n Byte q;\n} f;\n\n";

const DDS_SHOWN: &[u8] = b"Dataset {\n    Byte q;\n} f;\n";

const DAS_REPLY: &[u8] =
    b"HTTP/1.1 200 OK\r\nContent-Length: 26\r\n\r\nAttributes {\n v { }\n}\n    ";

const DAS_SHOWN: &[u8] = b"Attributes {\n    v {\n    }\n}\n";
