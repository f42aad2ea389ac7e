use crate::tests::replies::read;
use crate::tests::showing::{Answer, is_shown, show_all, show_body};
use dap_client::Outcome;
use dap_http::Kind;
use dap_outside::{MemSink, SureSource};
use dap_types::{Bytes, List};
use std::alloc::Global;
use std::process::Abort;
use std::test::Fail;
use xdr_decode::Bad;

/// White space between two texts.
fn spaced(alloc: Global, front: &[u8], blanks: usize, rest: &[u8]) -> Result<Vec<u8>, Fail> {
    let mut body = Vec::from_slice(alloc, front)?;
    body.resize(front.len().saturating_add(blanks), b' ')?;
    body.extend_from_slice(rest)?;
    Ok(body)
}

/// What has to be answered for a text behind white space, or before it.
fn is_answered(
    alloc: Global,
    front: &[u8],
    blanks: usize,
    rest: &[u8],
    answer: Answer,
) -> Result<bool, Fail> {
    let body = spaced(alloc, front, blanks, rest)?;
    let found = show_body(alloc, body.as_slice(), 65536, None, None)?;
    Ok(is_shown(&found, answer, b""))
}

const OBJECT: &[u8] = b"Error { code = 7; message = \"x\"; }";

/// Behind an object each byte is judged, however far it is. The object itself ends within its limit.
#[test]
fn an_object_is_long(rt: HostRuntime) -> Result<(), Fail> {
    let object = Answer::Object(7, b"x");
    let alloc = rt.alloc();
    assert!(rt; is_answered(alloc, OBJECT, 70000, b"", object)?);
    assert!(rt; is_answered(alloc, OBJECT, 70000, b";", object)?);
    let bad = Answer::Wrong(Bad::BadError, 70035);
    assert!(rt; is_answered(alloc, OBJECT, 70000, b";;", bad)?);
    assert!(rt; is_answered(alloc, b"", 65502, OBJECT, object)?);
    let far = Answer::Wrong(Bad::BadError, 65536);
    assert!(rt; is_answered(alloc, b"", 65503, OBJECT, far)?);
    Ok(())
}

/// White space before the first word counts to the limit of a DDS, and the first word decides all the same.
#[test]
fn white_space_is_long(rt: HostRuntime) -> Result<(), Fail> {
    let alloc = rt.alloc();
    let object = Answer::Wrong(Bad::BadError, 65536);
    assert!(rt; is_answered(alloc, b"", 16777216, OBJECT, object)?);
    let text = Answer::Wrong(Bad::BadDds, 16777216);
    assert!(rt; is_answered(alloc, b"", 16777216, b"Dataset {", text)?);
    assert!(rt; is_answered(alloc, b"", 16777216, b"Err", text)?);
    assert!(rt; is_answered(alloc, b"", 16777216, b"", text)?);
    let cut = Answer::Wrong(Bad::Cut, 16777215);
    assert!(rt; is_answered(alloc, b"", 16777215, b"", cut)?);
    Ok(())
}

/// Whether that is answered for a reply whose body is so many of a byte, and then this, and nothing is put.
fn is_told(
    alloc: Global,
    kind: Kind,
    byte: u8,
    count: usize,
    rest: &[u8],
    answer: Answer,
) -> Result<bool, Fail> {
    let mut reply = Vec::from_slice(alloc, b"HTTP/1.1 200 OK\r\n\r\n")?;
    reply.resize(reply.len().saturating_add(count), byte)?;
    reply.extend_from_slice(rest)?;
    let found = read(alloc, reply.as_slice(), kind, 65536, None, None)?;
    Ok(is_shown(&found, answer, b""))
}

/// What is told of a first word that is long: an object behind white space, what begins a text of that kind and
/// other words behind the limit, and white space up to it.
fn expect_first_word<R: Abort>(
    rt: &R,
    alloc: Global,
    kind: Kind,
    begun: &[u8],
    bad: Bad,
) -> Result<(), Fail> {
    let object = Answer::Wrong(Bad::BadError, 65536);
    assert!(rt; is_told(alloc, kind, b' ', 16777216, OBJECT, object)?);
    let far = Answer::Wrong(bad, 16777216);
    for rest in [begun, b"Err" as &[u8], b"" as &[u8]] {
        assert!(rt; is_told(alloc, kind, b' ', 16777216, rest, far)?);
        assert!(rt; is_told(alloc, kind, b'A', 16777216, rest, far)?);
    }
    let cut = Answer::Wrong(Bad::Cut, 16777215);
    assert!(rt; is_told(alloc, kind, b' ', 16777215, b"", cut)?);
    assert!(rt; is_told(alloc, kind, b'A', 16777215, b"", cut)?);
    Ok(())
}

/// Of a DDS and of a DAS a first word is whole within the limit, or bad there.
#[test]
fn a_first_word_is_long(rt: HostRuntime) -> Result<(), Fail> {
    let alloc = rt.alloc();
    expect_first_word(&rt, alloc, Kind::Dds, b"Dataset {", Bad::BadDds)?;
    expect_first_word(&rt, alloc, Kind::Das, b"Attributes {", Bad::BadDas)
}

/// A Sequence of so many rows.
fn rows(alloc: Global, count: u32) -> Result<Vec<u8>, Fail> {
    let mut body = Vec::from_slice(alloc, b"Dataset { Sequence { Byte n; } q; } d; Data:\n")?;
    for row in 0..count {
        body.extend_from_slice(b"Z\0\0\0")?;
        body.extend_from_slice(&(row % 256).to_be_bytes())?;
    }
    body.extend_from_slice(b"\xa5\0\0\0")?;
    Ok(body)
}

/// Whether a text ends with another.
fn ends(text: &[u8], end: &[u8]) -> bool {
    text.len() >= end.len() && &text[text.len() - end.len()..] == end
}

/// Shows a million rows in a sink.
fn shown(alloc: Global, out: &mut MemSink) -> Result<Outcome, Fail> {
    let body = Bytes::from_vec(rows(alloc, 1000000)?);
    let mut source = SureSource::new(body, 65536);
    Ok(show_all(alloc, &mut source, out))
}

#[test]
fn a_million_rows_are_shown(rt: HostRuntime) -> Result<(), Fail> {
    let mut out = MemSink::new(rt.alloc(), 40000000, 65536, List::new(rt.alloc()))?;
    let outcome = shown(rt.alloc(), &mut out)?;
    assert!(rt; matches!(outcome, Outcome::Complete { bytes: 8000049 }));
    assert!(rt; ends(out.bytes(), b"q[999999].n = 63\ncomplete 8000049\n"));
    Ok(())
}
