use crate::tests::expecting::expect;
use dap_http::{Coding, Unframed, Unframer};
use reply_faults::{Bad, BadField};
use std::alloc::{AllocError, Global};
use std::process::Abort;
use std::test::Fail;

/// The next answer for a piece, within a bound that no test reaches.
fn next<'p>(unframer: &mut Unframer, piece: &'p [u8]) -> Option<Unframed<'p>> {
    if unframer.used() > 1_000_000 || piece.len() > 1_000_000 {
        return None;
    }
    Some(unframer.next(piece))
}

/// What stands behind so many bytes.
fn behind(piece: &[u8], count: usize) -> &[u8] {
    match piece.get(count..) {
        Some(rest) => rest,
        None => b"",
    }
}

/// Adds what a piece has of the body, and answers how many bytes behind the body it holds.
fn feed(unframer: &mut Unframer, piece: &[u8], body: &mut Vec<u8>) -> Result<usize, AllocError> {
    let mut left = piece;
    for _ in 0..piece.len() + 1 {
        match next(unframer, left) {
            Some(Unframed::Part { bytes, used }) => {
                body.extend_from_slice(bytes)?;
                left = behind(left, used);
            }
            Some(Unframed::End { used }) => return Ok(left.len().saturating_sub(used)),
            _ => return Ok(0),
        }
    }
    Ok(0)
}

type Row<'t> = (&'t [u8], &'t [u8], Option<(Bad, u64)>, usize);

/// Whether a body ends so.
fn ends(unframer: &Unframer, fault: Option<(Bad, u64)>) -> bool {
    match (unframer.finish(), fault) {
        (Ok(()), None) => true,
        (Err(bad), Some((kind, place))) => bad == BadField { kind, place },
        _ => false,
    }
}

/// The body of an input in two pieces that are cut at a place, and how many bytes stand behind it.
fn unframed(
    alloc: Global,
    unframer: &mut Unframer,
    input: &[u8],
    cut: usize,
) -> Result<(Vec<u8>, usize), AllocError> {
    let (first, second) = match input.split_at_checked(cut) {
        Some(halves) => halves,
        None => (input, b"".as_slice()),
    };
    let mut body = Vec::new(alloc);
    let left = feed(unframer, first, &mut body)?;
    let last = feed(unframer, second, &mut body)?;
    Ok((body, left.saturating_add(last)))
}

/// A body is unframed so, in two pieces that are cut at a place.
fn expect_body<R: Abort>(
    rt: &R,
    alloc: Global,
    coding: Coding,
    row: Row<'_>,
    cut: usize,
) -> Result<(), Fail> {
    let (input, wanted, fault, behind) = row;
    let mut unframer = Unframer::new(coding);
    let (body, left) = unframed(alloc, &mut unframer, input, cut)?;
    expect(rt, body.as_slice(), wanted);
    assert!(rt; ends(&unframer, fault));
    assert!(rt; left >= behind);
    Ok(())
}

/// A body is unframed so, in any two pieces.
fn expect_unframed<R: Abort>(
    rt: &R,
    alloc: Global,
    coding: Coding,
    row: Row<'_>,
) -> Result<(), Fail> {
    for cut in 0..row.0.len() + 1 {
        expect_body(rt, alloc, coding, row, cut)?;
    }
    Ok(())
}

/// What stands in place of a chunk that is none, at the start.
const NO_CHUNK: Option<(Bad, u64)> = Some((Bad::BadChunk, 0));

const CHUNKED: [Row<'static>; 22] = [
    (b"3\r\nabc\r\n0\r\n\r\n", b"abc", None, 0),
    (b"3\r\nabc\r\n0\r\n\r\nmore", b"abc", None, 4),
    (
        b"1\r\na\r\n00000002;\r\nbc\r\n00000000\r\n\r\n",
        b"abc",
        None,
        0,
    ),
    (
        b"3 \t;x=\"1\"\r\nabc\r\n0\r\nA: b\r\n\rc\r\n\r\n",
        b"abc",
        None,
        0,
    ),
    (b"00000000A\r\n", b"", NO_CHUNK, 0),
    (b"3\nabc", b"", NO_CHUNK, 0),
    (b"3\rabc", b"", NO_CHUNK, 0),
    (b"3 x", b"", NO_CHUNK, 0),
    (b"3;\n", b"", NO_CHUNK, 0),
    (b";\r\n", b"", NO_CHUNK, 0),
    (b"\r\n", b"", NO_CHUNK, 0),
    (b"g", b"", NO_CHUNK, 0),
    (b"fFfFfFfF\r\na", b"a", Some((Bad::Cut, 1)), 0),
    (b"3\r\nabcX", b"abc", Some((Bad::BadChunk, 6)), 0),
    (b"3\r\nabc\rX", b"abc", Some((Bad::BadChunk, 6)), 0),
    (b"3\r\nabc\r\nx", b"abc", Some((Bad::BadChunk, 8)), 0),
    (b"", b"", Some((Bad::Cut, 0)), 0),
    (b"3", b"", Some((Bad::Cut, 0)), 0),
    (b"3\r\nab", b"ab", Some((Bad::Cut, 2)), 0),
    (b"3\r\nabc\r", b"abc", Some((Bad::Cut, 3)), 0),
    (b"0\r\n\r", b"", Some((Bad::Cut, 0)), 0),
    (b"0\r\nA\r\n", b"", Some((Bad::Cut, 0)), 0),
];

#[test]
fn chunks_are_read_in_any_two_pieces(rt: HostRuntime) -> Result<(), Fail> {
    for row in CHUNKED {
        expect_unframed(&rt, rt.alloc(), Coding::Chunked, row)?;
    }
    Ok(())
}

#[test]
fn a_body_cut_behind_any_byte_is_cut(rt: HostRuntime) -> Result<(), Fail> {
    let whole = b"3\r\nabc\r\n0\r\n\r\n".as_slice();
    for end in 0..whole.len() {
        if let (Some(part), Some(body)) = (
            whole.get(..end),
            b"abc".get(..end.saturating_sub(3).min(3)),
        ) {
            let fault = Some((Bad::Cut, body.len() as u64));
            expect_unframed(&rt, rt.alloc(), Coding::Chunked, (part, body, fault, 0))?;
        }
    }
    Ok(())
}

const OTHERS: [(Coding, Row<'static>); 6] = [
    (Coding::Length(3), (b"abc", b"abc", None, 0)),
    (Coding::Length(3), (b"abcdef", b"abc", None, 3)),
    (Coding::Length(3), (b"ab", b"ab", Some((Bad::Cut, 2)), 0)),
    (Coding::Length(0), (b"", b"", None, 0)),
    (Coding::ToEnd, (b"abc", b"abc", None, 0)),
    (Coding::ToEnd, (b"", b"", None, 0)),
];

#[test]
fn other_bodies_end_at_their_length_or_with_the_input(rt: HostRuntime) -> Result<(), Fail> {
    for (coding, row) in OTHERS {
        expect_unframed(&rt, rt.alloc(), coding, row)?;
    }
    Ok(())
}

/// A chunked body whose first line, or whose trailers, have so many bytes.
fn long(alloc: Global, front: &[u8], fill: usize, back: &[u8]) -> Result<Vec<u8>, AllocError> {
    let mut input = Vec::from_slice(alloc, front)?;
    for _ in 0..fill {
        input.push(b'x')?;
    }
    input.extend_from_slice(back)?;
    Ok(input)
}

#[test]
fn chunk_lines_and_trailers_have_limits(rt: HostRuntime) -> Result<(), Fail> {
    let rows: [(&[u8], usize, &[u8], Option<(Bad, u64)>); 4] = [
        (b"0;", 1_020, b"\r\n\r\n", None),
        (b"0;", 1_021, b"\r\n\r\n", Some((Bad::BadChunk, 0))),
        (b"0\r\n", 16_380, b"\r\n\r\n", None),
        (b"0\r\n", 16_381, b"\r\n\r\n", Some((Bad::BadChunk, 16_386))),
    ];
    for (front, fill, back, fault) in rows {
        let input = long(rt.alloc(), front, fill, back)?;
        let row = (input.as_slice(), b"".as_slice(), fault, 0);
        expect_body(&rt, rt.alloc(), Coding::Chunked, row, 7)?;
    }
    Ok(())
}
