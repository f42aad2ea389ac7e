use dap_http::{Arrived, BodyParts, Coding};
use dap_outside::SureSource;
use dap_types::{Bytes, Memory};
use reply_faults::{Bad, BadField};
use std::alloc::Global;
use std::test::Fail;

/// A coding, the bytes that came with the head, those left in the source, what the first `next` gives
/// (a part, the end or a fault) and how many bytes wait behind it.
type Row<'t> = (
    Coding,
    &'t [u8],
    &'t [u8],
    Result<Option<&'t [u8]>, (Bad, u64)>,
    usize,
);

/// Whether the first `next` gave this, with so many bytes behind it.
fn is_wanted(parts: &BodyParts, arrived: Arrived, row: Row<'_>) -> bool {
    let (_, _, _, wanted, behind) = row;
    let same = match (arrived, wanted) {
        (Arrived::Part, Ok(Some(part))) => parts.part() == part,
        (Arrived::End, Ok(None)) => true,
        (Arrived::Refused(bad), Err((kind, place))) => bad == BadField { kind, place },
        _ => false,
    };
    same && parts.rest().len() == behind
}

fn gives(alloc: Global, row: Row<'_>) -> Result<bool, Memory> {
    let (coding, first, left, _, _) = row;
    if first.len() > 65_536 {
        return Ok(false);
    }
    let mut source = SureSource::new(Bytes::new(alloc, left)?, 4_096);
    let mut parts = BodyParts::new(alloc, coding, first)?;
    let arrived = parts.next(&mut source);
    Ok(is_wanted(&parts, arrived, row))
}

const FIRST_PARTS: [Row<'static>; 10] = [
    (
        Coding::Chunked,
        b"5",
        b"\r\nabcde\r\n0\r\n\r\n",
        Ok(Some(b"abcde")),
        7,
    ),
    (Coding::Chunked, b"5\r\nab", b"cde", Ok(Some(b"ab")), 0),
    (Coding::Chunked, b"0\r\n\r\nHTTP", b"/1.1", Ok(None), 4),
    (Coding::Chunked, b"", b"0\r\n", Err((Bad::Cut, 0)), 0),
    (Coding::Chunked, b"x", b"", Err((Bad::BadChunk, 0)), 1),
    (Coding::Length(3), b"abcd", b"ef", Ok(Some(b"abc")), 1),
    (Coding::Length(3), b"", b"", Err((Bad::Cut, 0)), 0),
    (Coding::Length(0), b"GET", b"x", Ok(None), 3),
    (Coding::ToEnd, b"", b"ab", Ok(Some(b"ab")), 0),
    (Coding::ToEnd, b"", b"", Ok(None), 0),
];

#[test]
fn the_first_part_of_a_body_is_lent(rt: HostRuntime) -> Result<(), Fail> {
    for row in FIRST_PARTS {
        assert!(rt; gives(rt.alloc(), row)?);
    }
    Ok(())
}
