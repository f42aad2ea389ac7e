use crate::tests::expecting::expect;
use netcdf_source::{HeaderRefusal, read_header};
use std::alloc::Global;
use std::process::Abort;
use std::test::Fail;

/// A file with the variable `v` of Int over the dimensions `y` (3) and `x` (4).
const FILE: [u32; 36] = [
    0x4344_4601,
    0,
    0x0a,
    2,
    1,
    0x7900_0000,
    3,
    1,
    0x7800_0000,
    4,
    0,
    0,
    0x0b,
    1,
    1,
    0x7600_0000,
    2,
    0,
    1,
    0,
    0,
    4,
    0x30,
    0x60,
    0,
    1,
    2,
    3,
    4,
    5,
    6,
    7,
    8,
    9,
    10,
    11,
];

/// The bytes of words, the one at `place` changed.
fn changed(alloc: Global, words: &[u32], place: usize, word: u32) -> Result<Vec<u8>, Fail> {
    let mut bytes = Vec::new(alloc);
    for (i, w) in words.iter().enumerate() {
        let number = if i == place / 4 { word } else { *w };
        bytes.extend_from_slice(&number.to_be_bytes())?;
    }
    Ok(bytes)
}

/// The refusal of a small file.
fn refusal(alloc: Global, bytes: &[u8]) -> Option<HeaderRefusal> {
    if bytes.len() > 1048576 {
        return None;
    }
    read_header(alloc, bytes, bytes.len() as u64).err()
}

/// The first words of a file alone, whose last one is a count with nothing behind it.
fn counted(alloc: Global, words: &[u32]) -> Result<Option<HeaderRefusal>, Fail> {
    let bytes = changed(alloc, words, 1000, 0)?;
    Ok(refusal(alloc, &bytes))
}

/// The refusal of a header that does not end within its first 1,048,576 bytes, those of a file of
/// that length.
fn endless(alloc: Global, file_len: u64) -> Result<Option<HeaderRefusal>, Fail> {
    let words = [
        0x4344_4601,
        0,
        0,
        0,
        0x0c,
        1,
        1,
        0x6100_0000,
        2,
        0x7fff_ffff,
    ];
    let mut bytes = changed(alloc, &words, 1000, 0)?;
    bytes.resize(1048576, 0)?;
    if bytes.len() as u64 != file_len.min(1048576) || file_len >= 1 << 63 {
        return Err("the front of the file")?;
    }
    Ok(read_header(alloc, &bytes, file_len).err())
}

/// A word of the file is changed: its place, the word, the refusal, and the length from which a
/// front of the file is refused so.
type Change = (usize, u32, HeaderRefusal, usize);

const CHANGES: [Change; 14] = [
    (0, 0x4344_4603, HeaderRefusal::NotCdf, 0),
    (4, 0xffff_ffff, HeaderRefusal::Streaming, 8),
    (4, 0x8000_0000, HeaderRefusal::BadField { place: 4 }, 8),
    (8, 0x0b, HeaderRefusal::BadField { place: 8 }, 12),
    (8, 0, HeaderRefusal::BadField { place: 12 }, 16),
    (12, 0xffff_ffff, HeaderRefusal::BadField { place: 40 }, 44),
    (28, 257, HeaderRefusal::BadField { place: 28 }, 32),
    (32, 0x7900_0000, HeaderRefusal::BadField { place: 28 }, 36),
    (64, 33, HeaderRefusal::BadField { place: 64 }, 68),
    (68, 2, HeaderRefusal::BadField { place: 68 }, 72),
    (84, 7, HeaderRefusal::BadField { place: 84 }, 88),
    (92, 0x7fff_ffff, HeaderRefusal::PastEnd { var: 1 }, 96),
    (92, 0x61, HeaderRefusal::PastEnd { var: 1 }, 96),
    (92, 0x60, HeaderRefusal::PastEnd { var: 1 }, 96),
];

/// What a front of that length is refused for.
fn refusal_at(len: usize, whole: usize, refusal: HeaderRefusal) -> HeaderRefusal {
    if len < 4 {
        HeaderRefusal::NotCdf
    } else if len < whole {
        HeaderRefusal::HeaderCut
    } else {
        refusal
    }
}

/// A front of the file with a change is refused.
fn expect_front_refused<R: Abort>(rt: &R, alloc: Global, change: Change, front: &[u8]) {
    let (place, _, expected, whole) = change;
    let len = front.len();
    let wanted = Some(refusal_at(len, whole, expected));
    expect(
        rt,
        (place, len, refusal(alloc, front)),
        (place, len, wanted),
    );
}

/// The file with a change is refused, and so is each of its fronts.
fn expect_refused<R: Abort>(rt: &R, alloc: Global, change: Change) -> Result<(), Fail> {
    let (place, word, expected, _) = change;
    let bytes = changed(alloc, &FILE, place, word)?;
    for len in 0..bytes.len() {
        expect_front_refused(rt, alloc, change, &bytes[..len]);
    }
    let uncut = if word == 0x60 { None } else { Some(expected) };
    expect(rt, (place, refusal(alloc, &bytes)), (place, uncut));
    Ok(())
}

#[test]
fn changed_words_and_cuts_are_refused_at_their_place(rt: HostRuntime) -> Result<(), Fail> {
    for change in CHANGES {
        expect_refused(&rt, rt.alloc(), change)?;
    }
    Ok(())
}

#[test]
fn headers_without_an_end_are_refused(rt: HostRuntime) -> Result<(), Fail> {
    let alloc = rt.alloc();
    let cut = counted(alloc, &[0x4344_4601, 0, 0x0a, 0xffff_ffff])?;
    expect(&rt, cut, Some(HeaderRefusal::HeaderCut));
    let whole = endless(alloc, 1048576)?;
    expect(&rt, whole, Some(HeaderRefusal::HeaderCut));
    let longer = endless(alloc, 1048577)?;
    expect(&rt, longer, Some(HeaderRefusal::HeaderTooLong));
    Ok(())
}
