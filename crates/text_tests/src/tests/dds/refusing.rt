use crate::tests::dds::pushing::{expect_step, push};
use crate::tests::expecting::expect;
use dap_types::Memory;
use dds_text::{DdsReader, DdsStep};
use std::alloc::Global;
use std::process::Abort;
use std::test::Fail;

/// Tokens that the grammar does not let stand, outside of what has parts: each row is a good front, and
/// what stands from its bad token on.
const OUTSIDE: [(&str, &str); 21] = [
    ("", "Data { } d;"),
    ("", "{ } d;"),
    ("", "Datasets { } d;"),
    ("Dataset ", "[ } d;"),
    ("Dataset ", "d { } d;"),
    ("Dataset { ", "Int a; } d;"),
    ("Dataset { ", "Dataset { } e; } d;"),
    ("Dataset { ", "; } d;"),
    ("Dataset { Int32 ", "; } d;"),
    ("Dataset { Int32 ", "[3]; } d;"),
    ("Dataset { Int32 a ", "b; } d;"),
    ("Dataset { Int32 a", ", b; } d;"),
    ("Dataset { Int32 a[1]; Int32 b[1]", ", c; } d;"),
    ("Dataset { Int32 a", "= 3; } d;"),
    ("Dataset { Int32 a[", "]; } d;"),
    ("Dataset { Int32 a[3 ", "3]; } d;"),
    ("Dataset { Int32 a[x = ", "]; } d;"),
    ("Dataset { Int32 a[x = 3 ", "= 3]; } d;"),
    ("Dataset { } ", "; "),
    ("Dataset { } d ", "e;"),
    ("Dataset { } d ", "} "),
];

/// The same inside of what has parts.
const INSIDE: [(&str, &str); 16] = [
    ("Dataset { Structure ", "s { } s; } d;"),
    ("Dataset { Structure { } ", "; } d;"),
    ("Dataset { Structure { } s ", "} d;"),
    ("Dataset { Structure { } s ", "[1]; } d;"),
    ("Dataset { Sequence { Int32 a", "[1]; } s; } d;"),
    ("Dataset { Sequence { ", "Sequence { } t; } s; } d;"),
    ("Dataset { Sequence { ", "; } s; } d;"),
    ("Dataset { Grid { ", "} g; } d;"),
    ("Dataset { Grid { ", "Int32 a[1]; } g; } d;"),
    ("Dataset { Grid { Array ", "Int32 a[1]; } g; } d;"),
    ("Dataset { Grid { Array: ", "Structure { } s; } g; } d;"),
    ("Dataset { Grid { Array: Int32 a", "; Maps: } g; } d;"),
    ("Dataset { Grid { Array: Int32 a[1]; ", "} g; } d;"),
    (
        "Dataset { Grid { Array: Int32 a[1]; Maps ",
        "Int32 x[1]; } g; } d;",
    ),
    (
        "Dataset { Grid { Array: Int32 a[1]; Maps: ",
        "x[1]; } g; } d;",
    ),
    (
        "Dataset { Grid { Array: Int32 a[1]; Maps: Int32 x",
        "; } g; } d;",
    ),
];

/// Words that are no sizes.
const SIZES: [(&str, &str); 8] = [
    ("Dataset { Int32 a[x", "]; } d;"),
    ("Dataset { Int32 a[x = ", "y]; } d;"),
    ("Dataset { Int32 a[2147483648", "]; } d;"),
    ("Dataset { Int32 a[x = ", "2147483648]; } d;"),
    ("Dataset { Int32 a[12345678901", "]; } d;"),
    ("Dataset { Int32 a[00000000001", "]; } d;"),
    ("Dataset { Int32 a[-1", "]; } d;"),
    ("Dataset { Int32 a[x = ", "+1]; } d;"),
];

/// Names that repeat one of their level.
const NAMES: [(&str, &str); 9] = [
    ("Dataset {\n    Int32 a;\n    Int32 ", "a;\n} f;"),
    ("Dataset { Int32 a; Int32 b; Byte ", "a[3]; } d;"),
    ("Dataset { Int32 a; Structure { Int32 a; } ", "a; } d;"),
    (
        "Dataset { Structure { Int32 b; Int32 c; Int32 ",
        "b; } a; } d;",
    ),
    (
        "Dataset { Sequence { Int32 b; Int32 c; Int32 ",
        "c; } a; } d;",
    ),
    ("Dataset { Int32 s; Sequence { } ", "s; } d;"),
    (
        "Dataset { Grid { Array: Int32 a[2]; Maps: Int32 ",
        "a[2]; } g; } d;",
    ),
    (
        "Dataset { Grid { Array: Int32 a[2][2]; Maps: Int32 x[2]; Int32 ",
        "x[2]; } g; } d;",
    ),
    (
        "Dataset { Int32 g; Grid { Array: Int32 a[2]; Maps: Int32 x[2]; } ",
        "g; } d;",
    ),
];

/// Maps of another size or rank, one too few, and one too many.
const MAPS: [(&str, &str); 7] = [
    (
        "Dataset { Grid { Array: Int32 a[2]; Maps: Int32 x[3",
        "]; } g; } d;",
    ),
    (
        "Dataset { Grid { Array: Int32 a[2]; Maps: Int32 x[x = ",
        "3]; } g; } d;",
    ),
    (
        "Dataset { Grid { Array: Int32 a[2][3]; Maps: Int32 x[2]; Int32 y[y = ",
        "2]; } g; } d;",
    ),
    (
        "Dataset { Grid { Array: Int32 a[2]; Maps: Int32 x[2]",
        "[1]; } g; } d;",
    ),
    ("Dataset { Grid { Array: Int32 a[2]; Maps: ", "} g; } d;"),
    (
        "Dataset { Grid { Array: Int32 a[2][3]; Maps: Int32 x[2]; ",
        "} g; } d;",
    ),
    (
        "Dataset { Grid { Array: Int32 a[2]; Maps: Int32 x[2]; ",
        "Int32 y[2]; } g; } d;",
    ),
];

/// The 33rd dimension, and members of depth 17.
const LIMITS: [(&str, &str); 5] = [
    (
        "Dataset { Byte a[1][1][1][1][1][1][1][1][1][1][1][1][1][1][1][1][1][1][1][1][1][1][1][1][1][1][1][1][1][1][1][1]",
        "[1]; } d;",
    ),
    (
        "Dataset{Structure{Structure{Structure{Structure{Structure{Structure{Structure{Structure{Structure{Structure{Structure{Structure{Structure{Structure{Structure{Structure{",
        "Int32 a;",
    ),
    (
        "Dataset{Structure{Structure{Structure{Structure{Structure{Structure{Structure{Structure{Structure{Structure{Structure{Structure{Structure{Structure{Structure{Structure{",
        "Structure {",
    ),
    (
        "Dataset{Structure{Structure{Structure{Structure{Structure{Structure{Structure{Structure{Structure{Structure{Structure{Structure{Structure{Structure{Structure{Sequence{",
        "Int32 a;",
    ),
    (
        "Dataset{Structure{Structure{Structure{Structure{Structure{Structure{Structure{Structure{Structure{Structure{Structure{Structure{Structure{Structure{Structure{Grid{Array:",
        "Int32 a[1];",
    ),
];

/// What is said behind each of two pieces. Places count from 100.
fn steps(alloc: Global, text: &[u8], cut: usize) -> Result<(DdsStep, DdsStep), Memory> {
    let (front, left) = text.split_at(cut.min(text.len()));
    let mut reader = DdsReader::new(alloc, 100);
    let first = push(&mut reader, front)?;
    let second = push(&mut reader, left)?;
    Ok((first, second))
}

/// Whether the second of two steps tells the bad token, and the first one does or waits for more. It does not
/// where it comes too soon.
fn tells(steps: (DdsStep, DdsStep), bad: DdsStep, too_soon: bool) -> bool {
    let (first, second) = steps;
    let fits = if first == bad {
        !too_soon
    } else {
        first == DdsStep::More
    };
    fits && second == bad
}

/// Whether the bad token is told however the text is cut in two, and no sooner than it is whole.
fn is_told(alloc: Global, text: &[u8], good: &str) -> Result<bool, Memory> {
    let bad = DdsStep::Bad {
        place: 100 + good.len() as u64,
    };
    for cut in 0..text.len() {
        if !tells(steps(alloc, text, cut)?, bad, cut <= good.len()) {
            return Ok(false);
        }
    }
    Ok(true)
}

/// Whether the bad token of a row is told so.
fn row_is_told(alloc: Global, good: &str, rest: &str) -> Result<bool, Memory> {
    let mut text = Vec::from_slice(alloc, good.as_bytes())?;
    text.extend_from_slice(rest.as_bytes())?;
    is_told(alloc, text.as_slice(), good)
}

/// The first row whose bad token is not told so.
fn untold(alloc: Global, rows: &[(&str, &str)]) -> Result<Option<usize>, Memory> {
    for (row, (good, rest)) in rows.iter().enumerate() {
        if !row_is_told(alloc, good, rest)? {
            return Ok(Some(row));
        }
    }
    Ok(None)
}

/// The bad token of each row is told so.
fn expect_told<R: Abort>(rt: &R, alloc: Global, rows: &[(&str, &str)]) -> Result<(), Fail> {
    expect(rt, untold(alloc, rows)?, None);
    Ok(())
}

#[test]
fn the_first_bad_token_is_told(rt: HostRuntime) -> Result<(), Fail> {
    expect_told(&rt, rt.alloc(), &OUTSIDE)?;
    expect_told(&rt, rt.alloc(), &INSIDE)?;
    expect_told(&rt, rt.alloc(), &SIZES)
}

#[test]
fn what_does_not_fit_is_told(rt: HostRuntime) -> Result<(), Fail> {
    expect_told(&rt, rt.alloc(), &NAMES)?;
    expect_told(&rt, rt.alloc(), &MAPS)?;
    expect_told(&rt, rt.alloc(), &LIMITS)
}

/// A word is whole once the byte behind it is there.
#[test]
fn a_word_is_whole_once_it_ends(rt: HostRuntime) -> Result<(), Fail> {
    let mut reader = DdsReader::new(rt.alloc(), 0);
    let front = b"Dataset {\n    Int32 a;\n    Int32 a";
    let bad = DdsStep::Bad { place: 33 };
    expect_step(&rt, &mut reader, front, DdsStep::More)?;
    expect_step(&rt, &mut reader, b"", DdsStep::More)?;
    expect_step(&rt, &mut reader, b";", bad)?;
    expect_step(&rt, &mut reader, b"} f;", bad)?;
    assert!(rt; reader.dataset().is_none());
    Ok(())
}

/// No text has more than 16,777,216 bytes.
#[test]
fn a_text_has_a_limit(rt: HostRuntime) -> Result<(), Fail> {
    let mut reader = DdsReader::new(rt.alloc(), 5);
    let piece = [b' '; 4096];
    for _ in 0..4095 {
        expect_step(&rt, &mut reader, &piece, DdsStep::More)?;
    }
    let bad = DdsStep::Bad { place: 16_777_221 };
    expect_step(&rt, &mut reader, &piece[1..], DdsStep::More)?;
    expect_step(&rt, &mut reader, &piece, bad)?;
    expect_step(&rt, &mut reader, b"Dataset", bad)
}
