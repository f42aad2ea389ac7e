use crate::tests::dds::pushing::{expect_step, push};
use crate::tests::expecting::expect;
use dap_types::{Bytes, Dataset, Memory};
use dds_text::{DdsReader, DdsStep, print};
use std::alloc::Global;
use std::process::Abort;
use std::test::Fail;

/// Texts as libdap prints them, but for the line feed behind the last semicolon.
const PRINTED: [&str; 4] = [
    "Dataset {\n    Byte b;\n    Int16 i;\n    UInt16 u;\n    Int32 j;\n    UInt32 k;\n    Float32 f;\n    Float64 d;\n    String s;\n    Url l;\n} all.nc;",
    "Dataset {\n    Float32 plain[2][3];\n    Int32 named[time = 0][lat = 17];\n} arrays;",
    "Dataset {\n    Grid {\n      Array:\n        Int16 g[lat = 1][lon = 2];\n      Maps:\n        Int32 lat[lat = 1];\n        Int32 lon[lon = 2];\n    } g;\n} g.nc;",
    "Dataset {\n    Structure {\n        Sequence {\n            String station;\n            Int32 depth;\n        } casts;\n        Structure {\n        } none;\n    } cruise;\n    Structure {\n    } depth;\n} q;",
];

/// Texts in other layouts, and as they are printed.
const OTHERS: [(&[u8], &[u8]); 8] = [
    (b"dataset{}d;", b"Dataset {\n} d;\n"),
    (
        b"\t\r\n DATASET\t{\rbyte\n\tb ; uRL u;}\t\r\n d\n;",
        b"Dataset {\n    Byte b;\n    Url u;\n} d;\n",
    ),
    (
        b"Dataset{Int32 Int32;Int32 grid;Int32 a\xff\x80[b\xe9=3];}Dataset;",
        b"Dataset {\n    Int32 Int32;\n    Int32 grid;\n    Int32 a\xff\x80[b\xe9 = 3];\n} Dataset;\n",
    ),
    (
        b"Dataset{Int32 a[01];}d;",
        b"Dataset {\n    Int32 a[1];\n} d;\n",
    ),
    (
        b"Dataset{Int32 a[ x = 3 ][0000000007][2147483647];}d;",
        b"Dataset {\n    Int32 a[x = 3][7][2147483647];\n} d;\n",
    ),
    (
        b"Dataset{Int32 a[1=2][x=2][x=2];}d;",
        b"Dataset {\n    Int32 a[1 = 2][x = 2][x = 2];\n} d;\n",
    ),
    (
        b"Dataset{GRID{ARRAY:Byte a[x=1];MAPS:Byte x[y=1];}a;SEQUENCE{Byte a;}b;STRUCTURE{Byte a;}c;}d;",
        b"Dataset {\n    Grid {\n      Array:\n        Byte a[x = 1];\n      Maps:\n        Byte x[y = 1];\n    } a;\n    Sequence {\n        Byte a;\n    } b;\n    Structure {\n        Byte a;\n    } c;\n} d;\n",
    ),
    (
        b"Dataset{Sequence{}s;}d;",
        b"Dataset {\n    Sequence {\n    } s;\n} d;\n",
    ),
];

/// Whether this is said behind a piece.
fn says(reader: &mut DdsReader, piece: &[u8], step: DdsStep) -> Result<bool, Memory> {
    Ok(push(reader, piece)? == step)
}

/// Pushes the text in two pieces. The dataset has to end with it, and at no byte before.
fn read(alloc: Global, text: &[u8], cut: usize) -> Result<Option<Dataset>, Memory> {
    let (front, left) = text.split_at(cut.min(text.len()));
    let mut reader = DdsReader::new(alloc, 7);
    let is_read = says(&mut reader, front, DdsStep::More)?
        && says(&mut reader, left, DdsStep::Done { used: left.len() })?
        && says(&mut reader, text, DdsStep::Done { used: 0 })?;
    if is_read {
        return Ok(reader.dataset());
    }
    Ok(None)
}

fn read_back(alloc: Global, text: &[u8], cut: usize) -> Result<Bytes, Fail> {
    let dataset = read(alloc, text, cut)?.ok_or("not read")?;
    Ok(print(alloc, &dataset)?)
}

/// The text is read in two pieces, and printed so.
fn expect_back<R: Abort>(
    rt: &R,
    alloc: Global,
    text: &[u8],
    cut: usize,
    printed: &[u8],
) -> Result<(), Fail> {
    expect(rt, read_back(alloc, text, cut)?.bytes(), printed);
    Ok(())
}

/// The text is read in any two pieces, and printed so.
fn expect_read<R: Abort>(rt: &R, alloc: Global, text: &[u8], printed: &[u8]) -> Result<(), Fail> {
    for cut in 0..text.len() {
        expect_back(rt, alloc, text, cut, printed)?;
    }
    Ok(())
}

/// The text is read, and printed as it is, with a line feed behind it.
fn expect_same<R: Abort>(rt: &R, alloc: Global, text: &[u8]) -> Result<(), Fail> {
    let mut line = Vec::from_slice(alloc, text)?;
    line.push(b'\n')?;
    expect_read(rt, alloc, text, &line)
}

#[test]
fn texts_are_read_in_two_pieces(rt: HostRuntime) -> Result<(), Fail> {
    let alloc = rt.alloc();
    for text in PRINTED {
        expect_same(&rt, alloc, text.as_bytes())?;
    }
    for (text, printed) in OTHERS {
        expect_read(&rt, alloc, text, printed)?;
    }
    Ok(())
}

fn dataset_of(reader: DdsReader) -> Result<Dataset, Fail> {
    Ok(reader.dataset().ok_or("no dataset")?)
}

/// Behind the end of a dataset no byte is used, and none is looked at.
#[test]
fn bytes_behind_the_end_are_left(rt: HostRuntime) -> Result<(), Fail> {
    let mut reader = DdsReader::new(rt.alloc(), 0);
    let text = b"Dataset { Int32 a; } f;\nData:\n\0\0\0\x05";
    expect_step(&rt, &mut reader, text, DdsStep::Done { used: 23 })?;
    expect_step(&rt, &mut reader, b"}", DdsStep::Done { used: 0 })?;
    let dataset = dataset_of(reader)?;
    expect(&rt, dataset.name.bytes(), b"f");
    expect(&rt, dataset.members.items().len(), 1);
    Ok(())
}
