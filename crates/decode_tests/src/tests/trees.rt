use crate::tests::cases::{MIXED, MIXED_VALUES, TABLE, TABLE_VALUES};
use crate::tests::expecting::expect;
use crate::tests::feeding::body;
use dap_types::{BaseType, Column, Dataset, Decl, Memory, Tree, Value};
use std::alloc::Global;
use std::process::Abort;
use std::test::Fail;
use text_lines::put;
use xdr_decode::decode_all;

/// Writes a value: a number, a text between quotes, or bits behind a letter.
fn put_value(out: &mut Vec<u8>, value: &Value) -> Result<(), Memory> {
    let mut digits = itoa::Buffer::new();
    match value {
        Value::Whole(whole) => put(out, digits.format(*whole).as_bytes()),
        Value::Text(text) => {
            put(out, b"'")?;
            put(out, text.bytes())?;
            put(out, b"'")
        }
        Value::Bits32(bits) => {
            put(out, b"f")?;
            put(out, digits.format(*bits).as_bytes())
        }
        Value::Bits64(bits) => {
            put(out, b"d")?;
            put(out, digits.format(*bits).as_bytes())
        }
    }
}

/// Writes trees, each behind a space.
#[cycle(writing)]
fn put_trees(out: &mut Vec<u8>, trees: &[Tree]) -> Result<(), Memory> {
    for tree in trees {
        put(out, b" ")?;
        put_tree(out, tree)?;
    }
    Ok(())
}

/// Writes a value, or trees in brackets.
#[cycle(writing)]
fn put_tree(out: &mut Vec<u8>, tree: &Tree) -> Result<(), Memory> {
    match tree {
        Tree::One(value) => put_value(out, value),
        Tree::Many(trees) => {
            put(out, b"[")?;
            put_trees(out, trees.items())?;
            put(out, b"]")
        }
    }
}

/// The values of a dataset, written so.
fn written(alloc: Global, text: &[u8], values: &[u8]) -> Result<Vec<u8>, Fail> {
    let body = body(alloc, text, values)?;
    let filled = decode_all(alloc, body.as_slice())?;
    let mut out = Vec::new(alloc);
    put_trees(&mut out, filled.values.items())?;
    Ok(out)
}

/// The values of a dataset are written so.
fn expect_written<R: Abort>(
    rt: &R,
    alloc: Global,
    text: &[u8],
    values: &[u8],
    expected: &[u8],
) -> Result<(), Fail> {
    expect(rt, written(alloc, text, values)?.as_slice(), expected);
    Ok(())
}

/// A text, values of each kind of variable, and how they are written.
const ROWS: [(&[u8], &[u8], &[u8]); 17] = [
    (b"Dataset { Byte q; } f;", b"\xff\xff\xff\x80", b" 128"),
    (b"Dataset { Int16 q; } f;", b"\xff\xff\x80\0", b" -32768"),
    (b"Dataset { UInt16 q; } f;", b"\0\0\xff\xff", b" 65535"),
    (b"Dataset { Int32 q; } f;", b"\x80\0\0\0", b" -2147483648"),
    (
        b"Dataset { UInt32 q; } f;",
        b"\xff\xff\xff\xff",
        b" 4294967295",
    ),
    (b"Dataset { Float32 q; } f;", b"\0\0\x01\0", b" f256"),
    (
        b"Dataset { Float64 q; } f;",
        b"\0\0\0\x01\0\0\0\0",
        b" d4294967296",
    ),
    (
        b"Dataset { String q; Url u; } f;",
        b"\0\0\0\x02ab\0\0\0\0\0\0",
        b" 'ab' ''",
    ),
    (
        b"Dataset { Int32 q[2][2]; } f;",
        b"\0\0\0\x04\0\0\0\x04\0\0\0\x01\0\0\0\x02\0\0\0\x03\0\0\0\x04",
        b" [ [ 1 2] [ 3 4]]",
    ),
    (
        b"Dataset { Byte q[2][0]; } f;",
        b"\0\0\0\0\0\0\0\0",
        b" [ [] []]",
    ),
    (
        b"Dataset { Byte q[5]; } f;",
        b"\0\0\0\x05\0\0\0\x05\x01\x02\xff\0\x07\0\0\0",
        b" [ 1 2 255 0 7]",
    ),
    (
        b"Dataset { String q[2]; } f;",
        b"\0\0\0\x02\0\0\0\x02ab\0\0\0\0\0\x04wxyz",
        b" [ 'ab' 'wxyz']",
    ),
    (
        b"Dataset { Sequence { Byte b; } q; } f;",
        b"\xa5\0\0\0",
        b" []",
    ),
    (TABLE, TABLE_VALUES, b" [ [ 'A1' 5] [ 'B22' -7]]"),
    (b"Dataset { Structure { } s; } f;", b"", b" []"),
    (b"Dataset { } f;", b"", b""),
    (
        MIXED,
        MIXED_VALUES,
        b" [ -2 [] [ [ [ 1 2 3] [ 4 5 -1]] [ d4607182418800017408 d0] [ 1 128 255]]] 'a\"\x01' [ '' '\\wxy'] [ [ 65535]] f1075838976 4294967295 128 []",
    ),
];

#[test]
fn values_are_trees(rt: HostRuntime) -> Result<(), Fail> {
    for (text, values, expected) in ROWS {
        expect_written(&rt, rt.alloc(), text, values, expected)?;
    }
    Ok(())
}

fn expect_column<R: Abort>(rt: &R, column: &Column, name: &[u8], base: BaseType) {
    expect(rt, column.name.bytes(), name);
    expect(rt, column.base, base);
}

/// The dataset of a table.
fn table(alloc: Global) -> Result<Dataset, Fail> {
    let body = body(alloc, TABLE, TABLE_VALUES)?;
    Ok(decode_all(alloc, body.as_slice())?.dataset)
}

#[test]
fn a_dataset_is_read(rt: HostRuntime) -> Result<(), Fail> {
    let dataset = table(rt.alloc())?;
    expect(&rt, dataset.name.bytes(), b"buoys.csv");
    let [Decl::Sequence(name, columns)] = dataset.members.items() else {
        return Err(Fail::new("no Sequence"));
    };
    expect(&rt, name.bytes(), b"buoys");
    let [station, depth] = columns.items() else {
        return Err(Fail::new("no two columns"));
    };
    expect_column(&rt, station, b"station", BaseType::Text);
    expect_column(&rt, depth, b"depth", BaseType::Int32);
    Ok(())
}
