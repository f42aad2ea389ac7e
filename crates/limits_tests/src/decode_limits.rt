//! Bodies of many rows and of a long text, decoded whole.

use crate::building::{append_times, append_words, sum_of};
use crate::expecting::expect;
use crate::table_limits::TALL;
use dap_types::{List, Memory, Tree, Value};
use std::alloc::Global;
use std::process::Abort;
use std::test::Fail;
use xdr_decode::decode_all;

/// The DDS of a tall table.
pub const TALL_DDS: &[u8] = b"Dataset {\n    Sequence {\n        Int32 n;\n    } t;\n} t.csv;\n";

/// The body of a tall table.
pub fn tall_body(alloc: Global, rows: u32) -> Result<Vec<u8>, Memory> {
    let mut body = Vec::from_slice(alloc, TALL_DDS)?;
    body.extend_from_slice(b"Data:\n")?;
    for number in 0..rows {
        append_words(&mut body, &[0x5a000000, number])?;
    }
    append_words(&mut body, &[0xa5000000])?;
    Ok(body)
}

/// What a cell comes to: its number, or the sum of the bytes of its text.
fn cell_sum(cell: &Tree) -> u64 {
    match cell {
        Tree::One(Value::Whole(number)) => number.unsigned_abs(),
        Tree::One(Value::Text(text)) => sum_of(text.bytes()),
        _ => 0,
    }
}

/// How many rows of one cell there are, and what the cells come to.
fn rows_seen(tree: &Tree) -> (u32, u64) {
    let Tree::Many(rows) = tree else {
        return (0, 0);
    };
    let mut count = 0u32;
    let mut sum = 0u64;
    for row in rows.items() {
        if let Tree::Many(cells) = row {
            if let [cell] = cells.items() {
                count = count.wrapping_add(1);
                sum = sum.wrapping_add(cell_sum(cell));
            }
        }
    }
    (count, sum)
}

/// The values of the body.
fn decoded<R: Abort>(rt: &R, alloc: Global, body: &[u8]) -> List<Tree> {
    let Ok(filled) = decode_all(alloc, body) else {
        panic!(rt; "not decoded");
    };
    filled.values
}

/// The value that stands alone.
fn alone<'a, R: Abort>(rt: &R, values: &'a [Tree]) -> &'a Tree {
    let [tree] = values else {
        panic!(rt; "not one value");
    };
    tree
}

fn expect_rows<R: Abort>(rt: &R, alloc: Global, rows: u32) -> Result<(), Fail> {
    let values = decoded(rt, alloc, &tall_body(alloc, rows)?);
    let sum = u64::from(rows).saturating_sub(1) * u64::from(rows) / 2;
    expect(rt, rows_seen(alone(rt, values.items())), (rows, sum));
    Ok(())
}

/// A body of a text of so many bytes, a multiple of four.
fn text_body(alloc: Global, length: u32) -> Result<Vec<u8>, Memory> {
    let mut body = Vec::from_slice(alloc, b"Dataset {\n    String s;\n} f;\nData:\n")?;
    append_words(&mut body, &[length])?;
    append_times(&mut body, b"x", length as usize)?;
    Ok(body)
}

fn expect_text<R: Abort>(rt: &R, alloc: Global, length: u32) -> Result<(), Fail> {
    let values = decoded(rt, alloc, &text_body(alloc, length)?);
    let sum = u64::from(length) * u64::from(b'x');
    expect(rt, cell_sum(alone(rt, values.items())), sum);
    Ok(())
}

#[test]
fn many_rows_and_a_long_text_are_decoded(rt: HostRuntime) -> Result<(), Fail> {
    expect_rows(&rt, rt.alloc(), TALL)?;
    expect_text(&rt, rt.alloc(), 16_777_216)
}
