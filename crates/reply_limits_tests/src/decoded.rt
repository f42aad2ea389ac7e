//! Bodies of many members and of large arrays, decoded whole.

use crate::making::{append_times, append_words, bytes_body};
use dap_types::{List, Memory, Tree, Value};
use std::alloc::Global;
use std::process::Abort;
use std::test::Fail;
use xdr_decode::decode_all;

/// A number, or one for a text.
fn value_of(tree: &Tree) -> u64 {
    match tree {
        Tree::One(Value::Whole(number)) => number.unsigned_abs(),
        Tree::One(Value::Text(text)) => text.bytes().len() as u64,
        _ => 0,
    }
}

/// How many values there are, and what they come to.
fn values_seen(trees: &[Tree]) -> (u32, u64) {
    let mut count = 0u32;
    let mut sum = 0u64;
    for tree in trees {
        count = count.wrapping_add(1);
        sum = sum.wrapping_add(value_of(tree));
    }
    (count, sum)
}

fn decoded<R: Abort>(rt: &R, alloc: Global, body: &[u8]) -> Result<List<Tree>, Fail> {
    let Ok(filled) = decode_all(alloc, body) else {
        panic!(rt; "not decoded");
    };
    Ok(filled.values)
}

/// So many Bytes, a multiple of 256, come to 127.5 times as much.
fn expect_members<R: Abort>(rt: &R, alloc: Global, members: u32) -> Result<(), Fail> {
    let trees = decoded(rt, alloc, &bytes_body(alloc, members)?)?;
    let sum = u64::from(members / 256) * 32_640;
    assert_eq!(rt; values_seen(trees.items()), (members, sum));
    Ok(())
}

/// The declaration of an array of a million elements, `Data:` and the counts.
fn array_head(alloc: Global, base: &[u8], counts: usize) -> Result<Vec<u8>, Memory> {
    let mut body = Vec::from_slice(alloc, b"Dataset {\n    ")?;
    body.extend_from_slice(base)?;
    body.extend_from_slice(b" v[x = 1000000];\n} f;\nData:\n")?;
    append_times(&mut body, &[0, 0x0f, 0x42, 0x40], counts)?;
    Ok(body)
}

fn expect_array<R: Abort>(rt: &R, alloc: Global, body: &[u8], sum: u64) -> Result<(), Fail> {
    let trees = decoded(rt, alloc, body)?;
    match trees.items() {
        [Tree::Many(elements)] => {
            assert_eq!(rt; values_seen(elements.items()), (1_000_000, sum));
        }
        _ => panic!(rt; "no array"),
    }
    Ok(())
}

/// A million numbers 7, and a million texts of one letter.
fn expect_arrays<R: Abort>(rt: &R, alloc: Global) -> Result<(), Fail> {
    let mut numbers = array_head(alloc, b"Int32", 2)?;
    append_times(&mut numbers, &[0, 0, 0, 7], 1_000_000)?;
    expect_array(rt, alloc, &numbers, 7_000_000)?;
    let mut texts = array_head(alloc, b"String", 1)?;
    append_times(&mut texts, &[0, 0, 0, 1, b'q', 0, 0, 0], 1_000_000)?;
    expect_array(rt, alloc, &texts, 1_000_000)
}

#[test]
fn many_members_and_large_arrays_are_decoded(rt: HostRuntime) -> Result<(), Fail> {
    expect_members(&rt, rt.alloc(), 999_936)?;
    expect_arrays(&rt, rt.alloc())
}
