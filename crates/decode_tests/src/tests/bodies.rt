use crate::tests::cases::{TABLE, TABLE_VALUES};
use crate::tests::expecting::expect;
use crate::tests::feeding::{body, expect_wrong, from};
use std::test::Fail;
use xdr_decode::Bad;

/// A body is cut at each of its bytes, and goes on with one byte more.
#[test]
fn a_body_is_cut(rt: HostRuntime) -> Result<(), Fail> {
    let mut whole = body(rt.alloc(), TABLE, TABLE_VALUES)?;
    expect(&rt, whole.len(), 138);
    for cut in 0..whole.len() {
        expect_wrong(
            &rt,
            rt.alloc(),
            &whole[..cut],
            from(0, Some((Bad::Cut, cut as u64))),
        )?;
    }
    expect_wrong(&rt, rt.alloc(), &whole, None)?;
    whole.push(0)?;
    expect_wrong(&rt, rt.alloc(), &whole, from(0, Some((Bad::Trailing, 138))))
}

/// Bodies, and what is wrong first, at its place in the body.
const BODIES: [(&[u8], Option<(Bad, u64)>); 14] = [
    (
        b"Dataset {\n    Byte q;\n} f;\nData:\r\n\xff\xff\xff\x80",
        None,
    ),
    (b"dataset{}f; \t\r\n Data:\n", None),
    (
        b"Dataset {\n    Int16 q;\n} f;\nData:\n\0\x01\0\0",
        Some((Bad::BadWord, 34)),
    ),
    (
        b"Dataset {\n    String q;\n} f;\nData:\n\0\0\0\x02ab\0\x01",
        Some((Bad::BadPadding, 41)),
    ),
    (
        b"Dataset {\n    Int32 q[2];\n} f;\nData:\n\0\0\0\x02\0\0\0\x03",
        Some((Bad::BadCount, 41)),
    ),
    (
        b"Dataset {\n    Int32 a;\n    Int32 a;\n} f;\n",
        Some((Bad::BadDds, 33)),
    ),
    (
        b"Dataset {\n    String q;\n} f;\nData:\n\x7f\xff\xff\xff",
        Some((Bad::Cut, 39)),
    ),
    (
        b"Dataset {\n    String q;\n} f;\nData:\n\x80\0\0\0",
        Some((Bad::BadCount, 35)),
    ),
    (
        b"Error { code = 7; message = \"x\"; };",
        Some((Bad::BadDds, 0)),
    ),
    (b" \nDataset {\n} f;\ndata:\n", Some((Bad::BadDataLine, 17))),
    (b"Dataset {\n} f;\nData;\n", Some((Bad::BadDataLine, 19))),
    (b"Dataset {\n} f;\nData: \n", Some((Bad::BadDataLine, 20))),
    (b"Dataset {\n} f;\nData:\rx", Some((Bad::BadDataLine, 21))),
    (b"Dataset {\n} f;\nData:\n\n", Some((Bad::Trailing, 21))),
];

#[test]
fn bodies_are_judged(rt: HostRuntime) -> Result<(), Fail> {
    for (bytes, wrong) in BODIES {
        expect_wrong(&rt, rt.alloc(), bytes, from(0, wrong))?;
    }
    Ok(())
}
