use crate::tests::showing::{Answer, answers, show_body};
use std::alloc::Global;
use std::process::Abort;
use std::test::Fail;
use xdr_decode::Bad;

/// A body, the answer, and what is put at least and at most.
pub struct Case {
    pub body: &'static [u8],
    pub answer: Answer,
    pub least: &'static [u8],
    pub most: &'static [u8],
}

/// The table `A1,5`, `B22,-7`.
pub const TABLE: &[u8] =
    b"Dataset {\n    Sequence {\n        String station;\n        Int32 depth;\n    } buoys;\n} buoys.csv;\nData:\nZ\0\0\0\0\0\0\x02A1\0\0\0\0\0\x05Z\0\0\0\0\0\0\x03B22\0\xff\xff\xff\xf9\xa5\0\0\0";

pub const TABLE_SHOWN: &[u8] =
    b"Dataset {\n    Sequence {\n        String station;\n        Int32 depth;\n    } buoys;\n} buoys.csv;\nbuoys[0].station = \"A1\"\nbuoys[0].depth = 5\nbuoys[1].station = \"B22\"\nbuoys[1].depth = -7\ncomplete 138\n";

/// The same without the last line.
pub const TABLE_ROWS: &[u8] =
    b"Dataset {\n    Sequence {\n        String station;\n        Int32 depth;\n    } buoys;\n} buoys.csv;\nbuoys[0].station = \"A1\"\nbuoys[0].depth = 5\nbuoys[1].station = \"B22\"\nbuoys[1].depth = -7\n";

/// Bodies of which more or less is put, as they come.
const DATA: [Case; 2] = [
    Case {
        body: b"Dataset {\n    Int16 q;\n} f;\nData:\n\0\x01\0\0",
        answer: Answer::Wrong(Bad::BadWord, 34),
        least: b"Dataset {\n    Int16 q;\n} f;\n",
        most: b"Dataset {\n    Int16 q;\n} f;\nq = ",
    },
    Case {
        body: b"Dataset {\n    String q;\n} f;\nData:\n\x7f\xff\xff\xff",
        answer: Answer::Wrong(Bad::Cut, 39),
        least: b"Dataset {\n    String q;\n} f;\n",
        most: b"Dataset {\n    String q;\n} f;\nq = \"",
    },
];

/// A body in pieces of a size has its verdict.
fn expect_verdict<R: Abort>(rt: &R, alloc: Global, case: &Case, piece: u32) -> Result<(), Fail> {
    let found = show_body(alloc, case.body, piece, None, None)?;
    assert!(rt; answers(&found.outcome, case.answer));
    assert!(rt; found.out.bytes().starts_with(case.least));
    assert!(rt; case.most.starts_with(found.out.bytes()));
    Ok(())
}

#[test]
fn each_body_has_its_verdict(rt: HostRuntime) -> Result<(), Fail> {
    for case in &DATA {
        for piece in [1, 7, 65536] {
            expect_verdict(&rt, rt.alloc(), case, piece)?;
        }
    }
    Ok(())
}
