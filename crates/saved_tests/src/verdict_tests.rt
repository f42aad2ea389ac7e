//! A response that is cut, or has another byte, is what the reader of whole bodies says of it.

use crate::testing::response;
use saved_source::{SavedRefusal, read_saved};
use std::alloc::Global;
use std::process::Abort;
use std::rt::HostRuntime;
use std::test::Fail;
use xdr_decode::{AllRefusal, decode_all};

const TEXT: &[u8] =
    b"Dataset {\n    Byte b[n = 3];\n    Sequence {\n        String s;\n        Byte q;\n    } r;\n} f;\nData:\n";

const WORDS: [u32; 8] = [
    3, 3, 0x01020300, 0x5a000000, 1, 0x61000000, 0xffffff80, 0xa5000000,
];

/// Both are good, or bad at one place.
fn expect_same<R: Abort>(rt: &R, alloc: Global, bytes: &[u8]) {
    let read = read_saved(alloc, bytes, b"f.dods");
    match decode_all(alloc, bytes) {
        Ok(_) => assert!(rt; read.is_ok()),
        Err(AllRefusal::Refused(bad)) => match read {
            Err(refusal) => assert!(rt; refusal == SavedRefusal::BadBody { place: bad.place }),
            Ok(_) => panic!(rt; "a good body"),
        },
        Err(AllRefusal::Memory) => panic!(rt; "no memory"),
    }
}

#[test]
fn a_cut_body(rt: HostRuntime) -> Result<(), Fail> {
    let alloc = rt.alloc();
    let rt = &rt;
    let file = response(alloc, TEXT, &WORDS)?;
    let bytes = file.as_slice();
    assert!(rt; read_saved(alloc, bytes, b"f.dods").is_ok());
    for end in 0..bytes.len() {
        expect_same(rt, alloc, &bytes[..end]);
    }
    Ok(())
}

#[test]
fn a_body_with_another_byte(rt: HostRuntime) -> Result<(), Fail> {
    let alloc = rt.alloc();
    let rt = &rt;
    let file = response(alloc, TEXT, &WORDS)?;
    for at in 0..file.len() {
        for change in [1u8, 0x20, 0x80, 0xff] {
            let mut other = response(alloc, TEXT, &WORDS)?;
            if at < other.len() {
                other[at] ^= change;
            }
            expect_same(rt, alloc, other.as_slice());
        }
    }
    Ok(())
}
