use crate::tests::cases::TABLE;
use crate::tests::showing::{Answer, answers, show_body};
use std::alloc::Global;
use std::process::Abort;
use std::test::Fail;
use xdr_decode::{AllRefusal, decode_all};

/// The answer for a body that is no Error object, as the reader of whole bodies says.
pub fn answer_of(alloc: Global, body: &[u8]) -> Result<Answer, Fail> {
    match decode_all(alloc, body) {
        Ok(_) => Ok(Answer::Shown(body.len() as u64)),
        Err(AllRefusal::Refused(field)) => Ok(Answer::Wrong(field.kind, field.place)),
        Err(AllRefusal::Memory) => Err(Fail::new("no memory")),
    }
}

/// Whether a body in pieces is judged as the reader of whole bodies judges it.
fn same(alloc: Global, body: &[u8], piece: u32) -> Result<bool, Fail> {
    let found = show_body(alloc, body, piece, None, None)?;
    Ok(answers(&found.outcome, answer_of(alloc, body)?))
}

/// Each kind of variable in one short body.
const MIXED: &[u8] =
    b"Dataset { Structure { Int16 i; Byte b[3]; } s; String t; Sequence { UInt16 n; } q; Float64 f; } d; Data:\n\xff\xff\xff\xfe\0\0\0\x03\0\0\0\x03\x01\x80\xff\0\0\0\0\x03a\"\x01\0Z\0\0\0\0\0\xff\xff\xa5\0\0\0?\xf0\0\0\0\0\0\0";

/// A body is judged so where it is cut anywhere, and where it is whole.
fn expect_cut<R: Abort>(rt: &R, alloc: Global, body: &[u8]) -> Result<(), Fail> {
    for length in 0..body.len() {
        assert!(rt; same(alloc, &body[..length], 7)?, "{length}");
    }
    assert!(rt; same(alloc, body, 5)?);
    Ok(())
}

#[test]
fn bodies_are_cut_anywhere(rt: HostRuntime) -> Result<(), Fail> {
    for body in [TABLE, MIXED] {
        expect_cut(&rt, rt.alloc(), body)?;
    }
    Ok(())
}

/// A body is judged so where any of its bytes is changed.
fn expect_changed<R: Abort>(rt: &R, alloc: Global, body: &[u8], change: u8) -> Result<(), Fail> {
    for at in 0..body.len() {
        let mut bytes = Vec::from_slice(alloc, body)?;
        bytes.as_mut_slice()[at] ^= change;
        assert!(rt; same(alloc, bytes.as_slice(), 7)?, "{at}");
    }
    Ok(())
}

#[test]
fn each_byte_is_changed(rt: HostRuntime) -> Result<(), Fail> {
    for body in [TABLE, MIXED] {
        for change in [1, 0x80, 0x5a, 0xff] {
            expect_changed(&rt, rt.alloc(), body, change)?;
        }
    }
    Ok(())
}
