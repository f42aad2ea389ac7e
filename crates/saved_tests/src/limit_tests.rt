//! The longest response, many rows, and many members.

use crate::testing::{body_of, expect, made, response, served};
use dap_outside::MemSink;
use dap_types::List;
use saved_source::{SavedBodyRefusal, SavedRefusal, read_saved};
use std::rt::HostRuntime;
use std::test::Fail;

/// The longest response has so many bytes.
const MOST: usize = 67_108_864;

/// What stands before the elements of an array of Bytes.
const TEXT: &[u8] = b"Dataset {\n    Byte b[n = 67108808];\n} f;\nData:\r\n";

#[test]
fn the_longest_response(rt: HostRuntime) -> Result<(), Fail> {
    let alloc = rt.alloc();
    let rt = &rt;
    let mut file = response(alloc, TEXT, &[67_108_808, 67_108_808])?;
    assert!(rt; file.len() == 56);
    file.resize(MOST, 7)?;
    let mut body = body_of(rt, alloc, file.as_slice(), b"b[0:2:67108807]")?;
    let mut sink = MemSink::new(alloc, 40_000_000, 65536, List::new(alloc))?;
    assert!(rt; body.stream(&mut sink).is_ok());
    assert!(rt; sink.bytes().len() == 33_554_468);
    file.push(7)?;
    match read_saved(alloc, file.as_slice(), b"saved.dods") {
        Err(refusal) => assert!(rt; refusal == SavedRefusal::TooLong),
        Ok(_) => panic!(rt; "too long"),
    }
    Ok(())
}

#[test]
fn a_million_rows(rt: HostRuntime) -> Result<(), Fail> {
    let alloc = rt.alloc();
    let rt = &rt;
    let mut file = response(
        alloc,
        b"Dataset {\n    Sequence {\n        Int32 d;\n    } s;\n} f;\nData:\n",
        &[],
    )?;
    for row in 0..1_000_000u32 {
        file.extend_from_slice(&[0x5a, 0, 0, 0])?;
        file.extend_from_slice(&row.to_be_bytes())?;
    }
    file.extend_from_slice(&[0xa5, 0, 0, 0])?;
    expect(
        rt,
        alloc,
        file.as_slice(),
        b"s&s.d>=999999",
        b"Dataset {\n    Sequence {\n        Int32 d;\n    } s;\n} saved.dods;\nData:\n",
        &[0x5a000000, 999_999, 0xa5000000],
    )
}

/// Each is told in a line of its own, of which so many are too long.
#[test]
fn a_million_members(rt: HostRuntime) -> Result<(), Fail> {
    let alloc = rt.alloc();
    let rt = &rt;
    let mut file = response(alloc, b"Dataset{", &[])?;
    for member in 0..1_000_000u32 {
        let line = format!(in alloc; "Byte m{};", member)?;
        file.extend_from_slice(line.as_bytes())?;
    }
    file.extend_from_slice(b"}f;Data:\n")?;
    file.resize(file.len() + 4_000_000, 0)?;
    let bytes = file.as_slice();
    let out = served(rt, alloc, bytes, b"m999999")?;
    let wanted = response(
        alloc,
        b"Dataset {\n    Byte m999999;\n} saved.dods;\nData:\n",
        &[0],
    )?;
    assert!(rt; out.as_slice() == wanted.as_slice());
    match made(rt, alloc, bytes, b"")? {
        Err(refusal) => assert!(rt; refusal == SavedBodyRefusal::TooLarge),
        Ok(_) => panic!(rt; "too large"),
    }
    Ok(())
}
