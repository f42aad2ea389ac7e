//! The longest body, the longest header and the longest name.

use crate::testing::{body, saved, words};
use dap_outside::{MemSink, MemSource};
use dap_types::{Bytes, List};
use netcdf_writer::{Stored, Why, save};
use std::alloc::Global;
use std::rt::HostRuntime;
use std::test::Fail;
use xdr_decode::{Bad, BadField};

/// The longest body has so many bytes.
const MOST: usize = 16_777_216;

/// What stands before the elements of an array of Bytes in it.
const TEXT: &[u8] = b"Dataset {\n    Byte b[n = 16777160];\n} f;\nData:\r\n";

/// How the saving of a long body ended, and how many bytes were put.
fn ended(alloc: Global, body: &[u8]) -> Result<(Stored, usize), Fail> {
    let mut source = MemSource::new(Bytes::new(alloc, body)?, 65536, List::new(alloc));
    let mut out = MemSink::new(alloc, 20_000_000, 65536, List::new(alloc))?;
    let stored = save(alloc, &mut source, &mut out);
    Ok((stored, out.bytes().len()))
}

#[test]
fn the_longest_body(rt: HostRuntime) -> Result<(), Fail> {
    let alloc = rt.alloc();
    let mut body = Vec::from_slice(alloc, TEXT)?;
    body.extend_from_slice(words(alloc, &[16_777_160, 16_777_160])?.as_slice())?;
    assert!(&rt; body.len() == 56);
    body.resize(MOST, 7)?;
    let (stored, put) = ended(alloc, body.as_slice())?;
    assert!(&rt; matches!(&stored, Stored::Written { bytes: 16_777_240 }));
    assert!(&rt; put == 16_777_240);
    // With one byte more the first of them are good: it is too large, and not what stands behind.
    body.push(7)?;
    let (stored, put) = ended(alloc, body.as_slice())?;
    assert!(&rt; matches!(&stored, Stored::BodyTooLarge));
    assert!(&rt; put == 0);
    // What is wrong with the first of them is told.
    body[8] = b'x';
    let (stored, put) = ended(alloc, body.as_slice())?;
    assert!(&rt;
        matches!(
            &stored,
            Stored::BadReply(BadField {
                kind: Bad::BadDds,
                place: 8
            })
        )
    );
    assert!(&rt; put == 0);
    Ok(())
}

/// Of a longer body whose first bytes are cut, or an Error object, nothing else is told.
#[test]
fn a_longer_body(rt: HostRuntime) -> Result<(), Fail> {
    let alloc = rt.alloc();
    let mut body = Vec::from_slice(
        alloc,
        b"Dataset {\n    Byte b[n = 16777164];\n} f;\nData:\r\n",
    )?;
    body.extend_from_slice(words(alloc, &[16_777_164, 16_777_164])?.as_slice())?;
    body.resize(MOST + 4, 7)?;
    let (stored, put) = ended(alloc, body.as_slice())?;
    assert!(&rt; matches!(&stored, Stored::BodyTooLarge));
    assert!(&rt; put == 0);
    let mut object = Vec::from_slice(alloc, b"Error { code = 7; message = \"x\"; };")?;
    object.resize(MOST, b' ')?;
    let (stored, put) = ended(alloc, object.as_slice())?;
    assert!(&rt;
        matches!(
            &stored,
            Stored::ServerError {
                code: 7,
                message: _
            }
        )
    );
    assert!(&rt; put == 0);
    object.push(b' ')?;
    let (stored, put) = ended(alloc, object.as_slice())?;
    assert!(&rt; matches!(&stored, Stored::BodyTooLarge));
    assert!(&rt; put == 0);
    Ok(())
}

/// A letter of a name.
fn letter(number: u32) -> u8 {
    b'a' + (number % 26) as u8
}

/// The data response of so many scalars with names of four letters.
fn scalars(alloc: Global, count: u32) -> Result<Vec<u8>, Fail> {
    let mut text = Vec::from_slice(alloc, b"Dataset {\n")?;
    let mut values = Vec::new(alloc);
    for n in 0..count {
        text.extend_from_slice(b"    Byte ")?;
        text.extend_from_slice(&[
            letter(n / 17576),
            letter(n / 676),
            letter(n / 26),
            letter(n),
        ])?;
        text.extend_from_slice(b";\n")?;
        values.extend_from_slice(&[0, 0, 0, 5])?;
    }
    text.extend_from_slice(b"} f;\n")?;
    body(alloc, text.as_slice(), values.as_slice())
}

/// A header has 32 bytes, and 32 bytes more for each of these scalars.
#[test]
fn the_longest_header(rt: HostRuntime) -> Result<(), Fail> {
    let alloc = rt.alloc();
    let (stored, put) = ended(alloc, scalars(alloc, 32_767)?.as_slice())?;
    assert!(&rt; matches!(&stored, Stored::Written { bytes: 1_179_644 }));
    assert!(&rt; put == 1_179_644);
    let (stored, put) = ended(alloc, scalars(alloc, 32_768)?.as_slice())?;
    assert!(&rt; matches!(&stored, Stored::HeaderTooLong));
    assert!(&rt; put == 0);
    Ok(())
}

/// The data response of a scalar whose name is so many letters and this.
fn named(alloc: Global, letters: usize, end: &[u8]) -> Result<Vec<u8>, Fail> {
    let mut text = Vec::from_slice(alloc, b"Dataset { Byte ")?;
    for _ in 0..letters {
        text.extend_from_slice(b"n")?;
    }
    text.extend_from_slice(end)?;
    text.extend_from_slice(b"; } f;")?;
    body(alloc, text.as_slice(), &[0, 0, 0, 5])
}

/// The name in the file is what counts: an escape is one byte of it.
#[test]
fn the_longest_name(rt: HostRuntime) -> Result<(), Fail> {
    let alloc = rt.alloc();
    let (stored, _) = saved(alloc, named(alloc, 256, b"")?.as_slice())?;
    assert!(&rt; matches!(&stored, Stored::Written { bytes: 320 }));
    let (stored, _) = saved(alloc, named(alloc, 255, b"%2E")?.as_slice())?;
    assert!(&rt; matches!(&stored, Stored::Written { bytes: 320 }));
    for text in [named(alloc, 257, b"")?, named(alloc, 256, b"%2E")?] {
        let (stored, out) = saved(alloc, text.as_slice())?;
        assert!(&rt;
            matches!(
                &stored,
                Stored::Unsavable {
                    member: 1,
                    why: Why::BadName
                }
            )
        );
        assert!(&rt; out.bytes().is_empty());
    }
    Ok(())
}
