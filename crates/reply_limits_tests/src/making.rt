//! Long texts.

use dap_types::Memory;
use std::alloc::Global;

/// Appends a piece so often.
pub fn append_times(text: &mut Vec<u8>, piece: &[u8], times: usize) -> Result<(), Memory> {
    for _ in 0..times {
        text.extend_from_slice(piece)?;
    }
    Ok(())
}

/// Appends the words, the high byte of each first.
pub fn append_words(bytes: &mut Vec<u8>, words: &[u32]) -> Result<(), Memory> {
    for word in words {
        bytes.extend_from_slice(&word.to_be_bytes())?;
    }
    Ok(())
}

fn letter(number: u32) -> u8 {
    b'a' + (number % 26) as u8
}

/// A name of five letters, another one for each number below 11,881,376.
pub fn name_of(number: u32) -> [u8; 5] {
    [
        letter(number / 456_976),
        letter(number / 17_576),
        letter(number / 676),
        letter(number / 26),
        letter(number),
    ]
}

/// A DDS of so many members, each a Byte, of 16 bytes each, with 10 and 8 around them.
pub fn many_bytes(alloc: Global, members: u32) -> Result<Vec<u8>, Memory> {
    let mut text = Vec::from_slice(alloc, b"Dataset {\n")?;
    for number in 0..members {
        text.extend_from_slice(b"    Byte ")?;
        text.extend_from_slice(&name_of(number))?;
        text.extend_from_slice(b";\n")?;
    }
    text.extend_from_slice(b"} s.dods")?;
    text.extend_from_slice(b";\n")?;
    Ok(text)
}

/// Their data response: each Byte is its number modulo 256.
pub fn bytes_body(alloc: Global, members: u32) -> Result<Vec<u8>, Memory> {
    let mut body = many_bytes(alloc, members)?;
    body.extend_from_slice(b"Data:\n")?;
    for number in 0..members {
        append_words(&mut body, &[number % 256])?;
    }
    Ok(body)
}
