//! Long texts, and what they come to.

use dap_types::Memory;
use std::alloc::Global;
use std::process::Abort;

/// Appends a piece so often.
pub fn append_times(text: &mut Vec<u8>, piece: &[u8], times: usize) -> Result<(), Memory> {
    for _ in 0..times {
        text.extend_from_slice(piece)?;
    }
    Ok(())
}

/// A piece so often.
pub fn times(alloc: Global, piece: &[u8], times: usize) -> Result<Vec<u8>, Memory> {
    let mut text = Vec::new(alloc);
    append_times(&mut text, piece, times)?;
    Ok(text)
}

/// Appends the words, the high byte of each first.
pub fn append_words(bytes: &mut Vec<u8>, words: &[u32]) -> Result<(), Memory> {
    for word in words {
        bytes.extend_from_slice(&word.to_be_bytes())?;
    }
    Ok(())
}

const LETTERS: &[u8; 32] = b"abcdefghijklmnopqrstuvwxyz012345";

fn letter(number: u32) -> u8 {
    LETTERS[(number % 32) as usize]
}

/// A name of four letters, another one for each number below 1,048,576.
pub fn name_of(number: u32) -> [u8; 4] {
    [
        letter(number / 32768),
        letter(number / 1024),
        letter(number / 32),
        letter(number),
    ]
}

/// The sum of the bytes of the first names.
pub fn names_sum(count: u32) -> u64 {
    let mut sum = 0u64;
    for number in 0..count {
        sum = sum.wrapping_add(sum_of(&name_of(number)));
    }
    sum
}

/// The text has to have so many bytes.
pub fn expect_length<R: Abort>(rt: &R, text: &[u8], length: usize) {
    assert_eq!(rt; text.len(), length);
}

/// The texts have to be the same. They are too long to be shown.
pub fn expect_same<R: Abort>(rt: &R, text: &[u8], other: &[u8]) {
    assert!(rt; text == other);
}

/// The sum of the bytes.
pub fn sum_of(bytes: &[u8]) -> u64 {
    let mut sum = 0u64;
    for byte in bytes {
        sum = sum.wrapping_add(u64::from(*byte));
    }
    sum
}
