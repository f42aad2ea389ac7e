//! Long arrays of each type, and long texts.

use crate::testing::{append_many, cdf_body, expect_xdr, file_of, header_of, put_of};
use dap_types::Memory;
use slab_fill::NoGate;
use std::alloc::Global;
use std::process::Abort;
use std::test::Fail;
use std::thread::Threads;

/// So many bytes that repeat after an odd number of them.
fn pattern(alloc: Global, many: u32) -> Result<Vec<u8>, Memory> {
    let mut bytes = Vec::new(alloc);
    for k in 0..many {
        bytes.push((k % 251) as u8)?;
    }
    Ok(bytes)
}

/// Numbers of two bytes in four, with the sign in the two before.
fn append_pairs(xdr: &mut Vec<u8>, data: &[u8]) -> Result<(), Memory> {
    for pair in data.chunks(2) {
        let high = pair.first().copied().unwrap_or(0);
        let sign = if high >= 128 { 255 } else { 0 };
        xdr.extend_from_slice(&[sign, sign])?;
        xdr.extend_from_slice(pair)?;
    }
    Ok(())
}

/// The XDR of an array of numbers of so many bytes each.
fn xdr_of(alloc: Global, count: u32, size: u32, data: &[u8]) -> Result<Vec<u8>, Memory> {
    let mut xdr = file_of(alloc, &[count, count], b"")?;
    if size == 2 {
        append_pairs(&mut xdr, data)?;
    } else {
        xdr.extend_from_slice(data)?;
    }
    let filler = (4 - xdr.len() % 4) % 4;
    xdr.extend_from_slice(&[0u8; 4][..filler])?;
    Ok(xdr)
}

/// An array of so many numbers of that type, of so many bytes each.
fn expect_long<R: Threads + Abort + Sync>(
    rt: &R,
    alloc: Global,
    external_type: u32,
    size: u32,
    count: u32,
) -> Result<(), Fail> {
    let data = pattern(alloc, count.saturating_mul(size))?;
    let mut file = header_of(alloc, 1, &[count, 0, 0, 0, 0, 0], external_type)?;
    file.extend_from_slice(&data)?;
    let mut body = cdf_body(rt, alloc, &file, b"f.nc", b"")?;
    let put = put_of(rt, alloc, &file, &mut body, 65536, 7, &NoGate)?;
    expect_xdr(rt, &body, put.bytes(), &xdr_of(alloc, count, size, &data)?);
    Ok(())
}

/// Each type of numbers, and the bytes of one.
const NUMBERS: [(u32, u32); 5] = [(1, 1), (3, 2), (4, 4), (5, 4), (6, 8)];

#[test]
fn long_arrays(rt: HostRuntime) -> Result<(), Fail> {
    for (external_type, size) in NUMBERS {
        for count in 65535..65538 {
            expect_long(&rt, rt.alloc(), external_type, size, count)?;
        }
    }
    Ok(())
}

/// A text of so many letters and one of one letter.
fn expect_long_and_short<R: Threads + Abort + Sync>(
    rt: &R,
    alloc: Global,
    width: u32,
) -> Result<(), Fail> {
    let mut text = Vec::new(alloc);
    append_many(&mut text, width as usize, b'a')?;
    let mut file = header_of(alloc, 2, &[2, width, 0, 0, 0, 0], 2)?;
    file.extend_from_slice(&text)?;
    file.push(b'b')?;
    append_many(&mut file, width.saturating_sub(1) as usize, 0)?;
    let mut expected = file_of(alloc, &[2, width], &text)?;
    expected.extend_from_slice(b"\0\0\0\x01b\0\0\0")?;
    let mut body = cdf_body(rt, alloc, &file, b"f.nc", b"")?;
    let put = put_of(rt, alloc, &file, &mut body, 65536, 1, &NoGate)?;
    expect_xdr(rt, &body, put.bytes(), &expected);
    Ok(())
}

#[test]
fn long_and_short_texts(rt: HostRuntime) -> Result<(), Fail> {
    expect_long_and_short(&rt, rt.alloc(), 65536)
}
