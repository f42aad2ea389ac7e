//! Joined files with a leaf that no single one has.

use crate::testing::{body_made, file_of};
use dap_types::List;
use join_source::{Joined, join};
use netcdf_source::{Header, read_header};
use std::alloc::Global;
use std::process::Abort;
use std::test::Fail;
use xdr_encode::BodyRefusal;

/// Byte `a[t][n = 65536]` of 16,384 records.
const WIDE: [u32; 24] = [
    0x43444601, 0x4000, 0x0a, 2, 1, 0x74000000, 0, 1, 0x6e000000, 0x10000, 0, 0, 0x0b, 1, 1,
    0x61000000, 2, 0, 1, 0, 0, 1, 0x10000, 0x60,
];

/// The bytes of a file of that header.
const WIDE_LENGTH: u64 = 0x4000_0060;

/// The header of the wide file, of which nothing but the front is there.
fn wide_header<R: Abort>(rt: &R, alloc: Global) -> Result<Header, Fail> {
    let mut front = file_of(alloc, &WIDE, b"")?;
    front.resize(1_048_576, 0)?;
    assert!(rt; front.len() == 1_048_576);
    let Ok(header) = read_header(alloc, &front, WIDE_LENGTH) else {
        panic!(rt; "no header");
    };
    Ok(header)
}

/// Two of them joined.
fn wide_joined<R: Abort>(rt: &R, alloc: Global) -> Result<Joined, Fail> {
    let mut headers: List<Header> = List::new(alloc);
    headers.push(wide_header(rt, alloc)?)?;
    headers.push(wide_header(rt, alloc)?)?;
    assert!(rt; headers.items().len() == 2);
    let Ok(joined) = join(alloc, headers, b"j.join") else {
        panic!(rt; "not joined");
    };
    Ok(joined)
}

/// What the constraint leaves of joined files is too large in its first leaf, or is not.
fn expect_large<R: Abort>(
    rt: &R,
    alloc: Global,
    joined: &Joined,
    query: &[u8],
    is_large: bool,
) -> Result<(), Fail> {
    let refusal = body_made(rt, alloc, joined, query)?.err();
    let expected = is_large.then_some(BodyRefusal::TooLarge { leaf: 1 });
    assert!(rt; refusal == expected);
    Ok(())
}

/// 32,768 records of 65,536 bytes are one element more than a leaf may have, which is in neither file alone.
#[test]
fn a_leaf_of_too_many_elements(rt: HostRuntime) -> Result<(), Fail> {
    let alloc = rt.alloc();
    let joined = wide_joined(&rt, alloc)?;
    expect_large(&rt, alloc, &joined, b"", true)?;
    expect_large(&rt, alloc, &joined, b"a[0:32767][0:65534]", false)?;
    expect_large(&rt, alloc, &joined, b"a[0:32766][0:65535]", false)?;
    expect_large(&rt, alloc, &joined, b"a[0:2:32767][0:65535]", false)
}
