use crate::tests::expecting::expect;
use crate::tests::made::{Variable, file, with_attributes};
use crate::tests::seen::{element, has_variables, header, number};
use netcdf_source::Header;
use std::alloc::Global;
use std::process::Abort;
use std::test::Fail;

/// The words of a list with the attribute `units`, whose value is `u`.
const UNITS: [u32; 8] = [12, 1, 5, 0x756e_6974, 0x7300_0000, 2, 1, 0x7500_0000];

/// Where the data begins, behind the header.
const DATA: u32 = 332;

/// A variable with the attribute `units`.
fn with_units<'a>(name: &'a [u8], dimensions: &'a [u32], number: u32, begin: u32) -> Variable<'a> {
    with_attributes(name, dimensions, &UNITS, number, begin)
}

/// A file as the usual tools make it: three Float64 coordinate variables, and a Float32 variable
/// over them. The bits of element n of a variable are n.
fn climate(alloc: Global) -> Result<Vec<u8>, Fail> {
    let dims: [(&[u8], u32); 3] = [(b"TIME", 12), (b"COADSY", 90), (b"COADSX", 180)];
    let variables = [
        with_units(b"TIME", &[0], 6, DATA),
        with_units(b"COADSY", &[1], 6, DATA + 96),
        with_units(b"COADSX", &[2], 6, DATA + 816),
        with_units(b"SST", &[0, 1, 2], 5, DATA + 2256),
    ];
    let mut bytes = file(alloc, 1, 0, &dims, &variables, 0)?;
    if bytes.len() != DATA as usize {
        return Err("the header has another length")?;
    }
    for count in [12u64, 90, 180] {
        for n in 0..count {
            bytes.extend_from_slice(&n.to_be_bytes())?;
        }
    }
    for n in 0..194400u32 {
        bytes.extend_from_slice(&n.to_be_bytes())?;
    }
    Ok(bytes)
}

/// The element of a leaf at these indexes is that number.
fn expect_number<R: Abort>(
    rt: &R,
    header: &Header,
    file: &[u8],
    place: (u32, &[u64]),
    expected: i64,
) {
    let (leaf, indexes) = place;
    let found = element(header, file, leaf, indexes).and_then(number);
    expect(rt, (leaf, found), (leaf, Some(expected)));
}

#[test]
fn a_climatology_is_read(rt: HostRuntime) -> Result<(), Fail> {
    let bytes = climate(rt.alloc())?;
    let header = header(rt.alloc(), &bytes, bytes.len() as u64)?;
    let dataset =
        b"coads.nc:Float64 TIME[TIME=12];Float64 COADSY[COADSY=90];Float64 COADSX[COADSX=180];SST(Float32 SST[TIME=12][COADSY=90][COADSX=180];Float64 TIME[TIME=12];Float64 COADSY[COADSY=90];Float64 COADSX[COADSX=180];)";
    assert!(rt; has_variables(rt.alloc(), &header, b"coads.nc", dataset)?);
    for (leaf, last) in [(1, 11), (2, 89), (3, 179), (6, 11), (7, 89), (8, 179)] {
        expect_number(&rt, &header, &bytes, (leaf, &[0]), 0);
        expect_number(&rt, &header, &bytes, (leaf, &[last as u64]), last);
    }
    for (t, y, x, n) in [
        (0, 0, 0, 0),
        (0, 40, 0, 7200),
        (0, 50, 178, 9178),
        (11, 40, 2, 185402),
        (11, 89, 179, 194399),
    ] {
        expect_number(&rt, &header, &bytes, (5, &[t, y, x]), n);
    }
    Ok(())
}
