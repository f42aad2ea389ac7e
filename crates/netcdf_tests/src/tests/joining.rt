use crate::tests::expecting::expect;
use crate::tests::made::{Variable, file, sample};
use crate::tests::seen::{header, is_described};
use netcdf_source::Header;
use std::alloc::Global;
use std::test::Fail;

/// A dimension: its name and its length.
type Dimension<'a> = (&'a [u8], u32);

/// The header of a file of version 1 without attributes of its own.
fn made(
    alloc: Global,
    records: u32,
    dimensions: &[Dimension],
    variables: &[Variable],
) -> Result<Header, Fail> {
    let bytes = file(alloc, 1, records, dimensions, variables, 700)?;
    header(alloc, &bytes, bytes.len() as u64)
}

/// A record dimension `t`, and variables of which `t` and `g` are over it, `g` with its maps.
fn recorded(alloc: Global, records: u32) -> Result<Header, Fail> {
    let dims: [Dimension; 2] = [(b"t", 0), (b"n", 3)];
    let variables = [
        sample(b"t", &[0], 1, 600),
        sample(b"n", &[1], 1, 610),
        sample(b"g", &[0, 1], 3, 620),
        sample(b"time", &[1], 4, 650),
        sample(b"s", &[], 4, 662),
    ];
    made(alloc, records, &dims, &variables)
}

/// A file without a record dimension.
fn fixed(alloc: Global) -> Result<Header, Fail> {
    made(alloc, 2, &[(b"t", 1)], &[sample(b"a", &[0], 1, 600)])
}

#[test]
fn records_are_told(rt: HostRuntime) -> Result<(), Fail> {
    let alloc = rt.alloc();
    expect(&rt, recorded(alloc, 2)?.records(), Some(2));
    expect(&rt, recorded(alloc, 0)?.records(), Some(0));
    let fixed = fixed(alloc)?;
    expect(&rt, fixed.records(), None);
    assert!(rt; !fixed.is_record(1));
    Ok(())
}

/// The leaves over the record dimension: `t`, the array of `g`, and its first map.
#[test]
fn leaves_of_records_are_told(rt: HostRuntime) -> Result<(), Fail> {
    let header = recorded(rt.alloc(), 2)?;
    let expected = [
        false, true, false, false, true, true, false, false, false, false,
    ];
    for (leaf, is_record) in expected.iter().enumerate() {
        let found = header.is_record((leaf % 1000) as u32);
        expect(&rt, (leaf, found), (leaf, *is_record));
    }
    Ok(())
}

/// Whether the header's dataset with so many records is this one.
fn becomes_with(
    alloc: Global,
    header: &Header,
    records: u64,
    dataset: &[u8],
) -> Result<bool, Fail> {
    if records > 2147483647 {
        return Ok(false);
    }
    let made = header.dataset_with(alloc, b"a/f.nc", records)?;
    is_described(alloc, &made, dataset)
}

#[test]
fn datasets_have_that_number_of_records(rt: HostRuntime) -> Result<(), Fail> {
    let alloc = rt.alloc();
    let header = recorded(alloc, 2)?;
    let seven =
        b"f.nc:Byte t[t=7];Byte n[n=3];g(Int16 g[t=7][n=3];Byte t[t=7];Byte n[n=3];)time(Int32 time[n=3];Byte n[n=3];)Int32 s;";
    assert!(rt; becomes_with(alloc, &header, 7, seven)?);
    let most =
        b"f.nc:Byte t[t=2147483647];Byte n[n=3];g(Int16 g[t=2147483647][n=3];Byte t[t=2147483647];Byte n[n=3];)time(Int32 time[n=3];Byte n[n=3];)Int32 s;";
    assert!(rt; becomes_with(alloc, &header, 2147483647, most)?);
    let fixed = fixed(alloc)?;
    assert!(rt; becomes_with(alloc, &fixed, 7, b"f.nc:Byte a[t=1];")?);
    Ok(())
}
