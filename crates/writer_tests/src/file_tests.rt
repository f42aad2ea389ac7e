use crate::testing::{becomes, body, words};
use std::test::Fail;

/// A Grid of Int16 becomes the file that it came from.
#[test]
fn a_grid_is_saved(rt: HostRuntime) -> Result<(), Fail> {
    let alloc = rt.alloc();
    let text =
        b"Dataset {\n    Int32 lat[lat = 2];\n    Int32 lon[lon = 3];\n    Grid {\n      Array:\n        Int16 g[lat = 2][lon = 3];\n      Maps:\n        Int32 lat[lat = 2];\n        Int32 lon[lon = 3];\n    } g;\n} g.nc;\n";
    let values = words(
        alloc,
        &[
            2, 2, 10, 20, 3, 3, 1, 2, 3, 6, 6, 0xffffffff, 0x7fff, 3, 4, 5, 6, 2, 2, 10, 20, 3, 3,
            1, 2, 3,
        ],
    )?;
    let file = words(
        alloc,
        &[
            0x43444601, 0, 0x0a, 2, 3, 0x6c617400, 2, 3, 0x6c6f6e00, 3, 0, 0, 0x0b, 3, 3,
            0x6c617400, 1, 0, 0, 0, 4, 8, 0xa8, 3, 0x6c6f6e00, 1, 1, 0, 0, 4, 0x0c, 0xb0, 1,
            0x67000000, 2, 0, 1, 0, 0, 3, 0x0c, 0xbc, 0x0a, 0x14, 1, 2, 3, 0xffff7fff, 0x00030004,
            0x00050006,
        ],
    )?;
    assert!(rt; becomes(alloc, &body(alloc, text, &values)?, &file)?);
    Ok(())
}

/// An Int32 array becomes the file that it came from.
#[test]
fn an_array_is_saved(rt: HostRuntime) -> Result<(), Fail> {
    let alloc = rt.alloc();
    let text = b"Dataset {\n    Int32 v[y = 3][x = 4];\n} v.nc;\n";
    let values = words(alloc, &[12, 12, 0, 1, 2, 3, 4, 5, 6, 7, 8, 9, 10, 11])?;
    let file = words(
        alloc,
        &[
            0x43444601, 0, 0x0a, 2, 1, 0x79000000, 3, 1, 0x78000000, 4, 0, 0, 0x0b, 1, 1,
            0x76000000, 2, 0, 1, 0, 0, 4, 0x30, 0x60, 0, 1, 2, 3, 4, 5, 6, 7, 8, 9, 10, 11,
        ],
    )?;
    assert!(rt; becomes(alloc, &body(alloc, text, &values)?, &file)?);
    Ok(())
}

/// So does a part of it.
#[test]
fn a_part_of_an_array_is_saved(rt: HostRuntime) -> Result<(), Fail> {
    let alloc = rt.alloc();
    let text = b"Dataset {\n    Int32 v[y = 2][x = 3];\n} v.nc;\n";
    let values = words(alloc, &[6, 6, 1, 2, 3, 9, 10, 11])?;
    let file = words(
        alloc,
        &[
            0x43444601, 0, 0x0a, 2, 1, 0x79000000, 2, 1, 0x78000000, 3, 0, 0, 0x0b, 1, 1,
            0x76000000, 2, 0, 1, 0, 0, 4, 0x18, 0x60, 1, 2, 3, 9, 10, 11,
        ],
    )?;
    assert!(rt; becomes(alloc, &body(alloc, text, &values)?, &file)?);
    Ok(())
}

/// A scalar of each type that version 1 has, and a name with escapes.
#[test]
fn each_type_is_saved(rt: HostRuntime) -> Result<(), Fail> {
    let alloc = rt.alloc();
    let text = b"Dataset { Byte a; Int16 b; Int32 c; Float32 d; Float64 e%2E; } f;";
    let values = words(
        alloc,
        &[
            0xfffffffe, 0xfffffffd, 0xfffffffc, 0x3f800000, 0x3ff00000, 1,
        ],
    )?;
    let file = words(
        alloc,
        &[
            0x43444601, 0, 0, 0, 0, 0, 0x0b, 5, 1, 0x61000000, 0, 0, 0, 1, 4, 0xc0, 1, 0x62000000,
            0, 0, 0, 3, 4, 0xc4, 1, 0x63000000, 0, 0, 0, 4, 4, 0xc8, 1, 0x64000000, 0, 0, 0, 5, 4,
            0xcc, 2, 0x652e0000, 0, 0, 0, 6, 8, 0xd0, 0xfe000000, 0xfffd0000, 0xfffffffc,
            0x3f800000, 0x3ff00000, 1,
        ],
    )?;
    assert!(rt; becomes(alloc, &body(alloc, text, &values)?, &file)?);
    Ok(())
}

/// Unsigned types are those of version 5, whose numbers have 8 bytes.
#[test]
fn unsigned_types_are_saved(rt: HostRuntime) -> Result<(), Fail> {
    let alloc = rt.alloc();
    let text = b"Dataset { UInt16 u[x = 3]; UInt32 w; } f;";
    let values = words(alloc, &[3, 3, 1, 2, 65535, 0xfffffffe])?;
    let file = words(
        alloc,
        &[
            0x43444605, 0, 0, 0x0a, 0, 1, 0, 1, 0x78000000, 0, 3, 0, 0, 0, 0x0b, 0, 2, 0, 1,
            0x75000000, 0, 1, 0, 0, 0, 0, 0, 8, 0, 8, 0, 0xb4, 0, 1, 0x77000000, 0, 0, 0, 0, 0, 9,
            0, 4, 0, 0xbc, 0x00010002, 0xffff0000, 0xfffffffe,
        ],
    )?;
    assert!(rt; becomes(alloc, &body(alloc, text, &values)?, &file)?);
    Ok(())
}

/// Grids over the same map have it once.
#[test]
fn maps_are_shared(rt: HostRuntime) -> Result<(), Fail> {
    let alloc = rt.alloc();
    let text =
        b"Dataset { Grid { Array: Int32 g[x = 1]; Maps: Int32 x[x = 1]; } g; Grid { Array: Int32 h[x = 1]; Maps: Int32 x[x = 1]; } h; } f;";
    let values = words(alloc, &[1, 1, 5, 1, 1, 7, 1, 1, 6, 1, 1, 7])?;
    let file = words(
        alloc,
        &[
            0x43444601, 0, 0x0a, 1, 1, 0x78000000, 1, 0, 0, 0x0b, 3, 1, 0x78000000, 1, 0, 0, 0, 4,
            4, 0x98, 1, 0x67000000, 1, 0, 0, 0, 4, 4, 0x9c, 1, 0x68000000, 1, 0, 0, 0, 4, 4, 0xa0,
            7, 5, 6,
        ],
    )?;
    assert!(rt; becomes(alloc, &body(alloc, text, &values)?, &file)?);
    Ok(())
}

/// A map that is a top array as well stands there, and a dimension where it is used first.
#[test]
fn a_map_may_be_a_top_array(rt: HostRuntime) -> Result<(), Fail> {
    let alloc = rt.alloc();
    let text =
        b"Dataset { Grid { Array: Int32 g[a = 1][b = 2]; Maps: Int32 a[a = 1]; Int32 b[b = 2]; } g; Int32 a[a = 1]; } f;";
    let values = words(alloc, &[2, 2, 5, 6, 1, 1, 7, 2, 2, 8, 9, 1, 1, 7])?;
    let file = words(
        alloc,
        &[
            0x43444601, 0, 0x0a, 2, 1, 0x62000000, 2, 1, 0x61000000, 1, 0, 0, 0x0b, 3, 1,
            0x62000000, 1, 0, 0, 0, 4, 8, 0xa8, 1, 0x67000000, 2, 1, 0, 0, 0, 4, 8, 0xb0, 1,
            0x61000000, 1, 1, 0, 0, 4, 4, 0xb8, 8, 9, 5, 6, 7,
        ],
    )?;
    assert!(rt; becomes(alloc, &body(alloc, text, &values)?, &file)?);
    Ok(())
}

/// A dimension of size 0 is the record dimension of a file without records.
#[test]
fn no_records_are_saved(rt: HostRuntime) -> Result<(), Fail> {
    let alloc = rt.alloc();
    let text = b"Dataset { Int16 s[t = 0]; Byte b; } e.nc;";
    let values = words(alloc, &[0, 0, 1])?;
    let file = words(
        alloc,
        &[
            0x43444601, 0, 0x0a, 1, 1, 0x74000000, 0, 0, 0, 0x0b, 2, 1, 0x73000000, 1, 0, 0, 0, 3,
            4, 0x74, 1, 0x62000000, 0, 0, 0, 1, 4, 0x70, 0x01000000,
        ],
    )?;
    assert!(rt; becomes(alloc, &body(alloc, text, &values)?, &file)?);
    Ok(())
}

/// The types that bring version 5, each alone.
#[test]
fn each_unsigned_type_brings_version_five(rt: HostRuntime) -> Result<(), Fail> {
    let alloc = rt.alloc();
    let short = words(
        alloc,
        &[
            0x43444605, 0, 0, 0, 0, 0, 0, 0, 0, 0x0b, 0, 1, 0, 1, 0x75000000, 0, 0, 0, 0, 0, 8, 0,
            4, 0, 0x64, 0x00070000,
        ],
    )?;
    assert!(&rt;
        becomes(
            alloc,
            &body(alloc, b"Dataset { UInt16 u; } f;", &[0, 0, 0, 7])?,
            &short
        )?
    );
    let long = words(
        alloc,
        &[
            0x43444605, 0, 0, 0, 0, 0, 0, 0, 0, 0x0b, 0, 1, 0, 1, 0x75000000, 0, 0, 0, 0, 0, 9, 0,
            4, 0, 0x64, 7,
        ],
    )?;
    assert!(&rt;
        becomes(
            alloc,
            &body(alloc, b"Dataset { UInt32 u; } f;", &[0, 0, 0, 7])?,
            &long
        )?
    );
    Ok(())
}

/// The variables over the record dimension begin behind all others, one behind the other.
#[test]
fn records_begin_behind_the_others(rt: HostRuntime) -> Result<(), Fail> {
    let alloc = rt.alloc();
    let text = b"Dataset { Int16 s[t = 0][x = 3]; Byte b; Float64 d[t = 0]; Int32 w[x = 3]; } f;";
    let values = words(alloc, &[0, 0, 1, 0, 0, 3, 3, 1, 2, 3])?;
    let file = words(
        alloc,
        &[
            0x43444601, 0, 0x0a, 2, 1, 0x74000000, 0, 1, 0x78000000, 3, 0, 0, 0x0b, 4, 1,
            0x73000000, 2, 0, 1, 0, 0, 3, 8, 0xd8, 1, 0x62000000, 0, 0, 0, 1, 4, 0xc8, 1,
            0x64000000, 1, 0, 0, 0, 6, 8, 0xe0, 1, 0x77000000, 1, 1, 0, 0, 4, 12, 0xcc, 0x01000000,
            1, 2, 3,
        ],
    )?;
    assert!(&rt; becomes(alloc, &body(alloc, text, &values)?, &file)?);
    Ok(())
}
