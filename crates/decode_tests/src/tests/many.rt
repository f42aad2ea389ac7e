ghost use Rattle.std.specs.Prelude.{◌<◌};

use crate::tests::expecting::expect;
use crate::tests::feeding::{body, decoder, expect_wrong, feed, sink};
use dap_types::Memory;
use std::alloc::Global;
use std::process::Abort;
use std::test::Fail;
use text_lines::{put, put_hex, put_number};
use xdr_decode::{Bad, BadField};

/// A Grid of 12 times 11 times 90 elements and its maps.
const GRID: &[u8] =
    b"Dataset {\n    Grid {\n      Array:\n        Float32 SST[TIME = 12][COADSY = 11][COADSX = 90];\n      Maps:\n        Float64 TIME[TIME = 12];\n        Float64 COADSY[COADSY = 11];\n        Float64 COADSX[COADSX = 90];\n    } SST;\n} coads.nc;\n";

/// Writes a count twice.
fn put_counts(out: &mut Vec<u8>, count: u32) -> Result<(), Memory> {
    put(out, &count.to_be_bytes())?;
    put(out, &count.to_be_bytes())
}

/// The number of an element in an array of 12 times 90 times 180 elements.
fn number(time: u32, row: u32, column: u32) -> u32
    requires { (time < 12) × (row < 11) × (column < 90) }
{
    time * 16200 + (row + 40) * 180 + column * 2
}

/// Writes the values of a map: so many numbers from the first on, each this much above the one before.
fn put_map(out: &mut Vec<u8>, count: u32, first: u32, step: u32) -> Result<(), Memory> {
    put_counts(out, count)?;
    for at in 0..count {
        let number = first.saturating_add(at.saturating_mul(step));
        put(out, &u64::from(number).to_be_bytes())?;
    }
    Ok(())
}

/// The values of the Grid: the bits of each are its number.
fn grid_values(alloc: Global) -> Result<Vec<u8>, Memory> {
    let mut out = Vec::new(alloc);
    put_counts(&mut out, 11880)?;
    for time in 0..12 {
        for row in 0..11 {
            for column in 0..90 {
                put(&mut out, &number(time, row, column).to_be_bytes())?;
            }
        }
    }
    put_map(&mut out, 12, 0, 1)?;
    put_map(&mut out, 11, 40, 1)?;
    put_map(&mut out, 90, 0, 2)?;
    Ok(out)
}

fn put_index(out: &mut Vec<u8>, index: u32) -> Result<(), Memory> {
    put(out, b"[")?;
    put_number(out, index)?;
    put(out, b"]")
}

/// Writes the line of an element of the array.
fn put_line(out: &mut Vec<u8>, time: u32, row: u32, column: u32) -> Result<(), Memory>
    requires { (time < 12) × (row < 11) × (column < 90) }
{
    put(out, b"SST.SST")?;
    put_index(out, time)?;
    put_index(out, row)?;
    put_index(out, column)?;
    put(out, b" = 0x")?;
    put_hex(out, 8, u64::from(number(time, row, column)))?;
    put(out, b"\n")
}

/// Writes the lines of a map.
fn put_map_lines(
    out: &mut Vec<u8>,
    name: &[u8],
    count: u32,
    first: u32,
    step: u32,
) -> Result<(), Memory> {
    for at in 0..count {
        let number = first.saturating_add(at.saturating_mul(step));
        put(out, b"SST.")?;
        put(out, name)?;
        put_index(out, at)?;
        put(out, b" = 0x")?;
        put_hex(out, 16, u64::from(number))?;
        put(out, b"\n")?;
    }
    Ok(())
}

/// What is shown of them.
fn grid_lines(alloc: Global) -> Result<Vec<u8>, Memory> {
    let mut out = Vec::new(alloc);
    for time in 0..12 {
        for row in 0..11 {
            for column in 0..90 {
                put_line(&mut out, time, row, column)?;
            }
        }
    }
    put_map_lines(&mut out, b"TIME", 12, 0, 1)?;
    put_map_lines(&mut out, b"COADSY", 11, 40, 1)?;
    put_map_lines(&mut out, b"COADSX", 90, 0, 2)?;
    Ok(out)
}

fn lines_in(text: &[u8]) -> usize {
    text.iter().filter(|byte| **byte == b'\n').count()
}

/// The body of the Grid is right.
fn expect_right<R: Abort>(rt: &R, alloc: Global, values: &[u8]) -> Result<(), Fail> {
    let whole = body(alloc, GRID, values)?;
    expect(rt, whole.len(), 48696);
    expect_wrong(rt, alloc, whole.as_slice(), None)
}

/// The values of the Grid in pieces of a size are shown so.
fn expect_shown<R: Abort>(
    rt: &R,
    alloc: Global,
    values: &[u8],
    size: usize,
    lines: &[u8],
) -> Result<(), Fail> {
    let mut decoder = decoder(alloc, GRID, 240)?;
    let mut out = sink(alloc, 1_048_576)?;
    if values.len() > 65536 {
        return Err(Fail::new("too many values"));
    }
    feed(&mut decoder, values, size, &mut out);
    expect(rt, decoder.finish(), Ok(()));
    assert!(rt; out.bytes() == lines);
    Ok(())
}

#[test]
fn a_grid_is_shown(rt: HostRuntime) -> Result<(), Fail> {
    let values = grid_values(rt.alloc())?;
    let lines = grid_lines(rt.alloc())?;
    expect(&rt, lines_in(lines.as_slice()), 11993);
    expect_right(&rt, rt.alloc(), values.as_slice())?;
    for size in [1, 7, 65536] {
        expect_shown(&rt, rt.alloc(), values.as_slice(), size, lines.as_slice())?;
    }
    Ok(())
}

/// A million rows of a number.
fn rows(alloc: Global) -> Result<Vec<u8>, Memory> {
    let mut out = Vec::new(alloc);
    for _ in 0..1_000_000 {
        put(&mut out, b"\x5a\0\0\0\0\0\0\x07")?;
    }
    Ok(out)
}

/// They are shown, and the mark of the end comes behind them.
#[test]
fn a_million_rows_are_shown(rt: HostRuntime) -> Result<(), Fail> {
    let mut decoder = decoder(rt.alloc(), b"Dataset { Sequence { Byte n; } q; } f;", 0)?;
    let mut out = sink(rt.alloc(), 16_000_000)?;
    let rows = rows(rt.alloc())?;
    if rows.len() != 8_000_000 {
        return Err(Fail::new("not a million rows"));
    }
    feed(&mut decoder, rows.as_slice(), 60_000, &mut out);
    let cut = BadField {
        kind: Bad::Cut,
        place: 8_000_000,
    };
    expect(&rt, decoder.finish(), Err(cut));
    feed(&mut decoder, b"\xa5\0\0\0", 3, &mut out);
    expect(&rt, decoder.finish(), Ok(()));
    // "q[" and "].n = 7\n" around 5,888,890 digits.
    expect(&rt, out.bytes().len(), 15_888_890);
    assert!(rt; out.bytes().ends_with(b"q[999998].n = 7\nq[999999].n = 7\n"));
    Ok(())
}
