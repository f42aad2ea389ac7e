//! What some targets over the small files are answered with, and one over a usual grid, worked out by hand.

use super::samples::bytes_of;
use dap_types::Memory;
use std::alloc::Global;

/// A target, and what it is answered with: a text, and words of XDR behind it.
pub type Row = (&'static str, &'static [u8], &'static [u32]);

/// All that the row's target is answered with.
pub fn answer_of(alloc: Global, row: Row) -> Result<Vec<u8>, Memory> {
    let (_, text, words) = row;
    let mut answer = Vec::from_slice(alloc, text)?;
    answer.extend_from_slice(&bytes_of(alloc, words, b"")?)?;
    Ok(answer)
}

const WHOLE_BUOYS: &[u8] =
    b"Dataset {\n    Sequence {\n        String station;\n        Int32 depth;\n    } buoys;\n} buoys.csv;\nData:\n";

const GRID: &[u8] =
    b"Dataset {\n    Grid {\n      Array:\n        Int16 g[lat = 1][lon = 2];\n      Maps:\n        Int32 lat[lat = 1];\n        Int32 lon[lon = 2];\n    } g;\n} g.nc;\nData:\n";

pub const WHOLE_TABLE: Row = (
    "buoys.csv.dods",
    WHOLE_BUOYS,
    &[
        0x5a000000, 2, 0x41310000, 5, 0x5a000000, 3, 0x42323200, 0xfffffff9, 0xa5000000,
    ],
);

pub const EACH_SECOND: Row = (
    "v.nc.dods?v[0:2:2][1:3]",
    b"Dataset {\n    Int32 v[y = 2][x = 3];\n} v.nc;\nData:\n",
    &[6, 6, 1, 2, 3, 9, 10, 11],
);

pub const WHOLE_GRID: Row = (
    "g.nc.dods?g[0:0][1:2]",
    GRID,
    &[2, 2, 0x7fff, 3, 1, 1, 10, 2, 2, 2, 3],
);

pub const UNSIGNED: Row = (
    "u.nc.dods",
    b"Dataset {\n    UInt16 u[n = 3];\n} u.nc;\nData:\n",
    &[3, 3, 0xffff, 1, 0x8000],
);

pub const SAVED_DEPTHS: Row = (
    "saved.dods.dods?buoys.depth&buoys.depth<0",
    b"Dataset {\n    Sequence {\n        Int32 depth;\n    } buoys;\n} saved.dods;\nData:\n",
    &[0x5a000000, 0xfffffff9, 0xa5000000],
);

pub const COADS_TARGET: &str = "coads.nc.dods?SST[0:11][40:50][0:2:179]";

pub const COADS_TEXT: &[u8] =
    b"Dataset {\n    Grid {\n      Array:\n        Float32 SST[TIME = 12][COADSY = 11][COADSX = 90];\n      Maps:\n        Float64 TIME[TIME = 12];\n        Float64 COADSY[COADSY = 11];\n        Float64 COADSX[COADSX = 90];\n    } SST;\n} coads.nc;\nData:\n";

/// Every second element of a row of the grid.
fn append_row(body: &mut Vec<u8>, time: u32, row: u32) -> Result<(), Memory> {
    let first = time.wrapping_mul(90).wrapping_add(row).wrapping_mul(180);
    for half in 0..90u32 {
        body.extend_from_slice(&first.wrapping_add(2 * half).to_be_bytes())?;
    }
    Ok(())
}

/// The array, with its counts.
fn append_array(body: &mut Vec<u8>) -> Result<(), Memory> {
    append_count(body, 11880)?;
    for time in 0..12u32 {
        for row in 40..51u32 {
            append_row(body, time, row)?;
        }
    }
    Ok(())
}

/// A count, which stands twice.
fn append_count(body: &mut Vec<u8>, count: u32) -> Result<(), Memory> {
    body.extend_from_slice(&count.to_be_bytes())?;
    body.extend_from_slice(&count.to_be_bytes())?;
    Ok(())
}

/// So many elements of a map, each so much greater than the one before it, with their counts.
fn append_map(body: &mut Vec<u8>, count: u32, first: u64, step: u64) -> Result<(), Memory> {
    append_count(body, count)?;
    let mut element = first;
    for _ in 0..count {
        body.extend_from_slice(&element.to_be_bytes())?;
        element = element.wrapping_add(step);
    }
    Ok(())
}

/// What that target is answered with: element n of each variable has the bits of n.
pub fn coads_body(alloc: Global) -> Result<Vec<u8>, Memory> {
    let mut body = Vec::from_slice(alloc, COADS_TEXT)?;
    append_array(&mut body)?;
    append_map(&mut body, 12, 0, 1)?;
    append_map(&mut body, 11, 40, 1)?;
    append_map(&mut body, 90, 0, 2)?;
    Ok(body)
}
