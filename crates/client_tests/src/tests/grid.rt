use crate::tests::expecting::expect;
use crate::tests::showing::show_all;
use dap_client::Outcome;
use dap_outside::{MemSink, SureSource};
use dap_types::{Bytes, List, Memory};
use std::alloc::Global;
use std::test::Fail;

/// A Grid of 12 times 11 times 90 elements with its maps.
const TEXT: &[u8] =
    b"Dataset {\n    Grid {\n      Array:\n        Float32 SST[TIME = 12][COADSY = 11][COADSX = 90];\n      Maps:\n        Float64 TIME[TIME = 12];\n        Float64 COADSY[COADSY = 11];\n        Float64 COADSX[COADSX = 90];\n    } SST;\n} coads.nc;\nData:\n";

/// What is shown of it first: the DDS, and the elements from number 7,200 on, of which every other one is there.
const FIRST: &[u8] =
    b"Dataset {\n    Grid {\n      Array:\n        Float32 SST[TIME = 12][COADSY = 11][COADSX = 90];\n      Maps:\n        Float64 TIME[TIME = 12];\n        Float64 COADSY[COADSY = 11];\n        Float64 COADSX[COADSX = 90];\n    } SST;\n} coads.nc;\nSST.SST[0][0][0] = 0x00001c20\nSST.SST[0][0][1] = 0x00001c22\n";

const LAST: &[u8] =
    b"SST.COADSX[88] = 0x00000000000000b0\nSST.COADSX[89] = 0x00000000000000b2\ncomplete 48696\n";

/// Writes a count twice.
fn put_counts(out: &mut Vec<u8>, count: u32) -> Result<(), Memory> {
    out.extend_from_slice(&count.to_be_bytes())?;
    out.extend_from_slice(&count.to_be_bytes())?;
    Ok(())
}

/// Writes a map: so many numbers from the first on, each this much above the one before.
fn put_map(out: &mut Vec<u8>, count: u32, first: u32, step: u32) -> Result<(), Memory> {
    put_counts(out, count)?;
    for at in 0..count {
        let number = first.saturating_add(at.saturating_mul(step));
        out.extend_from_slice(&u64::from(number).to_be_bytes())?;
    }
    Ok(())
}

/// Writes the row that begins with an element of that number: every other one of 180.
fn put_row(out: &mut Vec<u8>, first: u32) -> Result<(), Memory> {
    for column in 0..90u32 {
        let number = first.saturating_add(column.saturating_mul(2));
        out.extend_from_slice(&number.to_be_bytes())?;
    }
    Ok(())
}

/// The data response. The bits of element n of a variable of 12 times 90 times 180 elements are n.
fn body(alloc: Global) -> Result<Vec<u8>, Memory> {
    let mut out = Vec::from_slice(alloc, TEXT)?;
    put_counts(&mut out, 11880)?;
    for time in 0..12u32 {
        for row in 40..51u32 {
            put_row(
                &mut out,
                time.saturating_mul(16200)
                    .saturating_add(row.saturating_mul(180)),
            )?;
        }
    }
    put_map(&mut out, 12, 0, 1)?;
    put_map(&mut out, 11, 40, 1)?;
    put_map(&mut out, 90, 0, 2)?;
    Ok(out)
}

/// Shows the data response in a sink.
fn shown(alloc: Global, out: &mut MemSink) -> Result<Outcome, Fail> {
    let body = Bytes::from_vec(body(alloc)?);
    let mut source = SureSource::new(body, 4099);
    Ok(show_all(alloc, &mut source, out))
}

fn lines_in(text: &[u8]) -> usize {
    text.iter().filter(|byte| **byte == b'\n').count()
}

/// All of 11,993 elements are shown, behind the 10 lines of the DDS.
#[test]
fn a_grid_is_shown(rt: HostRuntime) -> Result<(), Fail> {
    let mut out = MemSink::new(rt.alloc(), 1048576, 65536, List::new(rt.alloc()))?;
    let outcome = shown(rt.alloc(), &mut out)?;
    assert!(rt; matches!(outcome, Outcome::Complete { bytes: 48696 }));
    assert!(rt; out.bytes().starts_with(FIRST));
    assert!(rt; out.bytes().ends_with(LAST));
    expect(&rt, lines_in(out.bytes()), 12004);
    Ok(())
}
