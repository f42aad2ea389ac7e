//! Some small files, and a grid as the usual tools make it.

use dap_outside::MemFile;
use dap_types::{Bytes, List, Memory, Name};
use std::alloc::Global;

/// `v` over `y` (3) and `x` (4), element n of which is n.
const V: &[u32] = &[
    0x43444601, 0, 0x0a, 2, 1, 0x79000000, 3, 1, 0x78000000, 4, 0, 0, 0x0b, 1, 1, 0x76000000, 2, 0,
    1, 0, 0, 4, 0x30, 0x60, 0, 1, 2, 3, 4, 5, 6, 7, 8, 9, 10, 11,
];

/// The Grid `g` over `lat` and `lon`.
const G: &[u32] = &[
    0x43444601, 0, 0x0a, 2, 3, 0x6c617400, 2, 3, 0x6c6f6e00, 3, 0, 0, 0x0b, 3, 3, 0x6c617400, 1, 0,
    0, 0, 4, 8, 0xa8, 3, 0x6c6f6e00, 1, 1, 0, 0, 4, 0x0c, 0xb0, 1, 0x67000000, 2, 0, 1, 0, 0, 3,
    0x0c, 0xbc, 10, 20, 1, 2, 3, 0xffff7fff, 0x00030004, 0x00050006,
];

/// One record variable, without its records and with three.
pub const R: &[u32] = &[
    0x43444601, 3, 0x0a, 1, 1, 0x74000000, 0, 0, 0, 0x0b, 1, 1, 0x73000000, 1, 0, 0, 0, 3, 4, 0x50,
];

const E: &[u32] = &[
    0x43444601, 0, 0x0a, 1, 1, 0x74000000, 0, 0, 0, 0x0b, 1, 1, 0x73000000, 1, 0, 0, 0, 3, 4, 0x50,
];

/// Version 5: `u` of unsigned shorts, and `q` of 64-bit integers, which is not offered.
const U: &[u32] = &[
    0x43444605, 0, 0, 0x0a, 0, 1, 0, 1, 0x6e000000, 0, 3, 0, 0, 0, 0x0b, 0, 2, 0, 1, 0x75000000, 0,
    1, 0, 0, 0, 0, 0, 8, 0, 8, 0, 0xbc, 0, 1, 0x71000000, 0, 1, 0, 0, 0, 0, 0, 0x0a, 0, 0x18, 0,
    0xc4, 0xffff0001, 0x80000000, 0, 1, 0, 2, 0, 3,
];

/// Coordinate variables `TIME`, `COADSY` and `COADSX` of doubles, and `SST` of floats over them, each with
/// the attribute `units`.
const COADS_HEADER: &[u32] = &[
    0x43444601, 0, 0x0a, 3, 4, 0x54494d45, 12, 6, 0x434f4144, 0x53590000, 90, 6, 0x434f4144,
    0x53580000, 180, 0, 0, 0x0b, 4, 4, 0x54494d45, 1, 0, 0x0c, 1, 5, 0x756e6974, 0x73000000, 2, 1,
    0x68000000, 6, 96, 332, 6, 0x434f4144, 0x53590000, 1, 1, 0x0c, 1, 5, 0x756e6974, 0x73000000, 2,
    1, 0x6e000000, 6, 720, 428, 6, 0x434f4144, 0x53580000, 1, 2, 0x0c, 1, 5, 0x756e6974,
    0x73000000, 2, 1, 0x65000000, 6, 1440, 1148, 3, 0x53535400, 3, 0, 1, 2, 0x0c, 1, 5, 0x756e6974,
    0x73000000, 2, 1, 0x43000000, 5, 777600, 2588,
];

pub fn bytes_of(alloc: Global, words: &[u32], behind: &[u8]) -> Result<Vec<u8>, Memory> {
    let mut bytes = Vec::new(alloc);
    for word in words {
        bytes.extend_from_slice(&word.to_be_bytes())?;
    }
    bytes.extend_from_slice(behind)?;
    Ok(bytes)
}

pub fn file(alloc: Global, name: &str, words: &[u32], behind: &[u8]) -> Result<MemFile, Memory> {
    let name = Name::new(alloc, name)?;
    let bytes = Bytes::from_vec(bytes_of(alloc, words, behind)?);
    Ok(MemFile { name, bytes })
}

/// A file alone.
pub fn alone(alloc: Global, file: MemFile) -> Result<List<MemFile>, Memory> {
    let mut files = List::new(alloc);
    files.push(file)?;
    Ok(files)
}

/// The data response for `buoys.csv`.
const SAVED: &[u8] =
    b"Dataset {\n    Sequence {\n        String station;\n        Int32 depth;\n    } buoys;\n} buoys.csv;\nData:\n\x5a\0\0\0\0\0\0\x02A1\0\0\0\0\0\x05\x5a\0\0\0\0\0\0\x03B22\0\xff\xff\xff\xf9\xa5\0\0\0";

/// Files by their names: some words, and bytes behind them.
const NAMED: &[(&str, &[u32], &[u8])] = &[
    ("buoys.csv", &[], b"station,depth:Int32\nA1,5\nB22,-7\n"),
    ("v.nc", V, b""),
    ("g.nc", G, b""),
    ("r.nc", R, b"\0\x01\0\x02\0\x03"),
    ("e.nc", E, b""),
    ("r2.nc", R, b"\0\x04\0\x05\0\x06"),
    ("j.join", &[], b"r.nc\ne.nc\nr2.nc\n"),
    ("u.nc", U, b""),
    ("saved.dods", &[], SAVED),
];

pub fn files(alloc: Global) -> Result<List<MemFile>, Memory> {
    let mut files = List::new(alloc);
    for (name, words, behind) in NAMED {
        files.push(file(alloc, name, words, behind)?)?;
    }
    Ok(files)
}

/// Appends the first numbers, so many.
fn append_first(bytes: &mut Vec<u8>, len: u64) -> Result<(), Memory> {
    for n in 0..len {
        bytes.extend_from_slice(&n.to_be_bytes())?;
    }
    Ok(())
}

/// The 780,188 bytes of that grid, where element n of each variable has the bits of n.
pub fn coads(alloc: Global) -> Result<Vec<u8>, Memory> {
    let mut bytes = bytes_of(alloc, COADS_HEADER, b"")?;
    for len in [12u64, 90, 180] {
        append_first(&mut bytes, len)?;
    }
    for n in 0..194400u32 {
        bytes.extend_from_slice(&n.to_be_bytes())?;
    }
    Ok(bytes)
}
