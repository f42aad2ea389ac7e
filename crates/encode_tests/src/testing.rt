//! Bodies for the tests, from the bytes of a file and a constraint to what a sink gets.

ghost use Rattle.std.specs.Prelude.{◌≡◌, ◌≤◌, ◌<◌, ℕ, IfOk, length};
ghost use Rattle.xdr_encode.specs.Bodies.{FitsFile};

use constraint_parse::parse;
use csv_source::read_table;
use dap_outside::{MemFile, MemSink, Shelf, SureShelf};
use dap_types::{Bytes, Index, List, Memory, Name, check};
use grid_projection::resolve;
use netcdf_source::read_header;
use slab_fill::Gate;
use std::alloc::Global;
use std::process::Abort;
use std::test::Fail;
use std::thread::Threads;
use xdr_encode::{Body, Streamed};

/// The bytes of some words, and of what stands behind them.
pub fn file_of(alloc: Global, words: &[u32], behind: &[u8]) -> Result<Vec<u8>, Memory> {
    let mut bytes = Vec::new(alloc);
    for word in words {
        bytes.extend_from_slice(&word.to_be_bytes())?;
    }
    bytes.extend_from_slice(behind)?;
    Ok(bytes)
}

/// The header of a file with one variable `v` of that type and of the first sizes.
pub fn header_of(
    alloc: Global,
    rank: u32,
    sizes: &[u32; 6],
    external_type: u32,
) -> Result<Vec<u8>, Memory>
    requires { rank ≤ 6 }
{
    let mut words = Vec::new(alloc);
    words.extend_from_slice(&[0x43444601, 0, 0x0a, rank])?;
    for k in 0..rank {
        words.extend_from_slice(&[1, 0x61000000 + k * 0x01000000, sizes[k as usize]])?;
    }
    words.extend_from_slice(&[0, 0, 0x0b, 1, 1, 0x76000000, rank])?;
    for k in 0..rank {
        words.push(k)?;
    }
    words.extend_from_slice(&[0, 0, external_type, 0, 64 + 16 * rank])?;
    file_of(alloc, &words, b"")
}

/// Appends a byte so often.
pub fn append_many(bytes: &mut Vec<u8>, many: usize, byte: u8) -> Result<(), Memory> {
    let length = bytes.len().saturating_add(many);
    bytes.resize(length, byte)?;
    Ok(())
}

/// The file alone, under the name `f`.
pub fn files_of(alloc: Global, bytes: &[u8]) -> Result<List<MemFile>, Memory> {
    let mut files = List::new(alloc);
    files.push(MemFile {
        name: Name::new(alloc, "f")?,
        bytes: Bytes::new(alloc, bytes)?,
    })?;
    Ok(files)
}

/// The body of a netCDF file for a constraint.
pub fn cdf_body<R: Abort>(
    rt: &R,
    alloc: Global,
    bytes: &[u8],
    file_name: &[u8],
    query: &[u8],
) -> Result<Body, Fail>
    ensures { IfOk result (λ b. FitsFile b (length bytes.now)) }
{
    assert!(rt; bytes.len() <= 1048576);
    let Ok(header) = read_header(alloc, bytes, bytes.len() as u64) else {
        panic!(rt; "no header");
    };
    let dataset = header.dataset(alloc, file_name)?;
    let index = Index::new(alloc, &dataset)?;
    let Ok(constraint) = parse(alloc, query) else {
        panic!(rt; "no constraint");
    };
    let Ok(marks) = resolve(alloc, &dataset, &index, &constraint) else {
        panic!(rt; "no marks");
    };
    let Ok(body) = Body::of_cdf(alloc, &header, &dataset, &marks) else {
        panic!(rt; "no body");
    };
    Ok(body)
}

/// The body of a table for the items of a constraint and a mask.
pub fn rows_body<R: Abort>(
    rt: &R,
    alloc: Global,
    text: &[u8],
    file_name: &[u8],
    query: &[u8],
    mask: &[bool],
) -> Result<Body, Fail>
    ensures { IfOk result (λ b. (file_len : ℕ) → FitsFile b file_len) }
{
    let Ok(table) = read_table(alloc, text, file_name) else {
        panic!(rt; "no table");
    };
    let dataset = table.dataset(alloc)?;
    let Ok(()) = check(alloc, &dataset) else {
        panic!(rt; "not well formed");
    };
    let index = Index::new(alloc, &dataset)?;
    let Ok(constraint) = parse(alloc, query) else {
        panic!(rt; "no constraint");
    };
    let Ok(marks) = resolve(alloc, &dataset, &index, &constraint) else {
        panic!(rt; "no marks");
    };
    let mut kept = List::new(alloc);
    for keep in mask {
        kept.push(*keep)?;
    }
    assert!(rt; kept.items().len() == table.rows() as usize);
    let Ok(body) = Body::of_table(alloc, table, kept, &dataset, &marks) else {
        panic!(rt; "no body");
    };
    Ok(body)
}

/// What a sink gets that takes so many bytes a call.
pub fn put_of<R: Threads + Abort + Sync, G: Gate>(
    rt: &R,
    alloc: Global,
    bytes: &[u8],
    body: &mut Body,
    piece: u32,
    workers: u32,
    gate: &G,
) -> Result<MemSink, Fail>
    requires fits { FitsFile body.old (length bytes.now) }
    requires piece { 0 < piece }
    requires some { 1 ≤ workers }
    requires many { workers ≤ 64 }
{
    let mut shelf = SureShelf::new(files_of(alloc, bytes)?);
    let Ok(Some(mut file)) = shelf.find("f") else {
        panic!(rt; "no file");
    };
    assert!(rt; shelf.size(&file) == bytes.len() as u64);
    let mut out = MemSink::new(alloc, 4000000, piece, List::new(alloc))?;
    let sent = body.stream(rt, &mut shelf, &mut file, &mut out, workers, gate);
    assert!(rt; sent == Streamed::Sent);
    Ok(out)
}

/// The XDR behind the DDS and the line `Data:`, which have to stand there.
pub fn expect_xdr<R: Abort>(rt: &R, body: &Body, put: &[u8], xdr: &[u8]) {
    let head = body.dds().len();
    assert!(rt; put.len() >= head + 6);
    assert_eq!(rt; &put[..head], body.dds());
    assert_eq!(rt; &put[head..head + 6], b"Data:\n".as_slice());
    assert_eq!(rt; &put[head + 6..], xdr);
}
