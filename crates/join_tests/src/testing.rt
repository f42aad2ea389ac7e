//! Bodies for the tests, from the bytes of files and a constraint to what a sink gets.

ghost use Rattle.std.specs.Prelude.{◌≡◌, ◌≤◌, ◌<◌, IfOk, length, map};
ghost use Rattle.join_source.specs.Bodies.{FitsFiles};
ghost use Rattle.join_source.specs.Joins.{headers_in};
ghost use Rattle.join_source.specs.Members.{lengths_of};

use constraint_parse::parse;
use dap_outside::{MemFile, MemSink, Shelf, SureShelf};
use dap_types::{Bytes, Index, List, Memory, Name};
use grid_projection::resolve;
use join_source::{JoinBody, JoinRefusal, Joined, join};
use netcdf_source::{Header, read_header};
use slab_fill::Gate;
use std::alloc::Global;
use std::process::Abort;
use std::test::Fail;
use std::thread::Threads;
use xdr_encode::{BodyRefusal, Streamed};

/// The header of Int16 `s[t]`, the one record variable, of so many records.
pub const fn r(records: u32) -> [u32; 20] {
    [
        0x43444601, records, 0x0a, 1, 1, 0x74000000, 0, 0, 0, 0x0b, 1, 1, 0x73000000, 1, 0, 0, 0,
        3, 4, 0x50,
    ]
}

/// The bytes of some words, and of what stands behind them.
pub fn file_of(alloc: Global, words: &[u32], behind: &[u8]) -> Result<Vec<u8>, Memory> {
    let mut bytes = Vec::new(alloc);
    for word in words {
        bytes.extend_from_slice(&word.to_be_bytes())?;
    }
    bytes.extend_from_slice(behind)?;
    Ok(bytes)
}

/// The header of a file.
fn header_of<R: Abort>(rt: &R, alloc: Global, file: &[u8]) -> Result<Header, Fail>
    ensures { IfOk result (λ h. h.length ≡ length file.now) }
{
    assert!(rt; file.len() <= 1048576);
    let Ok(header) = read_header(alloc, file, file.len() as u64) else {
        panic!(rt; "no header");
    };
    Ok(header)
}

/// The headers of some files.
fn headers_of<R: Abort>(rt: &R, alloc: Global, files: &[&[u8]]) -> Result<List<Header>, Fail>
    ensures { IfOk result (λ hs. lengths_of hs ≡ map (λ f. length f.now) files.now) }
{
    let mut headers: List<Header> = List::new(alloc);
    for file in files {
        headers.push(header_of(rt, alloc, file)?)?;
    }
    Ok(headers)
}

/// The files joined.
pub fn joined<R: Abort>(
    rt: &R,
    alloc: Global,
    files: &[&[u8]],
) -> Result<Result<Joined, JoinRefusal>, Fail>
    ensures { IfOk result (λ r. IfOk r (λ j. lengths_of (headers_in j) ≡ map (λ f. length f.now) files.now)) }
{
    let headers = headers_of(rt, alloc, files)?;
    assert!(rt; !headers.items().is_empty() && headers.items().len() <= 64);
    Ok(join(alloc, headers, b"j.join"))
}

/// What comes of the body of joined files for a constraint.
pub fn body_made<R: Abort>(
    rt: &R,
    alloc: Global,
    joined: &Joined,
    query: &[u8],
) -> Result<Result<JoinBody, BodyRefusal>, Fail>
    ensures { IfOk result (λ r. IfOk r (λ b. FitsFiles b (lengths_of (headers_in joined.now)))) }
{
    let dataset = joined.dataset(alloc)?;
    let index = Index::new(alloc, &dataset)?;
    let Ok(constraint) = parse(alloc, query) else {
        panic!(rt; "no constraint");
    };
    let Ok(marks) = resolve(alloc, &dataset, &index, &constraint) else {
        panic!(rt; "no marks");
    };
    Ok(JoinBody::new(alloc, joined, &dataset, &marks))
}

/// The body of joined files for a constraint.
pub fn body_of<R: Abort>(
    rt: &R,
    alloc: Global,
    files: &[&[u8]],
    query: &[u8],
) -> Result<JoinBody, Fail>
    ensures { IfOk result (λ b. FitsFiles b (map (λ f. length f.now) files.now)) }
{
    let Ok(joined) = joined(rt, alloc, files)? else {
        panic!(rt; "not joined");
    };
    let Ok(body) = body_made(rt, alloc, &joined, query)? else {
        panic!(rt; "no body");
    };
    Ok(body)
}

const NAMES: [&str; 4] = ["m0", "m1", "m2", "m3"];

/// A shelf of these files.
fn shelf_of<R: Abort>(rt: &R, alloc: Global, files: &[&[u8]]) -> Result<SureShelf, Fail> {
    assert!(rt; files.len() <= 4);
    let mut stored = List::new(alloc);
    for (k, file) in files.iter().enumerate() {
        stored.push(MemFile {
            name: Name::new(alloc, NAMES[k])?,
            bytes: Bytes::new(alloc, file)?,
        })?;
    }
    Ok(SureShelf::new(stored))
}

/// The first files of a shelf.
fn found_in<R: Abort>(
    rt: &R,
    alloc: Global,
    shelf: &mut SureShelf,
    count: usize,
) -> Result<Vec<usize>, Fail> {
    assert!(rt; count <= 4);
    let mut found = Vec::new(alloc);
    for k in 0..count {
        let Ok(Some(file)) = shelf.find(NAMES[k]) else {
            panic!(rt; "no file");
        };
        found.push(file)?;
    }
    Ok(found)
}

/// The files of a shelf have as many bytes as these.
fn expect_sizes<R: Abort>(rt: &R, shelf: &SureShelf, found: &[usize], files: &[&[u8]])
    ensures { map (⟦<SureShelf as Shelf>⟧.size_of shelf.now) found.now ≡ map (λ f. length f.now) files.now }
{
    assert!(rt; found.len() == files.len());
    for (k, file) in found.iter().enumerate() {
        assert!(rt; shelf.size(file) == files[k].len() as u64);
    }
}

/// What a sink gets that takes so many bytes a call.
pub fn put_of<R: Threads + Abort + Sync, G: Gate>(
    rt: &R,
    alloc: Global,
    files: &[&[u8]],
    body: &mut JoinBody,
    piece: u32,
    workers: u32,
    gate: &G,
) -> Result<MemSink, Fail>
    requires fits { FitsFiles body.old (map (λ f. length f.now) files.now) }
    requires piece { 0 < piece }
    requires some { 1 ≤ workers }
    requires many { workers ≤ 64 }
{
    let mut shelf = shelf_of(rt, alloc, files)?;
    let mut found = found_in(rt, alloc, &mut shelf, files.len())?;
    let found = found.as_mut_slice();
    expect_sizes(rt, &shelf, found, files);
    let mut out = MemSink::new(alloc, 4000000, piece, List::new(alloc))?;
    let sent = body.stream(rt, &mut shelf, found, &mut out, workers, gate);
    assert!(rt; sent == Streamed::Sent);
    Ok(out)
}
