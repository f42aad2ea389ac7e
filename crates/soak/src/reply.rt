//! The file served over a link in memory.

ghost use Rattle.std.specs.Prelude.{◌≡◌, ◌≤◌, ◌<◌, ℕ, List, Some, IfOk, [], Option, codes};
ghost use Rattle.std.specs.Bool.{OnTrue};
ghost use Rattle.dap_server.specs.declared.served.Ending.TheVariants.{Closed};
ghost use Rattle.soak.specs.Asked.{request};
ghost use Rattle.soak.specs.File.{soak_bytes};
ghost use Rattle.soak.specs.Reply.{reply};

use crate::file::soak_file;
use crate::request::soak_request;
use dap_outside::{MemFile, MemLink, Shelf, Sink, Source, SureShelf};
use dap_server::{Ending, Served, serve_connection};
use dap_types::{Bytes, List, Memory, Name, limits};
use std::alloc::Global;
use std::thread::Threads;

/// The threads that read the values.
const WORKERS: u32 = 7;

/// The bytes that the link takes, in all and at once.
const ROOM: u32 = 4_194_304;

const PIECE: u32 = limits::MOST_PIECE as u32;

/// A shelf that has the file alone.
fn shelf_of(alloc: Global, start: u64, records: u32) -> Result<SureShelf, Memory>
    requires few { records ≤ 4096 }
    ensures { IfOk result (λ s. (files : List ℕ → Option (List ℕ)) × (⟦<SureShelf as Shelf>⟧.files s ≡ Some files) × (files (codes "soak.nc") ≡ Some (soak_bytes start records))) }
{
    let mut files = List::new(alloc);
    files.push(MemFile {
        name: Name::new(alloc, "soak.nc")?,
        bytes: soak_file(alloc, start, records)?,
    })?;
    Ok(SureShelf::new(files))
}

/// A link that brings the request for the file.
fn link_of(alloc: Global, records: u32) -> Result<MemLink, Memory>
    requires some { 1 ≤ records }
    ensures left { IfOk result (λ l. ⟦<MemLink as Source>⟧.left l ≡ Some (request records)) }
    ensures written { IfOk result (λ l. ⟦<MemLink as Sink>⟧.written l ≡ Some []) }
{
    MemLink::new(
        alloc,
        soak_request(alloc, records)?,
        ROOM,
        PIECE,
        List::new(alloc),
        List::new(alloc),
    )
}

/// The one request was answered with what it asked for.
fn is_whole(served: Served) -> bool
    ensures { OnTrue result ((served.replies ≡ 1) × (served.status ≡ 200) × (served.ending ≡ Closed)) }
{
    served.replies == 1 && served.status == 200 && served.ending == Ending::Closed
}

/// The reply of the server to the request for the file. Fails where memory is wanted.
pub fn soak_reply<R: Threads + Sync>(
    rt: &R,
    alloc: Global,
    start: u64,
    records: u32,
) -> Result<Bytes, Memory>
    requires some { 1 ≤ records }
    requires few { records ≤ 4096 }
    ensures { IfOk result (λ b. b ≡ reply start records) }
{
    let mut shelf = shelf_of(alloc, start, records)?;
    let mut link = link_of(alloc, records)?;
    let served = serve_connection(rt, alloc, &mut shelf, &mut link, WORKERS);
    if !is_whole(served) {
        return Err(Memory);
    }
    Bytes::new(alloc, link.written())
}
