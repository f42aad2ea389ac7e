//! Bodies over large files and tables, and what a sink gets of them.

ghost use Rattle.std.specs.Prelude.{◌≡◌, ◌≤◌, ◌<◌, ◌^◌, ℕ, List, IfOk, length};
ghost use Rattle.dap_types.specs.Numbered.{number_in};
ghost use Rattle.dap_types.specs.View.{dataset_view};
ghost use Rattle.dap_types.specs.WellFormed.{IsWellFormed, number_of};
ghost use Rattle.netcdf_source.specs.Mapping.{dataset_of};
ghost use Rattle.xdr_encode.specs.Bodies.{FitsFile};

use crate::expecting::expect;
use crate::header_limits::header_of;
use crate::marking::{constraint_of, marks_of};
use crate::table_limits::kept_rows;
use crate::tallies::{Opened, Patterned, Tally};
use constraint_parse::Constraint;
use csv_source::{Table, read_table};
use dap_outside::Shelf;
use dap_types::{Bytes, Dataset, Index, List, Memory, check};
use grid_projection::resolve;
use netcdf_source::Header;
use slab_fill::{Gate, NoGate};
use std::alloc::Global;
use std::process::Abort;
use std::test::Fail;
use std::thread::Threads;
use xdr_encode::{Body, BodyRefusal, Streamed};

/// The body of what a constraint leaves of the dataset of a header.
fn resolved_body(
    alloc: Global,
    header: &Header,
    dataset: &Dataset,
    index: &Index,
    constraint: &Constraint,
) -> Result<Result<Body, BodyRefusal>, Fail>
    requires dataset { (file_name : List ℕ) × (dataset_view dataset.now ≡ dataset_of header.now.contents file_name) }
    requires well_formed { IsWellFormed (dataset_view dataset.now) }
    requires indexed { (path : List (List ℕ)) → number_in index.now path ≡ number_of (dataset_view dataset.now) path }
    ensures { IfOk result (λ made. IfOk made (λ b. FitsFile b header.now.length)) }
{
    let marks = resolve(alloc, dataset, index, constraint)?;
    Ok(Body::of_cdf(alloc, header, dataset, &marks))
}

/// The body of what a constraint leaves of the file of that header and name.
fn body_of(
    alloc: Global,
    header: &Header,
    file_name: &[u8],
    query: &[u8],
) -> Result<Result<Body, BodyRefusal>, Fail>
    ensures { IfOk result (λ made. IfOk made (λ b. FitsFile b header.now.length)) }
{
    let dataset = header.dataset(alloc, file_name)?;
    let index = Index::new(alloc, &dataset)?;
    let constraint = constraint_of(alloc, query)?;
    resolved_body(alloc, header, &dataset, &index, &constraint)
}

/// The body of what a constraint leaves of the file of that name and length, which begins with these bytes.
pub fn cut_body<R: Abort>(
    rt: &R,
    alloc: Global,
    front: &[u8],
    file_len: u64,
    file_name: &[u8],
    query: &[u8],
) -> Result<Result<Body, BodyRefusal>, Fail>
    ensures { IfOk result (λ made. IfOk made (λ b. FitsFile b file_len)) }
{
    let header = header_of(rt, alloc, front, file_len)?;
    body_of(alloc, &header, file_name, query)
}

/// The only file of the shelf.
fn opened<R: Abort>(rt: &R, shelf: &mut Patterned) -> Opened {
    let Ok(Some(file)) = shelf.find("f") else {
        panic!(rt; "no file");
    };
    file
}

fn streamed<R: Threads + Sync, G: Gate>(
    rt: &R,
    body: &mut Body,
    shelf: &mut Patterned,
    file: &mut Opened,
    out: &mut Tally,
    workers: u32,
    gate: &G,
) -> Streamed
    requires fits { FitsFile body.old file.old.size }
    requires some { 1 ≤ workers }
    requires many { workers ≤ 64 }
{
    body.stream(rt, shelf, file, out, workers, gate)
}

/// What a sink got of a body, and how often the file was read.
#[derive(Drop)]
pub struct Outcome {
    pub dds: Bytes,
    pub tally: Tally,
    pub reads: u64,
}

fn outcome_of(alloc: Global, body: &Body, tally: Tally, reads: u64) -> Result<Outcome, Memory> {
    let dds = Bytes::new(alloc, body.dds())?;
    Ok(Outcome { dds, tally, reads })
}

/// What a sink gets of a body, over a shelf whose file has so many bytes.
pub fn sent_of<R: Threads + Abort + Sync, G: Gate>(
    rt: &R,
    alloc: Global,
    body: &mut Body,
    size: u64,
    workers: u32,
    gate: &G,
) -> Result<Outcome, Memory>
    requires fits { FitsFile body.old size }
    requires small { size < 2 ^ 63 }
    requires some { 1 ≤ workers }
    requires many { workers ≤ 64 }
{
    let mut shelf = Patterned::new(size);
    let mut out = Tally::new();
    let mut file = opened(rt, &mut shelf);
    assert!(rt; shelf.size(&file) == size);
    let sent = streamed(rt, body, &mut shelf, &mut file, &mut out, workers, gate);
    expect(rt, sent, Streamed::Sent);
    outcome_of(alloc, body, out, shelf.reads)
}

/// What a sink gets of what a constraint leaves of the file `f` of that length, which begins with these bytes.
pub fn sent_cut<R: Threads + Abort + Sync>(
    rt: &R,
    alloc: Global,
    front: &[u8],
    size: u64,
    query: &[u8],
    workers: u32,
) -> Result<Outcome, Fail>
    requires small { size < 2 ^ 63 }
    requires some { 1 ≤ workers }
    requires many { workers ≤ 64 }
{
    let Ok(mut body) = cut_body(rt, alloc, front, size, b"f", query)? else {
        panic!(rt; "no body");
    };
    Ok(sent_of(rt, alloc, &mut body, size, workers, &NoGate)?)
}

/// The mask as a list.
fn listed(alloc: Global, mask: &[bool]) -> Result<List<bool>, Memory> {
    let mut list = List::new(alloc);
    for is_kept in mask {
        list.push(*is_kept)?;
    }
    Ok(list)
}

fn expect_well_formed<R: Abort>(rt: &R, alloc: Global, dataset: &Dataset) {
    let Ok(()) = check(alloc, dataset) else {
        panic!(rt; "not well formed");
    };
}

/// The body of what a constraint and a mask leave of a table.
fn masked_body<R: Abort>(
    rt: &R,
    alloc: Global,
    table: Table,
    query: &[u8],
    kept: List<bool>,
) -> Result<Body, Fail>
    requires { length kept ≡ length table.rows }
    ensures { IfOk result (λ b. (file_len : ℕ) → FitsFile b file_len) }
{
    let dataset = table.dataset(alloc)?;
    expect_well_formed(rt, alloc, &dataset);
    let marks = marks_of(alloc, &dataset, query)?;
    let Ok(body) = Body::of_table(alloc, table, kept, &dataset, &marks) else {
        panic!(rt; "no body");
    };
    Ok(body)
}

/// The body of what a constraint leaves of the table `t`.
fn rows_body<R: Threads + Abort + Sync>(
    rt: &R,
    alloc: Global,
    text: &[u8],
    query: &[u8],
) -> Result<Body, Fail>
    ensures { IfOk result (λ b. (file_len : ℕ) → FitsFile b file_len) }
{
    let kept = listed(alloc, &kept_rows(rt, alloc, text, query, 7, &NoGate)?)?;
    let table = read_table(alloc, text, b"t.csv")?;
    assert!(rt; kept.items().len() == table.rows() as usize);
    masked_body(rt, alloc, table, query, kept)
}

/// What a sink gets of it.
pub fn sent_rows<R: Threads + Abort + Sync>(
    rt: &R,
    alloc: Global,
    text: &[u8],
    query: &[u8],
) -> Result<Outcome, Fail> {
    let mut body = rows_body(rt, alloc, text, query)?;
    Ok(sent_of(rt, alloc, &mut body, 0, 1, &NoGate)?)
}
