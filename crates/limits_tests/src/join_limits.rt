//! As many headers of 1,048,576 bytes as a list may have lines, joined.

ghost use Rattle.std.specs.Prelude.{◌≡◌, ℕ, List};
ghost use Rattle.dap_types.specs.Numbered.{number_in};
ghost use Rattle.dap_types.specs.View.{dataset_view};
ghost use Rattle.dap_types.specs.WellFormed.{IsWellFormed, number_of};
ghost use Rattle.join_source.specs.Joins.{members_in, name_in};
ghost use Rattle.join_source.specs.Members.{joined_dataset};

use crate::building::{expect_length, expect_same};
use crate::header_limits::{
    LONGEST, VARIABLES, dds_over, header_of, record_header, wide_das, wide_len,
};
use crate::marking::constraint_of;
use constraint_parse::Constraint;
use dap_types::{Bytes, Dataset, Index, List, Memory};
use grid_projection::resolve;
use join_source::{JoinBody, Joined, join};
use netcdf_source::Header;
use std::alloc::Global;
use std::process::Abort;
use std::test::Fail;

/// The most lines of a list. As many of the widest headers take some 280 MB, by the sizes of their parts, and the
/// pieces of the body of all their variables as much again.
const LINES: u32 = 64;

/// The dimension of each variable: two records a line.
const DIMENSION: &[u8] = b"[x = 128];\n";

/// So many headers of that length, each with so many record variables.
fn headers_of<R: Abort>(
    rt: &R,
    alloc: Global,
    lines: u32,
    variables: u32,
    length: u32,
) -> Result<List<Header>, Fail> {
    let front = record_header(alloc, variables, length)?;
    expect_length(rt, &front, length as usize);
    let mut headers: List<Header> = List::new(alloc);
    for _ in 0..lines {
        headers.push(header_of(rt, alloc, &front, wide_len(variables, length))?)?;
    }
    Ok(headers)
}

/// They are joined.
fn joined_of<R: Abort>(
    rt: &R,
    alloc: Global,
    lines: u32,
    variables: u32,
    length: u32,
) -> Result<Joined, Fail> {
    let headers = headers_of(rt, alloc, lines, variables, length)?;
    assert!(rt; !headers.items().is_empty() && headers.items().len() <= 64);
    let Ok(joined) = join(alloc, headers, b"j.join") else {
        panic!(rt; "not joined");
    };
    Ok(joined)
}

fn dds_of(alloc: Global, joined: &Joined) -> Result<Bytes, Memory> {
    let dataset = joined.dataset(alloc)?;
    dds_text::print(alloc, &dataset)
}

fn das_of(alloc: Global, joined: &Joined) -> Result<Bytes, Memory> {
    let attributes = joined.attributes(alloc)?;
    das_text::print(alloc, &attributes)
}

/// The body of what a constraint leaves of their dataset.
fn resolved_body(
    alloc: Global,
    joined: &Joined,
    dataset: &Dataset,
    index: &Index,
    constraint: &Constraint,
) -> Result<JoinBody, Fail>
    requires dataset { dataset_view dataset.now ≡ joined_dataset (members_in joined.now) (name_in joined.now) }
    requires well_formed { IsWellFormed (dataset_view dataset.now) }
    requires indexed { (path : List (List ℕ)) → number_in index.now path ≡ number_of (dataset_view dataset.now) path }
{
    let marks = resolve(alloc, dataset, index, constraint)?;
    Ok(JoinBody::new(alloc, joined, dataset, &marks)?)
}

/// The body of all that they have.
fn body_of(alloc: Global, joined: &Joined) -> Result<JoinBody, Fail> {
    let dataset = joined.dataset(alloc)?;
    let index = Index::new(alloc, &dataset)?;
    let constraint = constraint_of(alloc, b"")?;
    resolved_body(alloc, joined, &dataset, &index, &constraint)
}

/// Their dataset and their body have this DDS.
fn expect_dds<R: Abort>(rt: &R, alloc: Global, joined: &Joined, dds: &[u8]) -> Result<(), Fail> {
    let printed = dds_of(alloc, joined)?;
    expect_same(rt, printed.bytes(), dds);
    let body = body_of(alloc, joined)?;
    expect_same(rt, body.dds(), dds);
    Ok(())
}

/// Their attributes have this DAS.
fn expect_das<R: Abort>(rt: &R, alloc: Global, joined: &Joined, das: &[u8]) -> Result<(), Fail> {
    let printed = das_of(alloc, joined)?;
    expect_same(rt, printed.bytes(), das);
    Ok(())
}

#[test]
fn widest_headers_are_joined(rt: HostRuntime) -> Result<(), Fail> {
    let alloc = rt.alloc();
    let joined = joined_of(&rt, alloc, LINES, VARIABLES, LONGEST)?;
    let dds = dds_over(alloc, VARIABLES, DIMENSION, b"j.join")?;
    expect_dds(&rt, alloc, &joined, &dds)?;
    expect_das(&rt, alloc, &joined, &wide_das(alloc, VARIABLES, LONGEST)?)
}
