//! Work that no call tells, by the processor time of the thread: what grows in step with its input takes so
//! much longer for more of it, and not its square. Of several tries the shortest counts.

ghost use Rattle.std.specs.Prelude.{◌≡◌, ℕ, List};
ghost use Rattle.dap_types.specs.Numbered.{number_in};
ghost use Rattle.dap_types.specs.View.{dataset_view};
ghost use Rattle.dap_types.specs.WellFormed.{IsWellFormed, number_of};

use crate::building::{name_of, times};
use crate::tallies::Fed;
use constraint_parse::{Constraint, parse};
use dap_http::{HeadRead, HeadReader};
use dap_types::{BaseType, Column, Dataset, Decl, Id, Index, List, Memory, check};
use grid_projection::resolve;
use std::alloc::Global;
use std::process::Abort;
use std::test::Fail;
use std::time::{CpuClock, Duration};

/// How many tries there are.
const TRIES: u32 = 5;

/// A head without an end of so many bytes is read, which come one by one.
fn read_bytes<R: CpuClock + Abort>(rt: &R, alloc: Global, length: usize) -> Result<Duration, Fail> {
    let mut source = Fed::new(times(alloc, b"G", length)?, 1);
    let mut reader = HeadReader::new(alloc)?;
    let start = rt.thread_cpu_time()?;
    let read = reader.read(&mut source);
    let took = rt.thread_cpu_time()?.saturating_sub(start);
    match read {
        HeadRead::Head(_) => panic!(rt; "a head"),
        _ => Ok(took),
    }
}

/// The shortest time of some tries.
fn read_time<R: CpuClock + Abort>(rt: &R, alloc: Global, length: usize) -> Result<Duration, Fail> {
    let mut shortest = Duration::from_secs(60);
    for _ in 0..TRIES {
        shortest = shortest.min(read_bytes(rt, alloc, length)?);
    }
    Ok(shortest)
}

/// A head is parsed behind each line feed, and not behind each byte: eight times the bytes take about eight
/// times as long.
#[test]
fn heads_take_time_in_step(rt: HostRuntime) -> Result<(), Fail> {
    let short = read_time(&rt, rt.alloc(), 2_000)?;
    let long = read_time(&rt, rt.alloc(), 16_000)?;
    let times = long.as_nanos() / short.as_nanos().max(1);
    assert!(rt; times < 24, "{times} times as long");
    Ok(())
}

/// The Byte of this number.
fn byte(alloc: Global, number: u32) -> Result<Decl, Memory> {
    Ok(Decl::Base(Column {
        name: Id::raw(alloc, &name_of(number))?,
        base: BaseType::Byte,
    }))
}

/// A dataset of one Structure with so many members.
fn structure(alloc: Global, members: u32) -> Result<Dataset, Memory> {
    let mut parts = List::new(alloc);
    for number in 0..members {
        parts.push(byte(alloc, number)?)?;
    }
    let mut members = List::new(alloc);
    members.push(Decl::Structure(Id::raw(alloc, b"s")?, parts))?;
    Ok(Dataset {
        name: Id::raw(alloc, b"d")?,
        members,
    })
}

/// So many items on the whole Structure.
fn constraint_of(alloc: Global, items: usize) -> Result<Constraint, Fail> {
    let mut text = times(alloc, b"s,", items)?;
    text.push(b's')?;
    Ok(parse(alloc, &text)?)
}

/// The constraint is resolved, and marks the first member of the Structure.
fn resolve_once<R: CpuClock + Abort>(
    rt: &R,
    alloc: Global,
    dataset: &Dataset,
    index: &Index,
    constraint: &Constraint,
) -> Result<Duration, Fail>
    requires well_formed { IsWellFormed (dataset_view dataset.now) }
    requires indexed { (path : List (List ℕ)) → number_in index.now path ≡ number_of (dataset_view dataset.now) path }
{
    let start = rt.thread_cpu_time()?;
    let marks = resolve(alloc, dataset, index, constraint)?;
    let took = rt.thread_cpu_time()?.saturating_sub(start);
    assert!(rt; marks.slabs(2).is_some());
    Ok(took)
}

/// The shortest time of some tries to resolve so many items.
fn resolve_time<R: CpuClock + Abort>(
    rt: &R,
    alloc: Global,
    dataset: &Dataset,
    items: usize,
) -> Result<Duration, Fail> {
    let Ok(()) = check(alloc, dataset) else {
        panic!(rt; "not well formed");
    };
    let index = Index::new(alloc, dataset)?;
    let constraint = constraint_of(alloc, items)?;
    let mut shortest = Duration::from_secs(60);
    for _ in 0..TRIES {
        shortest = shortest.min(resolve_once(rt, alloc, dataset, &index, &constraint)?);
    }
    Ok(shortest)
}

/// A member that was marked whole is not walked over again: 64 times the items take hardly longer.
#[test]
fn items_do_not_walk_again(rt: HostRuntime) -> Result<(), Fail> {
    let dataset = structure(rt.alloc(), 20_000)?;
    let few = resolve_time(&rt, rt.alloc(), &dataset, 15)?;
    let many = resolve_time(&rt, rt.alloc(), &dataset, 1_023)?;
    let times = many.as_nanos() / few.as_nanos().max(1);
    assert!(rt; times < 12, "{times} times as long");
    Ok(())
}
