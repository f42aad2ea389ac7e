use super::datasets::dataset;
use crate::tests::expecting::expect;
use dap_types::{Id, Index, List, check};
use grid_projection::{Members, Part};
use std::test::Fail;

fn is_column(part: Part<'_>) -> bool {
    match part {
        Part::Column(_) => true,
        Part::Whole(_) | Part::Array(_) => false,
    }
}

#[test]
fn a_column_is_found_by_its_path(rt: HostRuntime) -> Result<(), Fail> {
    let alloc = rt.alloc();
    let dataset = dataset(alloc)?;
    check(alloc, &dataset)?;
    let index = Index::new(alloc, &dataset)?;
    let members = Members::new(alloc, &dataset, &index)?;
    let mut path = List::new(alloc);
    path.push(Id::raw(alloc, b"buoys")?)?;
    path.push(Id::raw(alloc, b"depth")?)?;
    let found = members.find(path.items());
    expect(&rt, found.map(|found| found.number), Some(9));
    assert!(rt; found.is_some_and(|found| is_column(found.part)));
    path.push(Id::raw(alloc, b"depth")?)?;
    assert!(rt; members.find(path.items()).is_none());
    Ok(())
}
