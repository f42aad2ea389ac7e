use super::datasets::dataset;
use crate::tests::expecting::expect;
use constraint_parse::parse;
use dap_types::{Index, Slab, check};
use grid_projection::{Resolve, resolve};
use std::alloc::Global;
use std::process::Abort;
use std::test::Fail;

/// The last hyperslab of a leaf, and none where it has none or is not marked.
fn last_slab(alloc: Global, text: &[u8], leaf: u32) -> Result<Option<Slab>, Resolve> {
    let dataset = dataset(alloc)?;
    let Ok(()) = check(alloc, &dataset) else {
        return Err(Resolve::Memory);
    };
    let index = Index::new(alloc, &dataset)?;
    let Ok(constraint) = parse(alloc, text) else {
        return Err(Resolve::Memory);
    };
    let marks = resolve(alloc, &dataset, &index, &constraint)?;
    match marks.slabs(leaf) {
        Some([.., slab]) => Ok(Some(*slab)),
        Some([]) | None => Ok(None),
    }
}

fn slab(start: u32, stride: u32, count: u32) -> Option<Slab> {
    Some(Slab {
        start,
        stride,
        count,
    })
}

/// A constraint gives a leaf this last hyperslab.
fn expect_slab<R: Abort>(
    rt: &R,
    alloc: Global,
    text: &[u8],
    leaf: u32,
    wanted: Option<Slab>,
) -> Result<(), Fail> {
    expect(rt, last_slab(alloc, text, leaf)?, wanted);
    Ok(())
}

#[test]
fn leaves_have_hyperslabs(rt: HostRuntime) -> Result<(), Fail> {
    let alloc = rt.alloc();
    let rows: [(&[u8], u32, Option<Slab>); 14] = [
        (b"v[0:2:2][1:3]", 1, slab(1, 1, 3)),
        (b"v[1][0:2:3]", 1, slab(0, 2, 2)),
        (b"v[1][1:2:2]", 1, slab(1, 1, 1)),
        (b"v[1][3:4294967296:3]", 1, slab(3, 1, 1)),
        (b"v[1][3]", 1, slab(3, 1, 1)),
        (b"v", 1, slab(0, 1, 4)),
        (b"e", 6, slab(0, 1, 0)),
        (b"g[0:0][1:2]", 4, slab(0, 1, 1)),
        (b"g[0:0][1:2]", 5, slab(1, 1, 2)),
        (b"g.g[0:0][1:2]", 5, None),
        (b"g", 2, None),
        (b"buoys", 8, None),
        (b"", 0, None),
        (b"", 4294967295, None),
    ];
    for (text, leaf, wanted) in &rows {
        expect_slab(&rt, alloc, text, *leaf, *wanted)?;
    }
    Ok(())
}
