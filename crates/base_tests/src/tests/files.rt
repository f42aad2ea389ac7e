use crate::tests::expecting::expect;
use file_names::{dataset_id, last_segment};
use std::alloc::Global;
use std::process::Abort;
use std::test::Fail;

/// The name of a file, its last segment, and the name of its dataset.
const NAMES: [(&[u8], &[u8], &[u8]); 5] = [
    (b"buoys.csv", b"buoys.csv", b"buoys.csv"),
    (b"north/sea.2.nc", b"sea.2.nc", b"sea.2.nc"),
    (b"a/b/c d%.nc", b"c d%.nc", b"c%20d%25.nc"),
    (b"a/", b"", b""),
    (b"", b"", b""),
];

/// The dataset of a file has this name.
fn expect_name<R: Abort>(rt: &R, alloc: Global, file: &[u8], name: &[u8]) -> Result<(), Fail> {
    expect(rt, dataset_id(alloc, file)?.bytes(), name);
    Ok(())
}

#[test]
fn a_dataset_is_named_by_the_last_segment(rt: HostRuntime) -> Result<(), Fail> {
    for (file, segment, name) in NAMES {
        expect(&rt, last_segment(file), segment);
        expect_name(&rt, rt.alloc(), file, name)?;
    }
    Ok(())
}
