use crate::tests::made::{file, sample};
use crate::tests::seen::{at, becomes};
use std::test::Fail;

/// One record variable of odd size, which is not padded, at a place above 2^32 in version 2.
#[test]
fn a_place_may_lie_above_32_bits(rt: HostRuntime) -> Result<(), Fail> {
    let dims: [(&[u8], u32); 2] = [(b"t", 0), (b"n", 3)];
    let variables = [sample(b"a", &[0, 1], 1, 300)];
    let mut bytes = file(rt.alloc(), 2, 2, &dims, &variables, 1048576)?;
    bytes.truncate(1048576);
    let places = [None, at(4294967596, &[3, 1], 1)];
    let dataset = b"f.nc:Byte a[t=2][n=3];";
    assert!(rt; becomes(rt.alloc(), &bytes, 1 << 33, dataset, &places)?);
    Ok(())
}
