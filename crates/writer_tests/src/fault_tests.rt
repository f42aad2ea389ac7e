//! Each put of a file fails in turn, and each take of a body.

use crate::testing::{body, words};
use dap_outside::{MemSink, MemSource};
use dap_types::{Bytes, List};
use netcdf_writer::{Stored, save};
use std::alloc::Global;
use std::rt::HostRuntime;
use std::test::Fail;

const TEXT: &[u8] = b"Dataset {\n    Int32 v[y = 3][x = 4];\n} v.nc;\n";

/// The data response of twelve numbers, whose file has 144 bytes.
fn response(alloc: Global) -> Result<Vec<u8>, Fail> {
    let values = words(alloc, &[12, 12, 0, 1, 2, 3, 4, 5, 6, 7, 8, 9, 10, 11])?;
    body(alloc, TEXT, &values)
}

/// How the saving ended, and what the sink got, where the take and the put of these numbers fail, none where it is 0.
fn failing(alloc: Global, body: &[u8], take: u64, put: u64) -> Result<(Stored, MemSink), Fail> {
    let mut takes = List::new(alloc);
    takes.push(take)?;
    let mut puts = List::new(alloc);
    puts.push(put)?;
    let mut source = MemSource::new(Bytes::new(alloc, body)?, 50, takes);
    let mut out = MemSink::new(alloc, 1000, 7, puts)?;
    let stored = save(alloc, &mut source, &mut out);
    Ok((stored, out))
}

/// The 144 bytes go out in 21 puts of at most 7.
#[test]
fn each_put_fails(rt: HostRuntime) -> Result<(), Fail> {
    let alloc = rt.alloc();
    let body = response(alloc)?;
    let (stored, whole) = failing(alloc, body.as_slice(), 0, 0)?;
    assert!(&rt; matches!(&stored, Stored::Written { bytes: 144 }));
    assert!(&rt; whole.bytes().len() == 144);
    for put in 1..22u64 {
        let (stored, front) = failing(alloc, body.as_slice(), 0, put)?;
        assert!(&rt; matches!(&stored, Stored::WriteFault));
        assert!(&rt; front.bytes().len() == (put as usize - 1) * 7);
        assert!(&rt; whole.bytes().starts_with(front.bytes()));
    }
    let (stored, all) = failing(alloc, body.as_slice(), 0, 22)?;
    assert!(&rt; matches!(&stored, Stored::Written { bytes: 144 }));
    assert!(&rt; all.bytes() == whole.bytes());
    Ok(())
}

/// The body of 107 bytes comes in three takes of at most 50, and a fourth tells its end.
#[test]
fn each_take_fails(rt: HostRuntime) -> Result<(), Fail> {
    let alloc = rt.alloc();
    let body = response(alloc)?;
    assert!(&rt; body.len() == 107);
    for take in 1..5u64 {
        let (stored, out) = failing(alloc, body.as_slice(), take, 0)?;
        assert!(&rt; matches!(&stored, Stored::ReadFault));
        assert!(&rt; out.bytes().is_empty());
    }
    let (stored, _out) = failing(alloc, body.as_slice(), 5, 0)?;
    assert!(&rt; matches!(&stored, Stored::Written { bytes: 144 }));
    Ok(())
}
