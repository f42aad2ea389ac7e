//! Each put of a body fails in turn, and behind each the body goes out whole.

use crate::testing::{body_of, response};
use dap_outside::MemSink;
use dap_types::{List, Memory};
use saved_source::SavedBody;
use std::alloc::Global;
use std::rt::HostRuntime;
use std::test::Fail;

const TEXT: &[u8] =
    b"Dataset {\n    Sequence {\n        String station;\n        Int32 depth;\n    } buoys;\n} buoys.csv;\nData:\n";

const ROWS: [u32; 9] = [
    0x5a000000, 2, 0x41310000, 5, 0x5a000000, 3, 0x42323200, 0xfffffff9, 0xa5000000,
];

/// Whether it went out, and what the sink got, where the put of that number fails, none where it is 0.
fn put_failing(alloc: Global, body: &mut SavedBody, put: u64) -> Result<(bool, MemSink), Memory> {
    let mut fails = List::new(alloc);
    fails.push(put)?;
    let mut sink = MemSink::new(alloc, 1000, 7, fails)?;
    let sent = body.stream(&mut sink).is_ok();
    Ok((sent, sink))
}

/// The 139 bytes go out in 20 puts of at most 7.
#[test]
fn puts_fail(rt: HostRuntime) -> Result<(), Fail> {
    let alloc = rt.alloc();
    let file = response(alloc, TEXT, &ROWS)?;
    let mut body = body_of(&rt, alloc, file.as_slice(), b"")?;
    let (sent, whole) = put_failing(alloc, &mut body, 0)?;
    assert!(&rt; sent);
    let puts = whole.bytes().len().div_ceil(7) as u64;
    assert!(&rt; puts == 20);
    for put in 1..puts + 1 {
        let (sent, front) = put_failing(alloc, &mut body, put)?;
        assert!(&rt; !sent);
        assert!(&rt; front.bytes().len() < whole.bytes().len());
        assert!(&rt; whole.bytes().starts_with(front.bytes()));
        let (again, all) = put_failing(alloc, &mut body, 0)?;
        assert!(&rt; again);
        assert!(&rt; all.bytes() == whole.bytes());
    }
    let (sent, _all) = put_failing(alloc, &mut body, puts + 1)?;
    assert!(&rt; sent);
    Ok(())
}
