use crate::tests::cases::{TABLE, TABLE_SHOWN, TABLE_VALUES};
use crate::tests::counted::Counted;
use crate::tests::expecting::expect;
use crate::tests::feeding::{decoder, push_all};
use dap_outside::MemSink;
use dap_types::List;
use std::alloc::Global;
use std::process::Abort;
use std::test::Fail;
use xdr_decode::{Bad, BadField, Pushed};

/// A sink that takes 3 bytes at most at once, and of which a call fails. No call has the number 0.
fn sink(alloc: Global, failing: u64) -> Result<Counted<MemSink>, Fail> {
    let mut fails = List::new(alloc);
    fails.push(failing)?;
    let inner = MemSink::new(alloc, 4096, 3, fails)?;
    Ok(Counted { inner, calls: 0 })
}

/// A call of the sink fails. The bytes behind the failure are counted, and nothing more is put.
fn expect_broken<R: Abort>(rt: &R, alloc: Global, failing: u64) -> Result<(), Fail> {
    let mut decoder = decoder(alloc, TABLE, 0)?;
    let mut broken = sink(alloc, failing)?;
    let answer = push_all(&mut decoder, TABLE_VALUES, 1, &mut broken);
    expect(rt, answer, Pushed::WriteFault);
    expect(rt, broken.calls, failing);
    assert!(rt; TABLE_SHOWN.starts_with(broken.inner.bytes()));
    let cut = BadField {
        kind: Bad::Cut,
        place: TABLE_VALUES.len() as u64,
    };
    expect(rt, decoder.finish(), Err(cut));
    Ok(())
}

/// Each call of the sink fails in turn, of as many as a run without a fault makes.
#[test]
fn each_put_fails(rt: HostRuntime) -> Result<(), Fail> {
    let mut decoder = decoder(rt.alloc(), TABLE, 0)?;
    let mut out = sink(rt.alloc(), 0)?;
    let answer = push_all(&mut decoder, TABLE_VALUES, 1, &mut out);
    expect(&rt, answer, Pushed::Done { used: 1 });
    expect(&rt, out.inner.bytes(), TABLE_SHOWN);
    assert!(rt; out.calls > 20);
    for failing in 1..out.calls.saturating_add(1) {
        expect_broken(&rt, rt.alloc(), failing)?;
    }
    Ok(())
}
