use crate::tests::cases::{TABLE, TABLE_SHOWN};
use crate::tests::expecting::expect;
use crate::tests::showing::{Answer, answers, show_body};
use dap_client::Outcome;
use dap_types::Bytes;
use std::alloc::Global;
use std::process::Abort;
use std::test::Fail;

/// Whatever was put is a front of what is shown of the whole body, without its last line feed.
fn is_front(out: &Bytes) -> bool {
    TABLE_SHOWN.starts_with(out.bytes()) && out.bytes().len() < TABLE_SHOWN.len()
}

/// A take fails of the source of a body in pieces of a size.
fn expect_take_fault<R: Abort>(
    rt: &R,
    alloc: Global,
    piece: u32,
    failing: u64,
) -> Result<(), Fail> {
    let found = show_body(alloc, TABLE, piece, Some(failing), None)?;
    assert!(rt; matches!(found.outcome, Outcome::ReadFault), "{failing}");
    expect(rt, found.takes, failing);
    assert!(rt; is_front(&found.out));
    Ok(())
}

/// Each call of the source fails in turn: as many as a run without a fault makes.
#[test]
fn each_take_fails(rt: HostRuntime) -> Result<(), Fail> {
    for (piece, takes) in [(7, 21), (65536, 2)] {
        let sure = show_body(rt.alloc(), TABLE, piece, None, None)?;
        assert!(rt; answers(&sure.outcome, Answer::Shown(138)));
        expect(&rt, sure.takes, takes);
        for failing in 1..sure.takes.saturating_add(1) {
            expect_take_fault(&rt, rt.alloc(), piece, failing)?;
        }
    }
    Ok(())
}

/// A put fails of what is shown of a body in pieces of a size.
fn expect_put_fault<R: Abort>(rt: &R, alloc: Global, piece: u32, failing: u64) -> Result<(), Fail> {
    let found = show_body(alloc, TABLE, piece, None, Some(failing))?;
    assert!(rt; matches!(found.outcome, Outcome::WriteFault), "{failing}");
    expect(rt, found.puts, failing);
    assert!(rt; is_front(&found.out));
    Ok(())
}

/// Each call of the sink fails in turn, in the same way.
#[test]
fn each_put_fails(rt: HostRuntime) -> Result<(), Fail> {
    for piece in [7, 65536] {
        let sure = show_body(rt.alloc(), TABLE, piece, None, None)?;
        assert!(rt; sure.puts > 4);
        for failing in 1..sure.puts.saturating_add(1) {
            expect_put_fault(&rt, rt.alloc(), piece, failing)?;
        }
    }
    Ok(())
}
