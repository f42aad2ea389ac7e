ghost use Rattle.std.specs.Prelude.{◌≤◌, ◌+◌, ◌-◌, ◌^◌, length};
ghost use Rattle.xdr_decode.specs.After.{place_of};

use crate::tests::cases::{CASES, Case};
use crate::tests::expecting::expect;
use crate::tests::feeding::{decoder, feed, from, middle, sink};
use std::alloc::Global;
use std::process::Abort;
use std::test::Fail;
use xdr_decode::{Decoder, Pushed};

/// Judges the bytes in pieces of a size, up to the first answer that is not `More`.
fn judge(decoder: &mut Decoder, values: &[u8], size: usize) -> Pushed
    requires { place_of decoder.old + length values.now ≤ 2 ^ 63 - 1 }
    ensures { place_of decoder.new ≤ place_of decoder.old + length values.now }
{
    if values.len() <= size.max(1) {
        return decoder.judge(values);
    }
    let (front, behind) = values.split_at(middle(values.len(), size));
    match judge(decoder, front, size) {
        Pushed::More => judge(decoder, behind, size),
        answer => answer,
    }
}

/// The values of a case in pieces of a size are judged as they are where they are shown, and wrong so.
fn expect_same<R: Abort>(rt: &R, alloc: Global, case: &Case, size: usize) -> Result<(), Fail> {
    let mut judged = decoder(alloc, case.text, 102)?;
    let mut shown = decoder(alloc, case.text, 102)?;
    let mut out = sink(alloc, 4096)?;
    if case.values.len() > 65536 {
        return Err(Fail::new("too many values"));
    }
    let said = feed(&mut shown, case.values, size, &mut out);
    expect(rt, judge(&mut judged, case.values, size), said);
    expect(rt, judged.finish().err(), from(102, case.wrong));
    Ok(())
}

#[test]
fn cases_are_judged(rt: HostRuntime) -> Result<(), Fail> {
    for case in &CASES {
        for size in [1, 7, 65536] {
            expect_same(&rt, rt.alloc(), case, size)?;
        }
    }
    Ok(())
}
