use crate::tests::cases::{CASES, Case, TABLE, TABLE_SHOWN, TABLE_VALUES};
use crate::tests::expecting::expect;
use crate::tests::feeding::{body, decoder, expect_wrong, feed, from, sink, wrong};
use std::alloc::Global;
use std::process::Abort;
use std::test::Fail;
use xdr_decode::{Bad, BadField, Pushed};

fn fault_of(ended: Result<(), BadField>) -> Option<(Bad, u64)> {
    let bad = ended.err()?;
    Some((bad.kind, bad.place))
}

/// What the decoder says of values in pieces of a size.
fn told(
    alloc: Global,
    text: &[u8],
    values: &[u8],
    size: usize,
) -> Result<Option<(Bad, u64)>, Fail> {
    let mut decoder = decoder(alloc, text, 0)?;
    let mut out = sink(alloc, 4096)?;
    if values.len() > 65536 {
        return Err(Fail::new("too many values"));
    }
    feed(&mut decoder, values, size, &mut out);
    Ok(fault_of(decoder.finish()))
}

/// The body of a case is wrong so.
fn expect_judged<R: Abort>(rt: &R, alloc: Global, case: &Case) -> Result<(), Fail> {
    let whole = body(alloc, case.text, case.values)?;
    let start = whole.len().saturating_sub(case.values.len()) as u64;
    expect_wrong(rt, alloc, whole.as_slice(), from(start, case.wrong))
}

#[test]
fn cases_are_judged(rt: HostRuntime) -> Result<(), Fail> {
    for case in &CASES {
        expect_judged(&rt, rt.alloc(), case)?;
    }
    Ok(())
}

/// Whether the decoder in pieces of a size and `decode_all` say the same of a text and values. A byte
/// behind their end is none of the decoder's.
fn same(alloc: Global, text: &[u8], values: &[u8], size: usize) -> Result<bool, Fail> {
    let whole = body(alloc, text, values)?;
    let start = whole.len().saturating_sub(values.len()) as u64;
    let pieces = told(alloc, text, values, size)?;
    let all = wrong(alloc, whole.as_slice())?;
    Ok(is_same(all, from(start, pieces)))
}

fn is_same(all: Option<BadField>, pieces: Option<BadField>) -> bool {
    match all {
        Some(bad) if bad.kind == Bad::Trailing => pieces.is_none(),
        other => other == pieces,
    }
}

/// The values of a case with each of their bytes changed.
fn expect_changed<R: Abort>(rt: &R, alloc: Global, case: &Case, change: u8) -> Result<(), Fail> {
    for at in 0..case.values.len() {
        let mut values = Vec::from_slice(alloc, case.values)?;
        values.as_mut_slice()[at] ^= change;
        assert!(rt; same(alloc, case.text, values.as_slice(), 7)?);
    }
    Ok(())
}

/// The values cut before each of their bytes.
fn expect_cut<R: Abort>(rt: &R, alloc: Global, case: &Case) -> Result<(), Fail> {
    for cut in 0..case.values.len() {
        assert!(rt; same(alloc, case.text, &case.values[..cut], 5)?);
    }
    Ok(())
}

/// The values cut before each of their bytes, and with each changed to four others.
#[test]
fn cut_and_changed(rt: HostRuntime) -> Result<(), Fail> {
    for case in &CASES {
        expect_cut(&rt, rt.alloc(), case)?;
        for change in [1, 0x80, 0x5a, 0xff] {
            expect_changed(&rt, rt.alloc(), case, change)?;
        }
    }
    Ok(())
}

/// A mark is cut, and is wrong when it is whole. The refusal stays.
#[test]
fn a_cut_mark_is_wrong(rt: HostRuntime) -> Result<(), Fail> {
    let mut decoder = decoder(rt.alloc(), TABLE, 102)?;
    let mut out = sink(rt.alloc(), 4096)?;
    let wrong = BadField {
        kind: Bad::WrongMark,
        place: 118,
    };
    let front = b"\x5a\0\0\0\0\0\0\x02A1\0\0\0\0\0\x05\x5b\0";
    expect(&rt, feed(&mut decoder, front, 64, &mut out), Pushed::More);
    expect(
        &rt,
        feed(&mut decoder, b"\0\0\0\0\0\x03", 64, &mut out),
        Pushed::Refused(wrong),
    );
    expect(
        &rt,
        feed(&mut decoder, b"\0\0", 64, &mut out),
        Pushed::Refused(wrong),
    );
    expect(&rt, decoder.finish(), Err(wrong));
    Ok(())
}

/// The values end with a piece, and the next one is not used.
#[test]
fn done_is_said_again(rt: HostRuntime) -> Result<(), Fail> {
    let mut decoder = decoder(rt.alloc(), TABLE, 102)?;
    let mut out = sink(rt.alloc(), 4096)?;
    expect(
        &rt,
        feed(&mut decoder, TABLE_VALUES, 64, &mut out),
        Pushed::Done { used: 36 },
    );
    expect(
        &rt,
        feed(&mut decoder, b"\0", 64, &mut out),
        Pushed::Done { used: 0 },
    );
    expect(&rt, decoder.finish(), Ok(()));
    expect(&rt, out.bytes(), TABLE_SHOWN);
    Ok(())
}
