ghost use Rattle.std.specs.Prelude.{◌≡◌, ◌≤◌, ◌+◌, ◌-◌, ◌^◌, length, IfOk};
ghost use Rattle.xdr_decode.specs.After.{place_of};

use crate::tests::expecting::expect;
use dap_outside::{MemSink, Sink};
use dap_types::{Dataset, List, check};
use dds_text::{DdsReader, DdsStep};
use std::alloc::Global;
use std::process::Abort;
use std::test::Fail;
use xdr_decode::{AllRefusal, Bad, BadField, Decoder, Pushed, decode_all};

fn dataset(alloc: Global, text: &[u8]) -> Result<Dataset, Fail> {
    let mut reader = DdsReader::new(alloc, 0);
    let DdsStep::Done { used: _ } = reader.push(text)? else {
        return Err(Fail::new("no text"));
    };
    Ok(reader.dataset().ok_or("no dataset")?)
}

/// A decoder of the values behind a text, with places from a start on.
pub fn decoder(alloc: Global, text: &[u8], start: u32) -> Result<Decoder, Fail>
    ensures { IfOk result (λ decoder. place_of decoder ≡ start) }
{
    let dataset = dataset(alloc, text)?;
    let Ok(()) = check(alloc, &dataset) else {
        return Err(Fail::new("not well formed"));
    };
    Ok(Decoder::new(dataset, u64::from(start)))
}

/// Hands on the bytes.
fn push<O: Sink>(decoder: &mut Decoder, values: &[u8], out: &mut O) -> Pushed
    requires { place_of decoder.old + length values.now ≤ 2 ^ 63 - 1 }
    ensures { place_of decoder.new ≤ place_of decoder.old + length values.now }
{
    decoder.push(values, out)
}

/// Where to cut some bytes, so that they fall into pieces of a size.
pub fn middle(length: usize, size: usize) -> usize
    requires { 2 ≤ length }
    ensures some { 1 ≤ result }
    ensures part { result + 1 ≤ length }
{
    let pieces = length.div_ceil(size.max(1));
    (pieces / 2).saturating_mul(size).clamp(1, length - 1)
}

/// Hands on the bytes in pieces of a size, up to the first answer that is not `More`.
pub fn feed(decoder: &mut Decoder, values: &[u8], size: usize, out: &mut MemSink) -> Pushed
    requires { place_of decoder.old + length values.now ≤ 2 ^ 63 - 1 }
    ensures { place_of decoder.new ≤ place_of decoder.old + length values.now }
{
    if values.len() <= size.max(1) {
        return push(decoder, values, out);
    }
    let (front, behind) = values.split_at(middle(values.len(), size));
    match feed(decoder, front, size, out) {
        Pushed::More => feed(decoder, behind, size, out),
        answer => answer,
    }
}

/// Hands on all of the bytes in pieces of a size, whatever is answered, and gives the last answer.
pub fn push_all<O: Sink>(decoder: &mut Decoder, values: &[u8], size: usize, out: &mut O) -> Pushed
    requires { place_of decoder.old + length values.now ≤ 2 ^ 63 - 1 }
    ensures { place_of decoder.new ≤ place_of decoder.old + length values.now }
{
    if values.len() <= size.max(1) {
        return push(decoder, values, out);
    }
    let (front, behind) = values.split_at(middle(values.len(), size));
    push_all(decoder, front, size, out);
    push_all(decoder, behind, size, out)
}

/// An empty sink, of which no call fails.
pub fn sink(alloc: Global, room: u32) -> Result<MemSink, Fail> {
    Ok(MemSink::new(alloc, room, 65536, List::new(alloc))?)
}

/// A text, the line behind it, and values.
pub fn body(alloc: Global, text: &[u8], values: &[u8]) -> Result<Vec<u8>, Fail> {
    let mut body = Vec::from_slice(alloc, text)?;
    body.extend_from_slice(b"Data:\n")?;
    body.extend_from_slice(values)?;
    Ok(body)
}

/// What is wrong with a body, as `decode_all` says.
pub fn wrong(alloc: Global, body: &[u8]) -> Result<Option<BadField>, Fail> {
    match decode_all(alloc, body) {
        Ok(_) => Ok(None),
        Err(AllRefusal::Refused(bad)) => Ok(Some(bad)),
        Err(AllRefusal::Memory) => Err(Fail::new("no memory")),
    }
}

/// What is wrong, where places count from a start.
pub fn from(start: u64, wrong: Option<(Bad, u64)>) -> Option<BadField> {
    let (kind, place) = wrong?;
    Some(BadField {
        kind,
        place: place.saturating_add(start),
    })
}

/// A body has this fault, or none.
pub fn expect_wrong<R: Abort>(
    rt: &R,
    alloc: Global,
    body: &[u8],
    expected: Option<BadField>,
) -> Result<(), Fail> {
    expect(rt, wrong(alloc, body)?, expected);
    Ok(())
}
