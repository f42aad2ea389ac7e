use crate::tests::counted::Counted;
use dap_client::{Outcome, show};
use dap_outside::{MemSink, MemSource, Sink, Source};
use dap_types::{Bytes, List, Memory};
use std::alloc::Global;
use std::test::Fail;
use xdr_decode::Bad;

/// What a showing has to answer.
#[derive(Clone, Copy)]
pub enum Answer {
    Shown(u64),
    Object(i32, &'static [u8]),
    Wrong(Bad, u64),
}

/// Whether an outcome is that answer.
pub fn answers(outcome: &Outcome, answer: Answer) -> bool {
    match outcome {
        Outcome::Complete { bytes } => matches!(answer, Answer::Shown(n) if n == *bytes),
        Outcome::ServerError { code, message } => {
            matches!(answer, Answer::Object(c, m) if c == *code && m == message.bytes())
        }
        Outcome::BadReply(field) => {
            matches!(answer, Answer::Wrong(kind, place) if kind == field.kind && place == field.place)
        }
        Outcome::ReadFault | Outcome::WriteFault | Outcome::LinkFault | Outcome::Memory => false,
    }
}

/// What a showing answered and put, and how many calls it made of its source and of its sink.
#[derive(Drop)]
pub struct Showing {
    pub outcome: Outcome,
    pub out: Bytes,
    pub takes: u64,
    pub puts: u64,
}

/// The numbers of the calls that fail: that one, if any.
pub fn failing(alloc: Global, number: Option<u64>) -> Result<List<u64>, Memory> {
    let mut numbers = List::new(alloc);
    if let Some(number) = number {
        numbers.push(number)?;
    }
    Ok(numbers)
}

/// A source of these bytes, which come in pieces of a size. That take fails, if any.
pub fn source(
    alloc: Global,
    bytes: &[u8],
    piece: u32,
    fails: Option<u64>,
) -> Result<MemSource, Memory> {
    let bytes = Bytes::new(alloc, bytes)?;
    let fails = failing(alloc, fails)?;
    Ok(MemSource::new(bytes, piece.max(1), fails))
}

/// A sink that takes so many bytes at once. That put fails, if any.
pub fn sink(alloc: Global, piece: u32, fails: Option<u64>) -> Result<MemSink, Memory> {
    let fails = failing(alloc, fails)?;
    MemSink::new(alloc, 65536, piece.max(1), fails)
}

pub fn show_all<I: Source, O: Sink>(alloc: Global, source: &mut I, out: &mut O) -> Outcome {
    show(alloc, source, out)
}

/// What was answered and put.
pub fn told(
    alloc: Global,
    outcome: Outcome,
    out: &Counted<MemSink>,
    takes: u64,
) -> Result<Showing, Memory> {
    let puts = out.calls;
    let out = Bytes::new(alloc, out.end.bytes())?;
    Ok(Showing {
        outcome,
        out,
        takes,
        puts,
    })
}

/// Shows a body that is taken in pieces of a size, of which the sink takes as much at once.
pub fn show_body(
    alloc: Global,
    body: &[u8],
    piece: u32,
    take_fails: Option<u64>,
    put_fails: Option<u64>,
) -> Result<Showing, Fail> {
    let mut source = Counted::new(source(alloc, body, piece, take_fails)?);
    let mut out = Counted::new(sink(alloc, piece, put_fails)?);
    let outcome = show_all(alloc, &mut source, &mut out);
    Ok(told(alloc, outcome, &out, source.calls)?)
}

/// Whether this was answered and put.
pub fn is_shown(found: &Showing, answer: Answer, out: &[u8]) -> bool {
    answers(&found.outcome, answer) && found.out.bytes() == out
}
