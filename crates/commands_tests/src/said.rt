//! What words say, which the tests of the program share: how their run ended and what it wrote.

use crate::expecting::expect;
use dap_commands::{Status, run};
use dap_outside::{MemDial, MemDoor, MemSink, Shelf, Sink, Source};
use dap_types::{Bytes, List, Memory, Name};
use std::alloc::Global;
use std::process::Abort;
use std::thread::Threads;

/// How a run ended, and what it wrote.
#[derive(Drop)]
pub struct Said {
    pub status: Status,
    pub out: Bytes,
    pub err: Bytes,
}

/// The run ended so, and wrote these bytes and this line.
pub fn expect_said<R: Abort>(rt: &R, said: &Said, status: Status, out: &[u8], err: &[u8]) {
    expect(rt, said.status, status);
    expect(rt, said.out.bytes(), out);
    expect(rt, said.err.bytes(), err);
}

/// The run ended so, and wrote these bytes, whatever its line is.
pub fn expect_out<R: Abort>(rt: &R, said: &Said, status: Status, out: &[u8]) {
    expect(rt, said.status, status);
    expect(rt, said.out.bytes(), out);
}

/// These numbers, those of the calls that fail.
pub fn numbers(alloc: Global, all: &[u64]) -> Result<List<u64>, Memory> {
    let mut list = List::new(alloc);
    for number in all {
        list.push(*number)?;
    }
    Ok(list)
}

/// These words.
pub fn named(alloc: Global, words: &[&str]) -> Result<List<Name>, Memory> {
    let mut names = List::new(alloc);
    for word in words {
        names.push(Name::new(alloc, *word)?)?;
    }
    Ok(names)
}

/// A dial that has no link.
pub fn no_dial(alloc: Global) -> Result<MemDial, Memory> {
    MemDial::new(alloc, List::new(alloc), List::new(alloc))
}

/// A door at which no link comes in.
fn no_door(alloc: Global) -> Result<MemDoor, Memory> {
    MemDoor::new(alloc, List::new(alloc), List::new(alloc))
}

/// Runs the words with no link that comes in.
pub fn run_words<R: Threads + AllocGlobal + Sync, S: Shelf, I: Source, O: Sink, E: Sink>(
    rt: &R,
    words: &[&str],
    shelf: &mut S,
    input: &mut I,
    out: &mut O,
    err: &mut E,
    dial: &mut MemDial,
) -> Result<Status, Memory> {
    let alloc = rt.alloc();
    let words = named(alloc, words)?;
    let mut door = no_door(alloc)?;
    let status = run(
        rt,
        alloc,
        words.items(),
        shelf,
        input,
        out,
        err,
        &mut door,
        dial,
    );
    Ok(status)
}

/// A standard error.
fn lines(alloc: Global) -> Result<MemSink, Memory> {
    MemSink::new(alloc, 200, 7, List::new(alloc))
}

/// How a run ended, and what is in these sinks.
pub fn finished(
    alloc: Global,
    status: Status,
    out: &MemSink,
    err: &MemSink,
) -> Result<Said, Memory> {
    let out = Bytes::new(alloc, out.bytes())?;
    let err = Bytes::new(alloc, err.bytes())?;
    Ok(Said { status, out, err })
}

/// How a run of the words ends, and what it writes to this output and to standard error.
pub fn said_over<R: Threads + AllocGlobal + Sync, S: Shelf, I: Source>(
    rt: &R,
    words: &[&str],
    shelf: &mut S,
    input: &mut I,
    mut out: MemSink,
    dial: &mut MemDial,
) -> Result<Said, Memory> {
    let mut err = lines(rt.alloc())?;
    let status = run_words(rt, words, shelf, input, &mut out, &mut err, dial)?;
    finished(rt.alloc(), status, &out, &err)
}

/// The same with no link that goes out.
pub fn said_alone<R: Threads + AllocGlobal + Sync, S: Shelf, I: Source>(
    rt: &R,
    words: &[&str],
    shelf: &mut S,
    input: &mut I,
    out: MemSink,
) -> Result<Said, Memory> {
    let mut dial = no_dial(rt.alloc())?;
    said_over(rt, words, shelf, input, out, &mut dial)
}
