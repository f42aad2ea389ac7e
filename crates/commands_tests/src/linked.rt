//! What words do over the one link of a dial in memory.

ghost use Rattle.std.specs.Prelude.{◌<◌, IfOk};
ghost use Rattle.dap_outside.specs.MemLinks.{IsNew};

use crate::expecting::expect;
use crate::said::{Said, expect_said, numbers, said_over};
use dap_commands::Status;
use dap_outside::{MemDial, MemLink, MemSink, SureShelf, SureSource};
use dap_types::{Bytes, List, Memory};
use std::alloc::Global;
use std::process::Abort;
use std::thread::Threads;

/// What words are run over: what comes in, what the link gives, and the calls that do not connect.
#[derive(Clone, Copy)]
pub struct Around<'a> {
    pub input: &'a [u8],
    pub given: &'a [u8],
    pub fails: &'a [u64],
}

/// How a run ended, what it wrote, and what the link gained, if it came back.
#[derive(Drop)]
struct Linked {
    said: Said,
    sent: Bytes,
}

/// A link that gives this, with room for so many bytes, which move in such pieces.
pub fn link(alloc: Global, input: Bytes, piece: u32) -> Result<MemLink, Memory>
    requires { 0 < piece }
    ensures { IfOk result IsNew }
{
    MemLink::new(
        alloc,
        input,
        1_000,
        piece,
        List::new(alloc),
        List::new(alloc),
    )
}

/// A dial with one link.
fn dial(alloc: Global, around: Around<'_>) -> Result<MemDial, Memory> {
    let fails = numbers(alloc, around.fails)?;
    let given = Bytes::new(alloc, around.given)?;
    let mut links = List::new(alloc);
    links.push(link(alloc, given, 7)?)?;
    MemDial::new(alloc, links, fails)
}

/// What the first link gained that came back to the dial.
fn gained(alloc: Global, dial: &MemDial) -> Result<Bytes, Memory> {
    match dial.back() {
        [link, ..] => Bytes::new(alloc, link.written()),
        [] => Bytes::new(alloc, b""),
    }
}

/// Runs the words over no files.
fn said_linked<R: Threads + AllocGlobal + Sync>(
    rt: &R,
    words: &[&str],
    around: Around<'_>,
) -> Result<Linked, Memory> {
    let alloc = rt.alloc();
    let mut shelf = SureShelf::new(List::new(alloc));
    let mut source = SureSource::new(Bytes::new(alloc, around.input)?, 7);
    let out = MemSink::new(alloc, 1_000, 7, List::new(alloc))?;
    let mut dial = dial(alloc, around)?;
    let said = said_over(rt, words, &mut shelf, &mut source, out, &mut dial)?;
    let sent = gained(alloc, &dial)?;
    Ok(Linked { said, sent })
}

/// What is expected: how the run ended, what it wrote, its line, and what the link gained.
pub type Expected<'a> = (Status, &'a [u8], &'a [u8], &'a [u8]);

/// A run of the words does that.
pub fn expect_linked<R: Threads + Abort + AllocGlobal + Sync>(
    rt: &R,
    words: &[&str],
    around: Around<'_>,
    expected: Expected<'_>,
) -> Result<(), Memory> {
    let (status, out, err, sent) = expected;
    let found = said_linked(rt, words, around)?;
    expect_said(rt, &found.said, status, out, err);
    expect(rt, found.sent.bytes(), sent);
    Ok(())
}
