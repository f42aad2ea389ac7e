//! Data on its way to a sink: a head and the values behind it.

ghost use Rattle.std.specs.Prelude.{◌≡◌, ◌≤◌, ◌+◌, ℕ, List};
ghost use Rattle.std.specs.Io.KnownBytes.{Appends};
ghost use Rattle.dap_http.specs.Frames.{framed};
ghost use Rattle.dap_http.specs.Framings.{front_of};
ghost use Rattle.xdr_encode.specs.Bodies.{FitsFile, cost_in, text_in};
ghost use Rattle.dap_server.specs.inner.Serving.{GoesOver, PutsValues, SaysWhole, ShelfRose, SinkRose};

use crate::reply_outcome::Answered;
use dap_http::Framer;
use dap_outside::{Shelf, Sink};
use slab_fill::NoGate;
use std::thread::Threads;
use xdr_encode::{Body, Streamed};

/// Puts the head that a framer has and the values that follow it, framed, as they are read from their file.
/// Where that cannot be read further, the head and the whole chunks go out. Takes no memory.
pub fn put_values<R: Threads + Sync, S: Shelf, O: Sink>(
    rt: &R,
    shelf: &mut S,
    file: &mut S::File,
    body: &mut Body,
    framer: Framer,
    out: &mut O,
    ends: bool,
    workers: u32,
) -> Answered
    requires fits { FitsFile body.old (S.size_of shelf.old file.old) }
    requires some { 1 ≤ workers }
    requires many { workers ≤ 64 }
    ensures puts { (bytes : List ℕ) → GoesOver body.old (S.content shelf.old file.old) bytes →
        PutsValues (front_of framer) (framed framer.chunked (text_in body.old bytes)) ends (O.written out.old) (O.written out.new) result }
    // Whatever the shelf tells of its file, the sink keeps what it had.
    ensures grows { (put : List ℕ) × Appends (O.written out.old) (O.written out.new) put }
    ensures last { SaysWhole ends result }
    ensures shelf_later { S.faults shelf.old ≤ S.faults shelf.new }
    ensures shelf_fault { ShelfRose result (S.faults shelf.old) (S.faults shelf.new) }
    ensures files { S.files shelf.new ≡ S.files shelf.old }
    ensures asked { S.asked shelf.new ≤ S.asked shelf.old + cost_in body.old }
    ensures fault { SinkRose result (O.put_faults out.old) (O.put_faults out.new) }
    ensures later { O.put_faults out.old ≤ O.put_faults out.new }
    ensures beside { O.beside_writing out.new ≡ O.beside_writing out.old }
{
    let mut framing = framer.over(out);
    match body.stream(rt, shelf, file, &mut framing, workers, &NoGate) {
        Streamed::Sent => match framing.end() {
            Ok(()) => Answered::Whole {
                status: 200,
                last: ends,
            },
            Err(_) => Answered::WriteFault,
        },
        Streamed::ShelfFault => match framing.break_off() {
            Ok(()) => Answered::Broken,
            Err(_) => Answered::WriteFault,
        },
        Streamed::WriteFault => {
            framing.stop();
            Answered::WriteFault
        }
    }
}
