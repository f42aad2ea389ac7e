//! The values of joined files on their way to a sink: a head and the values behind it.

ghost use Rattle.std.specs.Prelude.{◌≡◌, ◌≤◌, ◌+◌, ℕ, List, map};
ghost use Rattle.std.specs.Io.KnownBytes.{Appends};
ghost use Rattle.dap_http.specs.Frames.{framed};
ghost use Rattle.dap_http.specs.Framings.{front_of};
ghost use Rattle.join_source.specs.Bodies.{FitsFiles, cost_in, text_in};
ghost use Rattle.join_source.specs.Pieces.{AreTold};
ghost use Rattle.dap_server.specs.inner.Serving.{PutsValues, SaysWhole, ShelfRose, SinkRose};

use crate::reply_outcome::Answered;
use dap_http::Framer;
use dap_outside::{Shelf, Sink};
use join_source::JoinBody;
use slab_fill::NoGate;
use std::thread::Threads;
use xdr_encode::Streamed;

/// Puts the head that a framer has and the values that follow it, framed, as they are read from their files.
/// Where these cannot be read further, the head and the whole chunks go out. Takes no memory.
pub fn put_joined<R: Threads + Sync, S: Shelf, O: Sink>(
    rt: &R,
    shelf: &mut S,
    files: &mut [S::File],
    body: &mut JoinBody,
    framer: Framer,
    out: &mut O,
    ends: bool,
    workers: u32,
) -> Answered
    requires fits { FitsFiles body.old (map (S.size_of shelf.old) files.old) }
    requires some { 1 ≤ workers }
    requires many { workers ≤ 64 }
    ensures puts { (contents : List (List ℕ)) → AreTold (map (S.content shelf.old) files.old) contents →
        PutsValues (front_of framer) (framed framer.chunked (text_in body.old contents)) ends (O.written out.old) (O.written out.new) result }
    // Whatever the shelf tells of its files, the sink keeps what it had.
    ensures grows { (put : List ℕ) × Appends (O.written out.old) (O.written out.new) put }
    ensures last { SaysWhole ends result }
    ensures shelf_later { S.faults shelf.old ≤ S.faults shelf.new }
    ensures shelf_fault { ShelfRose result (S.faults shelf.old) (S.faults shelf.new) }
    ensures files { S.files shelf.new ≡ S.files shelf.old }
    ensures asked { S.asked shelf.new ≤ S.asked shelf.old + cost_in body.old }
    ensures fault { SinkRose result (O.put_faults out.old) (O.put_faults out.new) }
    ensures later { O.put_faults out.old ≤ O.put_faults out.new }
    ensures beside { O.beside_writing out.new ≡ O.beside_writing out.old }
{
    let mut framing = framer.over(out);
    match body.stream(rt, shelf, files, &mut framing, workers, &NoGate) {
        Streamed::Sent => match framing.end() {
            Ok(()) => Answered::Whole {
                status: 200,
                last: ends,
            },
            Err(_) => Answered::WriteFault,
        },
        Streamed::ShelfFault => match framing.break_off() {
            Ok(()) => Answered::Broken,
            Err(_) => Answered::WriteFault,
        },
        Streamed::WriteFault => {
            framing.stop();
            Answered::WriteFault
        }
    }
}
