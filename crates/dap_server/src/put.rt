//! Replies on their way to a sink.

ghost use Rattle.std.specs.Prelude.{◌≡◌, ◌≤◌};
ghost use Rattle.dap_server.specs.inner.Serving.{PutsText, SinkRose};

use crate::reply_outcome::Answered;
use dap_outside::{Sink, put_all};

/// Puts a reply that stands whole.
pub fn put_reply<O: Sink>(out: &mut O, bytes: &[u8], status: u16, last: bool) -> Answered
    ensures puts { PutsText bytes.now status last (O.written out.old) (O.written out.new) result }
    ensures fault { SinkRose result (O.put_faults out.old) (O.put_faults out.new) }
    ensures later { O.put_faults out.old ≤ O.put_faults out.new }
    ensures beside { O.beside_writing out.new ≡ O.beside_writing out.old }
{
    match put_all(out, bytes) {
        Ok(()) => Answered::Whole { status, last },
        Err(_) => Answered::WriteFault,
    }
}
