//! The values of a saved response on their way to a sink: a head and the values behind it.

ghost use Rattle.std.specs.Prelude.{◌≡◌, ◌≤◌, ◌++◌, ℕ, List};
ghost use Rattle.dap_http.specs.Frames.{framed};
ghost use Rattle.dap_http.specs.Framings.{front_of};
ghost use Rattle.saved_source.specs.Bodies.{Sends};
ghost use Rattle.dap_server.specs.inner.Serving.{PutsText, SinkRose};

use crate::reply_outcome::Answered;
use dap_http::Framer;
use dap_outside::Sink;
use saved_source::SavedBody;

/// Puts the head that a framer has and the values that follow it, framed. Takes no memory.
pub fn put_response<O: Sink>(
    body: &mut SavedBody,
    framer: Framer,
    out: &mut O,
    ends: bool,
) -> Answered
    ensures puts { (text : List ℕ) → Sends body.old text → PutsText (front_of framer ++ framed framer.chunked text) 200 ends (O.written out.old) (O.written out.new) result }
    ensures fault { SinkRose result (O.put_faults out.old) (O.put_faults out.new) }
    ensures later { O.put_faults out.old ≤ O.put_faults out.new }
    ensures beside { O.beside_writing out.new ≡ O.beside_writing out.old }
{
    let mut framing = framer.over(out);
    match body.stream(&mut framing) {
        Ok(()) => match framing.end() {
            Ok(()) => Answered::Whole {
                status: 200,
                last: ends,
            },
            Err(_) => Answered::WriteFault,
        },
        Err(_) => {
            framing.stop();
            Answered::WriteFault
        }
    }
}
