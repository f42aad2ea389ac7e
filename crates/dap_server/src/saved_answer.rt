//! The answer to a request of a data response whose values stand in a saved one.

ghost use Rattle.std.specs.Prelude.{◌≡◌, ◌≤◌, ◌⊎◌, ℕ, List, Ok, Err, false};
ghost use Rattle.saved_source.specs.Bodies.{Sends};
ghost use Rattle.dap_server.specs.Replies.{is_head, reply_of};
ghost use Rattle.dap_server.specs.Results.{result_text};
ghost use Rattle.dap_server.specs.inner.Serving.{PutsReply, PutsText, SinkRose, data_front, request_in};

use crate::answer::{is_head, put_memory};
use crate::put::put_reply;
use crate::reply_outcome::Answered;
use crate::saved_values::put_response;
use dap_errors::Cause;
use dap_http::{Framer, Head, Kind, data_head};
use dap_outside::Sink;
use dap_types::Memory;
use saved_source::SavedBody;
use std::alloc::Global;

/// Puts the reply with its values, behind that head.
fn put_with_values<O: Sink>(
    alloc: Global,
    body: &mut SavedBody,
    out: &mut O,
    head: &Head,
    ends: bool,
    front: &[u8],
) -> Answered
    requires get { is_head (request_in head.now ends) ≡ false }
    requires front { front.now ≡ data_front (request_in head.now ends) }
    ensures puts { (text : List ℕ) → Sends body.old text →
        PutsText (reply_of (request_in head.now ends) (Ok (result_text Kind.Dods text))) 200 ends (O.written out.old) (O.written out.new) result
        ⊎ PutsReply (request_in head.now ends) (Err Cause.OutOfMemory) (O.written out.old) (O.written out.new) result }
    ensures fault { SinkRose result (O.put_faults out.old) (O.put_faults out.new) }
    ensures later { O.put_faults out.old ≤ O.put_faults out.new }
    ensures beside { O.beside_writing out.new ≡ O.beside_writing out.old }
{
    let chunked = Kind::Dods.is_chunked(head.minor);
    match Framer::behind(alloc, chunked, front) {
        Ok(framer) => put_response(body, framer, out, ends),
        Err(Memory) => put_memory(out, head, ends),
    }
}

/// Puts the reply of a data response. No file is read for it.
pub fn put_saved<O: Sink>(
    alloc: Global,
    body: &mut SavedBody,
    out: &mut O,
    head: &Head,
    ends: bool,
) -> Answered
    ensures puts { (text : List ℕ) → Sends body.old text →
        PutsText (reply_of (request_in head.now ends) (Ok (result_text Kind.Dods text))) 200 ends (O.written out.old) (O.written out.new) result
        ⊎ PutsReply (request_in head.now ends) (Err Cause.OutOfMemory) (O.written out.old) (O.written out.new) result }
    ensures fault { SinkRose result (O.put_faults out.old) (O.put_faults out.new) }
    ensures later { O.put_faults out.old ≤ O.put_faults out.new }
    ensures beside { O.beside_writing out.new ≡ O.beside_writing out.old }
{
    match data_head(alloc, Kind::Dods.is_chunked(head.minor), ends) {
        Ok(front) => {
            if is_head(head) {
                return put_reply(out, front.bytes(), 200, ends);
            }
            put_with_values(alloc, body, out, head, ends, front.bytes())
        }
        Err(Memory) => put_memory(out, head, ends),
    }
}
