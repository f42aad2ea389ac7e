//! The answer to a request of a data response whose values stand in joined files.

ghost use Rattle.std.specs.Prelude.{◌≡◌, ◌≤◌, Some, false};
ghost use Rattle.dap_http.specs.Requests.{is_other};
ghost use Rattle.dap_http.specs.Targets.{target_of, asked_of};
ghost use Rattle.dap_server.specs.Prepared.{IsJoinedFor};
ghost use Rattle.dap_server.specs.Replies.{is_head};
ghost use Rattle.dap_server.specs.inner.Serving.{AnswersWith, Costs, SinkRose, data_front, request_in};

use crate::answer::{is_head, put_memory};
use crate::joined_values::put_joined;
use crate::put::put_reply;
use crate::reply_outcome::Answered;
use dap_http::{Framer, Head, Kind, Target, data_head};
use dap_outside::{Shelf, Sink};
use dap_types::Memory;
use join_source::JoinBody;
use std::alloc::Global;
use std::thread::Threads;

/// Answers a request of a data response with the values that are read from its files, behind that head.
fn put_with_values<R: Threads + Sync, S: Shelf, O: Sink>(
    rt: &R,
    alloc: Global,
    shelf: &mut S,
    files: &mut [S::File],
    body: &mut JoinBody,
    out: &mut O,
    head: &Head,
    ends: bool,
    front: &[u8],
    target: &Target,
    workers: u32,
) -> Answered
    requires target { target_of head.now.target ≡ Some (asked_of target.now) }
    requires served { is_other head.now.method ≡ false }
    requires get { is_head (request_in head.now ends) ≡ false }
    requires front { front.now ≡ data_front (request_in head.now ends) }
    requires joined { IsJoinedFor (S.files shelf.old) (S.content shelf.old) (S.size_of shelf.old) (asked_of target.now) body.old files.old }
    requires some { 1 ≤ workers }
    requires many { workers ≤ 64 }
    ensures answers { AnswersWith (Costs (S.files shelf.old) (asked_of target.now) (request_in head.now ends)) (S.files shelf.old) (request_in head.now ends)
        (record { written = O.written out.old; faults = S.faults shelf.old; asked = S.asked shelf.old })
        (record { written = O.written out.new; faults = S.faults shelf.new; asked = S.asked shelf.new }) result }
    ensures files { S.files shelf.new ≡ S.files shelf.old }
    ensures shelf_later { S.faults shelf.old ≤ S.faults shelf.new }
    ensures fault { SinkRose result (O.put_faults out.old) (O.put_faults out.new) }
    ensures later { O.put_faults out.old ≤ O.put_faults out.new }
    ensures beside { O.beside_writing out.new ≡ O.beside_writing out.old }
{
    let chunked = Kind::Dods.is_chunked(head.minor);
    match Framer::behind(alloc, chunked, front) {
        Ok(framer) => put_joined(rt, shelf, files, body, framer, out, ends, workers),
        Err(Memory) => put_memory(out, head, ends),
    }
}

/// Answers a request of a data response of joined files.
pub fn answer_joined<R: Threads + Sync, S: Shelf, O: Sink>(
    rt: &R,
    alloc: Global,
    shelf: &mut S,
    files: &mut [S::File],
    body: &mut JoinBody,
    out: &mut O,
    head: &Head,
    ends: bool,
    target: &Target,
    workers: u32,
) -> Answered
    requires target { target_of head.now.target ≡ Some (asked_of target.now) }
    requires served { is_other head.now.method ≡ false }
    requires joined { IsJoinedFor (S.files shelf.old) (S.content shelf.old) (S.size_of shelf.old) (asked_of target.now) body.old files.old }
    requires some { 1 ≤ workers }
    requires many { workers ≤ 64 }
    ensures answers { AnswersWith (Costs (S.files shelf.old) (asked_of target.now) (request_in head.now ends)) (S.files shelf.old) (request_in head.now ends)
        (record { written = O.written out.old; faults = S.faults shelf.old; asked = S.asked shelf.old })
        (record { written = O.written out.new; faults = S.faults shelf.new; asked = S.asked shelf.new }) result }
    ensures files { S.files shelf.new ≡ S.files shelf.old }
    ensures shelf_later { S.faults shelf.old ≤ S.faults shelf.new }
    ensures fault { SinkRose result (O.put_faults out.old) (O.put_faults out.new) }
    ensures later { O.put_faults out.old ≤ O.put_faults out.new }
    ensures beside { O.beside_writing out.new ≡ O.beside_writing out.old }
{
    match data_head(alloc, Kind::Dods.is_chunked(head.minor), ends) {
        Ok(front) => {
            if is_head(head) {
                return put_reply(out, front.bytes(), 200, ends);
            }
            put_with_values(
                rt,
                alloc,
                shelf,
                files,
                body,
                out,
                head,
                ends,
                front.bytes(),
                target,
                workers,
            )
        }
        Err(Memory) => put_memory(out, head, ends),
    }
}
