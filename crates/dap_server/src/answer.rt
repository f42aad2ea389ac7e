//! The answer to one request.

ghost use Rattle.std.specs.Prelude.{◌≡◌, ◌≢◌, ◌≤◌, ◌+◌, ◌⊎◌, ℕ, List, Bool, Some, IsSome, IsTrue, Ok, Err, false, ◌||◌};
ghost use Rattle.dap_http.specs.Requests.{is_other};
ghost use Rattle.dap_http.specs.Targets.{target_of, asked_of};
ghost use Rattle.xdr_encode.specs.Bodies.{FitsFile, HasNoFile, cost_in, text_in};
ghost use Rattle.dap_server.specs.Costs.{IsCost};
ghost use Rattle.dap_server.specs.Files.{form_of, is_read_first};
ghost use Rattle.dap_server.specs.Prepared.{IsOver, MayGive};
ghost use Rattle.dap_server.specs.Replies.{is_head, wants_memory};
ghost use Rattle.dap_server.specs.Results.{result_text};
ghost use Rattle.dap_server.specs.inner.Serving.{Answers, AnswersWith, Costs, PutsCause, PutsReply, SinkRose, data_front, request_in};

use crate::joined_answer::answer_joined;
use crate::prepared::Prepared;
use crate::preparing::prepare;
use crate::put::put_reply;
use crate::reply_outcome::Answered;
use crate::saved_answer::put_saved;
use crate::values::put_values;
use dap_errors::{Cause, status};
use dap_http::{
    Framer, Head, Kind, Target, TargetRefusal, data_head, error_reply, memory_reply, text_reply,
};
use dap_outside::{Shelf, Sink};
use dap_types::{Bytes, Memory};
use std::alloc::Global;
use std::thread::Threads;
use xdr_encode::Body;

/// Whether the head of the reply is all that is wanted.
pub fn is_head(head: &Head) -> bool
    ensures { (ends : Bool) → result ≡ is_head (request_in head.now ends) }
{
    head.method.as_str().as_bytes() == b"HEAD".as_slice()
}

/// Whether the method is neither GET nor HEAD.
fn is_other(head: &Head) -> bool
    ensures { result ≡ is_other head.now.method }
{
    let method = head.method.as_str().as_bytes();
    !(method == b"GET".as_slice() || method == b"HEAD".as_slice())
}

/// Puts the reply for a want of memory. It takes none.
pub fn put_memory<O: Sink>(out: &mut O, head: &Head, ends: bool) -> Answered
    ensures puts { PutsReply (request_in head.now ends) (Err Cause.OutOfMemory) (O.written out.old) (O.written out.new) result }
    ensures fault { SinkRose result (O.put_faults out.old) (O.put_faults out.new) }
    ensures later { O.put_faults out.old ≤ O.put_faults out.new }
    ensures beside { O.beside_writing out.new ≡ O.beside_writing out.old }
{
    put_reply(out, memory_reply(is_head(head)), 503, true)
}

/// Whether the connection ends behind the reply for a cause, as it does behind that for a want of memory.
fn is_last(cause: &Cause, ends: bool) -> bool
    ensures { result ≡ (ends || wants_memory cause.now) }
{
    ends || matches!(cause, Cause::OutOfMemory)
}

/// Puts the reply for a cause.
fn put_cause<O: Sink>(
    alloc: Global,
    out: &mut O,
    head: &Head,
    ends: bool,
    cause: &Cause,
) -> Answered
    ensures puts { PutsCause (request_in head.now ends) cause.now (O.written out.old) (O.written out.new) result }
    ensures fault { SinkRose result (O.put_faults out.old) (O.put_faults out.new) }
    ensures later { O.put_faults out.old ≤ O.put_faults out.new }
    ensures beside { O.beside_writing out.new ≡ O.beside_writing out.old }
{
    let last = is_last(cause, ends);
    match error_reply(alloc, cause, last, is_head(head)) {
        Ok(text) => put_reply(out, text.bytes(), status(cause), last),
        Err(Memory) => put_memory(out, head, ends),
    }
}

/// Puts the reply of a text of a kind that is no data.
fn put_text<O: Sink>(
    alloc: Global,
    out: &mut O,
    head: &Head,
    ends: bool,
    kind: Kind,
    text: &[u8],
) -> Answered
    requires { kind ≢ Kind.Dods }
    ensures puts { (PutsReply (request_in head.now ends) (Ok (result_text kind text.now)) (O.written out.old) (O.written out.new) result)
        ⊎ PutsReply (request_in head.now ends) (Err Cause.OutOfMemory) (O.written out.old) (O.written out.new) result }
    ensures fault { SinkRose result (O.put_faults out.old) (O.put_faults out.new) }
    ensures later { O.put_faults out.old ≤ O.put_faults out.new }
    ensures beside { O.beside_writing out.new ≡ O.beside_writing out.old }
{
    match text_reply(alloc, kind, text, ends, is_head(head)) {
        Ok(reply) => put_reply(out, reply.bytes(), 200, ends),
        Err(Memory) => put_memory(out, head, ends),
    }
}

/// Answers a request of a data response with the values that are read from its file.
fn answer_values<R: Threads + Sync, S: Shelf, O: Sink>(
    rt: &R,
    alloc: Global,
    shelf: &mut S,
    file: &mut S::File,
    body: &mut Body,
    out: &mut O,
    head: &Head,
    ends: bool,
    front: &[u8],
    target: &Target,
    workers: u32,
) -> Answered
    requires target { target_of head.now.target ≡ Some (asked_of target.now) }
    requires served { is_other head.now.method ≡ false }
    requires get { is_head (request_in head.now ends) ≡ false }
    requires front { front.now ≡ data_front (request_in head.now ends) }
    requires fits { FitsFile body.old (S.size_of shelf.old file.old) }
    requires body { (bytes : List ℕ) → IsOver target.now.name (S.content shelf.old file.old) bytes → MayGive (S.files shelf.old) (asked_of target.now) (Ok (result_text Kind.Dods (text_in body.old bytes))) }
    requires accepted { (text : List ℕ) × MayGive (S.files shelf.old) (asked_of target.now) (Ok (result_text Kind.Dods text)) }
    requires alone { IsTrue (is_read_first (form_of target.now.name)) → HasNoFile body.old }
    requires tells { IsSome (S.files shelf.old) → IsSome (S.content shelf.old file.old) }
    requires cost { (cost : ℕ) × IsCost (S.files shelf.old) (asked_of target.now) cost × (cost_in body.old ≤ cost) }
    requires some { 1 ≤ workers }
    requires many { workers ≤ 64 }
    ensures answers { AnswersWith (Costs (S.files shelf.old) (asked_of target.now) (request_in head.now ends)) (S.files shelf.old) (request_in head.now ends)
        (record { written = O.written out.old; faults = S.faults shelf.old; asked = S.asked shelf.old })
        (record { written = O.written out.new; faults = S.faults shelf.new; asked = S.asked shelf.new }) result }
    ensures files { S.files shelf.new ≡ S.files shelf.old }
    ensures shelf_later { S.faults shelf.old ≤ S.faults shelf.new }
    ensures fault { SinkRose result (O.put_faults out.old) (O.put_faults out.new) }
    ensures later { O.put_faults out.old ≤ O.put_faults out.new }
    ensures beside { O.beside_writing out.new ≡ O.beside_writing out.old }
{
    let chunked = Kind::Dods.is_chunked(head.minor);
    match Framer::behind(alloc, chunked, front) {
        Ok(framer) => put_values(rt, shelf, file, body, framer, out, ends, workers),
        Err(Memory) => put_memory(out, head, ends),
    }
}

/// Answers a request of a data response.
fn answer_data<R: Threads + Sync, S: Shelf, O: Sink>(
    rt: &R,
    alloc: Global,
    shelf: &mut S,
    file: &mut S::File,
    body: &mut Body,
    out: &mut O,
    head: &Head,
    ends: bool,
    target: &Target,
    workers: u32,
) -> Answered
    requires target { target_of head.now.target ≡ Some (asked_of target.now) }
    requires served { is_other head.now.method ≡ false }
    requires fits { FitsFile body.old (S.size_of shelf.old file.old) }
    requires body { (bytes : List ℕ) → IsOver target.now.name (S.content shelf.old file.old) bytes → MayGive (S.files shelf.old) (asked_of target.now) (Ok (result_text Kind.Dods (text_in body.old bytes))) }
    requires accepted { (text : List ℕ) × MayGive (S.files shelf.old) (asked_of target.now) (Ok (result_text Kind.Dods text)) }
    requires alone { IsTrue (is_read_first (form_of target.now.name)) → HasNoFile body.old }
    requires tells { IsSome (S.files shelf.old) → IsSome (S.content shelf.old file.old) }
    requires cost { (cost : ℕ) × IsCost (S.files shelf.old) (asked_of target.now) cost × (cost_in body.old ≤ cost) }
    requires some { 1 ≤ workers }
    requires many { workers ≤ 64 }
    ensures answers { AnswersWith (Costs (S.files shelf.old) (asked_of target.now) (request_in head.now ends)) (S.files shelf.old) (request_in head.now ends)
        (record { written = O.written out.old; faults = S.faults shelf.old; asked = S.asked shelf.old })
        (record { written = O.written out.new; faults = S.faults shelf.new; asked = S.asked shelf.new }) result }
    ensures files { S.files shelf.new ≡ S.files shelf.old }
    ensures shelf_later { S.faults shelf.old ≤ S.faults shelf.new }
    ensures fault { SinkRose result (O.put_faults out.old) (O.put_faults out.new) }
    ensures later { O.put_faults out.old ≤ O.put_faults out.new }
    ensures beside { O.beside_writing out.new ≡ O.beside_writing out.old }
{
    match data_head(alloc, Kind::Dods.is_chunked(head.minor), ends) {
        Ok(front) => {
            if is_head(head) {
                return put_reply(out, front.bytes(), 200, ends);
            }
            answer_values(
                rt,
                alloc,
                shelf,
                file,
                body,
                out,
                head,
                ends,
                front.bytes(),
                target,
                workers,
            )
        }
        Err(Memory) => put_memory(out, head, ends),
    }
}

/// Answers a request whose target was read.
fn answer_target<R: Threads + Sync, S: Shelf, O: Sink>(
    rt: &R,
    alloc: Global,
    shelf: &mut S,
    out: &mut O,
    head: &Head,
    ends: bool,
    target: &Target,
    workers: u32,
) -> Answered
    requires target { target_of head.now.target ≡ Some (asked_of target.now) }
    requires served { is_other head.now.method ≡ false }
    requires some { 1 ≤ workers }
    requires many { workers ≤ 64 }
    ensures answers { Answers (S.files shelf.old) (request_in head.now ends)
        (record { written = O.written out.old; faults = S.faults shelf.old; asked = S.asked shelf.old })
        (record { written = O.written out.new; faults = S.faults shelf.new; asked = S.asked shelf.new }) result }
    ensures files { S.files shelf.new ≡ S.files shelf.old }
    ensures shelf_later { S.faults shelf.old ≤ S.faults shelf.new }
    ensures fault { SinkRose result (O.put_faults out.old) (O.put_faults out.new) }
    ensures later { O.put_faults out.old ≤ O.put_faults out.new }
    ensures beside { O.beside_writing out.new ≡ O.beside_writing out.old }
{
    match prepare(rt, alloc, shelf, target, workers) {
        Prepared::Text { kind, text } => put_text(alloc, out, head, ends, kind, text.bytes()),
        Prepared::Body { mut body, mut file } => answer_data(
            rt, alloc, shelf, &mut file, &mut body, out, head, ends, target, workers,
        ),
        Prepared::Saved { mut body } => put_saved(alloc, &mut body, out, head, ends),
        Prepared::Joined {
            mut body,
            mut files,
        } => answer_joined(
            rt,
            alloc,
            shelf,
            files.items_mut(),
            &mut body,
            out,
            head,
            ends,
            target,
            workers,
        ),
        Prepared::Refuse(cause) => put_cause(alloc, out, head, ends, &cause),
        Prepared::ShelfFault => put_cause(alloc, out, head, ends, &Cause::ReadFailed),
        Prepared::Memory => put_memory(out, head, ends),
    }
}

/// Answers a request.
pub fn answer<R: Threads + Sync, S: Shelf, O: Sink>(
    rt: &R,
    alloc: Global,
    shelf: &mut S,
    out: &mut O,
    head: &Head,
    ends: bool,
    workers: u32,
) -> Answered
    requires some { 1 ≤ workers }
    requires many { workers ≤ 64 }
    ensures answers { Answers (S.files shelf.old) (request_in head.now ends)
        (record { written = O.written out.old; faults = S.faults shelf.old; asked = S.asked shelf.old })
        (record { written = O.written out.new; faults = S.faults shelf.new; asked = S.asked shelf.new }) result }
    ensures files { S.files shelf.new ≡ S.files shelf.old }
    ensures shelf_later { S.faults shelf.old ≤ S.faults shelf.new }
    ensures fault { SinkRose result (O.put_faults out.old) (O.put_faults out.new) }
    ensures later { O.put_faults out.old ≤ O.put_faults out.new }
    ensures beside { O.beside_writing out.new ≡ O.beside_writing out.old }
{
    if is_other(head) {
        return put_cause(alloc, out, head, ends, &Cause::BadMethod);
    }
    match Target::read(alloc, head.target.bytes()) {
        Ok(target) => answer_target(rt, alloc, shelf, out, head, ends, &target, workers),
        Err(TargetRefusal::BadTarget) => put_cause(alloc, out, head, ends, &Cause::BadTarget),
        Err(TargetRefusal::Memory) => put_memory(out, head, ends),
    }
}
