//! The answer to a target.

ghost use Rattle.std.specs.Prelude.{◌≡◌, ◌≢◌, ◌+◌, ◌<◌, ◌≤◌, ℕ, List, map, IsSome, Some, false, Result, Ok, Err};
ghost use Rattle.std.specs.Io.KnownBytes.{Appends};
ghost use Rattle.dap_errors.specs.declared.cause.Cause.{Cause};
ghost use Rattle.dap_http.specs.Targets.{target_of, asked_of};
ghost use Rattle.dap_outside.specs.Causes.{Rose};
ghost use Rattle.dap_outside.specs.Streams.{AppendsFront};
ghost use Rattle.dap_server.specs.Results.{Text};
ghost use Rattle.xdr_encode.specs.Bodies.{FitsFile, HasNoFile, MayAsk, cost_in, text_in};
ghost use Rattle.join_source.specs.Bodies.{FitsFiles};
ghost use Rattle.join_source.specs.Bodies as join;
ghost use Rattle.join_source.specs.Pieces.{AreTold};
ghost use Rattle.saved_source.specs.Bodies.{Sends};
ghost use Rattle.xdr_encode.specs.Streamed.{Stops};
ghost use Rattle.dap_commands.specs.Answer.{AnswerSays, HasNoText, MayAskFor, MayHaveAsked, MustResult, looks_up, most_before, status_of_result, status_of_cause};
ghost use Rattle.dap_commands.specs.Lines.{IsSaid};
ghost use Rattle.dap_commands.specs.inner.Puts.{BodyPut, IsPut, RefusalPut, TextPut, status_start};

use crate::lines::say_cause;
use crate::status::Status;
use dap_errors::{Cause, code, message, print_error};
use dap_http::{Target, TargetRefusal};
use dap_outside::{Shelf, Sink, put_all};
use dap_server::{Prepared, prepare};
use dap_types::List;
use join_source::JoinBody;
use saved_source::SavedBody;
use slab_fill::NoGate;
use std::alloc::Global;
use std::thread::Threads;
use xdr_encode::{Body, Streamed};

/// Puts a text.
fn put_text<O: Sink>(out: &mut O, text: &[u8]) -> Status
    ensures put { TextPut text.now (Appends (O.written out.old) (O.written out.new)) (AppendsFront (O.written out.old) (O.written out.new)) result }
    ensures write_fault { result ≡ Status.WriteFault → Rose (O.put_faults out.old) (O.put_faults out.new) }
    ensures out_kept { result ≢ Status.WriteFault → O.put_faults out.new ≡ O.put_faults out.old }
    ensures beside { O.beside_writing out.new ≡ O.beside_writing out.old }
{
    match put_all(out, text) {
        Ok(()) => Status::Complete,
        Err(_) => Status::WriteFault,
    }
}

/// Puts a body, its file read as it goes.
fn put_body<R: Threads + Sync, S: Shelf, O: Sink>(
    rt: &R,
    shelf: &mut S,
    mut file: S::File,
    mut body: Body,
    workers: u32,
    out: &mut O,
) -> Status
    requires fits { FitsFile body (S.size_of shelf.old file) }
    requires some { 1 ≤ workers }
    requires many { workers ≤ 64 }
    ensures put { (bytes : List ℕ) → S.content shelf.old file ≡ Some bytes → BodyPut (text_in body bytes) (Appends (O.written out.old) (O.written out.new)) (AppendsFront (O.written out.old) (O.written out.new)) result }
    ensures alone { HasNoFile body → (result ≢ Status.ReadFault) × ((bytes : List ℕ) → BodyPut (text_in body bytes) (Appends (O.written out.old) (O.written out.new)) (AppendsFront (O.written out.old) (O.written out.new)) result) }
    ensures is_put { IsPut result }
    ensures stops { (bytes : List ℕ) → S.content shelf.old file ≡ Some bytes → result ≡ Status.WriteFault → Stops (text_in body bytes) (MayAsk body bytes) (O.written out.old) (O.written out.new) (S.asked shelf.old) (S.asked shelf.new) }
    ensures stops_alone { HasNoFile body → S.asked shelf.new ≡ S.asked shelf.old }
    ensures asked { S.asked shelf.new ≤ S.asked shelf.old + cost_in body }
    ensures later { S.faults shelf.old ≤ S.faults shelf.new }
    ensures files { S.files shelf.new ≡ S.files shelf.old }
    ensures read_fault { result ≡ Status.ReadFault → Rose (S.faults shelf.old) (S.faults shelf.new) }
    ensures shelf_kept { result ≢ Status.ReadFault → S.faults shelf.new ≡ S.faults shelf.old }
    ensures write_fault { result ≡ Status.WriteFault → Rose (O.put_faults out.old) (O.put_faults out.new) }
    ensures out_kept { result ≢ Status.WriteFault → O.put_faults out.new ≡ O.put_faults out.old }
    ensures beside { O.beside_writing out.new ≡ O.beside_writing out.old }
{
    match body.stream(rt, shelf, &mut file, out, workers, &NoGate) {
        Streamed::Sent => Status::Complete,
        Streamed::ShelfFault => Status::ReadFault,
        Streamed::WriteFault => Status::WriteFault,
    }
}

/// Puts the body of joined files, which are read as it goes.
fn put_joined<R: Threads + Sync, S: Shelf, O: Sink>(
    rt: &R,
    shelf: &mut S,
    mut files: List<S::File>,
    mut body: JoinBody,
    workers: u32,
    out: &mut O,
) -> Status
    requires fits { FitsFiles body (map (S.size_of shelf.old) files) }
    requires some { 1 ≤ workers }
    requires many { workers ≤ 64 }
    ensures put { (contents : List (List ℕ)) → AreTold (map (S.content shelf.old) files) contents →
        BodyPut (join.text_in body contents) (Appends (O.written out.old) (O.written out.new)) (AppendsFront (O.written out.old) (O.written out.new)) result }
    ensures is_put { IsPut result }
    ensures stops { (contents : List (List ℕ)) → AreTold (map (S.content shelf.old) files) contents → result ≡ Status.WriteFault →
        Stops (join.text_in body contents) (join.MayAsk body contents) (O.written out.old) (O.written out.new) (S.asked shelf.old) (S.asked shelf.new) }
    ensures asked { S.asked shelf.new ≤ S.asked shelf.old + join.cost_in body }
    ensures later { S.faults shelf.old ≤ S.faults shelf.new }
    ensures files { S.files shelf.new ≡ S.files shelf.old }
    ensures read_fault { result ≡ Status.ReadFault → Rose (S.faults shelf.old) (S.faults shelf.new) }
    ensures shelf_kept { result ≢ Status.ReadFault → S.faults shelf.new ≡ S.faults shelf.old }
    ensures write_fault { result ≡ Status.WriteFault → Rose (O.put_faults out.old) (O.put_faults out.new) }
    ensures out_kept { result ≢ Status.WriteFault → O.put_faults out.new ≡ O.put_faults out.old }
    ensures beside { O.beside_writing out.new ≡ O.beside_writing out.old }
{
    match body.stream(rt, shelf, files.items_mut(), out, workers, &NoGate) {
        Streamed::Sent => Status::Complete,
        Streamed::ShelfFault => Status::ReadFault,
        Streamed::WriteFault => Status::WriteFault,
    }
}

/// Puts the body of a saved response.
fn put_saved<O: Sink>(mut body: SavedBody, out: &mut O) -> Status
    ensures put { (text : List ℕ) → Sends body text → TextPut text (Appends (O.written out.old) (O.written out.new)) (AppendsFront (O.written out.old) (O.written out.new)) result }
    ensures reads_nothing { result ≢ Status.ReadFault }
    ensures write_fault { result ≡ Status.WriteFault → Rose (O.put_faults out.old) (O.put_faults out.new) }
    ensures out_kept { result ≢ Status.WriteFault → O.put_faults out.new ≡ O.put_faults out.old }
    ensures beside { O.beside_writing out.new ≡ O.beside_writing out.old }
{
    match body.stream(out) {
        Ok(()) => Status::Complete,
        Err(_) => Status::WriteFault,
    }
}

/// The status for a cause, and what its line begins with.
fn status_of_cause(cause: &Cause) -> (Status, &'static [u8])
    ensures status { result.0 ≡ status_of_cause cause.now }
    ensures start { result.1.now ≡ status_start cause.now }
{
    match cause {
        Cause::Damaged(_) => (Status::Damaged, b"dap2: damaged: "),
        _ => (Status::Refused, b"dap2: refused: "),
    }
}

/// Puts the Error object for a cause, and then the line that says it.
fn put_cause<O: Sink, E: Sink>(alloc: Global, cause: &Cause, out: &mut O, err: &mut E) -> Status
    ensures put { RefusalPut cause.now (Appends (O.written out.old) (O.written out.new)) (AppendsFront (O.written out.old) (O.written out.new))
        (λ line. IsSaid line (E.put_faults err.old) (E.put_faults err.new) (E.written err.old) (E.written err.new)) result }
    ensures write_fault { result ≡ Status.WriteFault → Rose (O.put_faults out.old) (O.put_faults out.new) }
    ensures out_kept { result ≢ Status.WriteFault → O.put_faults out.new ≡ O.put_faults out.old }
    ensures quiet { result ≢ Status.Refused → result ≢ Status.Damaged → err.new ≡ err.old }
    ensures beside { O.beside_writing out.new ≡ O.beside_writing out.old }
    ensures beside_err { E.beside_writing err.new ≡ E.beside_writing err.old }
{
    let Ok(message) = message(alloc, cause) else {
        return Status::Memory;
    };
    let Ok(text) = print_error(alloc, code(cause), message.bytes()) else {
        return Status::Memory;
    };
    match put_all(out, text.bytes()) {
        Ok(()) => {
            let (status, start) = status_of_cause(cause);
            say_cause(err, start, message.bytes());
            status
        }
        Err(_) => Status::WriteFault,
    }
}

/// Puts what a target that was read is answered with.
fn answer_asked<R: Threads + Sync, S: Shelf, O: Sink, E: Sink>(
    rt: &R,
    alloc: Global,
    target: &str,
    asked: &Target,
    workers: u32,
    shelf: &mut S,
    out: &mut O,
    err: &mut E,
) -> Status
    requires some { 1 ≤ workers }
    requires many { workers ≤ 64 }
    requires is_asked { target_of target.now ≡ Some (asked_of asked.now) }
    ensures says { AnswerSays (S.files shelf.old) target.now (Appends (O.written out.old) (O.written out.new)) (AppendsFront (O.written out.old) (O.written out.new))
        (λ line. IsSaid line (E.put_faults err.old) (E.put_faults err.new) (E.written err.old) (E.written err.new)) result }
    ensures only { (r : Result Text Cause) → MustResult (S.files shelf.old) target.now r → ¬ (Rose (S.faults shelf.old) (S.faults shelf.new)) → ¬ (Rose (O.put_faults out.old) (O.put_faults out.new))
        → result ≢ Status.Memory → result ≡ status_of_result r }
    ensures asked { (most : ℕ) × MayAskFor (S.files shelf.old) target.now most × (S.asked shelf.new ≤ S.asked shelf.old + most) }
    ensures asked_first { HasNoText result → S.asked shelf.new ≤ S.asked shelf.old + most_before (S.files shelf.old) target.now }
    ensures asked_then { IsSome (S.files shelf.old) → result ≡ Status.WriteFault → MayHaveAsked (S.files shelf.old) target.now (O.written out.old) (O.written out.new) (S.asked shelf.old) (S.asked shelf.new) }
    ensures untouched { looks_up target.now ≡ false → shelf.new ≡ shelf.old }
    ensures read_fault { result ≡ Status.ReadFault → Rose (S.faults shelf.old) (S.faults shelf.new) }
    ensures shelf_kept { result ≢ Status.ReadFault → S.faults shelf.new ≡ S.faults shelf.old }
    ensures write_fault { result ≡ Status.WriteFault → Rose (O.put_faults out.old) (O.put_faults out.new) }
    ensures out_kept { result ≢ Status.WriteFault → O.put_faults out.new ≡ O.put_faults out.old }
    ensures files { S.files shelf.new ≡ S.files shelf.old }
    ensures quiet { result ≢ Status.Refused → result ≢ Status.Damaged → err.new ≡ err.old }
    ensures beside { O.beside_writing out.new ≡ O.beside_writing out.old }
    ensures beside_err { E.beside_writing err.new ≡ E.beside_writing err.old }
{
    match prepare(rt, alloc, shelf, asked, workers) {
        Prepared::Text { text, .. } => put_text(out, text.bytes()),
        Prepared::Body { body, file } => put_body(rt, shelf, file, body, workers, out),
        Prepared::Saved { body } => put_saved(body, out),
        Prepared::Joined { body, files } => put_joined(rt, shelf, files, body, workers, out),
        Prepared::Refuse(cause) => put_cause(alloc, &cause, out, err),
        Prepared::ShelfFault => Status::ReadFault,
        Prepared::Memory => Status::Memory,
    }
}

/// Puts what a target is answered with: the text or the data response that it asks for, or the Error
/// object for the first cause for which there is none. The cause goes to `err` too.
pub fn answer<R: Threads + Sync, S: Shelf, O: Sink, E: Sink>(
    rt: &R,
    alloc: Global,
    target: &str,
    workers: u32,
    shelf: &mut S,
    out: &mut O,
    err: &mut E,
) -> Status
    requires some { 1 ≤ workers }
    requires many { workers ≤ 64 }
    ensures says { AnswerSays (S.files shelf.old) target.now (Appends (O.written out.old) (O.written out.new)) (AppendsFront (O.written out.old) (O.written out.new))
        (λ line. IsSaid line (E.put_faults err.old) (E.put_faults err.new) (E.written err.old) (E.written err.new)) result }
    ensures only { (r : Result Text Cause) → MustResult (S.files shelf.old) target.now r → ¬ (Rose (S.faults shelf.old) (S.faults shelf.new)) → ¬ (Rose (O.put_faults out.old) (O.put_faults out.new))
        → result ≢ Status.Memory → result ≡ status_of_result r }
    ensures asked { (most : ℕ) × MayAskFor (S.files shelf.old) target.now most × (S.asked shelf.new ≤ S.asked shelf.old + most) }
    ensures asked_first { HasNoText result → S.asked shelf.new ≤ S.asked shelf.old + most_before (S.files shelf.old) target.now }
    ensures asked_then { IsSome (S.files shelf.old) → result ≡ Status.WriteFault → MayHaveAsked (S.files shelf.old) target.now (O.written out.old) (O.written out.new) (S.asked shelf.old) (S.asked shelf.new) }
    ensures untouched { looks_up target.now ≡ false → shelf.new ≡ shelf.old }
    ensures read_fault { result ≡ Status.ReadFault → Rose (S.faults shelf.old) (S.faults shelf.new) }
    ensures shelf_kept { result ≢ Status.ReadFault → S.faults shelf.new ≡ S.faults shelf.old }
    ensures write_fault { result ≡ Status.WriteFault → Rose (O.put_faults out.old) (O.put_faults out.new) }
    ensures out_kept { result ≢ Status.WriteFault → O.put_faults out.new ≡ O.put_faults out.old }
    ensures files { S.files shelf.new ≡ S.files shelf.old }
    ensures quiet { result ≢ Status.Refused → result ≢ Status.Damaged → err.new ≡ err.old }
    ensures beside { O.beside_writing out.new ≡ O.beside_writing out.old }
    ensures beside_err { E.beside_writing err.new ≡ E.beside_writing err.old }
{
    match Target::read(alloc, target.as_bytes()) {
        Ok(asked) => answer_asked(rt, alloc, target, &asked, workers, shelf, out, err),
        Err(TargetRefusal::BadTarget) => put_cause(alloc, &Cause::BadTarget, out, err),
        Err(TargetRefusal::Memory) => Status::Memory,
    }
}
