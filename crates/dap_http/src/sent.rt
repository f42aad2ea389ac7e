//! Replies as they are sent: the texts that stand whole, and a body behind its head.

ghost use Rattle.std.specs.Prelude.{◌≡◌, ◌++◌, ℕ, List, [], Some, None, true, false, length, if◌then◌else◌, IfOk, OnErr, OnOk};
ghost use Rattle.std.specs.Io.KnownBytes.{Appends};
ghost use Rattle.dap_outside.specs.Causes.{HasCause};
ghost use Rattle.dap_http.specs.Frames.{IsProperFront, framed};
ghost use Rattle.dap_http.specs.Framings.{front_of};
ghost use Rattle.dap_http.specs.Sent.{error_head, error_object};
ghost use Rattle.dap_http.specs.Texts.{description_of, head_text};

use crate::texts::reply_head;
use crate::{Framer, Kind};
use dap_errors::{Cause, code, message, print_error, status};
use dap_outside::{Failed, Sink, put_all};
use dap_types::{Bytes, Memory};
use std::alloc::Global;

/// A head, and what follows it unless the head alone is wanted.
fn joined(alloc: Global, head: Bytes, body: &[u8], head_alone: bool) -> Result<Bytes, Memory>
    ensures { IfOk result (λ b. b ≡ head ++ (if head_alone then [] else body.now)) }
{
    if head_alone {
        return Ok(head);
    }
    let mut text = Vec::with_capacity(alloc, 0)?;
    text.extend_from_slice(head.bytes())?;
    text.extend_from_slice(body)?;
    Ok(Bytes::from_vec(text))
}

/// The Error object for a cause (DAP 2.0, Error objects).
fn error_object(alloc: Global, cause: &Cause) -> Result<Bytes, Memory>
    ensures { IfOk result (λ b. b ≡ error_object cause.now) }
{
    let message = message(alloc, cause)?;
    print_error(alloc, code(cause), message.bytes())
}

/// The reply that says a cause: its Error object under its status, or its head alone. It may say that the
/// connection ends.
pub fn error_reply(
    alloc: Global,
    cause: &Cause,
    ends: bool,
    head_alone: bool,
) -> Result<Bytes, Memory>
    ensures { IfOk result (λ b. b ≡ error_head ends cause.now ++ (if head_alone then [] else error_object cause.now)) }
{
    let object = error_object(alloc, cause)?;
    let len = object.bytes().len() as u64;
    let head = reply_head(alloc, status(cause), b"dods_error", Some(len), false, ends)?;
    joined(alloc, head, object.bytes(), head_alone)
}

/// The reply of a text whose length is stated, or its head alone.
pub fn text_reply(
    alloc: Global,
    kind: Kind,
    text: &[u8],
    ends: bool,
    head_alone: bool,
) -> Result<Bytes, Memory>
    ensures { IfOk result (λ b. b ≡ head_text 200 (description_of kind) (Some (length text.now)) false ends ++ (if head_alone then [] else text.now)) }
{
    let len = text.len() as u64;
    let head = reply_head(alloc, 200, kind.description(), Some(len), false, ends)?;
    joined(alloc, head, text, head_alone)
}

/// The head before data, which is sent in chunks or up to the end of the connection.
pub fn data_head(alloc: Global, chunked: bool, ends: bool) -> Result<Bytes, Memory>
    ensures { IfOk result (λ b. b ≡ head_text 200 (description_of Kind.Dods) None chunked ends) }
{
    reply_head(alloc, 200, Kind::Dods.description(), None, chunked, ends)
}

/// Puts a body framed, behind what the framer puts before it. Where that fails a front of both was put, and
/// something was not. Takes no memory.
pub fn put_framed<O: Sink>(framer: Framer, out: &mut O, body: &[u8]) -> Result<(), Failed>
    ensures ok { OnOk result (Appends (O.written out.old) (O.written out.new) (front_of framer ++ framed framer.chunked body.now)) }
    ensures err { OnErr result ((part : List ℕ) × Appends (O.written out.old) (O.written out.new) part × IsProperFront part (front_of framer ++ framed framer.chunked body.now)) }
    ensures cause { HasCause (O.put_faults out.old) (O.put_faults out.new) result }
    ensures beside { O.beside_writing out.new ≡ O.beside_writing out.old }
{
    let mut framing = framer.over(out);
    match put_all(&mut framing, body) {
        Ok(()) => match framing.end() {
            Ok(()) => Ok(()),
            Err(Failed) => Err(Failed),
        },
        Err(Failed) => {
            framing.stop();
            Err(Failed)
        }
    }
}
