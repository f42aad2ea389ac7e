//! A reply whose body stands whole in memory, for which all other memory was taken.

ghost use Rattle.std.specs.Prelude.{◌≡◌, ◌≢◌, ◌≤◌, ◌++◌, [], if◌then◌else◌, ℕ, List, IfOk, OnErr, OnOk};
ghost use Rattle.std.specs.Io.KnownBytes.{Appends};
ghost use Rattle.dap_outside.specs.Causes.{HasCause, Rose};
ghost use Rattle.dap_http.specs.Frames.{IsProperFront, framed};
ghost use Rattle.dap_http.specs.Sent.{stated_length};
ghost use Rattle.dap_gateway.specs.Given.{reply, server_error, text};
ghost use Rattle.dap_gateway.specs.Turns.{Puts, extent_text, ready_text};

use crate::relayed::Relayed;
use dap_http::{Framer, Kind, put_framed, reply_head};
use dap_outside::{Failed, Sink, put_all};
use dap_types::{Bytes, Memory};
use std::alloc::Global;

/// What goes out of a reply.
#[derive(Drop)]
pub enum Extent {
    /// Its head alone.
    HeadAlone(Bytes),
    /// Its body too, behind the head that the framer puts before it.
    WithBody(Framer),
}

/// A reply whose head stands, and its status.
#[derive(Drop)]
pub struct Ready {
    extent: Extent,
    status: u16,
}

/// The length that the head of a body of a kind states. That of data is not stated.
fn stated_length(kind: Kind, body: &[u8]) -> Option<u64>
    ensures { result ≡ stated_length kind body.now }
{
    match kind {
        Kind::Dods => None,
        Kind::Dds | Kind::Das | Kind::Ver => Some(body.len() as u64),
    }
}

impl Ready {
    /// For a good body of a kind, or its head alone, to a request of this minor version. Fails where memory
    /// is wanted.
    pub fn body(
        alloc: Global,
        kind: Kind,
        body: &[u8],
        minor: u8,
        head_alone: bool,
    ) -> Result<Ready, Memory>
        ensures text { IfOk result (λ r. ready_text r body.now ≡ reply head_alone minor (text kind body.now)) }
        ensures status { IfOk result (λ r. r.status ≡ 200) }
    {
        let chunked = kind.is_chunked(minor);
        let len = stated_length(kind, body);
        let head = reply_head(alloc, 200, kind.description(), len, chunked, true)?;
        prepared(alloc, 200, head, chunked, head_alone)
    }

    /// For an Error object of the other server, which goes out as a bad request, or its head alone. Fails
    /// where memory is wanted.
    pub fn object(alloc: Global, object: &[u8], head_alone: bool) -> Result<Ready, Memory>
        ensures text { IfOk result (λ r. (minor : ℕ) → ready_text r object.now ≡ reply head_alone minor (server_error object.now)) }
        ensures status { IfOk result (λ r. r.status ≡ 400) }
    {
        let len = object.len() as u64;
        let head = reply_head(alloc, 400, b"dods_error", Some(len), false, true)?;
        prepared(alloc, 400, head, false, head_alone)
    }

    /// Puts the reply, its head in one piece with what begins the body. Takes no memory.
    pub fn put<O: Sink>(self, out: &mut O, body: &[u8], hit: bool) -> Relayed
        ensures puts { Puts (ready_text self body.now) self.status hit (O.written out.old) (O.written out.new) result }
        ensures fault { result ≡ Relayed.WriteFault → Rose (O.put_faults out.old) (O.put_faults out.new) }
        ensures kept { result ≢ Relayed.WriteFault → O.put_faults out.new ≡ O.put_faults out.old }
        ensures later { O.put_faults out.old ≤ O.put_faults out.new }
        ensures beside { O.beside_writing out.new ≡ O.beside_writing out.old }
    {
        let Ready { extent, status } = self;
        match put_extent(out, extent, body) {
            Ok(()) => Relayed::Replied { status, hit },
            Err(Failed) => Relayed::WriteFault,
        }
    }
}

/// A head, and what follows it unless the head alone is wanted.
fn prepared(
    alloc: Global,
    status: u16,
    head: Bytes,
    chunked: bool,
    head_alone: bool,
) -> Result<Ready, Memory>
    ensures text { IfOk result (λ r. (body : List ℕ) → ready_text r body ≡ head ++ (if head_alone then [] else framed chunked body)) }
    ensures status { IfOk result (λ r. r.status ≡ status) }
{
    if head_alone {
        return Ok(Ready {
            extent: Extent::HeadAlone(head),
            status,
        });
    }
    let framer = Framer::behind(alloc, chunked, head.bytes())?;
    Ok(Ready {
        extent: Extent::WithBody(framer),
        status,
    })
}

/// Puts what goes out of a reply, with this body. Where that fails a front of it was put, and not all.
fn put_extent<O: Sink>(out: &mut O, extent: Extent, body: &[u8]) -> Result<(), Failed>
    ensures ok { OnOk result (Appends (O.written out.old) (O.written out.new) (extent_text extent body.now)) }
    ensures err { OnErr result ((part : List ℕ) × Appends (O.written out.old) (O.written out.new) part × IsProperFront part (extent_text extent body.now)) }
    ensures cause { HasCause (O.put_faults out.old) (O.put_faults out.new) result }
    ensures beside { O.beside_writing out.new ≡ O.beside_writing out.old }
{
    match extent {
        Extent::HeadAlone(head) => put_all(out, head.bytes()),
        Extent::WithBody(framer) => put_framed(framer, out, body),
    }
}
