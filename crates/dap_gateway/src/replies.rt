//! The replies of a gateway, each of which ends its connection.

ghost use Rattle.std.specs.Prelude.{◌≡◌, ◌≢◌, ◌≤◌, false};
ghost use Rattle.dap_errors.specs.Causes.{http_status};
ghost use Rattle.dap_outside.specs.Causes.{Rose};
ghost use Rattle.dap_http.specs.Texts.{version};
ghost use Rattle.dap_http.specs.declared.kind.Kind.TheVariants.{Ver};
ghost use Rattle.dap_gateway.specs.Given.{refused, reply, text};
ghost use Rattle.dap_gateway.specs.Turns.{MayPut, Puts};

use crate::relayed::Relayed;
use dap_errors::{Cause, status};
use dap_http::{Kind, error_reply, memory_reply, text_reply, version_text};
use dap_outside::{Failed, Sink, put_all};
use dap_types::Memory;
use std::alloc::Global;

/// Puts a reply that stands whole.
fn put_whole<O: Sink>(out: &mut O, bytes: &[u8], status: u16) -> Relayed
    ensures puts { Puts bytes.now status false (O.written out.old) (O.written out.new) result }
    ensures fault { result ≡ Relayed.WriteFault → Rose (O.put_faults out.old) (O.put_faults out.new) }
    ensures kept { result ≢ Relayed.WriteFault → O.put_faults out.new ≡ O.put_faults out.old }
    ensures later { O.put_faults out.old ≤ O.put_faults out.new }
    ensures beside { O.beside_writing out.new ≡ O.beside_writing out.old }
{
    match put_all(out, bytes) {
        Ok(()) => Relayed::Replied { status, hit: false },
        Err(Failed) => Relayed::WriteFault,
    }
}

/// Puts the reply for a want of memory, or its head alone. It takes none.
pub fn put_memory<O: Sink>(out: &mut O, head_alone: bool) -> Relayed
    ensures puts { Puts (reply head_alone 1 (refused Cause.OutOfMemory)) 503 false (O.written out.old) (O.written out.new) result }
    ensures fault { result ≡ Relayed.WriteFault → Rose (O.put_faults out.old) (O.put_faults out.new) }
    ensures kept { result ≢ Relayed.WriteFault → O.put_faults out.new ≡ O.put_faults out.old }
    ensures later { O.put_faults out.old ≤ O.put_faults out.new }
    ensures beside { O.beside_writing out.new ≡ O.beside_writing out.old }
{
    put_whole(out, memory_reply(head_alone), 503)
}

/// Puts the reply for a cause, or its head alone.
pub fn put_cause<O: Sink>(alloc: Global, out: &mut O, cause: &Cause, head_alone: bool) -> Relayed
    ensures puts { MayPut (reply head_alone 1 (refused cause.now)) (http_status cause.now) head_alone (O.written out.old) (O.written out.new) result }
    ensures fault { result ≡ Relayed.WriteFault → Rose (O.put_faults out.old) (O.put_faults out.new) }
    ensures kept { result ≢ Relayed.WriteFault → O.put_faults out.new ≡ O.put_faults out.old }
    ensures later { O.put_faults out.old ≤ O.put_faults out.new }
    ensures beside { O.beside_writing out.new ≡ O.beside_writing out.old }
{
    match error_reply(alloc, cause, true, head_alone) {
        Ok(text) => put_whole(out, text.bytes(), status(cause)),
        Err(Memory) => put_memory(out, head_alone),
    }
}

/// Puts the version text, or its head alone.
pub fn put_version<O: Sink>(alloc: Global, out: &mut O, head_alone: bool) -> Relayed
    ensures puts { MayPut (reply head_alone 1 (text Ver version)) 200 head_alone (O.written out.old) (O.written out.new) result }
    ensures fault { result ≡ Relayed.WriteFault → Rose (O.put_faults out.old) (O.put_faults out.new) }
    ensures kept { result ≢ Relayed.WriteFault → O.put_faults out.new ≡ O.put_faults out.old }
    ensures later { O.put_faults out.old ≤ O.put_faults out.new }
    ensures beside { O.beside_writing out.new ≡ O.beside_writing out.old }
{
    match text_reply(alloc, Kind::Ver, version_text(), true, head_alone) {
        Ok(text) => put_whole(out, text.bytes(), 200),
        Err(Memory) => put_memory(out, head_alone),
    }
}
