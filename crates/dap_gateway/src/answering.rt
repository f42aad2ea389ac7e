//! A request for what the other server has, answered by a body that is kept or by what came.

ghost use Rattle.std.specs.Prelude.{◌≡◌, ◌≢◌, ◌≤◌, ◌⊎◌, ℕ, List, None, Some, IfOk, IsSome, false, true};
ghost use Rattle.std.specs.Map.{lookup};
ghost use Rattle.std.specs.Str.{bytes_eq};
ghost use Rattle.lru.specs.LruCache.{promoted};
ghost use Rattle.dap_outside.specs.Causes.{Rose};
ghost use Rattle.dap_gateway.specs.Given.{given_for, refused, reply, server_error, given_status, text};
ghost use Rattle.dap_gateway.specs.Pairs.{pairs, room_of};
ghost use Rattle.dap_gateway.specs.Turns.{IsReady, Puts, kept_with, ready_text};

use crate::cache::Cache;
use crate::ready::Ready;
use crate::relayed::Relayed;
use crate::replies::{put_cause, put_memory};
use crate::wanted::Wanted;
use dap_client::BodyOutcome;
use dap_errors::Cause;
use dap_outside::Sink;
use dap_types::{Bytes, Memory, limits};
use std::alloc::Global;

/// The bytes of a body that is kept, at most.
const MOST_KEPT: usize = limits::MOST_KEPT;

/// Puts a reply with the body that is kept for a request.
fn put_kept<O: Sink>(
    ready: Ready,
    out: &mut O,
    cache: &Cache,
    wanted: &Wanted,
    hit: bool,
) -> Relayed
    requires { IsSome (lookup (bytes_eq wanted.now.key) (pairs cache.now)) }
    ensures puts { (body : List ℕ) → lookup (bytes_eq wanted.now.key) (pairs cache.now) ≡ Some body →
        Puts (ready_text ready body) ready.status hit (O.written out.old) (O.written out.new) result }
    ensures fault { result ≡ Relayed.WriteFault → Rose (O.put_faults out.old) (O.put_faults out.new) }
    ensures kept { result ≢ Relayed.WriteFault → O.put_faults out.new ≡ O.put_faults out.old }
    ensures no_read_fault { result ≢ Relayed.ReadFault }
    ensures later { O.put_faults out.old ≤ O.put_faults out.new }
    ensures beside { O.beside_writing out.new ≡ O.beside_writing out.old }
{
    match cache.body(wanted.key.bytes()) {
        Some(body) => ready.put(out, body, hit),
        None => unreachable!(),
    }
}

/// Answers a request out of the cache.
pub fn relay_hit<O: Sink>(alloc: Global, out: &mut O, cache: &mut Cache, wanted: &Wanted) -> Relayed
    requires { IsSome (lookup (bytes_eq wanted.now.key) (pairs cache.old)) }
    ensures puts { (body : List ℕ) → lookup (bytes_eq wanted.now.key) (pairs cache.old) ≡ Some body →
        (Puts (reply wanted.now.head_alone wanted.now.minor (text wanted.now.kind body)) 200 true (O.written out.old) (O.written out.new) result × (pairs cache.new ≡ promoted (bytes_eq wanted.now.key) (pairs cache.old)))
        ⊎ (Puts (reply wanted.now.head_alone 1 (refused Cause.OutOfMemory)) 503 false (O.written out.old) (O.written out.new) result × (pairs cache.new ≡ pairs cache.old)) }
    ensures fault { result ≡ Relayed.WriteFault → Rose (O.put_faults out.old) (O.put_faults out.new) }
    ensures kept { result ≢ Relayed.WriteFault → O.put_faults out.new ≡ O.put_faults out.old }
    ensures no_read_fault { result ≢ Relayed.ReadFault }
    ensures later { O.put_faults out.old ≤ O.put_faults out.new }
    ensures room { room_of cache.new ≡ room_of cache.old }
    ensures beside { O.beside_writing out.new ≡ O.beside_writing out.old }
{
    match ready_for(alloc, cache, wanted) {
        Ok(ready) => {
            cache.promote(wanted.key.bytes());
            put_kept(ready, out, cache, wanted, true)
        }
        Err(Memory) => put_memory(out, wanted.head_alone),
    }
}

/// The reply with the body that is kept for a request, or its head alone.
fn ready_for(alloc: Global, cache: &Cache, wanted: &Wanted) -> Result<Ready, Memory>
    requires { IsSome (lookup (bytes_eq wanted.now.key) (pairs cache.now)) }
    ensures { (body : List ℕ) → lookup (bytes_eq wanted.now.key) (pairs cache.now) ≡ Some body → IfOk result (λ r. IsReady wanted.now.kind wanted.now.minor wanted.now.head_alone body r) }
{
    match cache.body(wanted.key.bytes()) {
        Some(body) => Ready::body(alloc, wanted.kind, body, wanted.minor, wanted.head_alone),
        None => unreachable!(),
    }
}

/// Answers a request with a good body of the other server, which is kept where it is small.
pub fn relay_good<O: Sink>(
    alloc: Global,
    out: &mut O,
    cache: &mut Cache,
    wanted: &Wanted,
    body: Bytes,
) -> Relayed
    requires { lookup (bytes_eq wanted.now.key) (pairs cache.old) ≡ None }
    ensures puts { (Puts (reply wanted.now.head_alone wanted.now.minor (text wanted.now.kind body)) 200 false (O.written out.old) (O.written out.new) result × (pairs cache.new ≡ kept_with (room_of cache.old) wanted.now.key (text wanted.now.kind body) (pairs cache.old)))
        ⊎ (Puts (reply wanted.now.head_alone 1 (refused Cause.OutOfMemory)) 503 false (O.written out.old) (O.written out.new) result × (pairs cache.new ≡ pairs cache.old)) }
    ensures fault { result ≡ Relayed.WriteFault → Rose (O.put_faults out.old) (O.put_faults out.new) }
    ensures kept { result ≢ Relayed.WriteFault → O.put_faults out.new ≡ O.put_faults out.old }
    ensures no_read_fault { result ≢ Relayed.ReadFault }
    ensures later { O.put_faults out.old ≤ O.put_faults out.new }
    ensures room { room_of cache.new ≡ room_of cache.old }
    ensures beside { O.beside_writing out.new ≡ O.beside_writing out.old }
{
    let Ok(ready) = Ready::body(
        alloc,
        wanted.kind,
        body.bytes(),
        wanted.minor,
        wanted.head_alone,
    ) else {
        return put_memory(out, wanted.head_alone);
    };
    if body.bytes().len() > MOST_KEPT {
        return ready.put(out, body.bytes(), false);
    }
    match cache.keep(alloc, wanted.key.bytes(), body) {
        Ok(()) => put_kept(ready, out, cache, wanted, false),
        Err(Memory) => put_memory(out, wanted.head_alone),
    }
}

/// Answers a request with an Error object of the other server.
pub fn relay_object<O: Sink>(alloc: Global, out: &mut O, wanted: &Wanted, object: &[u8]) -> Relayed
    ensures puts { Puts (reply wanted.now.head_alone wanted.now.minor (server_error object.now)) 400 false (O.written out.old) (O.written out.new) result
        ⊎ Puts (reply wanted.now.head_alone 1 (refused Cause.OutOfMemory)) 503 false (O.written out.old) (O.written out.new) result }
    ensures fault { result ≡ Relayed.WriteFault → Rose (O.put_faults out.old) (O.put_faults out.new) }
    ensures kept { result ≢ Relayed.WriteFault → O.put_faults out.new ≡ O.put_faults out.old }
    ensures no_read_fault { result ≢ Relayed.ReadFault }
    ensures later { O.put_faults out.old ≤ O.put_faults out.new }
    ensures beside { O.beside_writing out.new ≡ O.beside_writing out.old }
{
    match Ready::object(alloc, object, wanted.head_alone) {
        Ok(ready) => ready.put(out, object, false),
        Err(Memory) => put_memory(out, wanted.head_alone),
    }
}

/// Answers a request by what the other server's reply brought.
pub fn relay_outcome<O: Sink>(
    alloc: Global,
    out: &mut O,
    cache: &mut Cache,
    wanted: &Wanted,
    outcome: BodyOutcome,
) -> Relayed
    requires { lookup (bytes_eq wanted.now.key) (pairs cache.old) ≡ None }
    ensures puts { ((outcome ≢ BodyOutcome.Memory) × Puts (reply wanted.now.head_alone wanted.now.minor (given_for wanted.now.kind outcome)) (given_status (given_for wanted.now.kind outcome)) false (O.written out.old) (O.written out.new) result
        × (pairs cache.new ≡ kept_with (room_of cache.old) wanted.now.key (given_for wanted.now.kind outcome) (pairs cache.old)))
        ⊎ (Puts (reply wanted.now.head_alone 1 (refused Cause.OutOfMemory)) 503 false (O.written out.old) (O.written out.new) result × (pairs cache.new ≡ pairs cache.old)) }
    ensures fault { result ≡ Relayed.WriteFault → Rose (O.put_faults out.old) (O.put_faults out.new) }
    ensures kept { result ≢ Relayed.WriteFault → O.put_faults out.new ≡ O.put_faults out.old }
    ensures no_read_fault { result ≢ Relayed.ReadFault }
    ensures later { O.put_faults out.old ≤ O.put_faults out.new }
    ensures room { room_of cache.new ≡ room_of cache.old }
    ensures beside { O.beside_writing out.new ≡ O.beside_writing out.old }
{
    match outcome {
        BodyOutcome::Good(body) => { relay_good(alloc, out, cache, wanted, body) }
        BodyOutcome::ServerError(object) => { relay_object(alloc, out, wanted, object.bytes()) }
        BodyOutcome::Bad(field) => put_cause(
            alloc,
            out,
            &Cause::UpstreamBad { place: field.place },
            wanted.head_alone,
        ),
        BodyOutcome::TooLarge => put_cause(alloc, out, &Cause::UpstreamLarge, wanted.head_alone),
        BodyOutcome::ReadFault => put_cause(alloc, out, &Cause::UpstreamFault, wanted.head_alone),
        BodyOutcome::Memory => put_memory(out, wanted.head_alone),
    }
}
