//! One request of a client, answered out of the cache or by another server.

ghost use Rattle.std.specs.Prelude.{◌≡◌, ◌≢◌, ◌≤◌, ℕ, List, Some, IfOk, IsSome, IsTrue, false};
ghost use Rattle.std.specs.Io.KnownBytes.{Consumes};
ghost use Rattle.httparse.specs.Grammar.{RequestHead};
ghost use Rattle.dap_outside.specs.Links.{IsNew};
ghost use Rattle.dap_outside.specs.Causes.{Rose};
ghost use Rattle.dap_http.specs.Reading.{IsHead};
ghost use Rattle.dap_http.specs.Requests.{FirstRequest, is_other};
ghost use Rattle.dap_http.specs.Targets.{target_of, asked_of};
ghost use Rattle.dap_http.specs.Urls.{is_host};
ghost use Rattle.dap_http.specs.declared.kind.Kind.TheVariants.{Ver};
ghost use Rattle.dap_gateway.specs.Backed.{AreBacked, history};
ghost use Rattle.dap_gateway.specs.Pairs.{pairs, room_of};
ghost use Rattle.dap_gateway.specs.Turns.{ComesTo, Relays, Wants, is_head_method, wanted_of};
ghost use Rattle.dap_client.specs.Fetched.{link_state};

use crate::answering::{relay_hit, relay_outcome};
use crate::cache::Cache;
use crate::relayed::Relayed;
use crate::replies::{put_cause, put_memory, put_version};
use crate::upstream::{ask, key_for};
use crate::wanted::Wanted;
use dap_errors::Cause;
use dap_http::{Head, HeadRead, HeadReader, Kind, Target, TargetRefusal};
use dap_outside::{Dial, Link};
use dap_types::Memory;
use std::alloc::Global;

/// Whether the head of the reply is all that is wanted.
fn is_head(head: &Head) -> bool
    ensures { result ≡ is_head_method head.now.method }
{
    head.method.as_str().as_bytes() == b"HEAD".as_slice()
}

/// Whether the method is neither GET nor HEAD.
fn is_other(head: &Head) -> bool
    ensures { result ≡ is_other head.now.method }
{
    let method = head.method.as_str().as_bytes();
    !(method == b"GET".as_slice() || method == b"HEAD".as_slice())
}

/// Answers a request for what the other server has.
fn relay_wanted<L: Link, C: Dial>(
    alloc: Global,
    link: &mut L,
    dial: &mut C,
    host: &[u8],
    port: u16,
    cache: &mut Cache,
    wanted: &Wanted,
) -> Relayed
    requires kind { wanted.now.kind ≢ Ver }
    requires host { IsTrue (is_host host.now) }
    ensures comes { (bytes : List ℕ) → Wants host.now port bytes wanted.now → ComesTo (link_state C.Wire.Source C.Wire.Sink) (dial.new ≡ dial.old) host.now port (room_of cache.old) bytes (record { written = L.written link.old; pairs = pairs cache.old }) (record { written = L.written link.new; pairs = pairs cache.new }) (record { back = C.back dial.old; faults = C.faults dial.old }) (record { back = C.back dial.new; faults = C.faults dial.new }) result }
    ensures write_fault { result ≡ Relayed.WriteFault → Rose (L.put_faults link.old) (L.put_faults link.new) }
    ensures kept { result ≢ Relayed.WriteFault → L.put_faults link.new ≡ L.put_faults link.old }
    ensures no_read_fault { result ≢ Relayed.ReadFault }
    ensures later { L.put_faults link.old ≤ L.put_faults link.new }
    ensures later_dial { C.faults dial.old ≤ C.faults dial.new }
    ensures room { room_of cache.new ≡ room_of cache.old }
    ensures beside { L.beside_writing link.new ≡ L.beside_writing link.old }
{
    if cache.holds(wanted.key.bytes()) {
        return relay_hit(alloc, link, cache, wanted);
    }
    let outcome = ask(alloc, dial, host, port, wanted.key.bytes(), wanted.kind);
    relay_outcome(alloc, link, cache, wanted, outcome)
}

/// What a request asks of the other server. Fails where memory is wanted.
fn wanted_by(
    alloc: Global,
    host: &[u8],
    port: u16,
    head: &Head,
    target: &Target,
) -> Result<Wanted, Memory>
    ensures { IfOk result (λ w. w ≡ wanted_of host.now port target.now head.now.minor (is_head_method head.now.method)) }
{
    Ok(Wanted {
        head_alone: is_head(head),
        minor: head.minor,
        kind: target.kind,
        key: key_for(alloc, host, port, target)?,
    })
}

/// Answers a request whose target was read.
fn relay_target<L: Link, C: Dial>(
    alloc: Global,
    link: &mut L,
    dial: &mut C,
    host: &[u8],
    port: u16,
    cache: &mut Cache,
    head: &Head,
    target: &Target,
) -> Relayed
    requires host { IsTrue (is_host host.now) }
    requires target { target_of head.now.target ≡ Some (asked_of target.now) }
    requires served { is_other head.now.method ≡ false }
    ensures comes { (bytes rest : List ℕ) (tree : RequestHead) → FirstRequest bytes tree rest → IsHead head.now tree → ComesTo (link_state C.Wire.Source C.Wire.Sink) (dial.new ≡ dial.old) host.now port (room_of cache.old) bytes (record { written = L.written link.old; pairs = pairs cache.old }) (record { written = L.written link.new; pairs = pairs cache.new }) (record { back = C.back dial.old; faults = C.faults dial.old }) (record { back = C.back dial.new; faults = C.faults dial.new }) result }
    ensures write_fault { result ≡ Relayed.WriteFault → Rose (L.put_faults link.old) (L.put_faults link.new) }
    ensures kept { result ≢ Relayed.WriteFault → L.put_faults link.new ≡ L.put_faults link.old }
    ensures no_read_fault { result ≢ Relayed.ReadFault }
    ensures later { L.put_faults link.old ≤ L.put_faults link.new }
    ensures later_dial { C.faults dial.old ≤ C.faults dial.new }
    ensures room { room_of cache.new ≡ room_of cache.old }
    ensures beside { L.beside_writing link.new ≡ L.beside_writing link.old }
{
    match target.kind {
        Kind::Ver => put_version(alloc, link, is_head(head)),
        Kind::Dds | Kind::Das | Kind::Dods => {
            match wanted_by(alloc, host, port, head, target) {
                Ok(wanted) => relay_wanted(alloc, link, dial, host, port, cache, &wanted),
                Err(Memory) => put_memory(link, is_head(head)),
            }
        }
    }
}

/// Answers a request.
fn relay<L: Link, C: Dial>(
    alloc: Global,
    link: &mut L,
    dial: &mut C,
    host: &[u8],
    port: u16,
    cache: &mut Cache,
    head: &Head,
) -> Relayed
    requires host { IsTrue (is_host host.now) }
    ensures comes { (bytes rest : List ℕ) (tree : RequestHead) → FirstRequest bytes tree rest → IsHead head.now tree → ComesTo (link_state C.Wire.Source C.Wire.Sink) (dial.new ≡ dial.old) host.now port (room_of cache.old) bytes (record { written = L.written link.old; pairs = pairs cache.old }) (record { written = L.written link.new; pairs = pairs cache.new }) (record { back = C.back dial.old; faults = C.faults dial.old }) (record { back = C.back dial.new; faults = C.faults dial.new }) result }
    ensures write_fault { result ≡ Relayed.WriteFault → Rose (L.put_faults link.old) (L.put_faults link.new) }
    ensures kept { result ≢ Relayed.WriteFault → L.put_faults link.new ≡ L.put_faults link.old }
    ensures no_read_fault { result ≢ Relayed.ReadFault }
    ensures later { L.put_faults link.old ≤ L.put_faults link.new }
    ensures later_dial { C.faults dial.old ≤ C.faults dial.new }
    ensures room { room_of cache.new ≡ room_of cache.old }
    ensures beside { L.beside_writing link.new ≡ L.beside_writing link.old }
{
    let head_alone = is_head(head);
    if is_other(head) {
        return put_cause(alloc, link, &Cause::BadMethod, head_alone);
    }
    match Target::read(alloc, head.target.bytes()) {
        Ok(target) => relay_target(alloc, link, dial, host, port, cache, head, &target),
        Err(TargetRefusal::BadTarget) => put_cause(alloc, link, &Cause::BadTarget, head_alone),
        Err(TargetRefusal::Memory) => put_memory(link, head_alone),
    }
}

/// Answers the first request of a link, out of the cache where the body that it asks for is kept, else by what
/// the server at this host and port replies, which is connected anew. Each reply ends its connection. A good
/// body of at most 1,048,576 bytes is kept.
///
/// What the other server sends that is no body of DAP 2.0, a fault of the connection to it, and a body of more
/// than 67,108,864 bytes are answered with status 502; its Error objects go out with status 400. A want of
/// memory is answered with status 503, and leaves the cache unchanged.
///
/// `ReadFault` comes only where the count of the link's takes rose, and `WriteFault` only where that of its
/// puts did; with any other answer the count is what it was.
pub fn relay_connection<L: Link, C: Dial>(
    alloc: Global,
    link: &mut L,
    dial: &mut C,
    host: &[u8],
    port: u16,
    cache: &mut Cache,
) -> Relayed
    requires host { IsTrue (is_host host.now) }
    requires port { 1 ≤ port }

    // What the connection comes to, by the bytes that were taken from it and by the cache: a hit exactly where
    // the request to the other server is in the cache; the reply; what was asked of the other server, on a miss
    // alone; and the cache behind it.
    ensures relays { (taken : List ℕ) × Consumes (L.left link.old) (L.left link.new) taken
        × Relays (link_state C.Wire.Source C.Wire.Sink) (dial.new ≡ dial.old) host.now port (room_of cache.old) taken (L.ended link.new) (record { written = L.written link.old; pairs = pairs cache.old }) (record { written = L.written link.new; pairs = pairs cache.new }) (record { back = C.back dial.old; faults = C.faults dial.old }) (record { back = C.back dial.new; faults = C.faults dial.new }) result }

    // A cache whose bodies are the good bodies of the last replies to their requests is so afterwards, where the
    // links of the dial, as they are connected, tell what is written on them.
    ensures backed { ((l : C.Wire) → IsNew (link_state C.Wire.Source C.Wire.Sink l) → IsSome (C.Wire.written l)) → AreBacked host.now port (history (link_state C.Wire.Source C.Wire.Sink) (C.back dial.old)) (pairs cache.old)
        → AreBacked host.now port (history (link_state C.Wire.Source C.Wire.Sink) (C.back dial.new)) (pairs cache.new) }

    ensures read_fault { result ≡ Relayed.ReadFault → Rose (L.take_faults link.old) (L.take_faults link.new) }
    ensures kept_reading { result ≢ Relayed.ReadFault → L.take_faults link.new ≡ L.take_faults link.old }
    ensures write_fault { result ≡ Relayed.WriteFault → Rose (L.put_faults link.old) (L.put_faults link.new) }
    ensures kept { result ≢ Relayed.WriteFault → L.put_faults link.new ≡ L.put_faults link.old }
    ensures later { (L.take_faults link.old ≤ L.take_faults link.new) × (L.put_faults link.old ≤ L.put_faults link.new) }
    ensures later_dial { C.faults dial.old ≤ C.faults dial.new }
    ensures room { room_of cache.new ≡ room_of cache.old }
    ensures whole { L.whole link.new ≡ L.whole link.old }
{
    let Ok(mut reader) = HeadReader::new(alloc) else {
        return put_memory(link, false);
    };
    match reader.read(link) {
        HeadRead::Head(head) => relay(alloc, link, dial, host, port, cache, &head),
        HeadRead::Gone => Relayed::Gone,
        HeadRead::BadRequest => put_cause(alloc, link, &Cause::BadRequest, false),
        HeadRead::HeadTooLong => put_cause(alloc, link, &Cause::HeadTooLong, false),
        HeadRead::ReadFault => Relayed::ReadFault,
        HeadRead::Memory { head } => put_memory(link, head),
    }
}
