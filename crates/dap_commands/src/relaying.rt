//! The links that come in, each answered out of a cache or by another server.

ghost use Rattle.std.specs.Prelude.{◌≡◌, ◌≢◌, ◌≤◌, List, [], ◌∷◌, ◌++◌, Some, IsSome, IsTrue, IfOk, OnErr, OnOk, option_map};
ghost use Rattle.std.specs.Io.KnownBytes.{Appends};
ghost use Rattle.dap_types.specs.Limits.{most_room};
ghost use Rattle.dap_outside.specs.Causes.{HasCause, Rose};
ghost use Rattle.dap_outside.specs.Streams.{AppendsFront};
ghost use Rattle.dap_http.specs.Urls.{is_host};
ghost use Rattle.dap_gateway.specs.Backed.{AreBacked};
ghost use Rattle.dap_gateway.specs.Pairs.{pairs, room_of};
ghost use Rattle.dap_commands.specs.Relay.{IsRelayed, RelayedLink, Relays, RelaysFrom, TellsWritten, relayed_name, history_of, relay_line, source_name};
ghost use Rattle.dap_client.specs.Fetched.{link_state};

use crate::lines::put_each;
use crate::status::Status;
use dap_gateway::{Cache, Relayed, relay_connection};
use dap_outside::{Dial, Door, Failed, Sink};
use dap_types::Memory;
use std::alloc::Global;

/// How a line names the status of a reply, or why there is none.
fn relayed_name(relayed: Relayed, digits: &mut itoa::Buffer) -> &str
    ensures { result.now ≡ relayed_name relayed }
{
    match relayed {
        Relayed::Replied { status, .. } => digits.format(status),
        Relayed::Gone => "gone",
        Relayed::ReadFault => "read fault",
        Relayed::WriteFault => "write fault",
    }
}

/// How a line names where a reply came from.
fn source_name(relayed: Relayed) -> &'static str
    ensures { result.now ≡ source_name relayed }
{
    match relayed {
        Relayed::Replied { hit: true, .. } => " hit",
        Relayed::Replied { hit: false, .. } => " miss",
        Relayed::Gone | Relayed::ReadFault | Relayed::WriteFault => "",
    }
}

/// Puts the line of a link.
fn put_line<O: Sink>(out: &mut O, number: u32, relayed: Relayed) -> Result<(), Failed>
    ensures ok { OnOk result (Appends (O.written out.old) (O.written out.new) (relay_line number relayed)) }
    ensures err { OnErr result (AppendsFront (O.written out.old) (O.written out.new) (relay_line number relayed)) }
    ensures cause { HasCause (O.put_faults out.old) (O.put_faults out.new) result }
    ensures beside { O.beside_writing out.new ≡ O.beside_writing out.old }
{
    let mut digits = itoa::Buffer::new();
    let mut status_digits = itoa::Buffer::new();
    let number = digits.format(number).as_bytes();
    let ending = relayed_name(relayed, &mut status_digits).as_bytes();
    let source = source_name(relayed).as_bytes();
    put_each(out, &[b"connection ", number, b" ", ending, source, b"\n"])
}

/// Relays the next link that comes in, and hands it back. Fails only where the door failed.
fn relay_next<D: Door, C: Dial>(
    alloc: Global,
    host: &[u8],
    upport: u16,
    cache: &mut Cache,
    door: &mut D,
    dial: &mut C,
) -> Result<Relayed, Failed>
    requires host { IsTrue (is_host host.now) }
    requires port { 1 ≤ upport }
    requires listens { IsSome (D.listens_at door.old) }
    ensures relayed { IfOk result (λ relayed. (r : RelayedLink D.Wire C.Wire C) × (r.relayed ≡ relayed)
        × (r.dial ≡ dial.old) × (r.dial_then ≡ dial.new) × (r.pairs ≡ pairs cache.old) × (r.pairs_then ≡ pairs cache.new)
        × (D.back door.new ≡ option_map (λ links. links ++ r.back ∷ []) (D.back door.old))
        × IsRelayed (record { door_link = link_state D.Wire.Source D.Wire.Sink; dial_link = link_state C.Wire.Source C.Wire.Sink; dial = λ d. record { back = C.back d; faults = C.faults d }; host = host.now; port = upport; room = room_of cache.old }) r) }
    ensures backed { TellsWritten (record { door_link = link_state D.Wire.Source D.Wire.Sink; dial_link = link_state C.Wire.Source C.Wire.Sink; dial = λ d. record { back = C.back d; faults = C.faults d }; host = host.now; port = upport; room = room_of cache.old })
        → AreBacked host.now upport (history_of (record { door_link = link_state D.Wire.Source D.Wire.Sink; dial_link = link_state C.Wire.Source C.Wire.Sink; dial = λ d. record { back = C.back d; faults = C.faults d }; host = host.now; port = upport; room = room_of cache.old }) dial.old) (pairs cache.old) → AreBacked host.now upport (history_of (record { door_link = link_state D.Wire.Source D.Wire.Sink; dial_link = link_state C.Wire.Source C.Wire.Sink; dial = λ d. record { back = C.back d; faults = C.faults d }; host = host.now; port = upport; room = room_of cache.old }) dial.new) (pairs cache.new) }
    ensures err { OnErr result ((D.back door.new ≡ D.back door.old) × (dial.new ≡ dial.old) × (cache.new ≡ cache.old)) }
    ensures cause { HasCause (D.faults door.old) (D.faults door.new) result }
    ensures port { D.listens_at door.new ≡ D.listens_at door.old }
    ensures room { room_of cache.new ≡ room_of cache.old }
{
    let mut link = door.accept()?;
    let relayed = relay_connection(alloc, &mut link, dial, host, upport, cache);
    door.done(link);
    Ok(relayed)
}

/// Relays so many links, and puts a line for each.
fn relay_links<O: Sink, D: Door, C: Dial>(
    alloc: Global,
    host: &[u8],
    upport: u16,
    requests: u32,
    cache: &mut Cache,
    out: &mut O,
    door: &mut D,
    dial: &mut C,
) -> Status
    requires host { IsTrue (is_host host.now) }
    requires port { 1 ≤ upport }
    requires listens { IsSome (D.listens_at door.old) }
    ensures relayed { (relays : List (RelayedLink D.Wire C.Wire C)) × RelaysFrom (record { door_link = link_state D.Wire.Source D.Wire.Sink; dial_link = link_state C.Wire.Source C.Wire.Sink; dial = λ d. record { back = C.back d; faults = C.faults d }; host = host.now; port = upport; room = room_of cache.old }) 1 requests (pairs cache.old)
        (record { back = D.back door.old; dial = dial.old; written = O.written out.old })
        (record { back = D.back door.new; dial = dial.new; written = O.written out.new }) relays result }
    ensures memory { result ≢ Status.Memory }
    ensures link_fault { result ≡ Status.LinkFault → Rose (D.faults door.old) (D.faults door.new) }
    ensures door_kept { result ≢ Status.LinkFault → D.faults door.new ≡ D.faults door.old }
    ensures write_fault { result ≡ Status.WriteFault → Rose (O.put_faults out.old) (O.put_faults out.new) }
    ensures out_kept { result ≢ Status.WriteFault → O.put_faults out.new ≡ O.put_faults out.old }
    ensures port { D.listens_at door.new ≡ D.listens_at door.old }
    ensures beside { O.beside_writing out.new ≡ O.beside_writing out.old }
{
    for number in 0..requests {
        match relay_next(alloc, host, upport, cache, door, dial) {
            Ok(relayed) => match put_line(out, number + 1, relayed) {
                Ok(()) => {}
                Err(_) => return Status::WriteFault,
            },
            Err(_) => return Status::LinkFault,
        }
    }
    Status::Complete
}

/// Listens at a port, and relays so many links that come in there, one after the other, over one cache with room
/// for so many bodies, 1 to 1,024. What is not in the cache is asked of the server at the host and its port; a fault
/// of it is answered to the client, and ends nothing. For each link a line goes to `out` once it was handed back.
/// Memory is wanted before the door listens, if ever.
pub fn relay<O: Sink, D: Door, C: Dial>(
    alloc: Global,
    host: &[u8],
    upport: u16,
    port: u16,
    room: u32,
    requests: u32,
    out: &mut O,
    door: &mut D,
    dial: &mut C,
) -> Status
    requires host { IsTrue (is_host host.now) }
    requires port { 1 ≤ upport }
    requires some { 1 ≤ room }
    requires few { room ≤ most_room }
    requires asked { 1 ≤ requests }
    ensures relayed { (relays : List (RelayedLink D.Wire C.Wire C)) × Relays (record { door_link = link_state D.Wire.Source D.Wire.Sink; dial_link = link_state C.Wire.Source C.Wire.Sink; dial = λ d. record { back = C.back d; faults = C.faults d }; host = host.now; port = upport; room = room }) requests
        (record { back = D.back door.old; dial = dial.old; written = O.written out.old })
        (record { back = D.back door.new; dial = dial.new; written = O.written out.new }) relays result
        × (relays ≢ [] → D.listens_at door.new ≡ Some port) }
    ensures memory { result ≡ Status.Memory → (door.new ≡ door.old) × (dial.new ≡ dial.old) × (out.new ≡ out.old) }
    ensures link_fault { result ≡ Status.LinkFault → Rose (D.faults door.old) (D.faults door.new) }
    ensures door_kept { result ≢ Status.LinkFault → D.faults door.new ≡ D.faults door.old }
    ensures write_fault { result ≡ Status.WriteFault → Rose (O.put_faults out.old) (O.put_faults out.new) }
    ensures out_kept { result ≢ Status.WriteFault → O.put_faults out.new ≡ O.put_faults out.old }
    ensures beside { O.beside_writing out.new ≡ O.beside_writing out.old }
{
    let Ok(mut cache) = Cache::new(alloc, room) else {
        return Status::Memory;
    };
    match door.listen(port) {
        Ok(()) => relay_links(alloc, host, upport, requests, &mut cache, out, door, dial),
        Err(_) => Status::LinkFault,
    }
}
