//! The links that come in, one after the other.

ghost use Rattle.std.specs.Prelude.{◌≡◌, ◌≢◌, ◌+◌, ◌<◌, ◌≤◌, List, [], ◌∷◌, ◌++◌, Some, IsSome, IfOk, OnErr, OnOk, option_map};
ghost use Rattle.std.specs.Io.KnownBytes.{Appends};
ghost use Rattle.dap_outside.specs.Causes.{HasCause, Rose};
ghost use Rattle.dap_outside.specs.Streams.{AppendsFront};
ghost use Rattle.dap_server.specs.Connections.{FailedBy, failures, leaves_open};
ghost use Rattle.dap_commands.specs.Serve.{IsVisit, IsWholeVisit, Serves, Visit, ending_name, link_line};
ghost use Rattle.dap_client.specs.Fetched.{link_state};

use crate::lines::put_each;
use crate::status::Status;
use dap_outside::{Door, Failed, Shelf, Sink};
use dap_server::{Ending, Served, serve_connection};
use std::alloc::Global;
use std::thread::Threads;

/// How a line names an ending.
fn ending_name(ending: Ending) -> &'static str
    ensures { result.now ≡ ending_name ending }
{
    match ending {
        Ending::Closed => "closed",
        Ending::Gone => "gone",
        Ending::ReadFault => "read fault",
        Ending::WriteFault => "write fault",
        Ending::Broken => "broken",
    }
}

/// Puts the line of a link.
fn put_line<O: Sink>(out: &mut O, number: u32, served: Served) -> Result<(), Failed>
    ensures ok { OnOk result (Appends (O.written out.old) (O.written out.new) (link_line number served)) }
    ensures err { OnErr result (AppendsFront (O.written out.old) (O.written out.new) (link_line number served)) }
    ensures cause { HasCause (O.put_faults out.old) (O.put_faults out.new) result }
    ensures beside { O.beside_writing out.new ≡ O.beside_writing out.old }
{
    let mut digits = itoa::Buffer::new();
    let mut count_digits = itoa::Buffer::new();
    let number = digits.format(number).as_bytes();
    let replies = count_digits.format(served.replies).as_bytes();
    let ending = ending_name(served.ending).as_bytes();
    put_each(
        out,
        &[b"connection ", number, b" ", replies, b" ", ending, b"\n"],
    )
}

/// Serves the next link that comes in, and hands it back. Fails only where the door failed.
fn serve_next<R: Threads + Sync, S: Shelf, D: Door>(
    rt: &R,
    alloc: Global,
    workers: u32,
    shelf: &mut S,
    door: &mut D,
) -> Result<Served, Failed>
    requires some { 1 ≤ workers }
    requires many { workers ≤ 64 }
    requires listens { IsSome (D.listens_at door.old) }
    ensures served { IfOk result (λ served. (v : Visit D.Wire) × (v.served ≡ served)
        × (D.back door.new ≡ option_map (λ links. links ++ v.back ∷ []) (D.back door.old))
        × IsVisit (S.files shelf.old) (link_state D.Wire.Source D.Wire.Sink) v
        × FailedBy (failures v.connection v.served.ending) (leaves_open v.connection.turns v.served.ending v.connection.behind) (S.faults shelf.old) (S.faults shelf.new)
        × (S.asked shelf.new ≤ S.asked shelf.old + v.most)
        × (¬ (Rose (S.faults shelf.old) (S.faults shelf.new)) → IsWholeVisit (S.files shelf.old) (link_state D.Wire.Source D.Wire.Sink) v)) }
    ensures err { OnErr result ((D.back door.new ≡ D.back door.old) × (shelf.new ≡ shelf.old)) }
    ensures cause { HasCause (D.faults door.old) (D.faults door.new) result }
    ensures later { S.faults shelf.old ≤ S.faults shelf.new }
    ensures port { D.listens_at door.new ≡ D.listens_at door.old }
    ensures files { S.files shelf.new ≡ S.files shelf.old }
{
    let mut link = door.accept()?;
    let served = serve_connection(rt, alloc, shelf, &mut link, workers);
    door.done(link);
    Ok(served)
}

/// Serves so many links, and puts a line for each.
fn serve_links<R: Threads + Sync, S: Shelf, O: Sink, D: Door>(
    rt: &R,
    alloc: Global,
    workers: u32,
    requests: u32,
    shelf: &mut S,
    out: &mut O,
    door: &mut D,
) -> Status
    requires some { 1 ≤ workers }
    requires many { workers ≤ 64 }
    requires listens { IsSome (D.listens_at door.old) }
    ensures served { (visits : List (Visit D.Wire)) × Serves (S.files shelf.old) (link_state D.Wire.Source D.Wire.Sink) requests
        (record { back = D.back door.old; faults = S.faults shelf.old; asked = S.asked shelf.old; written = O.written out.old })
        (record { back = D.back door.new; faults = S.faults shelf.new; asked = S.asked shelf.new; written = O.written out.new }) visits result }
    ensures link_fault { result ≡ Status.LinkFault → Rose (D.faults door.old) (D.faults door.new) }
    ensures door_kept { result ≢ Status.LinkFault → D.faults door.new ≡ D.faults door.old }
    ensures write_fault { result ≡ Status.WriteFault → Rose (O.put_faults out.old) (O.put_faults out.new) }
    ensures out_kept { result ≢ Status.WriteFault → O.put_faults out.new ≡ O.put_faults out.old }
    ensures port { D.listens_at door.new ≡ D.listens_at door.old }
    ensures files { S.files shelf.new ≡ S.files shelf.old }
    ensures beside { O.beside_writing out.new ≡ O.beside_writing out.old }
{
    for number in 0..requests {
        match serve_next(rt, alloc, workers, shelf, door) {
            Ok(served) => match put_line(out, number + 1, served) {
                Ok(()) => {}
                Err(_) => return Status::WriteFault,
            },
            Err(_) => return Status::LinkFault,
        }
    }
    Status::Complete
}

/// Listens at a port, and serves so many links that come in there, one after the other. For each a line
/// goes to `out` once it was handed back. A fault of a link ends that link alone.
pub fn serve<R: Threads + Sync, S: Shelf, O: Sink, D: Door>(
    rt: &R,
    alloc: Global,
    port: u16,
    workers: u32,
    requests: u32,
    shelf: &mut S,
    out: &mut O,
    door: &mut D,
) -> Status
    requires some { 1 ≤ workers }
    requires many { workers ≤ 64 }
    requires asked { 1 ≤ requests }
    ensures served { (visits : List (Visit D.Wire))
        × Serves (S.files shelf.old) (link_state D.Wire.Source D.Wire.Sink) requests
        (record { back = D.back door.old; faults = S.faults shelf.old; asked = S.asked shelf.old; written = O.written out.old })
        (record { back = D.back door.new; faults = S.faults shelf.new; asked = S.asked shelf.new; written = O.written out.new }) visits result
        × (visits ≢ [] → D.listens_at door.new ≡ Some port) }
    ensures link_fault { result ≡ Status.LinkFault → Rose (D.faults door.old) (D.faults door.new) }
    ensures door_kept { result ≢ Status.LinkFault → D.faults door.new ≡ D.faults door.old }
    ensures write_fault { result ≡ Status.WriteFault → Rose (O.put_faults out.old) (O.put_faults out.new) }
    ensures out_kept { result ≢ Status.WriteFault → O.put_faults out.new ≡ O.put_faults out.old }
    ensures files { S.files shelf.new ≡ S.files shelf.old }
    ensures beside { O.beside_writing out.new ≡ O.beside_writing out.old }
{
    match door.listen(port) {
        Ok(()) => serve_links(rt, alloc, workers, requests, shelf, out, door),
        Err(_) => Status::LinkFault,
    }
}
