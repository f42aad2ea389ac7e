//! Saving what a server sends (RFC 9112; DAP 2.0).

ghost use Rattle.std.specs.Prelude.{◌≡◌, ◌≤◌, ◌⊎◌, true};
ghost use Rattle.dap_outside.specs.Causes.{Rose};
ghost use Rattle.dap_client.specs.Fetched.{IsUrl, link_state, parts_of};
ghost use Rattle.netcdf_writer.specs.Fetching.{Becomes, IsAsked, IsUnasked, SavesUrl};
ghost use Rattle.netcdf_writer.specs.Outcomes.{OnReadFault, OnWriteFault};

use crate::Stored;
use crate::saving::save_body;
use dap_client::{BodyOutcome, host_of, read_body};
use dap_http::{Kind, Url, request_bytes};
use dap_outside::{Dial, Failed, Link, Sink, put_all};
use dap_types::limits;
use std::alloc::Global;

/// The most bytes of a body that is saved.
const MOST_BODY: u32 = limits::MOST_WRITTEN as u32;

/// Saves what a reply brought.
fn save_outcome<O: Sink>(alloc: Global, outcome: BodyOutcome, out: &mut O) -> Stored
    ensures becomes { Becomes outcome (O.written out.old) (O.written out.new) result }
    ensures read_fault { OnReadFault (outcome ≡ BodyOutcome.ReadFault) result }
    ensures write_fault { OnWriteFault (Rose (O.put_faults out.old) (O.put_faults out.new)) result }
    ensures later { O.put_faults out.old ≤ O.put_faults out.new }
    ensures kept { ¬ (result ≡ Stored.WriteFault) → O.put_faults out.new ≡ O.put_faults out.old }
    ensures beside { O.beside_writing out.new ≡ O.beside_writing out.old }
{
    match outcome {
        BodyOutcome::Good(body) => save_body(alloc, body.bytes(), out),
        BodyOutcome::ServerError(body) => save_body(alloc, body.bytes(), out),
        BodyOutcome::Bad(field) => Stored::BadReply(field),
        BodyOutcome::TooLarge => Stored::BodyTooLarge,
        BodyOutcome::ReadFault => Stored::ReadFault,
        BodyOutcome::Memory => Stored::Memory,
    }
}

/// Sends a request over a new link, and saves the data response that comes.
fn ask<L: Link, O: Sink>(alloc: Global, link: &mut L, request: &[u8], out: &mut O) -> Stored
    ensures asked { IsUnasked request.now (link_state L.Source L.Sink link.old)
        (link_state L.Source L.Sink link.new)
        (record { written = O.written out.old; faults = O.put_faults out.old }) (record { written = O.written out.new; faults = O.put_faults out.new }) result
        ⊎ IsAsked request.now (link_state L.Source L.Sink link.old)
        (link_state L.Source L.Sink link.new)
        (record { written = O.written out.old; faults = O.put_faults out.old }) (record { written = O.written out.new; faults = O.put_faults out.new }) result }
    ensures no_link { ¬ (result ≡ Stored.LinkFault) }
    ensures later { O.put_faults out.old ≤ O.put_faults out.new }
    ensures kept { ¬ (result ≡ Stored.WriteFault) → O.put_faults out.new ≡ O.put_faults out.old }
    ensures whole { L.whole link.new ≡ L.whole link.old }
    ensures beside { O.beside_writing out.new ≡ O.beside_writing out.old }
{
    match put_all(link, request) {
        Ok(()) => save_outcome(alloc, read_body(alloc, link, Kind::Dods, MOST_BODY), out),
        Err(Failed) => Stored::WriteFault,
    }
}

/// Asks for the data response (DAP 2.0, DODS) of a URL, cut by a constraint, over a new link of the dial
/// (RFC 9112, section 9), and saves it as `save` does. The link is handed back, however it ends. `LinkFault`
/// comes only where the count of the dial rose, and then no link was connected; `ReadFault` only where that of
/// the link's takes rose, and `WriteFault` where that of its puts did or that of `out`; with any other answer the
/// count is what it was. `Memory` comes where memory is wanted.
pub fn save_url<C: Dial, O: Sink>(
    alloc: Global,
    dial: &mut C,
    url: &Url,
    ce: &[u8],
    out: &mut O,
) -> Stored
    requires { IsUrl url.now }
    ensures saves { SavesUrl (link_state C.Wire.Source C.Wire.Sink) (parts_of url.now) ce.now
        (record { back = C.back dial.old; faults = C.faults dial.old }) (record { back = C.back dial.new; faults = C.faults dial.new })
        (record { written = O.written out.old; faults = O.put_faults out.old }) (record { written = O.written out.new; faults = O.put_faults out.new }) result }
    ensures link_fault { result ≡ Stored.LinkFault → Rose (C.faults dial.old) (C.faults dial.new) }
    ensures later_dial { C.faults dial.old ≤ C.faults dial.new }
    ensures later { O.put_faults out.old ≤ O.put_faults out.new }
    ensures kept_dial { ¬ (result ≡ Stored.LinkFault) → C.faults dial.new ≡ C.faults dial.old }
    ensures kept { ¬ (result ≡ Stored.WriteFault) → O.put_faults out.new ≡ O.put_faults out.old }
    ensures beside { O.beside_writing out.new ≡ O.beside_writing out.old }
{
    let Ok(request) = request_bytes(alloc, url, Kind::Dods, ce, true) else {
        return Stored::Memory;
    };
    match dial.connect(host_of(url), url.port) {
        Ok(link) => {
            let mut link = link;
            let stored = ask(alloc, &mut link, request.bytes(), out);
            dial.done(link);
            stored
        }
        Err(Failed) => Stored::LinkFault,
    }
}
