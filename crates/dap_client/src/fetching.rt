//! Replies that are asked for over a connection (RFC 9112, sections 3 and 9).

ghost use Rattle.std.specs.Prelude.{◌≡◌, ◌≢◌, ◌≤◌, ◌⊎◌, ◌∷◌, [], None, IfOk, length};
ghost use Rattle.dap_outside.specs.Causes.{Rose};
ghost use Rattle.dap_http.specs.declared.kind.Kind.TheVariants.{Ver};
ghost use Rattle.dap_client.specs.Fetched.{Fetches, IsAsked, IsReadFrom, IsUnasked, IsUrl, count_of, is_complete, link_state, parts_of, requests_text};
ghost use Rattle.dap_client.specs.Following.{pending};
ghost use Rattle.dap_client.specs.Replies.{form_of};

use crate::host::host_of;
use crate::{Outcome, Replies};
use dap_http::{Kind, Url, request_bytes};
use dap_outside::{Dial, Failed, Link, Sink, Source, put_all};
use dap_types::{Bytes, Memory};
use std::alloc::Global;

/// How many replies were whole and good, and how the last that was read ended.
#[derive(Debug, Drop)]
pub struct Fetched {
    pub whole: u32,
    pub last: Outcome,
}

impl Fetched {
    /// No reply was read.
    fn none(last: Outcome) -> Fetched
        ensures { (result.whole ≡ 0) × (result.last ≡ last) }
    {
        Fetched { whole: 0, last }
    }
}

/// Whether it is `Complete`.
fn is_complete(outcome: &Outcome) -> bool
    ensures { result ≡ is_complete outcome.now }
{
    matches!(outcome, Outcome::Complete { .. })
}

/// The requests for some constraints, one behind the other.
fn requests_for(alloc: Global, url: &Url, kind: Kind, ces: &[Bytes]) -> Result<Bytes, Memory>
    ensures { IfOk result (λ b. b ≡ requests_text (parts_of url.now) kind ces.now) }
{
    let mut out = Vec::new(alloc);
    let mut left = ces;
    while let [ce, rest @ ..] = left {
        let request = request_bytes(alloc, url, kind, ce.bytes(), rest.is_empty())?;
        out.extend_from_slice(request.bytes())?;
        left = rest;
    }
    Ok(Bytes::from_vec(out))
}

/// Reads so many replies of a kind, up to the first that is not whole and good.
fn read_replies<I: Source, O: Sink>(
    replies: &mut Replies,
    source: &mut I,
    kind: Kind,
    count: u32,
    out: &mut O,
) -> Fetched
    requires kind { kind ≢ Ver }
    requires open { replies.old.stopped ≡ None }
    requires none { pending replies.old ≡ [] }
    requires some { 1 ≤ count }
    ensures read { IsReadFrom (form_of kind) count (I.left source.old) (I.left source.new) (I.ended source.new) (O.written out.old) (O.written out.new) result }
    ensures no_link { result.last ≢ Outcome.LinkFault }
    ensures read_fault { result.last ≡ Outcome.ReadFault → Rose (I.take_faults source.old) (I.take_faults source.new) }
    ensures write_fault { result.last ≡ Outcome.WriteFault → Rose (O.put_faults out.old) (O.put_faults out.new) }
    ensures later { O.put_faults out.old ≤ O.put_faults out.new }
    ensures kept_reading { ¬ (result.last ≡ Outcome.ReadFault) → I.take_faults source.new ≡ I.take_faults source.old }
    ensures kept_writing { ¬ (result.last ≡ Outcome.WriteFault) → O.put_faults out.new ≡ O.put_faults out.old }
    ensures whole { I.whole source.new ≡ I.whole source.old }
    ensures beside_reading { I.beside_reading source.new ≡ I.beside_reading source.old }
    ensures beside_writing { O.beside_writing out.new ≡ O.beside_writing out.old }
{
    let earlier = count - 1;
    for whole in 0..earlier {
        let outcome = replies.next(source, kind, out);
        if !is_complete(&outcome) {
            return Fetched {
                whole,
                last: outcome,
            };
        }
    }
    let last = replies.next(source, kind, out);
    let whole = if is_complete(&last) { count } else { earlier };
    Fetched { whole, last }
}

/// Sends requests for so many replies over a new link, and reads the replies.
fn ask<L: Link, O: Sink>(
    link: &mut L,
    requests: &[u8],
    replies: &mut Replies,
    kind: Kind,
    count: u32,
    out: &mut O,
) -> Fetched
    requires kind { kind ≢ Ver }
    requires open { replies.old.stopped ≡ None }
    requires none { pending replies.old ≡ [] }
    requires some { 1 ≤ count }
    ensures asked { IsUnasked requests.now (link_state L.Source L.Sink link.old)
        (link_state L.Source L.Sink link.new)
        (record { written = O.written out.old; faults = O.put_faults out.old }) (record { written = O.written out.new; faults = O.put_faults out.new }) result
        ⊎ IsAsked (form_of kind) count requests.now
        (link_state L.Source L.Sink link.old)
        (link_state L.Source L.Sink link.new)
        (record { written = O.written out.old; faults = O.put_faults out.old }) (record { written = O.written out.new; faults = O.put_faults out.new }) result }
    ensures no_link { result.last ≢ Outcome.LinkFault }
    ensures later { O.put_faults out.old ≤ O.put_faults out.new }
    ensures kept { ¬ (result.last ≡ Outcome.WriteFault) → O.put_faults out.new ≡ O.put_faults out.old }
    ensures whole { L.whole link.new ≡ L.whole link.old }
    ensures beside { O.beside_writing out.new ≡ O.beside_writing out.old }
{
    match put_all(link, requests) {
        Ok(()) => read_replies(replies, link, kind, count, out),
        Err(Failed) => Fetched::none(Outcome::WriteFault),
    }
}

/// Asks for data, a DDS or a DAS of a URL, cut by each constraint in turn, over one link of the dial
/// (RFC 9112, section 9), and reads the replies as `read_reply` does, up to the first that is not whole
/// and good. The link is handed back, however they end. `LinkFault` comes only where the count of the
/// dial rose, and then no link was connected; `ReadFault` only where that of the link's takes rose, and
/// `WriteFault` where that of its puts did or that of `out`; with any other answer the count is what it was.
/// `Memory` comes where memory is wanted.
pub fn fetch_all<C: Dial, O: Sink>(
    alloc: Global,
    dial: &mut C,
    url: &Url,
    kind: Kind,
    ces: &[Bytes],
    out: &mut O,
) -> Fetched
    requires kind { kind ≢ Ver }
    requires url { IsUrl url.now }
    requires some { 1 ≤ length ces.now }
    requires many { length ces.now ≤ 16 }
    ensures fetches { Fetches (link_state C.Wire.Source C.Wire.Sink) (parts_of url.now) kind ces.now
        (record { back = C.back dial.old; faults = C.faults dial.old }) (record { back = C.back dial.new; faults = C.faults dial.new })
        (record { written = O.written out.old; faults = O.put_faults out.old }) (record { written = O.written out.new; faults = O.put_faults out.new }) result }
    ensures link_fault { result.last ≡ Outcome.LinkFault → Rose (C.faults dial.old) (C.faults dial.new) }
    ensures later_dial { C.faults dial.old ≤ C.faults dial.new }
    ensures later { O.put_faults out.old ≤ O.put_faults out.new }
    ensures kept_dial { ¬ (result.last ≡ Outcome.LinkFault) → C.faults dial.new ≡ C.faults dial.old }
    ensures kept { ¬ (result.last ≡ Outcome.WriteFault) → O.put_faults out.new ≡ O.put_faults out.old }
    ensures beside { O.beside_writing out.new ≡ O.beside_writing out.old }
{
    let Ok(requests) = requests_for(alloc, url, kind, ces) else {
        return Fetched::none(Outcome::Memory);
    };
    let Ok(replies) = Replies::new(alloc) else {
        return Fetched::none(Outcome::Memory);
    };
    let mut replies = replies;
    match dial.connect(host_of(url), url.port) {
        Ok(link) => {
            let mut link = link;
            let fetched = ask(
                &mut link,
                requests.bytes(),
                &mut replies,
                kind,
                ces.len() as u32,
                out,
            );
            dial.done(link);
            fetched
        }
        Err(Failed) => Fetched::none(Outcome::LinkFault),
    }
}

/// As `fetch_all`, for one constraint.
pub fn fetch<C: Dial, O: Sink>(
    alloc: Global,
    dial: &mut C,
    url: &Url,
    kind: Kind,
    ce: &[u8],
    out: &mut O,
) -> Outcome
    requires kind { kind ≢ Ver }
    requires url { IsUrl url.now }
    ensures fetches { Fetches (link_state C.Wire.Source C.Wire.Sink) (parts_of url.now) kind (ce.now ∷ [])
        (record { back = C.back dial.old; faults = C.faults dial.old }) (record { back = C.back dial.new; faults = C.faults dial.new })
        (record { written = O.written out.old; faults = O.put_faults out.old }) (record { written = O.written out.new; faults = O.put_faults out.new })
        (record { whole = count_of result; last = result }) }
    ensures link_fault { result ≡ Outcome.LinkFault → Rose (C.faults dial.old) (C.faults dial.new) }
    ensures later_dial { C.faults dial.old ≤ C.faults dial.new }
    ensures later { O.put_faults out.old ≤ O.put_faults out.new }
    ensures kept_dial { ¬ (result ≡ Outcome.LinkFault) → C.faults dial.new ≡ C.faults dial.old }
    ensures kept { ¬ (result ≡ Outcome.WriteFault) → O.put_faults out.new ≡ O.put_faults out.old }
    ensures beside { O.beside_writing out.new ≡ O.beside_writing out.old }
{
    let Ok(ce) = Bytes::new(alloc, ce) else {
        return Outcome::Memory;
    };
    let Fetched { whole: _, last } = fetch_all(alloc, dial, url, kind, &[ce], out);
    last
}
