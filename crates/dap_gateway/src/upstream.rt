//! What the other server is asked, over a new link.

ghost use Rattle.std.specs.Prelude.{◌≡◌, ◌≢◌, ◌≤◌, ◌⊎◌, ◌∷◌, IfOk, IsTrue};
ghost use Rattle.dap_http.specs.Targets.{asked_of};
ghost use Rattle.dap_http.specs.Urls.{is_host};
ghost use Rattle.dap_http.specs.declared.kind.Kind.TheVariants.{Ver};
ghost use Rattle.dap_client.specs.Fetched.{link_state};
ghost use Rattle.dap_client.specs.Replies.{form_of};
ghost use Rattle.dap_gateway.specs.Upstream.{Dials, IsAsked, IsUnasked, key_of};

use dap_client::{BodyOutcome, host_text, read_body};
use dap_http::{Kind, Target, Url, request_bytes};
use dap_outside::{Dial, Failed, Link, put_all};
use dap_types::{Bytes, Memory, limits};
use std::alloc::Global;

/// How many bytes of a body are read.
const MOST_BODY: u32 = limits::MOST_BODY;

/// `/` and a name.
fn path_of(alloc: Global, name: &str) -> Result<Bytes, Memory>
    ensures { IfOk result (λ b. b ≡ 47 ∷ name.now) }
{
    let mut path = Vec::new(alloc);
    path.extend_from_slice(b"/")?;
    path.extend_from_slice(name.as_bytes())?;
    Ok(Bytes::from_vec(path))
}

/// The bytes of the request for what a target asks for. Fails where memory is wanted.
pub fn key_for(alloc: Global, host: &[u8], port: u16, target: &Target) -> Result<Bytes, Memory>
    ensures { IfOk result (λ b. b ≡ key_of host.now port (asked_of target.now)) }
{
    let url = Url {
        host: Bytes::new(alloc, host)?,
        port,
        path: path_of(alloc, target.name.as_str())?,
    };
    request_bytes(alloc, &url, target.kind, target.query.bytes(), true)
}

/// Sends a request over a new link and reads the reply. `ReadFault` is also where it could not be sent.
fn ask_over<L: Link>(alloc: Global, link: &mut L, key: &[u8], kind: Kind) -> BodyOutcome
    requires { kind ≢ Ver }
    ensures asked { IsUnasked key.now (link_state L.Source L.Sink link.old)
        (link_state L.Source L.Sink link.new) result
        ⊎ IsAsked (form_of kind) key.now (link_state L.Source L.Sink link.old)
        (link_state L.Source L.Sink link.new) result }
    ensures whole { L.whole link.new ≡ L.whole link.old }
{
    match put_all(link, key) {
        Ok(()) => read_body(alloc, link, kind, MOST_BODY),
        Err(Failed) => BodyOutcome::ReadFault,
    }
}

/// Connects to the other server, sends it a request of this kind and reads the reply into memory. The link is
/// handed back, whatever came of it. `ReadFault` is also where no link could be had, or the request not sent.
pub fn ask<C: Dial>(
    alloc: Global,
    dial: &mut C,
    host: &[u8],
    port: u16,
    key: &[u8],
    kind: Kind,
) -> BodyOutcome
    requires kind { kind ≢ Ver }
    requires host { IsTrue (is_host host.now) }
    ensures dials { Dials (link_state C.Wire.Source C.Wire.Sink)
        host.now port (form_of kind) key.now (record { back = C.back dial.old; faults = C.faults dial.old }) (record { back = C.back dial.new; faults = C.faults dial.new }) result }
    ensures later { C.faults dial.old ≤ C.faults dial.new }
{
    match dial.connect(host_text(host), port) {
        Ok(link) => {
            let mut link = link;
            let outcome = ask_over(alloc, &mut link, key, kind);
            dial.done(link);
            outcome
        }
        Err(Failed) => BodyOutcome::ReadFault,
    }
}
