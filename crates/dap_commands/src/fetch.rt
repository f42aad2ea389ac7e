//! Replies of another server, shown.

ghost use Rattle.std.specs.Prelude.{◌≡◌, ◌≢◌, ◌↔◌, ◌≤◌, List, Some, None, IfOk, length};
ghost use Rattle.dap_outside.specs.Causes.{Rose};
ghost use Rattle.dap_http.specs.Urls.{UrlParts, url_of};
ghost use Rattle.dap_http.specs.declared.kind.Kind.TheVariants.{Ver};
ghost use Rattle.dap_client.specs.Fetched.{IsUrl, link_state, parts_of};
ghost use Rattle.dap_commands.specs.Fetch.{FetchSays, FetchedLine, status_of_outcome};
ghost use Rattle.dap_commands.specs.Lines.{IsSaid};

use crate::lines::{say_bad_reply, say_server_error};
use crate::status::Status;
use dap_client::{Outcome, fetch_all};
use dap_http::{Kind, Url, UrlRefusal};
use dap_outside::{Dial, Sink};
use dap_types::{Bytes, List, Memory, Name};
use std::alloc::Global;

/// Words as bytes.
fn bytes_of(alloc: Global, words: &[Name]) -> Result<List<Bytes>, Memory>
    ensures { IfOk result (λ list. list ≡ words.now) }
{
    let mut list = List::new(alloc);
    for word in words {
        list.push(Bytes::new(alloc, word.as_str().as_bytes())?)?;
    }
    Ok(list)
}

/// The code of an Error object.
fn code_of(code: &i32) -> i32
    ensures { result ≡ code.now }
{
    *code
}

/// The status for an outcome. What an Error object says, and what is wrong with a reply, goes to `err`.
fn told<E: Sink>(err: &mut E, last: &Outcome) -> Status
    ensures status { result ≡ status_of_outcome last.now }
    ensures line { FetchedLine last.now (λ line. IsSaid line (E.put_faults err.old) (E.put_faults err.new) (E.written err.old) (E.written err.new)) }
    ensures quiet { result ≢ Status.BadReply → result ≢ Status.ServerError → err.new ≡ err.old }
    ensures beside { E.beside_writing err.new ≡ E.beside_writing err.old }
{
    match last {
        Outcome::Complete { .. } => Status::Complete,
        Outcome::ServerError { code, message } => {
            let mut digits = itoa::Buffer::new();
            say_server_error(
                err,
                digits.format(code_of(code)).as_bytes(),
                message.bytes(),
            );
            Status::ServerError
        }
        Outcome::BadReply(field) => {
            say_bad_reply(err, *field);
            Status::BadReply
        }
        Outcome::ReadFault => Status::ReadFault,
        Outcome::WriteFault => Status::WriteFault,
        Outcome::LinkFault => Status::LinkFault,
        Outcome::Memory => Status::Memory,
    }
}

/// Fetches what a URL gives for each of some constraints.
fn fetch_url<O: Sink, E: Sink, C: Dial>(
    alloc: Global,
    url: &Url,
    kind: Kind,
    ces: &[Name],
    out: &mut O,
    err: &mut E,
    dial: &mut C,
) -> Status
    requires kind { kind ≢ Ver }
    requires url { IsUrl url.now }
    requires some { 1 ≤ length ces.now }
    requires many { length ces.now ≤ 16 }
    ensures says { FetchSays (link_state C.Wire.Source C.Wire.Sink) (parts_of url.now) kind ces.now
        (record { back = C.back dial.old; faults = C.faults dial.old }) (record { back = C.back dial.new; faults = C.faults dial.new })
        (record { written = O.written out.old; faults = O.put_faults out.old }) (record { written = O.written out.new; faults = O.put_faults out.new })
        (λ line. IsSaid line (E.put_faults err.old) (E.put_faults err.new) (E.written err.old) (E.written err.new)) result }
    ensures link_fault { result ≡ Status.LinkFault → Rose (C.faults dial.old) (C.faults dial.new) }
    ensures dial_kept { result ≢ Status.LinkFault → C.faults dial.new ≡ C.faults dial.old }
    ensures out_kept { result ≢ Status.WriteFault → O.put_faults out.new ≡ O.put_faults out.old }
    ensures words { result ≢ Status.Words }
    ensures quiet { result ≢ Status.BadReply → result ≢ Status.ServerError → err.new ≡ err.old }
    ensures beside_out { O.beside_writing out.new ≡ O.beside_writing out.old }
    ensures beside_err { E.beside_writing err.new ≡ E.beside_writing err.old }
{
    let Ok(ces) = bytes_of(alloc, ces) else {
        return Status::Memory;
    };
    let fetched = fetch_all(alloc, dial, url, kind, ces.items(), out);
    told(err, &fetched.last)
}

/// Fetches what a URL gives for each of some constraints, where the word is one. Of an Error object its
/// code and its message go to `err`, and of a bad reply what is wrong with it.
pub fn fetch<O: Sink, E: Sink, C: Dial>(
    alloc: Global,
    url: &str,
    kind: Kind,
    ces: &[Name],
    out: &mut O,
    err: &mut E,
    dial: &mut C,
) -> Status
    requires kind { kind ≢ Ver }
    requires some { 1 ≤ length ces.now }
    requires many { length ces.now ≤ 16 }
    ensures says { (u : UrlParts) → url_of url.now ≡ Some u →
        FetchSays (link_state C.Wire.Source C.Wire.Sink) u kind ces.now
        (record { back = C.back dial.old; faults = C.faults dial.old }) (record { back = C.back dial.new; faults = C.faults dial.new })
        (record { written = O.written out.old; faults = O.put_faults out.old }) (record { written = O.written out.new; faults = O.put_faults out.new })
        (λ line. IsSaid line (E.put_faults err.old) (E.put_faults err.new) (E.written err.old) (E.written err.new)) result }
    ensures words { (result ≡ Status.Words) ↔ (url_of url.now ≡ None) }
    ensures untouched { url_of url.now ≡ None → (dial.new ≡ dial.old) × (out.new ≡ out.old) }
    ensures link_fault { result ≡ Status.LinkFault → Rose (C.faults dial.old) (C.faults dial.new) }
    ensures dial_kept { result ≢ Status.LinkFault → C.faults dial.new ≡ C.faults dial.old }
    ensures out_kept { result ≢ Status.WriteFault → O.put_faults out.new ≡ O.put_faults out.old }
    ensures quiet { result ≢ Status.BadReply → result ≢ Status.ServerError → err.new ≡ err.old }
    ensures beside_out { O.beside_writing out.new ≡ O.beside_writing out.old }
    ensures beside_err { E.beside_writing err.new ≡ E.beside_writing err.old }
{
    match Url::read(alloc, url) {
        Ok(url) => fetch_url(alloc, &url, kind, ces, out, err, dial),
        Err(UrlRefusal::BadUrl) => Status::Words,
        Err(UrlRefusal::Memory) => Status::Memory,
    }
}
