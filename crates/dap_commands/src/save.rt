//! Data responses that come in or are fetched, saved as netCDF classic files.

ghost use Rattle.std.specs.Prelude.{◌≡◌, ◌≢◌, ◌↔◌, IsTrue, Some, None};
ghost use Rattle.std.specs.Fmt.{decimal, signed_decimal};
ghost use Rattle.dap_outside.specs.Causes.{Rose};
ghost use Rattle.dap_http.specs.Urls.{UrlParts, url_of};
ghost use Rattle.dap_client.specs.Fetched.{IsUrl, link_state, parts_of};
ghost use Rattle.netcdf_writer.specs.Fetching.{SavesUrl};
ghost use Rattle.netcdf_writer.specs.Saving.{Saves};
ghost use Rattle.dap_commands.specs.Lines.{IsSaid, server_error_line};
ghost use Rattle.dap_commands.specs.Save.{SaveSays, SavedLine, member_line, status_of_stored};

use crate::lines::{say_bad_reply, say_member, say_server_error, say_unsaved};
use crate::status::Status;
use dap_http::{Url, UrlRefusal};
use dap_outside::{Dial, Sink, Source};
use dap_types::Bytes;
use netcdf_writer::{Stored, Why, save, save_url};
use std::alloc::Global;

/// Says which member cannot be stored, and why.
fn say_unsavable<E: Sink>(err: &mut E, member: u32, why: Why)
    ensures said { IsSaid (member_line (decimal member) why) (E.put_faults err.old) (E.put_faults err.new) (E.written err.old) (E.written err.new) }
    ensures beside { E.beside_writing err.new ≡ E.beside_writing err.old }
{
    let mut digits = itoa::Buffer::new();
    say_member(err, digits.format(member).as_bytes(), why)
}

/// Says what an Error object says.
fn say_object<E: Sink>(err: &mut E, code: i32, message: &Bytes)
    ensures said { IsSaid (server_error_line (signed_decimal code) message.now) (E.put_faults err.old) (E.put_faults err.new) (E.written err.old) (E.written err.new) }
    ensures beside { E.beside_writing err.new ≡ E.beside_writing err.old }
{
    let mut digits = itoa::Buffer::new();
    say_server_error(err, digits.format(code).as_bytes(), message.bytes())
}

/// The status for how a saving ended. What is wrong, and an Error object, goes to `err`.
fn said<E: Sink>(stored: Stored, err: &mut E) -> Status
    ensures status { result ≡ status_of_stored stored }
    ensures line { SavedLine stored (λ line. IsSaid line (E.put_faults err.old) (E.put_faults err.new) (E.written err.old) (E.written err.new)) }
    ensures words { result ≢ Status.Words }
    ensures quiet { result ≢ Status.Unsaved → result ≢ Status.BadReply → result ≢ Status.ServerError → err.new ≡ err.old }
    ensures beside { E.beside_writing err.new ≡ E.beside_writing err.old }
{
    match stored {
        Stored::Written { bytes: _ } => Status::Complete,
        Stored::Unsavable { member, why } => {
            say_unsavable(err, member, why);
            Status::Unsaved
        }
        Stored::BodyTooLarge => {
            say_unsaved(err, b"body too large");
            Status::Unsaved
        }
        Stored::HeaderTooLong => {
            say_unsaved(err, b"header too long");
            Status::Unsaved
        }
        Stored::ServerError { code, message } => {
            say_object(err, code, &message);
            Status::ServerError
        }
        Stored::BadReply(bad) => {
            say_bad_reply(err, bad);
            Status::BadReply
        }
        Stored::ReadFault => Status::ReadFault,
        Stored::WriteFault => Status::WriteFault,
        Stored::LinkFault => Status::LinkFault,
        Stored::Memory => Status::Memory,
    }
}

/// Saves the data response that comes in as a netCDF classic file. Why it is not saved, what is wrong with it,
/// and an Error object in its place, goes to `err`.
pub fn save_input<I: Source, O: Sink, E: Sink>(
    alloc: Global,
    input: &mut I,
    out: &mut O,
    err: &mut E,
) -> Status
    ensures says { SaveSays (Saves (I.left input.old) (I.left input.new) (IsTrue (I.ended input.new)) (O.written out.old) (O.written out.new))
        (λ line. IsSaid line (E.put_faults err.old) (E.put_faults err.new) (E.written err.old) (E.written err.new)) result }
    ensures read_fault { result ≡ Status.ReadFault → Rose (I.take_faults input.old) (I.take_faults input.new) }
    ensures input_kept { result ≢ Status.ReadFault → I.take_faults input.new ≡ I.take_faults input.old }
    ensures write_fault { result ≡ Status.WriteFault → Rose (O.put_faults out.old) (O.put_faults out.new) }
    ensures out_kept { result ≢ Status.WriteFault → O.put_faults out.new ≡ O.put_faults out.old }
    ensures words { result ≢ Status.Words }
    ensures no_link { result ≢ Status.LinkFault }
    ensures whole { I.whole input.new ≡ I.whole input.old }
    ensures beside_reading { I.beside_reading input.new ≡ I.beside_reading input.old }
    ensures beside_writing { O.beside_writing out.new ≡ O.beside_writing out.old }
    ensures quiet { result ≢ Status.Unsaved → result ≢ Status.BadReply → result ≢ Status.ServerError → err.new ≡ err.old }
    ensures beside_err { E.beside_writing err.new ≡ E.beside_writing err.old }
{
    said(save(alloc, input, out), err)
}

/// Saves what a URL gives for a constraint.
fn save_from<O: Sink, E: Sink, C: Dial>(
    alloc: Global,
    url: &Url,
    ce: &str,
    out: &mut O,
    err: &mut E,
    dial: &mut C,
) -> Status
    requires { IsUrl url.now }
    ensures says { SaveSays (SavesUrl (link_state C.Wire.Source C.Wire.Sink) (parts_of url.now) ce.now
        (record { back = C.back dial.old; faults = C.faults dial.old }) (record { back = C.back dial.new; faults = C.faults dial.new })
        (record { written = O.written out.old; faults = O.put_faults out.old }) (record { written = O.written out.new; faults = O.put_faults out.new }))
        (λ line. IsSaid line (E.put_faults err.old) (E.put_faults err.new) (E.written err.old) (E.written err.new)) result }
    ensures link_fault { result ≡ Status.LinkFault → Rose (C.faults dial.old) (C.faults dial.new) }
    ensures dial_kept { result ≢ Status.LinkFault → C.faults dial.new ≡ C.faults dial.old }
    ensures out_kept { result ≢ Status.WriteFault → O.put_faults out.new ≡ O.put_faults out.old }
    ensures words { result ≢ Status.Words }
    ensures quiet { result ≢ Status.Unsaved → result ≢ Status.BadReply → result ≢ Status.ServerError → err.new ≡ err.old }
    ensures beside_out { O.beside_writing out.new ≡ O.beside_writing out.old }
    ensures beside_err { E.beside_writing err.new ≡ E.beside_writing err.old }
{
    said(save_url(alloc, dial, url, ce.as_bytes(), out), err)
}

/// Saves what a URL gives for a constraint as a netCDF classic file, where the word is a URL. Why it is not saved,
/// what is wrong with the reply, and an Error object, goes to `err`.
pub fn save_fetched<O: Sink, E: Sink, C: Dial>(
    alloc: Global,
    url: &str,
    ce: &str,
    out: &mut O,
    err: &mut E,
    dial: &mut C,
) -> Status
    ensures says { (u : UrlParts) → url_of url.now ≡ Some u →
        SaveSays (SavesUrl (link_state C.Wire.Source C.Wire.Sink) u ce.now
        (record { back = C.back dial.old; faults = C.faults dial.old }) (record { back = C.back dial.new; faults = C.faults dial.new })
        (record { written = O.written out.old; faults = O.put_faults out.old }) (record { written = O.written out.new; faults = O.put_faults out.new }))
        (λ line. IsSaid line (E.put_faults err.old) (E.put_faults err.new) (E.written err.old) (E.written err.new)) result }
    ensures words { (result ≡ Status.Words) ↔ (url_of url.now ≡ None) }
    ensures untouched { url_of url.now ≡ None → (dial.new ≡ dial.old) × (out.new ≡ out.old) }
    ensures link_fault { result ≡ Status.LinkFault → Rose (C.faults dial.old) (C.faults dial.new) }
    ensures dial_kept { result ≢ Status.LinkFault → C.faults dial.new ≡ C.faults dial.old }
    ensures out_kept { result ≢ Status.WriteFault → O.put_faults out.new ≡ O.put_faults out.old }
    ensures quiet { result ≢ Status.Unsaved → result ≢ Status.BadReply → result ≢ Status.ServerError → err.new ≡ err.old }
    ensures beside_out { O.beside_writing out.new ≡ O.beside_writing out.old }
    ensures beside_err { E.beside_writing err.new ≡ E.beside_writing err.old }
{
    match Url::read(alloc, url) {
        Ok(url) => save_from(alloc, &url, ce, out, err, dial),
        Err(UrlRefusal::BadUrl) => Status::Words,
        Err(UrlRefusal::Memory) => Status::Memory,
    }
}
