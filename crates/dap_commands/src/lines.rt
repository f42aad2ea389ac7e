ghost use Rattle.std.specs.Prelude.{◌≡◌, IfSome, None, OnErr, OnOk};
ghost use Rattle.std.specs.Io.KnownBytes.{Appends};
ghost use Rattle.std.specs.List.{flat_map};
ghost use Rattle.dap_outside.specs.Causes.{HasCause};
ghost use Rattle.dap_outside.specs.Streams.{AppendsFront};
ghost use Rattle.dap_commands.specs.Lines.{IsSaid, bad_reply_line, cause_line, line_of, server_error_line};
ghost use Rattle.dap_commands.specs.Save.{member_line, reason_line, unsaved_line, why_text};

use crate::status::Status;
use dap_outside::{Failed, Sink, put_all};
use netcdf_writer::Why;
use xdr_decode::{BadField, put_shown_text};

/// Puts the pieces, one after the other. Fails only where the count of faults rose, and then a front
/// of them is put.
pub fn put_each<O: Sink>(out: &mut O, pieces: &[&[u8]]) -> Result<(), Failed>
    ensures ok { OnOk result (Appends (O.written out.old) (O.written out.new) (flat_map (λ piece. piece.now) pieces.now)) }
    ensures err { OnErr result (AppendsFront (O.written out.old) (O.written out.new) (flat_map (λ piece. piece.now) pieces.now)) }
    ensures cause { HasCause (O.put_faults out.old) (O.put_faults out.new) result }
    ensures beside { O.beside_writing out.new ≡ O.beside_writing out.old }
{
    for piece in pieces {
        put_all(out, piece)?;
    }
    Ok(())
}

/// Says a line, which is these pieces one after the other. A put that fails ends it.
pub fn say<E: Sink>(err: &mut E, pieces: &[&[u8]])
    ensures said { IsSaid (flat_map (λ piece. piece.now) pieces.now) (E.put_faults err.old) (E.put_faults err.new) (E.written err.old) (E.written err.new) }
    ensures beside { E.beside_writing err.new ≡ E.beside_writing err.old }
{
    let _ = put_each(err, pieces);
}

/// Says the line of a status, if it has one.
pub fn say_line<E: Sink>(err: &mut E, status: Status)
    ensures said { IfSome (line_of status) (λ line. IsSaid line (E.put_faults err.old) (E.put_faults err.new) (E.written err.old) (E.written err.new)) }
    ensures silent { line_of status ≡ None → err.new ≡ err.old }
    ensures beside { E.beside_writing err.new ≡ E.beside_writing err.old }
{
    if let Some(line) = status.line() {
        say(err, &[line.as_bytes()]);
    }
}

/// Says what is wrong with a data response.
pub fn say_bad_reply<E: Sink>(err: &mut E, bad: BadField)
    ensures said { IsSaid (bad_reply_line bad) (E.put_faults err.old) (E.put_faults err.new) (E.written err.old) (E.written err.new) }
    ensures beside { E.beside_writing err.new ≡ E.beside_writing err.old }
{
    let mut digits = itoa::Buffer::new();
    let place = digits.format(bad.place).as_bytes();
    let name = bad.kind.name().as_bytes();
    say(err, &[b"dap2: bad reply: ", name, b" at ", place, b"\n"])
}

/// Says the message of a cause in a line that begins so.
pub fn say_cause<E: Sink>(err: &mut E, start: &[u8], message: &[u8])
    ensures said { IsSaid (cause_line start.now message.now) (E.put_faults err.old) (E.put_faults err.new) (E.written err.old) (E.written err.new) }
    ensures beside { E.beside_writing err.new ≡ E.beside_writing err.old }
{
    say(err, &[start, message, b"\n"])
}

/// Puts the line of an Error object, of whose code these are the digits.
fn put_server_error<E: Sink>(err: &mut E, code: &[u8], message: &[u8]) -> Result<(), Failed>
    ensures ok { OnOk result (Appends (E.written err.old) (E.written err.new) (server_error_line code.now message.now)) }
    ensures front { OnErr result (AppendsFront (E.written err.old) (E.written err.new) (server_error_line code.now message.now)) }
    ensures cause { HasCause (E.put_faults err.old) (E.put_faults err.new) result }
    ensures beside { E.beside_writing err.new ≡ E.beside_writing err.old }
{
    put_each(err, &[b"dap2: server error ", code, b": "])?;
    put_shown_text(err, message)?;
    put_all(err, b"\n")
}

/// Says the message of an Error object, and its code, of which these are the digits.
pub fn say_server_error<E: Sink>(err: &mut E, code: &[u8], message: &[u8])
    ensures said { IsSaid (server_error_line code.now message.now) (E.put_faults err.old) (E.put_faults err.new) (E.written err.old) (E.written err.new) }
    ensures beside { E.beside_writing err.new ≡ E.beside_writing err.old }
{
    let _ = put_server_error(err, code, message);
}

/// Says why a data response is not saved.
pub fn say_unsaved<E: Sink>(err: &mut E, reason: &[u8])
    ensures said { IsSaid (unsaved_line reason.now) (E.put_faults err.old) (E.put_faults err.new) (E.written err.old) (E.written err.new) }
    ensures beside { E.beside_writing err.new ≡ E.beside_writing err.old }
{
    say_cause(err, b"dap2: cannot save: ", reason)
}

/// Why a member cannot be stored.
fn why_text(why: Why) -> &'static str
    ensures { result.now ≡ why_text why }
{
    match why {
        Why::Kind => "kind",
        Why::NoName => "no name",
        Why::BadName => "bad name",
        Why::BadGrid => "bad grid",
        Why::Clash => "clash",
        Why::Zero => "zero",
    }
}

/// Says which member cannot be stored, of whose number these are the digits, and the reason.
fn say_reason<E: Sink>(err: &mut E, member: &[u8], reason: &[u8])
    ensures said { IsSaid (reason_line member.now reason.now) (E.put_faults err.old) (E.put_faults err.new) (E.written err.old) (E.written err.new) }
    ensures beside { E.beside_writing err.new ≡ E.beside_writing err.old }
{
    say(
        err,
        &[b"dap2: cannot save: member ", member, b": ", reason, b"\n"],
    )
}

/// Says which member cannot be stored, of whose number these are the digits, and why.
pub fn say_member<E: Sink>(err: &mut E, member: &[u8], why: Why)
    ensures said { IsSaid (member_line member.now why) (E.put_faults err.old) (E.put_faults err.new) (E.written err.old) (E.written err.new) }
    ensures beside { E.beside_writing err.new ≡ E.beside_writing err.old }
{
    say_reason(err, member, why_text(why).as_bytes())
}
