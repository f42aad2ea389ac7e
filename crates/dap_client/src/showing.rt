ghost use Rattle.std.specs.Prelude.{◌≡◌, ◌⊎◌, ℕ, ◌+◌, ◌^◌, ◌<◌, ◌≤◌, List, [], ◌++◌, Some, IfOk, OnErr, IsTrue, take, length, true, false};
ghost use Rattle.std.specs.Io.KnownBytes.{Appends, Consumes, IsAtEnd};
ghost use Rattle.dap_model.specs.Partly.{ShowsLines};
ghost use Rattle.dap_model.specs.Shown.{shown};
ghost use Rattle.dap_outside.specs.Causes.{HasCause, Rose};
ghost use Rattle.dap_types.specs.Limits.{body_limit, most_piece};
ghost use Rattle.dap_types.specs.Model.{Dataset, Tree};
ghost use Rattle.dap_errors.specs.declared.object.ErrorObject.{ErrorObject};
ghost use Rattle.dap_client.specs.Outcomes.{Answers, OnBadReply, OnComplete, OnLinkFault, OnMemory, OnReadFault, OnServerError, OnWriteFault, WhereNothingPut, WhereWhole};
ghost use Rattle.dap_client.specs.Shows.{BreaksOff, Gains, HasFewValues, IsWrongTaken, StopsWithin, Takes};
ghost use Rattle.dap_client.specs.inner.Readers.{HasFailed, HasPutNothing, Stands, ReaderStandsAfter, is_open, taken_of};
ghost use Rattle.dap_client.specs.inner.Showing.{EndsReading, Reads, ReadsOn};
ghost use Rattle.dap_client.specs.Verdict.{Verdict, IsVerdict, bad, dods_form, good, server_error};

use crate::Outcome;
use crate::reader::BodyReader;
use crate::stage::BUDGET;
use dap_outside::{Failed, Sink, Source};
use dap_types::{Memory, limits};
use std::alloc::Global;

/// How many bytes are taken at once.
const PIECE: usize = limits::MOST_PIECE;

/// Room for a piece.
fn piece_room(alloc: Global) -> Result<Vec<u8>, Memory>
    ensures { IfOk result (λ room. length room.items ≡ most_piece) }
{
    let mut room = Vec::new(alloc);
    room.resize(PIECE, 0u8)?;
    Ok(room)
}

/// So many bytes are taken at once, where this many were.
fn piece_length(taken: u64) -> usize
    requires { taken < 2 ^ 40 }
    ensures some { 0 < result }
    ensures few { result ≤ most_piece }
    ensures within { taken + result ≤ 2 ^ 40 }
{
    let left = BUDGET - taken;
    if left < PIECE as u64 {
        return left as usize;
    }
    PIECE
}

/// Takes one piece and reads it. False says that the source is at its end.
fn read_piece<I: Source, O: Sink>(
    reader: &mut BodyReader,
    room: &mut [u8],
    source: &mut I,
    out: &mut O,
) -> Result<bool, Failed>
    requires room { length room.old ≡ most_piece }
    requires stands { Stands reader.old }
    requires still_open { is_open reader.old ≡ true }
    ensures reads { (bytes put : List ℕ) → ReaderStandsAfter reader.old bytes put →
        ReadsOn (I.left source.old) (I.left source.new) (O.written out.old) (O.written out.new) reader.new bytes put }
    ensures further { IfOk result (λ more. more ≡ true → taken_of reader.old < taken_of reader.new) }
    ensures end { IfOk result (λ more. more ≡ false → IsTrue (I.ended source.new) × IsAtEnd (I.left source.new)) }
    ensures quiet { HasPutNothing reader.new → HasPutNothing reader.old × (O.written out.new ≡ O.written out.old) }
    ensures failed { HasFailed reader.new → Rose (O.put_faults out.old) (O.put_faults out.new) }
    ensures counts { O.put_faults out.old ≤ O.put_faults out.new }
    ensures kept { ¬ (HasFailed reader.new) → O.put_faults out.new ≡ O.put_faults out.old }
    ensures none_put { OnErr result (O.put_faults out.new ≡ O.put_faults out.old) }
    ensures cause { HasCause (I.take_faults source.old) (I.take_faults source.new) result }
    ensures whole { I.whole source.new ≡ I.whole source.old }
    ensures beside_reading { I.beside_reading source.new ≡ I.beside_reading source.old }
    ensures beside_writing { O.beside_writing out.new ≡ O.beside_writing out.old }
{
    let most = piece_length(reader.taken());
    let count = source.take(&mut room[..most])?;
    if count == 0 {
        return Ok(false);
    }
    reader.push(&room[..count], out);
    Ok(true)
}

/// Reads until no more is looked at, or the source is at its end.
fn read_body<I: Source, O: Sink>(
    reader: &mut BodyReader,
    room: &mut [u8],
    source: &mut I,
    out: &mut O,
) -> Result<(), Failed>
    requires room { length room.old ≡ most_piece }
    requires begins { ReaderStandsAfter reader.old [] [] }
    ensures reads { Reads (I.left source.old) (I.left source.new) (O.written out.old) (O.written out.new) reader.new }
    ensures end { IfOk result (λ _. EndsReading reader.new (IsTrue (I.ended source.new) × IsAtEnd (I.left source.new))) }
    ensures quiet { HasPutNothing reader.new → O.written out.new ≡ O.written out.old }
    ensures failed { HasFailed reader.new → HasFailed reader.old ⊎ Rose (O.put_faults out.old) (O.put_faults out.new) }
    ensures counts { O.put_faults out.old ≤ O.put_faults out.new }
    ensures kept { ¬ (HasFailed reader.new) → O.put_faults out.new ≡ O.put_faults out.old }
    ensures none_put { OnErr result (O.put_faults out.new ≡ O.put_faults out.old) }
    ensures cause { HasCause (I.take_faults source.old) (I.take_faults source.new) result }
    ensures whole { I.whole source.new ≡ I.whole source.old }
    ensures beside_reading { I.beside_reading source.new ≡ I.beside_reading source.old }
    ensures beside_writing { O.beside_writing out.new ≡ O.beside_writing out.old }
{
    while reader.is_open() {
        if !read_piece(reader, room, source, out)? {
            break;
        }
    }
    Ok(())
}

/// Reads a data response (DAP 2.0, DODS) to the end of the source, and shows it: its DDS once its
/// `Data:` line was read, a line for each element as it comes, and the line `complete N`. A body
/// whose first word is `Error` is an Error object, of which nothing is put: `ServerError` has its code
/// and message. `BadReply` says what is wrong first; what could be shown by then is out. `ReadFault` and
/// `WriteFault` come only where the count of the source, of the sink, rose. `Memory` comes where memory
/// is wanted, and in place of any other answer, but not once a byte was put.
pub fn show<I: Source, O: Sink>(alloc: Global, source: &mut I, out: &mut O) -> Outcome
    // What the source had left is judged. On `Complete` the sink gained all that is shown of it.
    ensures complete { OnComplete (λ bytes. Takes (I.left source.old) (I.left source.new) (λ body. (length body ≡ bytes)
        × ((d : Dataset) × (ts : List Tree) × IsVerdict dods_form body (good d ts) × Appends (O.written out.old) (O.written out.new) (shown d ts bytes)))) result }
    ensures server_error { OnServerError (λ code message. Takes (I.left source.old) (I.left source.new)
        (λ body. IsVerdict dods_form body (server_error (record { code = code; message = message })))) result }
    ensures ended { WhereWhole (IsTrue (I.ended source.new) × IsAtEnd (I.left source.new)) result }

    // What is wrong is so of all bytes of a source that is at its end, or stays so, whatever follows
    // those that were taken. The sink gained what may be shown of the bytes before it.
    ensures bad_reply { OnBadReply (λ field. Takes (I.left source.old) (I.left source.new) (λ taken. IsWrongTaken (IsTrue (I.ended source.new)) (IsAtEnd (I.left source.new)) field taken
        × Gains (O.written out.old) (O.written out.new) (ShowsLines (take field.place taken)))) result }

    // Whatever the verdict on the bytes is, it is told, but for a fault or want of memory.
    ensures only { (body : List ℕ) (v : Verdict) → I.left source.old ≡ Some body → IsVerdict dods_form body v → Answers (length body) v result }

    // However it ends, no more bytes are taken than the first that no body has.
    ensures most { Takes (I.left source.old) (I.left source.new) (λ taken. length taken ≤ body_limit) }

    // A fault of one of the two is told as its own. What was put by then is a front of what may be.
    ensures read_fault { OnReadFault (Rose (I.take_faults source.old) (I.take_faults source.new)) result }
    ensures read_so_far { OnReadFault (Takes (I.left source.old) (I.left source.new) (λ taken. Gains (O.written out.old) (O.written out.new) (StopsWithin taken))) result }
    ensures write_fault { OnWriteFault (Rose (O.put_faults out.old) (O.put_faults out.new)) result }
    ensures put_so_far { OnWriteFault (Takes (I.left source.old) (I.left source.new) (λ taken. Gains (O.written out.old) (O.written out.new) (BreaksOff taken))) result }

    // With any other answer the counts are what they were.
    ensures kept_reading { ¬ (result ≡ Outcome.ReadFault) → I.take_faults source.new ≡ I.take_faults source.old }
    ensures kept_writing { ¬ (result ≡ Outcome.WriteFault) → O.put_faults out.new ≡ O.put_faults out.old }

    ensures no_link { OnLinkFault ⊥ result }
    ensures nothing_put { WhereNothingPut (O.written out.new ≡ O.written out.old) result }
    ensures memory { OnMemory (Takes (I.left source.old) (I.left source.new) (HasFewValues most_piece)) result }
    ensures whole { I.whole source.new ≡ I.whole source.old }
    ensures beside_reading { I.beside_reading source.new ≡ I.beside_reading source.old }
    ensures beside_writing { O.beside_writing out.new ≡ O.beside_writing out.old }
{
    let Ok(mut room) = piece_room(alloc) else {
        return Outcome::Memory;
    };
    let mut reader = BodyReader::new(alloc);
    match read_body(&mut reader, &mut room, source, out) {
        Ok(()) => reader.finish(out),
        Err(Failed) => Outcome::ReadFault,
    }
}
