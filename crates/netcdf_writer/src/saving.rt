//! Saving what a source or a server sends.

ghost use Rattle.std.specs.Prelude.{◌≡◌, ◌+◌, ◌<◌, ◌≤◌, ◌^◌, ◌++◌, ℕ, [], List, Some, IfOk, IfErr, IsTrue, OnErr, OnOk, length, not, take, true, false};
ghost use Rattle.std.specs.Io.KnownBytes.{Consumes, IsAtEnd};
ghost use Rattle.dap_types.specs.Limits.{most_piece, most_written};
ghost use Rattle.dap_outside.specs.Causes.{HasCause, Rose};
ghost use Rattle.dap_client.specs.Shows.{Takes};
ghost use Rattle.dap_client.specs.Verdict.{is_fault};
ghost use Rattle.dap_model.specs.Body.{IsBody};
ghost use Rattle.dap_types.specs.Model.{Dataset, Tree};
ghost use Rattle.netcdf_writer.specs.Outcomes.{OnLinkFault, OnReadFault, OnWriteFault, WhereNothingPut};
ghost use Rattle.netcdf_writer.specs.Saving.{Judges, Saves, IsReadWhole};
ghost use Rattle.netcdf_writer.specs.inner.Judged.{IsJudged};
ghost use Rattle.netcdf_writer.specs.inner.Reading.{IsKept, IsOfLarge, OnFailed, TakesBody, TakesPiece, bad_or_large, large_of};
ghost use Rattle.netcdf_writer.specs.declared.saving.Halt.TheVariants.{Failed as FailedRead, Memory as MemoryWanted};

use crate::judging::{Judged, judge_body};
use crate::room::has_room;
use crate::{Stored, write_cdf};
use dap_errors::ErrorObject;
use dap_outside::{Failed, Sink, Source};
use dap_types::{Memory, limits};
use std::alloc::Global;
use xdr_decode::{AllRefusal, Bad, BadField, decode_all};

/// The most bytes of a body that is saved.
const MOST_BODY: usize = limits::MOST_WRITTEN;

/// How many bytes are taken at once.
const PIECE: usize = limits::MOST_PIECE;

/// Why no body was read.
#[derive(Debug, Drop)]
enum Halt {
    Failed,
    Memory,
}

impl From<Failed> for Halt {
    ghost from_gives = { λ _ e. e ≡ FailedRead };

    fn from(_: Failed) -> Self {
        Halt::Failed
    }
}

impl From<Memory> for Halt {
    ghost from_gives = { λ _ e. e ≡ MemoryWanted };

    fn from(_: Memory) -> Self {
        Halt::Memory
    }
}

/// Room for a piece.
fn piece_room(alloc: Global) -> Result<Vec<u8>, Memory>
    ensures { IfOk result (λ room. length room.items ≡ most_piece) }
{
    let mut room = Vec::new(alloc);
    room.resize(PIECE, 0u8)?;
    Ok(room)
}

/// Takes a piece of a body of which some bytes were taken. False says that the source is at its end.
fn take_piece<I: Source>(body: &mut Vec<u8>, room: &mut [u8], source: &mut I) -> Result<bool, Halt>
    requires room { length room.old ≡ most_piece }
    requires few { length body.old.items ≤ most_written }
    ensures takes { TakesPiece (I.left source.old) (I.left source.new) (IsTrue (I.ended source.new)) body.old.items body.new.items result }
    ensures more { IfOk result (λ more. more ≡ true → length body.old.items < length body.new.items) }
    ensures within { OnOk result (length body.new.items ≤ 16777217) }
    ensures failed { OnFailed (Rose (I.take_faults source.old) (I.take_faults source.new)) result }
    ensures later { I.take_faults source.old ≤ I.take_faults source.new }
    ensures kept { IsKept (I.take_faults source.old) (I.take_faults source.new) result }
    ensures whole { I.whole source.new ≡ I.whole source.old }
    ensures beside { I.beside_reading source.new ≡ I.beside_reading source.old }
{
    let most = PIECE.min(MOST_BODY + 1 - body.len());
    let count = source.take(&mut room[..most])?;
    if count == 0 {
        return Ok(false);
    }
    match body.extend_from_slice(&room[..count]) {
        Ok(()) => Ok(true),
        Err(_) => Err(Halt::Memory),
    }
}

/// The bytes of a source, or one more than a body may have that is saved.
fn read_body<I: Source>(alloc: Global, source: &mut I) -> Result<Vec<u8>, Halt>
    ensures takes { TakesBody (I.left source.old) (I.left source.new) (IsTrue (I.ended source.new)) result }
    ensures failed { OnFailed (Rose (I.take_faults source.old) (I.take_faults source.new)) result }
    ensures later { I.take_faults source.old ≤ I.take_faults source.new }
    ensures kept { IsKept (I.take_faults source.old) (I.take_faults source.new) result }
    ensures whole { I.whole source.new ≡ I.whole source.old }
    ensures beside { I.beside_reading source.new ≡ I.beside_reading source.old }
{
    let mut body = Vec::new(alloc);
    let mut room = piece_room(alloc)?;
    while body.len() <= MOST_BODY {
        if !take_piece(&mut body, &mut room, source)? {
            return Ok(body);
        }
    }
    Ok(body)
}

/// The outcome of a longer body whose first bytes have this bad field.
fn bad_or_large(field: BadField) -> Stored
    ensures { result ≡ bad_or_large field }
{
    if field.kind == Bad::Cut {
        return Stored::BodyTooLarge;
    }
    Stored::BadReply(field)
}

/// The outcome of a longer body, by what its first bytes alone are.
fn large_of(front: Judged) -> Stored
    ensures { result ≡ large_of front }
{
    match front {
        Judged::Bad(field) => bad_or_large(field),
        Judged::Good(_checked) => Stored::BodyTooLarge,
        Judged::ServerError(_object) => Stored::BodyTooLarge,
        Judged::Memory => Stored::Memory,
    }
}

/// What the first bytes of a body are, so many of them, whatever follows.
fn judged_front(alloc: Global, body: &[u8], most: usize) -> Judged
    requires within { most ≤ length body.now }
    requires few { most ≤ most_written }
    ensures { IsJudged (take most body.now) result }
{
    judge_body(alloc, &body[..most])
}

/// The outcome of a body of more bytes than are saved, whose first bytes alone decide.
fn save_large(alloc: Global, body: &[u8]) -> Stored
    requires { most_written < length body.now }
    ensures { IsOfLarge body.now result }
{
    large_of(judged_front(alloc, body, MOST_BODY))
}

/// Saves a data response.
fn save_good<O: Sink>(alloc: Global, body: &[u8], out: &mut O) -> Stored
    requires few { length body.now ≤ most_written }
    requires good { (d : Dataset) × (ts : List Tree) × IsBody body.now d ts }
    ensures judges { Judges body.now (O.written out.old) (O.written out.new) result }
    ensures write_fault { OnWriteFault (Rose (O.put_faults out.old) (O.put_faults out.new)) result }
    ensures later { O.put_faults out.old ≤ O.put_faults out.new }
    ensures kept { ¬ (result ≡ Stored.WriteFault) → O.put_faults out.new ≡ O.put_faults out.old }
    ensures beside { O.beside_writing out.new ≡ O.beside_writing out.old }
{
    match decode_all(alloc, body) {
        Ok(filled) => write_cdf(alloc, &filled, out),
        Err(AllRefusal::Memory) => Stored::Memory,
        Err(AllRefusal::Refused(_)) => unreachable!(),
    }
}

/// Saves a body.
pub(crate) fn save_body<O: Sink>(alloc: Global, body: &[u8], out: &mut O) -> Stored
    ensures judges { Judges body.now (O.written out.old) (O.written out.new) result }
    ensures write_fault { OnWriteFault (Rose (O.put_faults out.old) (O.put_faults out.new)) result }
    ensures later { O.put_faults out.old ≤ O.put_faults out.new }
    ensures kept { ¬ (result ≡ Stored.WriteFault) → O.put_faults out.new ≡ O.put_faults out.old }
    ensures beside { O.beside_writing out.new ≡ O.beside_writing out.old }
{
    if body.len() > MOST_BODY {
        return save_large(alloc, body);
    }
    match judge_body(alloc, body) {
        Judged::Good(checked) => {
            if has_room(checked.dataset.members.items()) {
                return save_good(alloc, body, out);
            }
            Stored::Memory
        }
        Judged::ServerError(ErrorObject { code, message }) => Stored::ServerError { code, message },
        Judged::Bad(field) => Stored::BadReply(field),
        Judged::Memory => Stored::Memory,
    }
}

/// Saves the data response (DAP 2.0, DODS) to the end of a source as a netCDF classic file. Of a body of
/// more than 16,777,216 bytes the first 16,777,216 alone are looked at: `BadReply` says what is wrong with
/// them, and `BodyTooLarge` comes exactly where they are good, an Error object or cut. Else `ServerError` and
/// `BadReply` say what the body is, and a good one is saved as `write_cdf` does. `ReadFault` comes only where
/// the count of the source rose, `WriteFault` where that of the sink did, and `Memory` where memory is
/// wanted. At most 16,777,217 bytes are taken.
pub fn save<I: Source, O: Sink>(alloc: Global, source: &mut I, out: &mut O) -> Stored
    ensures saves { Saves (I.left source.old) (I.left source.new) (IsTrue (I.ended source.new)) (O.written out.old) (O.written out.new) result }
    ensures read_fault { OnReadFault (Rose (I.take_faults source.old) (I.take_faults source.new)) result }
    ensures write_fault { OnWriteFault (Rose (O.put_faults out.old) (O.put_faults out.new)) result }
    ensures no_link { OnLinkFault ⊥ result }
    ensures later_reading { I.take_faults source.old ≤ I.take_faults source.new }
    ensures later { O.put_faults out.old ≤ O.put_faults out.new }
    ensures kept_reading { ¬ (result ≡ Stored.ReadFault) → I.take_faults source.new ≡ I.take_faults source.old }
    ensures kept_writing { ¬ (result ≡ Stored.WriteFault) → O.put_faults out.new ≡ O.put_faults out.old }
    ensures whole { I.whole source.new ≡ I.whole source.old }
    ensures beside_reading { I.beside_reading source.new ≡ I.beside_reading source.old }
    ensures beside_writing { O.beside_writing out.new ≡ O.beside_writing out.old }
{
    match read_body(alloc, source) {
        Ok(body) => save_body(alloc, body.as_slice(), out),
        Err(Halt::Failed) => Stored::ReadFault,
        Err(Halt::Memory) => Stored::Memory,
    }
}
