//! The reader of a data response in pieces of any length (DAP 2.0, DODS).

ghost use Rattle.std.specs.Prelude.{◌≡◌, ℕ, ◌+◌, ◌^◌, ◌<◌, ◌≤◌, ◌⊎◌, List, [], ◌++◌, length, codes, true, false, None, OnOk, OnErr};
ghost use Rattle.std.specs.Fmt.{decimal};
ghost use Rattle.std.specs.Io.KnownBytes.{Appends};
ghost use Rattle.dap_types.specs.Limits.{most_piece};
ghost use Rattle.dap_outside.specs.Causes.{HasCause, Rose};
ghost use Rattle.dap_outside.specs.Streams.{AppendsFront};
ghost use Rattle.dap_client.specs.Outcomes.{OnWriteFault, WhereNothingPut};
ghost use Rattle.dap_client.specs.Shows.{Gains};
ghost use Rattle.error_word.specs.inner.FirstWords.{IsError, IsNoError, IsOpenWord};
ghost use Rattle.dap_client.specs.inner.Objects.{IsObjectOf};
ghost use Rattle.dap_client.specs.inner.Readers.{HasFailed, HasPutNothing, IsEnded, IsFinished, Stands, ReaderStandsAfter, StaysBad, StaysBadReply, WhereNothing, WhereWriteFault, completed, is_open, taken_of};
ghost use Rattle.dap_client.specs.inner.Stages.{HadAll, IsInValues, IsQuiet, IsStage, WhereFailed, WhereQuiet, is_open_stage};
ghost use Rattle.xdr_decode.specs.Verdict.{budget};

use crate::Outcome;
use crate::object::Object;
use crate::stage::{BUDGET, Stage};
use dap_errors::{ErrorObject, ErrorRefusal, read_error};
use dap_outside::{Failed, Sink, put_all};
use dap_types::Memory;
use dds_text::{DdsReader, DdsStep};
use error_word::FirstWord;
use std::alloc::Global;
use std::mem;
use xdr_decode::{Bad, BadField, Decoder};

/// A reader of a data response, or of an Error object in its place, in pieces of any length. It puts
/// the DDS once its `Data:` line was read, and a line for each element as it comes. It takes no memory
/// once a byte was put.
#[derive(Drop)]
pub struct BodyReader {
    alloc: Global,
    pub(crate) stage: Stage,
    /// How many bytes it was given.
    taken: u64,
}

/// What the bytes are that a reader was given, where they end there.
#[derive(Drop)]
pub enum Ended {
    /// A whole data response.
    Whole,
    /// An Error object.
    ServerError(ErrorObject),
    /// Something is wrong first.
    Bad(BadField),
    /// The sink failed.
    WriteFault,
    /// Memory was wanted, and nothing was put.
    Memory,
}

fn bad(kind: Bad, place: u64) -> Ended
    ensures { result ≡ Ended.Bad (record { kind = kind; place = place }) }
{
    Ended::Bad(BadField { kind, place })
}

/// The outcome for an Error object.
pub fn server_error(object: ErrorObject) -> Outcome
    ensures { result ≡ Outcome.ServerError object.code object.message }
{
    Outcome::ServerError {
        code: object.code,
        message: object.message,
    }
}

/// Of a body that ends before its first word is known.
fn end_first(reader: DdsReader, taken: u64) -> Ended
    ensures ended { (word : FirstWord) (bytes : List ℕ) → length bytes ≡ taken → length bytes < budget → IsOpenWord word bytes → HadAll reader bytes → IsEnded bytes [] result }
    ensures failed { WhereWriteFault ⊥ result }
{
    let mut reader = reader;
    match reader.push(&[]) {
        Ok(DdsStep::Bad { place }) => bad(Bad::BadDds, place),
        Ok(DdsStep::More) => bad(Bad::Cut, taken),
        Ok(DdsStep::Done { used: _ }) => bad(Bad::Cut, taken),
        Err(Memory) => Ended::Memory,
    }
}

/// Of an Error object that ends behind these bytes.
fn end_object(alloc: Global, object: Object, taken: u64) -> Ended
    ensures ended { (bytes : List ℕ) → length bytes ≡ taken → length bytes < budget → IsError bytes → IsObjectOf bytes object → IsEnded bytes [] result }
    ensures failed { WhereWriteFault ⊥ result }
{
    match object {
        Object::Front(front) => match read_error(alloc, front.as_slice()) {
            Ok(object) => Ended::ServerError(object),
            Err(ErrorRefusal::Bad { place }) => bad(Bad::BadError, place),
            Err(ErrorRefusal::Cut) => bad(Bad::Cut, taken),
            Err(ErrorRefusal::Memory) => Ended::Memory,
        },
        Object::Behind(object, _) => Ended::ServerError(object),
        Object::Bad(place) => bad(Bad::BadError, place),
    }
}

/// Of values that end here.
fn end_values(decoder: Decoder) -> Ended
    ensures ended { (bytes put : List ℕ) → length bytes < budget → IsNoError bytes → IsInValues decoder bytes put → IsEnded bytes put result }
    ensures quiet { WhereNothing ⊥ result }
    ensures failed { WhereWriteFault ⊥ result }
{
    match decoder.finish() {
        Ok(()) => Ended::Whole,
        Err(field) => Ended::Bad(field),
    }
}

/// The stage behind a piece, where this many bytes came.
fn stage_at(stage: Stage, taken: u64) -> Stage
    ensures stage { (bytes put : List ℕ) → length bytes ≡ taken → IsStage stage bytes put → IsStage result bytes put }
    ensures within { taken ≤ 2 ^ 40 → is_open_stage result ≡ true → taken < budget }
    ensures quiet { WhereQuiet (IsQuiet stage) result }
    ensures cause { WhereFailed (stage ≡ Stage.Failed) result }
    ensures failed { stage ≡ Stage.Failed → result ≡ Stage.Failed }
{
    if taken == BUDGET {
        return stage.filled();
    }
    stage
}

/// Puts the line `complete N` without its end.
fn put_count<O: Sink>(out: &mut O, bytes: u64) -> Result<(), Failed>
    ensures ok { OnOk result (Appends (O.written out.old) (O.written out.new) (codes "complete " ++ decimal bytes)) }
    ensures err { OnErr result (AppendsFront (O.written out.old) (O.written out.new) (codes "complete " ++ decimal bytes)) }
    ensures cause { HasCause (O.put_faults out.old) (O.put_faults out.new) result }
    ensures beside { O.beside_writing out.new ≡ O.beside_writing out.old }
{
    let mut digits = itoa::Buffer::new();
    put_all(out, b"complete ")?;
    put_all(out, digits.format(bytes).as_bytes())
}

/// Puts the end of a line, which is one byte: it stands there or does not.
fn put_line_feed<O: Sink>(out: &mut O) -> Result<(), Failed>
    ensures ok { OnOk result (Appends (O.written out.old) (O.written out.new) (codes "\n")) }
    ensures err { OnErr result (O.written out.new ≡ O.written out.old) }
    ensures cause { HasCause (O.put_faults out.old) (O.put_faults out.new) result }
    ensures beside { O.beside_writing out.new ≡ O.beside_writing out.old }
{
    out.put(b"\n")?;
    Ok(())
}

/// Puts the line `complete N`. Its line feed comes last and alone.
fn put_complete<O: Sink>(out: &mut O, bytes: u64) -> Result<(), Failed>
    ensures ok { OnOk result (Appends (O.written out.old) (O.written out.new) (completed bytes)) }
    ensures err { OnErr result (AppendsFront (O.written out.old) (O.written out.new) (completed bytes)) }
    ensures cause { HasCause (O.put_faults out.old) (O.put_faults out.new) result }
    ensures beside { O.beside_writing out.new ≡ O.beside_writing out.old }
{
    put_count(out, bytes)?;
    put_line_feed(out)
}

impl BodyReader {
    /// A reader that has had no bytes.
    pub fn new(alloc: Global) -> BodyReader
        ensures stands { ReaderStandsAfter result [] [] }
        ensures quiet { HasPutNothing result }
        ensures still_open { is_open result ≡ true }
    {
        let reader = DdsReader::new(alloc, 0);
        BodyReader {
            alloc,
            stage: Stage::First(FirstWord::new(), Vec::new(alloc), reader),
            taken: 0,
        }
    }

    /// Whether it looks at further bytes.
    pub fn is_open(&self) -> bool
        ensures { result ≡ is_open self.now }
    {
        self.stage.is_open()
    }

    /// How many bytes it was given.
    pub fn taken(&self) -> u64
        ensures { result ≡ taken_of self.now }
    {
        self.taken
    }

    /// Reads one more piece.
    pub fn push<O: Sink>(&mut self, piece: &[u8], out: &mut O)
        requires stands { Stands self.old }
        requires still_open { is_open self.old ≡ true }
        requires within { taken_of self.old + length piece.now ≤ 2 ^ 40 }
        requires few { length piece.now ≤ most_piece }
        ensures stands { (bytes put : List ℕ) → ReaderStandsAfter self.old bytes put →
            Gains (O.written out.old) (O.written out.new) (λ text. ReaderStandsAfter self.new (bytes ++ piece.now) (put ++ text)) }
        ensures taken { taken_of self.new ≡ taken_of self.old + length piece.now }
        ensures quiet { HasPutNothing self.new → HasPutNothing self.old × (O.written out.new ≡ O.written out.old) }
        ensures cause { HasFailed self.new → Rose (O.put_faults out.old) (O.put_faults out.new) }
        ensures counts { O.put_faults out.old ≤ O.put_faults out.new }
        ensures kept { ¬ (HasFailed self.new) → O.put_faults out.new ≡ O.put_faults out.old }
        ensures beside { O.beside_writing out.new ≡ O.beside_writing out.old }
    {
        let stage = mem::replace(&mut self.stage, Stage::Spent);
        let stage = stage.read(self.alloc, self.taken, piece, out);
        self.taken += piece.len() as u64;
        self.stage = stage_at(stage, self.taken);
    }

    /// Reads one more piece as `push` does, and puts nothing.
    pub fn judge(&mut self, piece: &[u8])
        requires stands { Stands self.old }
        requires still_open { is_open self.old ≡ true }
        requires within { taken_of self.old + length piece.now ≤ 2 ^ 40 }
        requires few { length piece.now ≤ most_piece }
        ensures stands { (bytes put : List ℕ) → ReaderStandsAfter self.old bytes put → Gains None None (λ text. ReaderStandsAfter self.new (bytes ++ piece.now) (put ++ text)) }
        ensures taken { taken_of self.new ≡ taken_of self.old + length piece.now }
        ensures cause { ¬ (HasFailed self.new) }
    {
        let stage = mem::replace(&mut self.stage, Stage::Spent);
        let stage = stage.judge(self.alloc, self.taken, piece);
        self.taken += piece.len() as u64;
        self.stage = stage_at(stage, self.taken);
    }

    /// What the bytes are, where they end here. Nothing is put.
    pub fn ended(self) -> Ended
        ensures ended { (bytes put : List ℕ) → ReaderStandsAfter self bytes put → IsEnded bytes put result }
        ensures stays { (bytes put : List ℕ) → ReaderStandsAfter self bytes put → is_open self ≡ false → StaysBad bytes result }
        ensures quiet { WhereNothing (HasPutNothing self) result }
        ensures failed { WhereWriteFault (HasFailed self) result }
        ensures has_failed { HasFailed self → result ≡ Ended.WriteFault }
    {
        let BodyReader {
            alloc,
            stage,
            taken,
        } = self;
        match stage {
            Stage::First(_, _, reader) => end_first(reader, taken),
            Stage::Error(object) => end_object(alloc, object, taken),
            Stage::Text(_) => bad(Bad::Cut, taken),
            Stage::Line(_, _) => bad(Bad::Cut, taken),
            Stage::Values(decoder) => end_values(decoder),
            Stage::Refused(field) => Ended::Bad(field),
            Stage::Full(field) => Ended::Bad(field),
            Stage::Failed => Ended::WriteFault,
            Stage::Spent => Ended::Memory,
        }
    }

    /// The same as an outcome, and where the body is a whole data response the line `complete N` is put.
    pub fn finish<O: Sink>(self, out: &mut O) -> Outcome
        ensures stands { (bytes put : List ℕ) → ReaderStandsAfter self bytes put →
            Gains (O.written out.old) (O.written out.new) (λ text. IsFinished bytes put text result) }
        ensures stays { (bytes put : List ℕ) → ReaderStandsAfter self bytes put → is_open self ≡ false → StaysBadReply bytes result }
        ensures quiet { WhereNothingPut (HasPutNothing self × (O.written out.new ≡ O.written out.old)) result }
        ensures cause { OnWriteFault (HasFailed self ⊎ Rose (O.put_faults out.old) (O.put_faults out.new)) result }
        ensures counts { O.put_faults out.old ≤ O.put_faults out.new }
        ensures kept { ¬ (result ≡ Outcome.WriteFault) → O.put_faults out.new ≡ O.put_faults out.old }
        ensures failed { HasFailed self → result ≡ Outcome.WriteFault }
        ensures beside { O.beside_writing out.new ≡ O.beside_writing out.old }
    {
        let taken = self.taken;
        match self.ended() {
            Ended::Whole => match put_complete(out, taken) {
                Ok(()) => Outcome::Complete { bytes: taken },
                Err(Failed) => Outcome::WriteFault,
            },
            Ended::ServerError(object) => server_error(object),
            Ended::Bad(field) => Outcome::BadReply(field),
            Ended::WriteFault => Outcome::WriteFault,
            Ended::Memory => Outcome::Memory,
        }
    }
}
