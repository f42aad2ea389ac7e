//! The stages of a data response (DAP 2.0, DODS): its DDS, its `Data:` line, its values; or an Error
//! object in its place. Each takes a piece and says which stage stands behind it.

ghost use Rattle.std.specs.Prelude.{◌≡◌, ℕ, ◌+◌, ◌^◌, ◌<◌, ◌≤◌, List, [], ◌++◌, length, take, true, false, None};
ghost use Rattle.dap_types.specs.Limits.{most_piece};
ghost use Rattle.dap_types.specs.View.{dataset_view};
ghost use Rattle.dap_types.specs.WellFormed.{IsWellFormed};
ghost use Rattle.dap_outside.specs.Causes.{Rose};
ghost use Rattle.dap_errors.specs.Reading.{limit};
ghost use Rattle.dap_model.specs.Body.{IsHead};
ghost use Rattle.dap_model.specs.Received.{HasHead};
ghost use Rattle.xdr_decode.specs.Verdict.{budget};
ghost use Rattle.error_word.specs.inner.FirstWords.{IsError, IsNoError, IsOpenWord};
ghost use Rattle.dap_client.specs.inner.Beginnings.{IsInObject};
ghost use Rattle.dap_client.specs.inner.Objects.{IsObjectOf};
ghost use Rattle.dap_client.specs.inner.Stages.{EndsText, HadAll, HasValues, IsFirst, IsInLine, IsQuiet, IsStage, Moves, WhereFailed, WhereQuiet, is_open_stage};

use crate::beginning::{self, Beginning, InObject};
use crate::data_line::{DataLine, LineRead};
use crate::nowhere::Nowhere;
use crate::object::Object;
use dap_outside::{Failed, Sink, put_all};
use dap_types::{Dataset, Memory, limits};
use dds_text::{DdsReader, DdsStep, print};
use error_word::FirstWord;
use std::alloc::Global;
use xdr_decode::{Bad, BadField, Decoder, Pushed};

/// Of a body no more bytes are looked at.
pub const BUDGET: u64 = limits::BODY_LIMIT;

/// How far the reader of a body is.
#[derive(Drop)]
pub enum Stage {
    /// In white space or in a word that may be `Error`: the first bytes, as many as an Error object may
    /// have, and a reader of the DDS that had all.
    First(FirstWord, Vec<u8>, DdsReader),
    /// In an Error object.
    Error(Object),
    /// In the DDS.
    Text(DdsReader),
    /// Behind it, in the line `Data:`.
    Line(Dataset, DataLine),
    /// In the values.
    Values(Decoder),
    /// Something is wrong.
    Refused(BadField),
    /// As many bytes came as are looked at, and this is wrong.
    Full(BadField),
    /// The sink failed.
    Failed,
    /// Memory was wanted.
    Spent,
}

fn refused(kind: Bad, place: u64) -> Stage
    ensures { result ≡ Stage.Refused (record { kind = kind; place = place }) }
{
    Stage::Refused(BadField { kind, place })
}

fn full(kind: Bad, place: u64) -> Stage
    ensures { result ≡ Stage.Full (record { kind = kind; place = place }) }
{
    Stage::Full(BadField { kind, place })
}

/// Reads a piece of the values, which begins at this place.
fn read_values<O: Sink>(decoder: Decoder, place: u64, piece: &[u8], out: &mut O) -> Stage
    requires stands { (bytes : List ℕ) × (put : List ℕ) × (length bytes ≡ place) × HasValues decoder bytes put }
    requires small { place + length piece.now < 2 ^ 63 }
    ensures stage { (bytes put : List ℕ) → length bytes ≡ place → IsNoError (bytes ++ piece.now) → HasValues decoder bytes put →
        Moves (O.written out.old) (O.written out.new) (bytes ++ piece.now) put result }
    ensures cause { WhereFailed (Rose (O.put_faults out.old) (O.put_faults out.new)) result }
    ensures counts { O.put_faults out.old ≤ O.put_faults out.new }
    ensures kept { ¬ (result ≡ Stage.Failed) → O.put_faults out.new ≡ O.put_faults out.old }
    ensures quiet { WhereQuiet ⊥ result }
    ensures beside { O.beside_writing out.new ≡ O.beside_writing out.old }
{
    let mut decoder = decoder;
    match decoder.push(piece, out) {
        Pushed::More => Stage::Values(decoder),
        Pushed::Done { used } => {
            if used < piece.len() {
                return refused(Bad::Trailing, place + used as u64);
            }
            Stage::Values(decoder)
        }
        Pushed::Refused(field) => Stage::Refused(field),
        Pushed::WriteFault => Stage::Failed,
    }
}

/// Judges a piece of the values, which begins at this place. Nothing is put.
fn judge_values(decoder: Decoder, place: u64, piece: &[u8]) -> Stage
    requires stands { (bytes : List ℕ) × (put : List ℕ) × (length bytes ≡ place) × HasValues decoder bytes put }
    requires small { place + length piece.now < 2 ^ 63 }
    ensures stage { (bytes put : List ℕ) → length bytes ≡ place → IsNoError (bytes ++ piece.now) → HasValues decoder bytes put →
        Moves None None (bytes ++ piece.now) put result }
    ensures cause { WhereFailed ⊥ result }
    ensures quiet { WhereQuiet ⊥ result }
{
    let mut decoder = decoder;
    match decoder.judge(piece) {
        Pushed::More => Stage::Values(decoder),
        Pushed::Done { used } => {
            if used < piece.len() {
                return refused(Bad::Trailing, place + used as u64);
            }
            Stage::Values(decoder)
        }
        Pushed::Refused(field) => Stage::Refused(field),
        Pushed::WriteFault => Stage::Failed,
    }
}

/// Puts the DDS, and reads the first piece of the values, which begin at this place. It takes the last
/// memory that the values of a body want.
fn begin_values<O: Sink>(
    alloc: Global,
    dataset: Dataset,
    place: u64,
    piece: &[u8],
    out: &mut O,
) -> Stage
    requires stands { (bytes : List ℕ) × (length bytes ≡ place) × IsHead bytes (dataset_view dataset) × IsWellFormed (dataset_view dataset) }
    requires small { place + length piece.now < 2 ^ 63 }
    requires few { length piece.now ≤ most_piece }
    ensures stage { (bytes : List ℕ) → length bytes ≡ place → IsNoError (bytes ++ piece.now) → IsHead bytes (dataset_view dataset) →
        Moves (O.written out.old) (O.written out.new) (bytes ++ piece.now) [] result }
    ensures cause { WhereFailed (Rose (O.put_faults out.old) (O.put_faults out.new)) result }
    ensures counts { O.put_faults out.old ≤ O.put_faults out.new }
    ensures kept { ¬ (result ≡ Stage.Failed) → O.put_faults out.new ≡ O.put_faults out.old }
    ensures quiet { WhereQuiet (O.written out.new ≡ O.written out.old) result }
    ensures beside { O.beside_writing out.new ≡ O.beside_writing out.old }
{
    let Ok(text) = print(alloc, &dataset) else {
        return Stage::Spent;
    };
    match put_all(out, text.bytes()) {
        Ok(()) => read_values(Decoder::new(dataset, place), place, piece, out),
        Err(Failed) => Stage::Failed,
    }
}

/// Reads a piece of the line `Data:`, which begins at this place.
fn read_line<O: Sink>(
    alloc: Global,
    dataset: Dataset,
    line: DataLine,
    place: u64,
    piece: &[u8],
    out: &mut O,
) -> Stage
    requires stands { (bytes : List ℕ) × (length bytes ≡ place) × IsInLine (dataset_view dataset) line bytes }
    requires small { place + length piece.now < 2 ^ 63 }
    requires few { length piece.now ≤ most_piece }
    ensures stage { (bytes : List ℕ) → length bytes ≡ place → IsNoError (bytes ++ piece.now) → IsInLine (dataset_view dataset) line bytes →
        Moves (O.written out.old) (O.written out.new) (bytes ++ piece.now) [] result }
    ensures cause { WhereFailed (Rose (O.put_faults out.old) (O.put_faults out.new)) result }
    ensures counts { O.put_faults out.old ≤ O.put_faults out.new }
    ensures kept { ¬ (result ≡ Stage.Failed) → O.put_faults out.new ≡ O.put_faults out.old }
    ensures quiet { WhereQuiet (O.written out.new ≡ O.written out.old) result }
    ensures beside { O.beside_writing out.new ≡ O.beside_writing out.old }
{
    match line.read(piece) {
        LineRead::On(line) => Stage::Line(dataset, line),
        LineRead::Ended(used) => {
            begin_values(alloc, dataset, place + used as u64, &piece[used..], out)
        }
        LineRead::Differs(at) => refused(Bad::BadDataLine, place + at as u64),
    }
}

/// Goes on behind a DDS, which ended behind so many bytes of a piece.
fn end_text<O: Sink>(
    alloc: Global,
    reader: DdsReader,
    place: u64,
    piece: &[u8],
    out: &mut O,
) -> Stage
    requires stands { (bytes : List ℕ) × (length bytes ≡ place) × EndsText reader bytes }
    requires small { place + length piece.now < 2 ^ 63 }
    requires few { length piece.now ≤ most_piece }
    ensures stage { (bytes : List ℕ) → length bytes ≡ place → IsNoError (bytes ++ piece.now) → EndsText reader bytes →
        Moves (O.written out.old) (O.written out.new) (bytes ++ piece.now) [] result }
    ensures cause { WhereFailed (Rose (O.put_faults out.old) (O.put_faults out.new)) result }
    ensures counts { O.put_faults out.old ≤ O.put_faults out.new }
    ensures kept { ¬ (result ≡ Stage.Failed) → O.put_faults out.new ≡ O.put_faults out.old }
    ensures quiet { WhereQuiet (O.written out.new ≡ O.written out.old) result }
    ensures beside { O.beside_writing out.new ≡ O.beside_writing out.old }
{
    match reader.dataset() {
        Some(dataset) => read_line(alloc, dataset, DataLine::new(), place, piece, out),
        None => unreachable!(),
    }
}

/// Reads a piece of the DDS, which begins at this place.
fn read_text<O: Sink>(
    alloc: Global,
    reader: DdsReader,
    place: u64,
    piece: &[u8],
    out: &mut O,
) -> Stage
    requires stands { (bytes : List ℕ) × (length bytes ≡ place) × HadAll reader bytes }
    requires small { place + length piece.now < 2 ^ 63 }
    requires few { length piece.now ≤ most_piece }
    ensures stage { (bytes : List ℕ) → length bytes ≡ place → IsNoError (bytes ++ piece.now) → HadAll reader bytes → ¬ (HasHead bytes) →
        Moves (O.written out.old) (O.written out.new) (bytes ++ piece.now) [] result }
    ensures cause { WhereFailed (Rose (O.put_faults out.old) (O.put_faults out.new)) result }
    ensures counts { O.put_faults out.old ≤ O.put_faults out.new }
    ensures kept { ¬ (result ≡ Stage.Failed) → O.put_faults out.new ≡ O.put_faults out.old }
    ensures quiet { WhereQuiet (O.written out.new ≡ O.written out.old) result }
    ensures beside { O.beside_writing out.new ≡ O.beside_writing out.old }
{
    let mut reader = reader;
    match reader.push(piece) {
        Ok(DdsStep::More) => Stage::Text(reader),
        Ok(DdsStep::Done { used }) => {
            end_text(alloc, reader, place + used as u64, &piece[used..], out)
        }
        Ok(DdsStep::Bad { place }) => refused(Bad::BadDds, place),
        Err(Memory) => Stage::Spent,
    }
}

/// The stage that a piece of an Error object leads to.
fn in_object(read: InObject) -> Stage
    ensures stage { (bytes : List ℕ) → IsInObject read bytes → IsStage result bytes [] }
    ensures cause { WhereFailed ⊥ result }
{
    match read {
        InObject::Open(object) => Stage::Error(object),
        InObject::Bad(place) => refused(Bad::BadError, place),
        InObject::Spent => Stage::Spent,
    }
}

/// Waits for more of the first word, whose piece the reader of the DDS has as well.
fn wait(word: FirstWord, front: Vec<u8>, reader: DdsReader, piece: &[u8]) -> Stage
    ensures stage { (bytes : List ℕ) → IsOpenWord word (bytes ++ piece.now) → front.items ≡ take limit (bytes ++ piece.now) → HadAll reader bytes →
        IsStage result (bytes ++ piece.now) [] }
    ensures cause { WhereFailed ⊥ result }
{
    let mut reader = reader;
    match reader.push(piece) {
        Ok(_) => Stage::First(word, front, reader),
        Err(Memory) => Stage::Spent,
    }
}

/// Reads a piece before the first word is known, which begins at this place.
fn read_first<O: Sink>(
    alloc: Global,
    word: FirstWord,
    front: Vec<u8>,
    reader: DdsReader,
    place: u64,
    piece: &[u8],
    out: &mut O,
) -> Stage
    requires stands { (bytes : List ℕ) × (length bytes ≡ place) × IsFirst word front.items reader bytes }
    requires small { place + length piece.now < 2 ^ 63 }
    requires few { length piece.now ≤ most_piece }
    ensures stage { (bytes : List ℕ) → length bytes ≡ place → IsFirst word front.items reader bytes →
        Moves (O.written out.old) (O.written out.new) (bytes ++ piece.now) [] result }
    ensures cause { WhereFailed (Rose (O.put_faults out.old) (O.put_faults out.new)) result }
    ensures counts { O.put_faults out.old ≤ O.put_faults out.new }
    ensures kept { ¬ (result ≡ Stage.Failed) → O.put_faults out.new ≡ O.put_faults out.old }
    ensures quiet { WhereQuiet (O.written out.new ≡ O.written out.old) result }
    ensures beside { O.beside_writing out.new ≡ O.beside_writing out.old }
{
    match beginning::read_first(alloc, word, front, place, piece) {
        Beginning::Open(word, front) => wait(word, front, reader, piece),
        Beginning::Error(read) => in_object(read),
        Beginning::Other => read_text(alloc, reader, place, piece, out),
        Beginning::Spent => Stage::Spent,
    }
}

/// The same before the first word is known.
fn fill_first(reader: DdsReader) -> Stage
    ensures stage { (bytes : List ℕ) → length bytes ≡ budget → (word : FirstWord) → IsOpenWord word bytes → HadAll reader bytes → IsStage result bytes [] }
    ensures closed { is_open_stage result ≡ false }
    ensures cause { WhereFailed ⊥ result }
{
    let mut reader = reader;
    match reader.push(&[]) {
        Ok(DdsStep::Bad { place }) => full(Bad::BadDds, place),
        Ok(DdsStep::More) => full(Bad::TooLong, BUDGET),
        Ok(DdsStep::Done { used: _ }) => full(Bad::TooLong, BUDGET),
        Err(Memory) => Stage::Spent,
    }
}

/// The same of an Error object.
fn fill_object(object: Object) -> Stage
    ensures stage { (bytes : List ℕ) → length bytes ≡ budget → IsError bytes → IsObjectOf bytes object → IsStage result bytes [] }
    ensures closed { is_open_stage result ≡ false }
    ensures cause { WhereFailed ⊥ result }
{
    match object {
        Object::Bad(place) => refused(Bad::BadError, place),
        Object::Behind(_, _) => full(Bad::TooLong, BUDGET),
        Object::Front(_) => full(Bad::TooLong, BUDGET),
    }
}

impl Stage {
    /// Reads one more piece as `read` does, and puts nothing.
    pub fn judge(self, alloc: Global, place: u64, piece: &[u8]) -> Stage
        requires stands { (bytes : List ℕ) × (put : List ℕ) × (length bytes ≡ place) × IsStage self bytes put }
        requires still_open { is_open_stage self ≡ true }
        requires small { place + length piece.now < 2 ^ 63 }
        requires few { length piece.now ≤ most_piece }
        ensures stage { (bytes put : List ℕ) → length bytes ≡ place → IsStage self bytes put → Moves None None (bytes ++ piece.now) put result }
        ensures cause { WhereFailed ⊥ result }
    {
        match self {
            Stage::Values(decoder) => judge_values(decoder, place, piece),
            stage => stage.read(alloc, place, piece, &mut Nowhere),
        }
    }

    /// Reads one more piece, which begins at this place.
    pub fn read<O: Sink>(self, alloc: Global, place: u64, piece: &[u8], out: &mut O) -> Stage
        requires stands { (bytes : List ℕ) × (put : List ℕ) × (length bytes ≡ place) × IsStage self bytes put }
        requires still_open { is_open_stage self ≡ true }
        requires small { place + length piece.now < 2 ^ 63 }
        requires few { length piece.now ≤ most_piece }
        ensures stage { (bytes put : List ℕ) → length bytes ≡ place → IsStage self bytes put →
            Moves (O.written out.old) (O.written out.new) (bytes ++ piece.now) put result }
        ensures cause { WhereFailed (Rose (O.put_faults out.old) (O.put_faults out.new)) result }
        ensures counts { O.put_faults out.old ≤ O.put_faults out.new }
        ensures kept { ¬ (result ≡ Stage.Failed) → O.put_faults out.new ≡ O.put_faults out.old }
        ensures quiet { WhereQuiet (IsQuiet self × (O.written out.new ≡ O.written out.old)) result }
        ensures beside { O.beside_writing out.new ≡ O.beside_writing out.old }
    {
        match self {
            Stage::First(word, front, reader) => {
                read_first(alloc, word, front, reader, place, piece, out)
            }
            Stage::Error(object) => {
                in_object(beginning::read_object(alloc, object, place, piece))
            }
            Stage::Text(reader) => read_text(alloc, reader, place, piece, out),
            Stage::Line(dataset, line) => read_line(alloc, dataset, line, place, piece, out),
            Stage::Values(decoder) => read_values(decoder, place, piece, out),
            Stage::Refused(field) => Stage::Refused(field),
            Stage::Full(field) => Stage::Full(field),
            Stage::Failed => Stage::Failed,
            Stage::Spent => Stage::Spent,
        }
    }

    /// Whether it looks at further bytes.
    pub fn is_open(&self) -> bool
        ensures { result ≡ is_open_stage self.now }
    {
        match self {
            Stage::First(..)
            | Stage::Error(_)
            | Stage::Text(_)
            | Stage::Line(..)
            | Stage::Values(_) => true,
            Stage::Refused(_) | Stage::Full(_) | Stage::Failed | Stage::Spent => false,
        }
    }

    /// The stage once as many bytes came as are looked at.
    pub fn filled(self) -> Stage
        ensures stage { (bytes put : List ℕ) → length bytes ≡ budget → IsStage self bytes put → IsStage result bytes put }
        ensures closed { is_open_stage result ≡ false }
        ensures quiet { WhereQuiet (IsQuiet self) result }
        ensures cause { WhereFailed (self ≡ Stage.Failed) result }
        ensures failed { self ≡ Stage.Failed → result ≡ Stage.Failed }
    {
        match self {
            Stage::First(_, _, reader) => fill_first(reader),
            Stage::Error(object) => fill_object(object),
            Stage::Text(_) => full(Bad::TooLong, BUDGET),
            Stage::Line(_, _) => full(Bad::TooLong, BUDGET),
            Stage::Values(_) => full(Bad::TooLong, BUDGET),
            Stage::Refused(field) => Stage::Refused(field),
            Stage::Full(field) => Stage::Full(field),
            Stage::Failed => Stage::Failed,
            Stage::Spent => Stage::Spent,
        }
    }
}
