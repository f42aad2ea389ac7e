//! What a body is read by, by its kind (DAP 2.0): the pieces of a data response, of a DDS or of a DAS, or
//! of an Error object in their place.

ghost use Rattle.std.specs.Prelude.{◌≡◌, ◌+◌, ◌^◌, ◌≤◌, ◌<◌, ℕ, List, [], ◌++◌, false, true, length, None, Ok, Err, OnOk};
ghost use Rattle.dap_types.specs.Limits.{most_piece};
ghost use Rattle.dap_model.specs.Partly.{ShowsLines};
ghost use Rattle.dap_model.specs.Received.{HasHead};
ghost use Rattle.dap_outside.specs.Causes.{Rose};
ghost use Rattle.xdr_decode.specs.Verdict.{budget};
ghost use Rattle.dap_client.specs.After.{IsBrokenOff, IsFinished, IsPart, IsRead, IsStopped};
ghost use Rattle.dap_client.specs.Outcomes.{OnWriteFault};
ghost use Rattle.dap_client.specs.Replies.{first_of, form_of};
ghost use Rattle.dap_client.specs.Shows.{Gains};
ghost use Rattle.dap_client.specs.Verdict.{Form, bad, das_form, dds_form, dods_form};
ghost use Rattle.dap_client.specs.inner.Readers as readers;
ghost use Rattle.dap_client.specs.inner.TextBodies.{IsFirstWrong, IsPut, IsText, IsTextEnded, IsTextStage};

use crate::Outcome;
use crate::das_body::DasBody;
use crate::dds_body::DdsBody;
use crate::nowhere::Nowhere;
use crate::opening::Opening;
use crate::reader::{BodyReader, Ended, server_error};
use crate::stage::{BUDGET, Stage};
use crate::text_body::{TextBody, TextEnded};
use crate::text_stage::TextStage;
use dap_http::Kind;
use dap_outside::{Failed, Sink, put_all};
use dap_types::{Dataset, Memory};
use das_text::Attributes;
use std::alloc::Global;
use xdr_decode::{Bad, BadField};

/// What the body is read by.
#[derive(Drop)]
pub enum Part {
    /// A data response.
    Data(BodyReader),
    /// A DDS or a DAS.
    Text(TextStage),
}

/// What is wrong first: with the bytes, where that is more than that they end, else that.
fn first_wrong(field: BadField, wrong: BadField) -> BadField
    ensures { bad result.kind result.place ≡ first_of (bad field.kind field.place) wrong }
{
    if field.kind == Bad::Cut { wrong } else { field }
}

/// The outcome of a reader of a data response that looks at no further bytes.
fn closed(reader: BodyReader) -> Outcome
    requires { readers.is_open reader ≡ false }
    ensures stopped { (before piece put : List ℕ) → readers.ReaderStandsAfter reader (before ++ piece) put → (put ≡ [] → ¬ (HasHead before)) → IsStopped dods_form before (before ++ piece) put result }
    ensures fault { OnWriteFault (readers.HasFailed reader) result }
    ensures failed { readers.HasFailed reader → result ≡ Outcome.WriteFault }
{
    let BodyReader { stage, .. } = reader;
    match stage {
        Stage::Refused(field) => Outcome::BadReply(field),
        Stage::Full(field) => Outcome::BadReply(field),
        Stage::Failed => Outcome::WriteFault,
        Stage::Spent => Outcome::Memory,
        Stage::First(_, _, _) => unreachable!(),
        Stage::Error(_) => unreachable!(),
        Stage::Text(_) => unreachable!(),
        Stage::Line(_, _) => unreachable!(),
        Stage::Values(_) => unreachable!(),
    }
}

/// Reads a piece of a data response.
fn read_data<O: Sink>(reader: BodyReader, piece: &[u8], out: &mut O) -> Result<Part, Outcome>
    requires stands { readers.Stands reader }
    requires still_open { readers.is_open reader ≡ true }
    requires within { readers.taken_of reader + length piece.now ≤ 2 ^ 40 }
    requires few { length piece.now ≤ most_piece }
    ensures read { (bytes put : List ℕ) → readers.ReaderStandsAfter reader bytes put → Gains (O.written out.old) (O.written out.new)
        (λ text. IsRead dods_form bytes (bytes ++ piece.now) (put ++ text) result) }
    ensures goes_on { OnOk result (readers.taken_of reader + length piece.now < 2 ^ 40) }
    ensures fault { result ≡ Err Outcome.WriteFault → Rose (O.put_faults out.old) (O.put_faults out.new) }
    ensures later { O.put_faults out.old ≤ O.put_faults out.new }
    ensures kept { ¬ (result ≡ Err Outcome.WriteFault) → O.put_faults out.new ≡ O.put_faults out.old }
    ensures beside { O.beside_writing out.new ≡ O.beside_writing out.old }
{
    let mut reader = reader;
    reader.push(piece, out);
    if reader.is_open() {
        return Ok(Part::Data(reader));
    }
    Err(closed(reader))
}

/// Judges a piece of a data response. Nothing is put.
fn judge_data(reader: BodyReader, piece: &[u8]) -> Result<Part, Outcome>
    requires stands { readers.Stands reader }
    requires still_open { readers.is_open reader ≡ true }
    requires within { readers.taken_of reader + length piece.now ≤ 2 ^ 40 }
    requires few { length piece.now ≤ most_piece }
    ensures read { (bytes put : List ℕ) → readers.ReaderStandsAfter reader bytes put → Gains None None (λ text. IsRead dods_form bytes (bytes ++ piece.now) (put ++ text) result) }
    ensures goes_on { OnOk result (readers.taken_of reader + length piece.now < 2 ^ 40) }
    ensures fault { ¬ (result ≡ Err Outcome.WriteFault) }
{
    let mut reader = reader;
    reader.judge(piece);
    if reader.is_open() {
        return Ok(Part::Data(reader));
    }
    Err(closed(reader))
}

/// The outcome for a text behind which that is wrong: what is wrong with the text goes first.
fn break_text(ended: TextEnded, wrong: BadField) -> Outcome
    ensures first { (form : Form) (bytes : List ℕ) → IsTextEnded form bytes ended → IsFirstWrong form bytes wrong result }
    ensures fault { ¬ (result ≡ Outcome.WriteFault) }
{
    match ended {
        TextEnded::Dds(_) => Outcome::BadReply(wrong),
        TextEnded::Das(_) => Outcome::BadReply(wrong),
        TextEnded::ServerError(_object) => Outcome::BadReply(wrong),
        TextEnded::Bad(field) => Outcome::BadReply(first_wrong(field, wrong)),
        TextEnded::Memory => Outcome::Memory,
    }
}

/// The stage behind a piece, where this many bytes came.
fn text_at(alloc: Global, stage: TextStage, taken: u64) -> Result<Part, Outcome>
    ensures read { (form : Form) (before bytes : List ℕ) → length bytes ≡ taken → taken ≤ 2 ^ 40 → IsText form → IsTextStage form stage bytes → IsRead form before bytes [] result }
    ensures goes_on { taken ≤ 2 ^ 40 → OnOk result (taken < 2 ^ 40) }
    ensures fault { ¬ (result ≡ Err Outcome.WriteFault) }
{
    match stage {
        TextStage::Wrong(field) => Err(Outcome::BadReply(field)),
        TextStage::Spent => Err(Outcome::Memory),
        going => {
            if taken == BUDGET {
                let wrong = BadField {
                    kind: Bad::TooLong,
                    place: BUDGET,
                };
                return Err(break_text(going.ended(alloc, taken), wrong));
            }
            Ok(Part::Text(going))
        }
    }
}

/// Puts the text printed again of a good body of so many bytes.
fn put_text<O: Sink>(text: &[u8], bytes: u64, out: &mut O) -> Outcome
    ensures put { IsPut text.now bytes (O.written out.old) (O.written out.new) result }
    ensures fault { OnWriteFault (Rose (O.put_faults out.old) (O.put_faults out.new)) result }
    ensures later { O.put_faults out.old ≤ O.put_faults out.new }
    ensures kept { ¬ (result ≡ Outcome.WriteFault) → O.put_faults out.new ≡ O.put_faults out.old }
    ensures beside { O.beside_writing out.new ≡ O.beside_writing out.old }
{
    match put_all(out, text) {
        Ok(()) => Outcome::Complete { bytes },
        Err(Failed) => Outcome::WriteFault,
    }
}

/// Puts a DDS of so many bytes printed again.
fn finish_dds<O: Sink>(alloc: Global, dataset: Dataset, taken: u64, out: &mut O) -> Outcome
    ensures finished { (form : Form) (bytes : List ℕ) → length bytes ≡ taken → length bytes < budget → IsText form → IsTextEnded form bytes (TextEnded.Dds dataset) →
        Gains (O.written out.old) (O.written out.new) (λ text. IsFinished form bytes text result) }
    ensures fault { OnWriteFault (Rose (O.put_faults out.old) (O.put_faults out.new)) result }
    ensures later { O.put_faults out.old ≤ O.put_faults out.new }
    ensures kept { ¬ (result ≡ Outcome.WriteFault) → O.put_faults out.new ≡ O.put_faults out.old }
    ensures beside { O.beside_writing out.new ≡ O.beside_writing out.old }
{
    match dds_text::print(alloc, &dataset) {
        Ok(text) => put_text(text.bytes(), taken, out),
        Err(Memory) => Outcome::Memory,
    }
}

/// Puts a DAS of so many bytes printed again.
fn finish_das<O: Sink>(alloc: Global, attributes: Attributes, taken: u64, out: &mut O) -> Outcome
    ensures finished { (form : Form) (bytes : List ℕ) → length bytes ≡ taken → length bytes < budget → IsText form → IsTextEnded form bytes (TextEnded.Das attributes) →
        Gains (O.written out.old) (O.written out.new) (λ text. IsFinished form bytes text result) }
    ensures fault { OnWriteFault (Rose (O.put_faults out.old) (O.put_faults out.new)) result }
    ensures later { O.put_faults out.old ≤ O.put_faults out.new }
    ensures kept { ¬ (result ≡ Outcome.WriteFault) → O.put_faults out.new ≡ O.put_faults out.old }
    ensures beside { O.beside_writing out.new ≡ O.beside_writing out.old }
{
    match das_text::print(alloc, &attributes) {
        Ok(printed) => put_text(printed.bytes(), taken, out),
        Err(Memory) => Outcome::Memory,
    }
}

/// Puts the text of a whole body of so many bytes printed again, or nothing.
fn finish_text<O: Sink>(alloc: Global, ended: TextEnded, taken: u64, out: &mut O) -> Outcome
    ensures finished { (form : Form) (bytes : List ℕ) → length bytes ≡ taken → length bytes < budget → IsText form → IsTextEnded form bytes ended →
        Gains (O.written out.old) (O.written out.new) (λ text. IsFinished form bytes text result) }
    ensures fault { OnWriteFault (Rose (O.put_faults out.old) (O.put_faults out.new)) result }
    ensures later { O.put_faults out.old ≤ O.put_faults out.new }
    ensures kept { ¬ (result ≡ Outcome.WriteFault) → O.put_faults out.new ≡ O.put_faults out.old }
    ensures beside { O.beside_writing out.new ≡ O.beside_writing out.old }
{
    match ended {
        TextEnded::Dds(dataset) => finish_dds(alloc, dataset, taken, out),
        TextEnded::Das(attributes) => finish_das(alloc, attributes, taken, out),
        TextEnded::ServerError(object) => server_error(object),
        TextEnded::Bad(field) => Outcome::BadReply(field),
        TextEnded::Memory => Outcome::Memory,
    }
}

/// The outcome for a data response that breaks off for that reason.
fn break_data(ended: Ended, wrong: BadField) -> Outcome
    requires { ¬ (ended ≡ Ended.WriteFault) }
    ensures { (bytes put : List ℕ) → readers.IsEnded bytes put ended → ShowsLines bytes put → (put ≡ [] → ¬ (HasHead bytes)) → IsBrokenOff dods_form bytes put wrong result }
{
    match ended {
        Ended::Whole => Outcome::BadReply(wrong),
        Ended::ServerError(_object) => Outcome::BadReply(wrong),
        Ended::Bad(field) => Outcome::BadReply(first_wrong(field, wrong)),
        Ended::WriteFault => Outcome::WriteFault,
        Ended::Memory => Outcome::Memory,
    }
}

/// Of a DDS, before any byte.
fn first_dds(alloc: Global) -> Part
    ensures { IsPart dds_form result [] [] }
{
    Part::Text(TextStage::new(alloc, TextBody::Dds(DdsBody::new(alloc))))
}

/// Of a DAS, before any byte.
fn first_das(alloc: Global) -> Part
    ensures { IsPart das_form result [] [] }
{
    Part::Text(TextStage::new(alloc, TextBody::Das(Opening::new(), DasBody::new(alloc))))
}

/// Of a data response, before any byte.
fn first_data(alloc: Global) -> Part
    ensures { IsPart dods_form result [] [] }
{
    Part::Data(BodyReader::new(alloc))
}

/// What a body of this kind is read by, before any byte.
pub fn first_part(alloc: Global, kind: Kind) -> Part
    ensures { IsPart (form_of kind) result [] [] }
{
    match kind {
        Kind::Dds => first_dds(alloc),
        Kind::Das => first_das(alloc),
        Kind::Dods => first_data(alloc),
        Kind::Ver => first_data(alloc),
    }
}

impl Part {
    /// Reads one more piece, which begins at this place. Fails with the outcome where nothing more is read.
    pub fn read<O: Sink>(
        self,
        alloc: Global,
        place: u64,
        piece: &[u8],
        out: &mut O,
    ) -> Result<Part, Outcome>
        requires stands { (form : Form) × (bytes : List ℕ) × (put : List ℕ) × (length bytes ≡ place) × IsPart form self bytes put }
        requires within { place + length piece.now ≤ 2 ^ 40 }
        requires few { length piece.now ≤ most_piece }
        ensures read { (form : Form) (bytes put : List ℕ) → length bytes ≡ place → IsPart form self bytes put → Gains (O.written out.old) (O.written out.new)
            (λ text. IsRead form bytes (bytes ++ piece.now) (put ++ text) result) }
        ensures goes_on { OnOk result (place + length piece.now < 2 ^ 40) }
        ensures fault { result ≡ Err Outcome.WriteFault → Rose (O.put_faults out.old) (O.put_faults out.new) }
        ensures later { O.put_faults out.old ≤ O.put_faults out.new }
        ensures kept { ¬ (result ≡ Err Outcome.WriteFault) → O.put_faults out.new ≡ O.put_faults out.old }
        ensures beside { O.beside_writing out.new ≡ O.beside_writing out.old }
    {
        match self {
            Part::Data(reader) => read_data(reader, piece, out),
            Part::Text(stage) => {
                let stage = stage.read(alloc, place, piece);
                text_at(alloc, stage, place + piece.len() as u64)
            }
        }
    }

    /// Reads one more piece as `read` does, and puts nothing.
    pub fn judge(self, alloc: Global, place: u64, piece: &[u8]) -> Result<Part, Outcome>
        requires stands { (form : Form) × (bytes : List ℕ) × (put : List ℕ) × (length bytes ≡ place) × IsPart form self bytes put }
        requires within { place + length piece.now ≤ 2 ^ 40 }
        requires few { length piece.now ≤ most_piece }
        ensures read { (form : Form) (bytes put : List ℕ) → length bytes ≡ place → IsPart form self bytes put → Gains None None
            (λ text. IsRead form bytes (bytes ++ piece.now) (put ++ text) result) }
        ensures goes_on { OnOk result (place + length piece.now < 2 ^ 40) }
        ensures fault { ¬ (result ≡ Err Outcome.WriteFault) }
    {
        match self {
            Part::Data(reader) => judge_data(reader, piece),
            text => text.read(alloc, place, piece, &mut Nowhere),
        }
    }

    /// The outcome for a body that ends here, behind so many bytes.
    pub fn finish<O: Sink>(self, alloc: Global, taken: u64, out: &mut O) -> Outcome
        requires stands { (form : Form) × (bytes : List ℕ) × (put : List ℕ) × IsPart form self bytes put }
        ensures finished { (form : Form) (bytes put : List ℕ) → length bytes ≡ taken → length bytes < budget → IsPart form self bytes put → Gains (O.written out.old) (O.written out.new)
            (λ text. IsFinished form bytes (put ++ text) result) }
        ensures fault { OnWriteFault (Rose (O.put_faults out.old) (O.put_faults out.new)) result }
        ensures later { O.put_faults out.old ≤ O.put_faults out.new }
        ensures kept { ¬ (result ≡ Outcome.WriteFault) → O.put_faults out.new ≡ O.put_faults out.old }
        ensures beside { O.beside_writing out.new ≡ O.beside_writing out.old }
    {
        match self {
            Part::Data(reader) => reader.finish(out),
            Part::Text(stage) => finish_text(alloc, stage.ended(alloc, taken), taken, out),
        }
    }

    /// The outcome for a body that breaks off here, behind so many bytes, for that reason.
    pub fn break_off(self, alloc: Global, taken: u64, wrong: BadField) -> Outcome
        requires stands { (form : Form) × (bytes : List ℕ) × (put : List ℕ) × IsPart form self bytes put }
        ensures { (form : Form) (bytes put : List ℕ) → length bytes ≡ taken → length bytes < budget → IsPart form self bytes put → IsBrokenOff form bytes put wrong result }
    {
        match self {
            Part::Data(reader) => break_data(reader.ended(), wrong),
            Part::Text(stage) => break_text(stage.ended(alloc, taken), wrong),
        }
    }
}
