//! The body of a DDS that comes in pieces (DAP 2.0, DDS). Behind its text white space alone may stand.

ghost use Rattle.std.specs.Prelude.{◌≡◌, ℕ, ◌+◌, ◌^◌, ◌<◌, ◌≤◌, ⊤, List, [], ◌++◌, length, IfOk, IfErr, MatchOption};
ghost use Rattle.std.specs.List.{AllPass};
ghost use Rattle.dap_types.specs.View.{dataset_view};
ghost use Rattle.dap_model.specs.Tokens.{is_white as is_white_byte};
ghost use Rattle.dds_text.specs.After.{EndsBehind};
ghost use Rattle.dds_text.specs.Reading.{IsDone};
ghost use Rattle.dap_client.specs.Verdict.{JudgesDds, bad, good_dds};
ghost use Rattle.dap_client.specs.inner.DdsBodies.{IsDdsBody, IsFirstOther};
ghost use Rattle.dap_client.specs.inner.Stages.{HadAll, EndsText};
ghost use Rattle.xdr_decode.specs.Verdict.{HasText};

use dap_types::{Dataset, Memory};
use dds_text::{DdsReader, DdsStep};
use error_word::is_white;
use std::alloc::Global;
use xdr_decode::{Bad, BadField};

/// What was read of the body of a DDS that is no Error object.
#[derive(Drop)]
pub enum DdsBody {
    /// Its text goes on.
    Text(DdsReader),
    /// Its text ended, and white space alone came behind it.
    White(Dataset),
    /// This is wrong first.
    Wrong(BadField),
}

/// The first byte other than white space.
pub fn first_other(piece: &[u8]) -> Option<usize>
    ensures { MatchOption result (AllPass is_white_byte piece.now) (IsFirstOther piece.now) }
{
    for (at, byte) in piece.iter().enumerate() {
        if !is_white(*byte) {
            return Some(at);
        }
    }
    None
}

fn wrong(kind: Bad, place: u64) -> DdsBody
    ensures { result ≡ DdsBody.Wrong (record { kind = kind; place = place }) }
{
    DdsBody::Wrong(BadField { kind, place })
}

/// Reads a piece behind the text, which begins at this place.
fn read_white(dataset: Dataset, place: u64, piece: &[u8]) -> DdsBody
    requires { place + length piece.now < 2 ^ 63 }
    ensures body { (bytes : List ℕ) → length bytes ≡ place → JudgesDds bytes (good_dds (dataset_view dataset)) → IsDdsBody (bytes ++ piece.now) result }
{
    match first_other(piece) {
        None => DdsBody::White(dataset),
        Some(at) => wrong(Bad::Trailing, place + at as u64),
    }
}

/// Reads a piece behind a text that just ended.
fn end_text(reader: DdsReader, place: u64, piece: &[u8]) -> DdsBody
    requires stands { (bytes : List ℕ) × (length bytes ≡ place) × EndsText reader bytes }
    requires small { place + length piece.now < 2 ^ 63 }
    ensures body { (bytes : List ℕ) → length bytes ≡ place → EndsText reader bytes → IsDdsBody (bytes ++ piece.now) result }
{
    match reader.dataset() {
        Some(dataset) => read_white(dataset, place, piece),
        None => unreachable!(),
    }
}

/// Reads a piece of the text, which begins at this place.
fn read_text(reader: DdsReader, place: u64, piece: &[u8]) -> Result<DdsBody, Memory>
    requires stands { (bytes : List ℕ) × (length bytes ≡ place) × HadAll reader bytes }
    requires small { place + length piece.now < 2 ^ 63 }
    ensures body { (bytes : List ℕ) → length bytes ≡ place → HadAll reader bytes → IfOk result (IsDdsBody (bytes ++ piece.now)) }
{
    let mut reader = reader;
    match reader.push(piece)? {
        DdsStep::More => Ok(DdsBody::Text(reader)),
        DdsStep::Done { used } => Ok(end_text(reader, place + used as u64, &piece[used..])),
        DdsStep::Bad { place } => Ok(wrong(Bad::BadDds, place)),
    }
}

impl DdsBody {
    /// Of no bytes.
    pub fn new(alloc: Global) -> DdsBody
        ensures { IsDdsBody [] result }
    {
        DdsBody::Text(DdsReader::new(alloc, 0))
    }

    /// Reads one more piece, which begins at this place.
    pub fn read(self, place: u64, piece: &[u8]) -> Result<DdsBody, Memory>
        requires stands { (bytes : List ℕ) × (length bytes ≡ place) × IsDdsBody bytes self }
        requires small { place + length piece.now < 2 ^ 63 }
        ensures body { (bytes : List ℕ) → length bytes ≡ place → IsDdsBody bytes self → IfOk result (IsDdsBody (bytes ++ piece.now)) }
    {
        match self {
            DdsBody::Text(reader) => read_text(reader, place, piece),
            DdsBody::White(dataset) => Ok(read_white(dataset, place, piece)),
            DdsBody::Wrong(field) => Ok(DdsBody::Wrong(field)),
        }
    }

    /// What is wrong, whatever follows.
    pub fn wrong(&self) -> Option<BadField>
        ensures { MatchOption result ⊤ (λ field. self.now ≡ DdsBody.Wrong field) }
    {
        match self {
            DdsBody::Text(_) => None,
            DdsBody::White(_) => None,
            DdsBody::Wrong(field) => Some(*field),
        }
    }

    /// The dataset of a body that ends here behind so many bytes, or what is wrong with it.
    pub fn finish(self, taken: u64) -> Result<Dataset, BadField>
        ensures good { (bytes : List ℕ) → length bytes ≡ taken → IsDdsBody bytes self → IfOk result (λ dataset. JudgesDds bytes (good_dds (dataset_view dataset))) }
        ensures bad { (bytes : List ℕ) → length bytes ≡ taken → IsDdsBody bytes self → IfErr result (λ field. JudgesDds bytes (bad field.kind field.place)) }
    {
        match self {
            DdsBody::Text(_) => Err(BadField {
                kind: Bad::Cut,
                place: taken,
            }),
            DdsBody::White(dataset) => Ok(dataset),
            DdsBody::Wrong(field) => Err(field),
        }
    }
}
