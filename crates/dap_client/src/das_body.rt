//! The body of a DAS that comes in pieces (DAP 2.0, DAS). Behind it white space alone may stand.

ghost use Rattle.std.specs.Prelude.{◌≡◌, ℕ, ◌+◌, ◌^◌, ◌<◌, ◌≤◌, ⊤, List, [], ◌++◌, length, IfErr, IfOk, MatchOption};
ghost use Rattle.dap_types.specs.Limits.{most_text};
ghost use Rattle.das_text.specs.Reading.{DasOf, IsBad, IsCut, IsTrailing, limit};
ghost use Rattle.das_text.specs.View.{attributes_view};
ghost use Rattle.das_text.specs.Refusals.{WhereBad, WhereCut, WhereTrailing};
ghost use Rattle.dap_client.specs.Verdict.{JudgesDasText, bad, good_das};
ghost use Rattle.dap_client.specs.inner.DasBodies.{IsDasBody, IsShortDas, WhereRefused};

use crate::dds_body::first_other;
use dap_types::{Memory, limits};
use das_text::{Attributes, DasRefusal, read};
use std::alloc::Global;
use xdr_decode::{AllRefusal, Bad, BadField};

/// Within so many bytes a DAS has to end.
pub const LIMIT: usize = limits::MOST_TEXT;

/// What was read of the body of a DAS that is no Error object.
#[derive(Drop)]
pub enum DasBody {
    /// Its bytes, fewer than the limit.
    Front(Vec<u8>),
    /// It ended within the limit, which is reached, and white space alone came behind it.
    White(Attributes),
    /// This is wrong first.
    Wrong(BadField),
}

fn wrong(kind: Bad, place: u64) -> DasBody
    ensures { result ≡ DasBody.Wrong (record { kind = kind; place = place }) }
{
    DasBody::Wrong(BadField { kind, place })
}

fn refusal(kind: Bad, place: u64) -> AllRefusal
    ensures { result ≡ AllRefusal.Refused (record { kind = kind; place = place }) }
{
    AllRefusal::Refused(BadField { kind, place })
}

/// What is wrong with a body of so many bytes, where its text is refused.
fn refused(refused: DasRefusal, taken: u64) -> AllRefusal
    ensures { (bytes : List ℕ) → length bytes ≡ taken → WhereBad (IsBad bytes) refused → WhereTrailing (IsTrailing bytes) refused → WhereCut (IsCut bytes) refused →
        WhereRefused (λ field. JudgesDasText bytes (bad field.kind field.place)) result }
{
    match refused {
        DasRefusal::Bad { place } => refusal(Bad::BadDas, place),
        DasRefusal::Trailing { place } => refusal(Bad::Trailing, place),
        DasRefusal::Cut => refusal(Bad::Cut, taken),
        DasRefusal::Memory => AllRefusal::Memory,
    }
}

/// Reads a DAS that was gathered up to the limit.
fn judged(alloc: Global, front: Vec<u8>) -> Result<DasBody, Memory>
    requires { length front.items ≡ most_text }
    ensures body { IfOk result (IsDasBody front.items) }
    ensures short { IfOk result IsShortDas }
{
    match read(alloc, front.as_slice()) {
        Ok(attributes) => Ok(DasBody::White(attributes)),
        Err(DasRefusal::Bad { place }) => Ok(wrong(Bad::BadDas, place)),
        Err(DasRefusal::Trailing { place }) => Ok(wrong(Bad::Trailing, place)),
        Err(DasRefusal::Memory) => Err(Memory),
        Err(DasRefusal::Cut) => unreachable!(),
    }
}

/// Reads a piece behind a DAS, which begins at this place.
fn read_white(attributes: Attributes, place: u64, piece: &[u8]) -> DasBody
    requires { place + length piece.now < 2 ^ 63 }
    ensures body { (bytes : List ℕ) → length bytes ≡ place → limit ≤ length bytes → DasOf bytes (attributes_view attributes) → IsDasBody (bytes ++ piece.now) result }
    ensures short { IsShortDas result }
{
    match first_other(piece) {
        None => DasBody::White(attributes),
        Some(at) => wrong(Bad::Trailing, place + at as u64),
    }
}

/// Gathers a piece behind the bytes of a DAS.
fn gather(alloc: Global, front: Vec<u8>, piece: &[u8]) -> Result<DasBody, Memory>
    requires short { length front.items < most_text }
    requires small { length front.items + length piece.now < 2 ^ 63 }
    ensures body { IfOk result (IsDasBody (front.items ++ piece.now)) }
    ensures short { IfOk result IsShortDas }
{
    let mut front = front;
    let room = LIMIT - front.len();
    if piece.len() < room {
        front.extend_from_slice(piece)?;
        return Ok(DasBody::Front(front));
    }
    front.extend_from_slice(&piece[..room])?;
    Ok(judged(alloc, front)?.followed(LIMIT as u64, &piece[room..]))
}

impl DasBody {
    /// Of no bytes.
    pub fn new(alloc: Global) -> DasBody
        ensures body { IsDasBody [] result }
        ensures short { IsShortDas result }
    {
        DasBody::Front(Vec::new(alloc))
    }

    /// What follows a piece of the body, where that begins at this place.
    fn followed(self, place: u64, piece: &[u8]) -> DasBody
        requires { place + length piece.now < 2 ^ 63 }
        ensures body { (bytes : List ℕ) → length bytes ≡ place → limit ≤ length bytes → IsDasBody bytes self → IsDasBody (bytes ++ piece.now) result }
        ensures short { IsShortDas self → IsShortDas result }
    {
        match self {
            DasBody::White(attributes) => read_white(attributes, place, piece),
            DasBody::Wrong(field) => DasBody::Wrong(field),
            DasBody::Front(front) => DasBody::Front(front),
        }
    }

    /// Reads one more piece, which begins at this place.
    pub fn read(self, alloc: Global, place: u64, piece: &[u8]) -> Result<DasBody, Memory>
        requires small { place + length piece.now < 2 ^ 62 }
        requires short { IsShortDas self }
        ensures body { (bytes : List ℕ) → length bytes ≡ place → IsDasBody bytes self → IfOk result (IsDasBody (bytes ++ piece.now)) }
        ensures short { IfOk result IsShortDas }
    {
        match self {
            DasBody::Front(front) => gather(alloc, front, piece),
            DasBody::White(attributes) => Ok(read_white(attributes, place, piece)),
            DasBody::Wrong(field) => Ok(DasBody::Wrong(field)),
        }
    }

    /// What is wrong, whatever follows.
    pub fn wrong(&self) -> Option<BadField>
        ensures { MatchOption result ⊤ (λ field. self.now ≡ DasBody.Wrong field) }
    {
        match self {
            DasBody::Front(_) => None,
            DasBody::White(_) => None,
            DasBody::Wrong(field) => Some(*field),
        }
    }

    /// The attributes of a body that ends here behind so many bytes, or what is wrong with it.
    pub fn finish(self, alloc: Global, taken: u64) -> Result<Attributes, AllRefusal>
        ensures good { (bytes : List ℕ) → length bytes ≡ taken → IsDasBody bytes self → IfOk result (λ attributes. JudgesDasText bytes (good_das (attributes_view attributes))) }
        ensures bad { (bytes : List ℕ) → length bytes ≡ taken → IsDasBody bytes self → IfErr result (WhereRefused (λ field. JudgesDasText bytes (bad field.kind field.place))) }
    {
        match self {
            DasBody::Front(front) => match read(alloc, front.as_slice()) {
                Ok(attributes) => Ok(attributes),
                Err(found) => Err(refused(found, taken)),
            },
            DasBody::White(attributes) => Ok(attributes),
            DasBody::Wrong(field) => Err(AllRefusal::Refused(field)),
        }
    }
}
