//! The text of a body that is a DDS or a DAS, in pieces (DAP 2.0, DDS and DAS).

ghost use Rattle.std.specs.Prelude.{◌≡◌, ℕ, ◌+◌, ◌^◌, ◌<◌, ◌≤◌, ◌⊎◌, ⊤, false, List, [], ◌++◌, length, IfOk, MatchOption};
ghost use Rattle.reply_faults.specs.declared.bad.Bad.TheVariants.{Cut};
ghost use Rattle.error_word.specs.Saying.{says_error};
ghost use Rattle.das_text.specs.Reading.{limit};
ghost use Rattle.dap_model.specs.Tokens.{tokens_of};
ghost use Rattle.dap_client.specs.Verdict.{Form, das_form, dds_form};
ghost use Rattle.error_word.specs.inner.FirstWords.{IsNoError};
ghost use Rattle.dap_client.specs.inner.DasBodies.{IsDasBody};
ghost use Rattle.dap_client.specs.inner.DdsBodies.{IsDdsBody};
ghost use Rattle.dap_client.specs.inner.Openings.{IsOpening};
ghost use Rattle.dap_client.specs.inner.TextBodies.{IsTextBody, IsTextEnded, IsWrong};

use crate::das_body::{DasBody, LIMIT};
use crate::dds_body::DdsBody;
use crate::opening::Opening;
use dap_errors::ErrorObject;
use dap_types::{Dataset, Memory};
use das_text::Attributes;
use std::alloc::Global;
use xdr_decode::{AllRefusal, Bad, BadField};

/// What was read of the text.
#[derive(Drop)]
pub enum TextBody {
    Dds(DdsBody),
    /// Before the first token of a DDS is whole a DAS may still be an Error object.
    Das(Opening, DasBody),
}

/// What the bytes of a body are, where they end.
#[derive(Drop)]
pub enum TextEnded {
    Dds(Dataset),
    Das(Attributes),
    ServerError(ErrorObject),
    /// This is wrong first.
    Bad(BadField),
    Memory,
}

/// Of the body of a DDS.
fn end_dds(body: DdsBody, taken: u64) -> TextEnded
    ensures { (bytes : List ℕ) → length bytes ≡ taken → says_error bytes ≡ false → IsDdsBody bytes body → IsTextEnded dds_form bytes result }
{
    match body.finish(taken) {
        Ok(dataset) => TextEnded::Dds(dataset),
        Err(field) => TextEnded::Bad(field),
    }
}

/// Of the body of a DAS whose first token is whole, or that has as many bytes as its limit.
fn end_known(alloc: Global, body: DasBody, taken: u64) -> TextEnded
    ensures { (bytes : List ℕ) → length bytes ≡ taken → says_error bytes ≡ false → ¬ (tokens_of bytes ≡ []) ⊎ (limit ≤ length bytes) → IsDasBody bytes body → IsTextEnded das_form bytes result }
{
    match body.finish(alloc, taken) {
        Ok(attributes) => TextEnded::Das(attributes),
        Err(AllRefusal::Refused(field)) => TextEnded::Bad(field),
        Err(AllRefusal::Memory) => TextEnded::Memory,
    }
}

fn cut(taken: u64) -> TextEnded
    ensures { result ≡ TextEnded.Bad (record { kind = Cut; place = taken }) }
{
    TextEnded::Bad(BadField {
        kind: Bad::Cut,
        place: taken,
    })
}

/// Of the body of a DAS whose first token is not whole.
fn end_open(alloc: Global, body: DasBody, taken: u64) -> TextEnded
    ensures { (bytes : List ℕ) → length bytes ≡ taken → says_error bytes ≡ false → tokens_of bytes ≡ [] → IsDasBody bytes body → IsTextEnded das_form bytes result }
{
    if taken < LIMIT as u64 {
        return cut(taken);
    }
    end_known(alloc, body, taken)
}

/// Of the body of a DAS.
fn end_das(alloc: Global, opening: Opening, body: DasBody, taken: u64) -> TextEnded
    ensures { (bytes : List ℕ) → length bytes ≡ taken → says_error bytes ≡ false → IsOpening opening bytes → IsDasBody bytes body → IsTextEnded das_form bytes result }
{
    match opening {
        Opening::White => end_open(alloc, body, taken),
        Opening::Word => end_open(alloc, body, taken),
        Opening::Whole => end_known(alloc, body, taken),
    }
}

impl TextBody {
    /// Reads one more piece, which begins at this place.
    pub fn read(self, alloc: Global, place: u64, piece: &[u8]) -> Result<TextBody, Memory>
        requires stands { (form : Form) × (bytes : List ℕ) × (length bytes ≡ place) × IsTextBody form self bytes }
        requires small { place + length piece.now < 2 ^ 62 }
        ensures { (form : Form) (bytes : List ℕ) → length bytes ≡ place → IsTextBody form self bytes → IfOk result (λ body. IsTextBody form body (bytes ++ piece.now)) }
    {
        match self {
            TextBody::Dds(body) => Ok(TextBody::Dds(body.read(place, piece)?)),
            TextBody::Das(opening, body) => {
                let body = body.read(alloc, place, piece)?;
                Ok(TextBody::Das(opening.read(piece), body))
            }
        }
    }

    /// What is wrong, whatever follows.
    pub fn wrong(&self) -> Option<BadField>
        ensures { MatchOption result ⊤ (λ field. (form : Form) (bytes : List ℕ) → IsNoError bytes → IsTextBody form self.now bytes → IsWrong form field bytes) }
    {
        match self {
            TextBody::Dds(body) => body.wrong(),
            TextBody::Das(_, body) => body.wrong(),
        }
    }

    /// What a body is that ends here, behind so many bytes.
    pub fn ended(self, alloc: Global, taken: u64) -> TextEnded
        ensures { (form : Form) (bytes : List ℕ) → length bytes ≡ taken → says_error bytes ≡ false → IsTextBody form self bytes → IsTextEnded form bytes result }
    {
        match self {
            TextBody::Dds(body) => end_dds(body, taken),
            TextBody::Das(opening, body) => end_das(alloc, opening, body, taken),
        }
    }
}
