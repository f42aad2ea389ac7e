//! The reader of DAS texts.

ghost use Rattle.std.specs.Prelude.{◌≡◌, ◌≤◌, ◌⊎◌, ℕ, length, drop, IsTrue, IfOk, IfErr, MatchOption, MatchResult};
ghost use Rattle.std.specs.List.{list_all};
ghost use Rattle.text_tokens.specs.Tokens.{is_white};
ghost use Rattle.das_text.specs.Model.{Attributes as Said};
ghost use Rattle.das_text.specs.Reading.{DasOf, HasBehind, IsBad, IsCut, IsTrailing, front};
ghost use Rattle.das_text.specs.Refusals.{WhereBad, WhereCut, WhereTrailing};
ghost use Rattle.das_text.specs.View.{attributes_view};

use crate::Attributes;
use crate::refusal::DasRefusal;
use crate::scan::scan;
use crate::state::Stop;
use dap_types::limits;
use std::alloc::Global;
use text_tokens::white_end;

/// Within so many bytes a DAS has to end.
const LIMIT: usize = limits::MOST_TEXT;

fn front_of(text: &[u8]) -> &[u8]
    ensures { result.now ≡ front text.now }
{
    if text.len() > LIMIT {
        &text[..LIMIT]
    } else {
        text
    }
}

/// The first place from one on at which something else than white space stands.
fn stray(text: &[u8], behind: usize) -> Option<usize>
    requires { behind ≤ length text.now }
    ensures { MatchOption result (IsTrue (list_all is_white (drop behind text.now))) (HasBehind text.now behind) }
{
    let end = white_end(text, behind);
    if end == text.len() {
        return None;
    }
    Some(end)
}

impl DasRefusal {
    fn bad_at(place: usize) -> DasRefusal
        ensures { result ≡ DasRefusal.Bad place }
    {
        DasRefusal::Bad {
            place: place as u64,
        }
    }

    fn trailing_at(place: usize) -> DasRefusal
        ensures { result ≡ DasRefusal.Trailing place }
    {
        DasRefusal::Trailing {
            place: place as u64,
        }
    }
}

fn read_text(alloc: Global, text: &[u8]) -> Result<Attributes, DasRefusal>
    ensures das { IfOk result (λ a. DasOf text.now (attributes_view a)) }
    ensures bad { IfErr result (WhereBad (IsBad text.now)) }
    ensures trailing { IfErr result (WhereTrailing (IsTrailing text.now)) }
    ensures cut { IfErr result (WhereCut (IsCut text.now)) }
{
    match scan(alloc, front_of(text)) {
        Ok((attributes, behind)) => match stray(text, behind) {
            None => Ok(attributes),
            Some(place) => Err(DasRefusal::trailing_at(place)),
        },
        Err(Stop::Bad(place)) => Err(DasRefusal::bad_at(place)),
        Err(Stop::End) => {
            if text.len() < LIMIT {
                Err(DasRefusal::Cut)
            } else {
                Err(DasRefusal::bad_at(LIMIT))
            }
        }
        Err(Stop::Memory) => Err(DasRefusal::Memory),
    }
}

/// The attributes that a text says (DAP 2.0, DAS). The names of types may be in any case, and
/// containers are nested at most 16 deep.
pub fn read(alloc: Global, text: &[u8]) -> Result<Attributes, DasRefusal>
    ensures das { IfOk result (λ a. DasOf text.now (attributes_view a)) }
    ensures bad { IfErr result (WhereBad (IsBad text.now)) }
    ensures trailing { IfErr result (WhereTrailing (IsTrailing text.now)) }
    ensures cut { IfErr result (WhereCut (IsCut text.now)) }

    // Each of these is answered, unless memory is wanted.
    ensures read { (a : Said) → DasOf text.now a → MatchResult result (λ found. attributes_view found ≡ a) (λ refusal. refusal ≡ DasRefusal.Memory) }
    ensures refused { (place : ℕ) → IsBad text.now place → MatchResult result (λ _. ⊥) (λ refusal. (refusal ≡ DasRefusal.Bad place) ⊎ (refusal ≡ DasRefusal.Memory)) }
    ensures followed { (place : ℕ) → IsTrailing text.now place → MatchResult result (λ _. ⊥) (λ refusal. (refusal ≡ DasRefusal.Trailing place) ⊎ (refusal ≡ DasRefusal.Memory)) }
    ensures broken_off { IsCut text.now → MatchResult result (λ _. ⊥) (λ refusal. (refusal ≡ DasRefusal.Cut) ⊎ (refusal ≡ DasRefusal.Memory)) }
{
    read_text(alloc, text)
}
