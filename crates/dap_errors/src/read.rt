//! The reader of Error objects.

ghost use Rattle.std.specs.Prelude.{◌≡◌, ◌⊎◌, ℕ, IfOk, IfErr, MatchResult};
ghost use Rattle.dap_errors.specs.declared.object.ErrorObject.{ErrorObject};
ghost use Rattle.dap_errors.specs.Reading.{front, ErrorOf, IsBad, IsCut};
ghost use Rattle.dap_errors.specs.Refusals.{WhereBad, WhereCut};

use crate::fields::object;
use crate::object::Stop;
use crate::stray::stray;
use crate::{ErrorObject, ErrorRefusal};
use dap_types::limits;
use std::alloc::Global;

/// Within so many bytes an object has to end.
const LIMIT: usize = limits::MOST_ERROR;

fn front_of(text: &[u8]) -> &[u8]
    ensures { result.now ≡ front text.now }
{
    if text.len() > LIMIT {
        &text[..LIMIT]
    } else {
        text
    }
}

impl ErrorRefusal {
    fn at(place: usize) -> ErrorRefusal
        ensures { result ≡ ErrorRefusal.Bad place }
    {
        ErrorRefusal::Bad {
            place: place as u64,
        }
    }
}

fn read(alloc: Global, text: &[u8]) -> Result<ErrorObject, ErrorRefusal>
    ensures object { IfOk result (ErrorOf text.now) }
    ensures bad { IfErr result (WhereBad (IsBad text.now)) }
    ensures cut { IfErr result (WhereCut (IsCut text.now)) }
{
    match object(alloc, front_of(text)) {
        Ok((object, behind)) => match stray(text, behind) {
            None => Ok(object),
            Some(place) => Err(ErrorRefusal::at(place)),
        },
        Err(Stop::Bad(place)) => Err(ErrorRefusal::at(place)),
        Err(Stop::End) => {
            if text.len() < LIMIT {
                Err(ErrorRefusal::Cut)
            } else {
                Err(ErrorRefusal::at(LIMIT))
            }
        }
        Err(Stop::Memory) => Err(ErrorRefusal::Memory),
    }
}

/// What the text of an Error object says (DAP 2.0, Error objects). The words `Error`, `code` and
/// `message` may be in any case, and other fields are passed over.
pub fn read_error(alloc: Global, text: &[u8]) -> Result<ErrorObject, ErrorRefusal>
    ensures object { IfOk result (ErrorOf text.now) }
    ensures bad { IfErr result (WhereBad (IsBad text.now)) }
    ensures cut { IfErr result (WhereCut (IsCut text.now)) }

    // Each of these is answered, unless memory is wanted.
    ensures read { (error : ErrorObject) → ErrorOf text.now error → MatchResult result (λ found. found ≡ error) (λ refusal. refusal ≡ ErrorRefusal.Memory) }
    ensures refused { (place : ℕ) → IsBad text.now place → MatchResult result (λ _. ⊥) (λ refusal. (refusal ≡ ErrorRefusal.Bad place) ⊎ (refusal ≡ ErrorRefusal.Memory)) }
    ensures broken_off { IsCut text.now → MatchResult result (λ _. ⊥) (λ refusal. (refusal ≡ ErrorRefusal.Cut) ⊎ (refusal ≡ ErrorRefusal.Memory)) }
{
    read(alloc, text)
}
