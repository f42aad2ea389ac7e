//! The first word of a body and an Error object behind it, piece by piece (DAP 2.0, Error objects): the same whatever
//! else the body may be. Each call takes a piece, which begins at a place, and says what stands behind it.

ghost use Rattle.std.specs.Prelude.{◌≡◌, ℕ, ◌+◌, ◌^◌, ◌<◌, ◌≤◌, List, ◌++◌, length, take, IfOk};
ghost use Rattle.dap_types.specs.Limits.{most_error};
ghost use Rattle.dap_errors.specs.Reading.{limit};
ghost use Rattle.dap_client.specs.inner.Beginnings.{IsBeginning, IsInObject};
ghost use Rattle.dap_client.specs.inner.Objects.{IsObjectOf};
ghost use Rattle.error_word.specs.inner.FirstWords.{IsError, IsOpenWord};

use crate::object::{LIMIT, Object};
use dap_types::Memory;
use error_word::{FirstWord, Found};
use std::alloc::Global;

/// What a piece made of an Error object.
#[derive(Drop)]
pub enum InObject {
    /// It goes on, or nothing is wrong behind it.
    Open(Object),
    /// Here it is bad.
    Bad(u64),
    /// Memory was wanted.
    Spent,
}

/// What a piece made of the beginning of a body.
#[derive(Drop)]
pub enum Beginning {
    /// White space or a word that may be `Error`: the first bytes, as many as an Error object may have.
    Open(FirstWord, Vec<u8>),
    /// The first word is `Error`.
    Error(InObject),
    /// It is another.
    Other,
    /// Memory was wanted.
    Spent,
}

/// Reads a piece of an Error object.
pub fn read_object(alloc: Global, object: Object, place: u64, piece: &[u8]) -> InObject
    requires stands { (bytes : List ℕ) × (length bytes ≡ place) × IsObjectOf bytes object }
    requires small { place + length piece.now < 2 ^ 63 }
    ensures { (bytes : List ℕ) → length bytes ≡ place → IsError (bytes ++ piece.now) → IsObjectOf bytes object → IsInObject result (bytes ++ piece.now) }
{
    match object.read(alloc, place, piece) {
        Ok(Object::Bad(place)) => InObject::Bad(place),
        Ok(object) => InObject::Open(object),
        Err(Memory) => InObject::Spent,
    }
}

/// Goes on with an Error object, of whose front this much was kept.
fn begin_object(
    alloc: Global,
    word: FirstWord,
    front: Vec<u8>,
    place: u64,
    piece: &[u8],
) -> InObject
    requires stands { (bytes : List ℕ) × (length bytes ≡ place) × IsOpenWord word bytes × (front.items ≡ take limit bytes) }
    requires small { place + length piece.now < 2 ^ 63 }
    ensures { (bytes : List ℕ) → length bytes ≡ place → IsOpenWord word bytes → front.items ≡ take limit bytes → IsError (bytes ++ piece.now) → IsInObject result (bytes ++ piece.now) }
{
    if front.len() == LIMIT {
        return InObject::Bad(LIMIT as u64);
    }
    read_object(alloc, Object::Front(front), place, piece)
}

/// Keeps the bytes of a piece for which there is room in the front of an Error object.
#[tactic(auto, using(crate::proofs::Waiting::keep_short, crate::proofs::Waiting::keep_full))]
fn keep(front: &mut Vec<u8>, piece: &[u8]) -> Result<(), Memory>
    requires { length front.old.items ≤ most_error }
    ensures { (bytes : List ℕ) → front.old.items ≡ take limit bytes → IfOk result (λ _. front.new.items ≡ take limit (bytes ++ piece.now)) }
{
    let room = LIMIT - front.len();
    if piece.len() < room {
        front.extend_from_slice(piece)?;
        return Ok(());
    }
    front.extend_from_slice(&piece[..room])?;
    Ok(())
}

/// Waits for more of the first word.
fn wait(word: FirstWord, front: Vec<u8>, piece: &[u8]) -> Beginning
    requires { length front.items ≤ most_error }
    ensures { (bytes : List ℕ) → IsOpenWord word (bytes ++ piece.now) → front.items ≡ take limit bytes → IsBeginning result (bytes ++ piece.now) }
{
    let mut front = front;
    match keep(&mut front, piece) {
        Ok(()) => Beginning::Open(word, front),
        Err(Memory) => Beginning::Spent,
    }
}

/// Reads a piece before the first word is known.
pub fn read_first(
    alloc: Global,
    word: FirstWord,
    front: Vec<u8>,
    place: u64,
    piece: &[u8],
) -> Beginning
    requires stands { (bytes : List ℕ) × (length bytes ≡ place) × IsOpenWord word bytes × (front.items ≡ take limit bytes) }
    requires small { place + length piece.now < 2 ^ 63 }
    ensures { (bytes : List ℕ) → length bytes ≡ place → IsOpenWord word bytes → front.items ≡ take limit bytes → IsBeginning result (bytes ++ piece.now) }
{
    match word.read(piece) {
        Found::Open(word) => wait(word, front, piece),
        Found::Error => Beginning::Error(begin_object(alloc, word, front, place, piece)),
        Found::Other => Beginning::Other,
    }
}
