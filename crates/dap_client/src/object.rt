//! An Error object that comes in pieces (DAP 2.0, Error objects).

ghost use Rattle.std.specs.Prelude.{◌≡◌, ℕ, ◌+◌, ◌^◌, ◌<◌, ◌≤◌, List, [], ◌++◌, ◌∷◌, true, false, not, length, IfOk, MatchOption};
ghost use Rattle.dap_types.specs.Limits.{most_error};
ghost use Rattle.dap_errors.specs.Reading.{ErrorOf, IsBad, limit};
ghost use Rattle.dap_errors.specs.declared.object.ErrorObject.{ErrorObject as ErrorValue};
ghost use Rattle.dap_client.specs.inner.Objects.{IsBehind, IsObjectOf, IsShort};

use dap_errors::{ErrorObject, ErrorRefusal, read_error};
use dap_types::{Memory, limits};
use error_word::is_white;
use std::alloc::Global;

/// Within so many bytes an object has to end.
pub const LIMIT: usize = limits::MOST_ERROR;

/// What was read of an Error object.
#[derive(Drop)]
pub enum Object {
    /// Its bytes, fewer than the limit.
    Front(Vec<u8>),
    /// It ended within the limit, and nothing is wrong behind it; whether a semicolon came there.
    Behind(ErrorObject, bool),
    /// Here it is bad.
    Bad(u64),
}

/// Whether a semicolon may stand behind the object that a text is.
#[tactic(auto, using(crate::proofs::Objects::open_trail, crate::proofs::Objects::closed_trail))]
fn takes_semicolon(alloc: Global, front: Vec<u8>) -> Result<bool, Memory>
    requires { length front.items ≡ most_error }
    ensures { (error : ErrorValue) → ErrorOf front.items error → IfOk result (λ may. IsBehind front.items error (not may)) }
{
    let mut front = front;
    front.push(b';')?;
    match read_error(alloc, front.as_slice()) {
        Ok(_) => Ok(true),
        Err(ErrorRefusal::Memory) => Err(Memory),
        Err(ErrorRefusal::Bad { place: _ }) => Ok(false),
        Err(ErrorRefusal::Cut) => Ok(false),
    }
}

/// Reads an object that was gathered up to the limit.
#[tactic(auto, using(crate::proofs::Objects::bad_stays))]
fn judged(alloc: Global, front: Vec<u8>) -> Result<Object, Memory>
    requires { length front.items ≡ most_error }
    ensures object { IfOk result (IsObjectOf front.items) }
    ensures short { IfOk result IsShort }
{
    match read_error(alloc, front.as_slice()) {
        Ok(object) => {
            let open = takes_semicolon(alloc, front)?;
            Ok(Object::Behind(object, !open))
        }
        Err(ErrorRefusal::Bad { place }) => Ok(Object::Bad(place)),
        Err(ErrorRefusal::Memory) => Err(Memory),
        Err(ErrorRefusal::Cut) => unreachable!(),
    }
}

/// Whether a semicolon came once one more byte came behind an object. There is none where the byte may
/// not stand there.
#[tactic(auto, using(crate::proofs::Objects::trail_white, crate::proofs::Objects::trail_semicolon))]
fn with_byte(semicolon: bool, byte: u8) -> Option<bool>
    ensures { (bytes : List ℕ) (error : ErrorValue) → IsBehind bytes error semicolon →
        MatchOption result ((more : List ℕ) → IsBad (bytes ++ byte ∷ more) (length bytes)) (λ came. IsBehind (bytes ++ byte ∷ []) error came) }
{
    if is_white(byte) {
        return Some(semicolon);
    }
    if byte != b';' || semicolon {
        return None;
    }
    Some(true)
}

/// Looks at what follows an object. The piece begins at this place.
fn trail(object: ErrorObject, semicolon: bool, place: u64, piece: &[u8]) -> Object
    requires { place + length piece.now < 2 ^ 64 }
    ensures object { (bytes : List ℕ) → length bytes ≡ place → IsBehind bytes object semicolon → IsObjectOf (bytes ++ piece.now) result }
    ensures short { IsShort result }
{
    let mut semicolon = semicolon;
    for (at, byte) in piece.iter().enumerate() {
        match with_byte(semicolon, *byte) {
            Some(came) => semicolon = came,
            None => return Object::Bad(place + at as u64),
        }
    }
    Object::Behind(object, semicolon)
}

/// Gathers a piece behind the bytes of an object.
fn gather(alloc: Global, front: Vec<u8>, piece: &[u8]) -> Result<Object, Memory>
    requires { length front.items < most_error }
    ensures object { IfOk result (IsObjectOf (front.items ++ piece.now)) }
    ensures short { IfOk result IsShort }
{
    let mut front = front;
    let room = LIMIT - front.len();
    if piece.len() < room {
        front.extend_from_slice(piece)?;
        return Ok(Object::Front(front));
    }
    front.extend_from_slice(&piece[..room])?;
    Ok(judged(alloc, front)?.followed(LIMIT as u64, &piece[room..]))
}

impl Object {
    /// What follows a piece of the object, where that begins at this place.
    fn followed(self, place: u64, piece: &[u8]) -> Object
        requires { place + length piece.now < 2 ^ 64 }
        ensures object { (bytes : List ℕ) → length bytes ≡ place → limit ≤ length bytes → IsObjectOf bytes self → IsObjectOf (bytes ++ piece.now) result }
        ensures short { IsShort self → IsShort result }
    {
        match self {
            Object::Behind(object, semicolon) => trail(object, semicolon, place, piece),
            Object::Bad(place) => Object::Bad(place),
            Object::Front(front) => Object::Front(front),
        }
    }

    /// Reads one more piece, which begins at this place.
    pub fn read(self, alloc: Global, place: u64, piece: &[u8]) -> Result<Object, Memory>
        requires small { place + length piece.now < 2 ^ 64 }
        requires short { IsShort self }
        ensures object { (bytes : List ℕ) → length bytes ≡ place → IsObjectOf bytes self → IfOk result (IsObjectOf (bytes ++ piece.now)) }
        ensures short { IfOk result IsShort }
    {
        match self {
            Object::Front(front) => gather(alloc, front, piece),
            Object::Behind(object, semicolon) => Ok(trail(object, semicolon, place, piece)),
            Object::Bad(place) => Ok(Object::Bad(place)),
        }
    }
}
