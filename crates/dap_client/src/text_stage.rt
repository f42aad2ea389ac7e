//! The stages of a body that is a DDS or a DAS, or an Error object in its place (DAP 2.0). Each takes a
//! piece and says which stage stands behind it.

ghost use Rattle.std.specs.Prelude.{◌≡◌, ℕ, ◌+◌, ◌^◌, ◌<◌, ◌≤◌, List, [], ◌++◌, length, take};
ghost use Rattle.dap_errors.specs.Reading.{limit};
ghost use Rattle.dap_client.specs.Verdict.{Form};
ghost use Rattle.error_word.specs.inner.FirstWords.{IsError, IsNoError, IsOpenWord};
ghost use Rattle.dap_client.specs.inner.Beginnings.{IsInObject};
ghost use Rattle.dap_client.specs.inner.Objects.{IsObjectOf};
ghost use Rattle.dap_client.specs.inner.TextBodies.{IsTextBody, IsTextEnded, IsTextStage};

use crate::beginning::{self, Beginning, InObject};
use crate::object::Object;
use crate::text_body::{TextBody, TextEnded};
use dap_errors::{ErrorRefusal, read_error};
use dap_types::Memory;
use error_word::FirstWord;
use std::alloc::Global;
use xdr_decode::{Bad, BadField};

/// How far the reader of such a body is.
#[derive(Drop)]
pub enum TextStage {
    /// In white space or in a word that may be `Error`: the first bytes, as many as an Error object may
    /// have, and the text, if it is none.
    First(FirstWord, Vec<u8>, TextBody),
    /// In an Error object.
    Error(Object),
    /// In the text.
    Text(TextBody),
    /// This is wrong.
    Wrong(BadField),
    /// Memory was wanted.
    Spent,
}

fn bad(kind: Bad, place: u64) -> TextEnded
    ensures { result ≡ TextEnded.Bad (record { kind = kind; place = place }) }
{
    TextEnded::Bad(BadField { kind, place })
}

fn bad_error(place: u64) -> TextStage
    ensures { (form : Form) (bytes : List ℕ) → IsError bytes → IsObjectOf bytes (Object.Bad place) → IsTextStage form result bytes }
{
    TextStage::Wrong(BadField {
        kind: Bad::BadError,
        place,
    })
}

/// The stage that a piece of an Error object leads to.
fn in_object(read: InObject) -> TextStage
    ensures { (form : Form) (bytes : List ℕ) → IsInObject read bytes → IsTextStage form result bytes }
{
    match read {
        InObject::Open(object) => TextStage::Error(object),
        InObject::Bad(place) => bad_error(place),
        InObject::Spent => TextStage::Spent,
    }
}

/// Reads a piece of the text, which begins at this place.
fn read_text(alloc: Global, text: TextBody, place: u64, piece: &[u8]) -> TextStage
    requires stands { (form : Form) × (bytes : List ℕ) × (length bytes ≡ place) × IsTextBody form text bytes }
    requires small { place + length piece.now < 2 ^ 62 }
    ensures { (form : Form) (bytes : List ℕ) → length bytes ≡ place → IsNoError (bytes ++ piece.now) → IsTextBody form text bytes → IsTextStage form result (bytes ++ piece.now) }
{
    let Ok(text) = text.read(alloc, place, piece) else {
        return TextStage::Spent;
    };
    match text.wrong() {
        Some(field) => TextStage::Wrong(field),
        None => TextStage::Text(text),
    }
}

/// Waits for more of the first word, whose piece the reader of the text has as well.
fn wait(
    alloc: Global,
    word: FirstWord,
    front: Vec<u8>,
    text: TextBody,
    place: u64,
    piece: &[u8],
) -> TextStage
    requires stands { (form : Form) × (bytes : List ℕ) × (length bytes ≡ place) × IsTextBody form text bytes }
    requires small { place + length piece.now < 2 ^ 62 }
    ensures { (form : Form) (bytes : List ℕ) → length bytes ≡ place → IsOpenWord word (bytes ++ piece.now) → front.items ≡ take limit (bytes ++ piece.now) → IsTextBody form text bytes →
        IsTextStage form result (bytes ++ piece.now) }
{
    match text.read(alloc, place, piece) {
        Ok(text) => TextStage::First(word, front, text),
        Err(Memory) => TextStage::Spent,
    }
}

/// Reads a piece before the first word is known, which begins at this place.
fn read_first(
    alloc: Global,
    word: FirstWord,
    front: Vec<u8>,
    text: TextBody,
    place: u64,
    piece: &[u8],
) -> TextStage
    requires stands { (form : Form) × (bytes : List ℕ) × (length bytes ≡ place) × IsOpenWord word bytes × (front.items ≡ take limit bytes) × IsTextBody form text bytes }
    requires small { place + length piece.now < 2 ^ 62 }
    ensures { (form : Form) (bytes : List ℕ) → length bytes ≡ place → IsOpenWord word bytes → front.items ≡ take limit bytes → IsTextBody form text bytes →
        IsTextStage form result (bytes ++ piece.now) }
{
    match beginning::read_first(alloc, word, front, place, piece) {
        Beginning::Open(word, front) => wait(alloc, word, front, text, place, piece),
        Beginning::Error(read) => in_object(read),
        Beginning::Other => read_text(alloc, text, place, piece),
        Beginning::Spent => TextStage::Spent,
    }
}

/// What an Error object is that ends here, behind so many bytes.
fn end_object(alloc: Global, object: Object, taken: u64) -> TextEnded
    ensures { (form : Form) (bytes : List ℕ) → length bytes ≡ taken → IsError bytes → IsObjectOf bytes object → IsTextEnded form bytes result }
{
    match object {
        Object::Front(front) => match read_error(alloc, front.as_slice()) {
            Ok(object) => TextEnded::ServerError(object),
            Err(ErrorRefusal::Bad { place }) => bad(Bad::BadError, place),
            Err(ErrorRefusal::Cut) => bad(Bad::Cut, taken),
            Err(ErrorRefusal::Memory) => TextEnded::Memory,
        },
        Object::Behind(object, _) => TextEnded::ServerError(object),
        Object::Bad(place) => bad(Bad::BadError, place),
    }
}

impl TextStage {
    /// Before any byte.
    pub fn new(alloc: Global, text: TextBody) -> TextStage
        ensures { (form : Form) → IsTextBody form text [] → IsTextStage form result [] }
    {
        TextStage::First(FirstWord::new(), Vec::new(alloc), text)
    }

    /// Reads one more piece, which begins at this place.
    pub fn read(self, alloc: Global, place: u64, piece: &[u8]) -> TextStage
        requires stands { (form : Form) × (bytes : List ℕ) × (length bytes ≡ place) × IsTextStage form self bytes }
        requires small { place + length piece.now < 2 ^ 62 }
        ensures { (form : Form) (bytes : List ℕ) → length bytes ≡ place → IsTextStage form self bytes → IsTextStage form result (bytes ++ piece.now) }
    {
        match self {
            TextStage::First(word, front, text) => {
                read_first(alloc, word, front, text, place, piece)
            }
            TextStage::Error(object) => {
                in_object(beginning::read_object(alloc, object, place, piece))
            }
            TextStage::Text(text) => read_text(alloc, text, place, piece),
            TextStage::Wrong(field) => TextStage::Wrong(field),
            TextStage::Spent => TextStage::Spent,
        }
    }

    /// What a body is that ends here, behind so many bytes.
    pub fn ended(self, alloc: Global, taken: u64) -> TextEnded
        ensures { (form : Form) (bytes : List ℕ) → length bytes ≡ taken → IsTextStage form self bytes → IsTextEnded form bytes result }
    {
        match self {
            TextStage::First(_, _, text) => text.ended(alloc, taken),
            TextStage::Error(object) => end_object(alloc, object, taken),
            TextStage::Text(text) => text.ended(alloc, taken),
            TextStage::Wrong(field) => TextEnded::Bad(field),
            TextStage::Spent => TextEnded::Memory,
        }
    }
}
