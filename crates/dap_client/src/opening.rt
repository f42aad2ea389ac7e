//! How much of its first token a body has (DAP 2.0, DDS).

ghost use Rattle.std.specs.Prelude.{◌≡◌, ℕ, List, [], ◌∷◌, ◌++◌};
ghost use Rattle.dap_client.specs.inner.Openings.{IsOpening};

use error_word::{is_sign, is_white};

/// What came of the first token.
#[derive(Clone, Copy, Debug, PartialEq, Eq)]
pub enum Opening {
    /// Nothing: white space alone.
    White,
    /// The front of a word.
    Word,
    /// All of it.
    Whole,
}

impl Opening {
    /// Of no bytes.
    pub fn new() -> Opening
        ensures { IsOpening result [] }
    {
        Opening::White
    }

    /// With a byte behind white space.
    fn first(byte: u8) -> Opening
        ensures { (bytes : List ℕ) → IsOpening Opening.White bytes → IsOpening result (bytes ++ byte ∷ []) }
    {
        if is_white(byte) {
            return Opening::White;
        }
        if is_sign(byte) {
            return Opening::Whole;
        }
        Opening::Word
    }

    /// With a byte behind the front of a word.
    fn later(byte: u8) -> Opening
        ensures { (bytes : List ℕ) → IsOpening Opening.Word bytes → IsOpening result (bytes ++ byte ∷ []) }
    {
        if is_white(byte) {
            return Opening::Whole;
        }
        if is_sign(byte) {
            return Opening::Whole;
        }
        Opening::Word
    }

    /// With one more byte.
    fn next(self, byte: u8) -> Opening
        ensures { (bytes : List ℕ) → IsOpening self bytes → IsOpening result (bytes ++ byte ∷ []) }
    {
        match self {
            Opening::White => Opening::first(byte),
            Opening::Word => Opening::later(byte),
            Opening::Whole => Opening::Whole,
        }
    }

    /// With a piece behind it.
    pub fn read(self, piece: &[u8]) -> Opening
        ensures { (bytes : List ℕ) → IsOpening self bytes → IsOpening result (bytes ++ piece.now) }
    {
        let mut opening = self;
        for byte in piece {
            match opening.next(*byte) {
                Opening::White => opening = Opening::White,
                Opening::Word => opening = Opening::Word,
                Opening::Whole => return Opening::Whole,
            }
        }
        opening
    }
}
