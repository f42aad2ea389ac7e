//! Whether a body is an Error object: its first word tells (DAP 2.0, Error objects).

ghost use Rattle.std.specs.Prelude.{◌≡◌, ℕ, List, [], ◌∷◌, ◌++◌, true, false};
ghost use Rattle.dap_model.specs.Tokens.{is_plain, is_white};
ghost use Rattle.error_word.specs.inner.FirstWords.{IsFoundIn, IsOpenWord};

use crate::bytes::{is_sign, is_white};

const ERROR: &[u8; 5] = b"error";

/// The front of a body whose first word may be `Error`: white space, and so many letters of it.
#[derive(Clone, Copy, Debug, PartialEq, Eq)]
pub struct FirstWord {
    letters: usize,
}

/// What the first word is.
#[derive(Clone, Copy, Debug, PartialEq, Eq)]
pub enum Found {
    /// It is not whole, and may be `Error`.
    Open(FirstWord),
    /// `Error`, in any case.
    Error,
    /// It is another word, or a sign.
    Other,
}

impl FirstWord {
    /// Of no bytes.
    #[tactic(auto, using(crate::proofs::FirstWords::first_words))]
    pub fn new() -> FirstWord
        ensures { IsOpenWord result [] }
    {
        FirstWord { letters: 0 }
    }

    /// With one more byte of a word.
    #[tactic(auto, using(crate::proofs::FirstWords::first_words))]
    fn letter(self, byte: u8) -> Found
        ensures { (bytes : List ℕ) → is_plain byte ≡ true → IsOpenWord self bytes → IsFoundIn (bytes ++ byte ∷ []) result }
    {
        if self.letters < 5 && byte.to_ascii_lowercase() == ERROR[self.letters] {
            Found::Open(FirstWord {
                letters: self.letters + 1,
            })
        } else {
            Found::Other
        }
    }

    /// With a byte that ends a word, which is a sign where none began.
    #[tactic(auto, using(crate::proofs::FirstWords::first_words))]
    fn ended(self, byte: u8) -> Found
        requires { self.letters ≡ 0 → is_white byte ≡ false }
        ensures { (bytes : List ℕ) → is_plain byte ≡ false → IsOpenWord self bytes → IsFoundIn (bytes ++ byte ∷ []) result }
    {
        if self.letters == 5 {
            Found::Error
        } else {
            Found::Other
        }
    }

    /// With one more byte.
    #[tactic(auto, using(crate::proofs::FirstWords::first_words, crate::proofs::FirstWords::word_bytes))]
    fn next(self, byte: u8) -> Found
        ensures { (bytes : List ℕ) → IsOpenWord self bytes → IsFoundIn (bytes ++ byte ∷ []) result }
    {
        if is_white(byte) {
            if self.letters == 0 {
                return Found::Open(self);
            }
            return self.ended(byte);
        }
        if is_sign(byte) {
            return self.ended(byte);
        }
        self.letter(byte)
    }

    /// With a piece behind it.
    pub fn read(self, piece: &[u8]) -> Found
        ensures { (bytes : List ℕ) → IsOpenWord self bytes → IsFoundIn (bytes ++ piece.now) result }
    {
        let mut word = self;
        for byte in piece {
            match word.next(*byte) {
                Found::Open(next) => word = next,
                Found::Error => return Found::Error,
                Found::Other => return Found::Other,
            }
        }
        Found::Open(word)
    }
}
