//! What a token says.

ghost use Rattle.std.specs.Prelude.{◌≡◌, ℕ, ◌+◌, ◌≤◌, List, length, IfOk};
ghost use Rattle.viable.specs.Quoted.{Piece, quoted_value};
ghost use Rattle.text_tokens.specs.Tokens.{word, quoted, TokenAt};

use crate::Token;
use std::alloc::{AllocError, Global};
use viable::unescaped;

impl Token {
    /// The bytes of a word.
    #[tactic(auto, using(crate::proofs::Slices::word_slice))]
    pub fn word<'t>(&self, text: &'t [u8]) -> &'t [u8]
        requires { (self.now.place ≤ self.now.behind) × (self.now.behind ≤ length text.now) }
        ensures { (signs bytes : List ℕ) → TokenAt signs text.now self.now.place self.now.behind (word bytes) → result.now ≡ bytes }
    {
        &text[self.place..self.behind]
    }

    /// What stands between the quotes of a quoted text, without its escapes. Fails where memory is
    /// wanted.
    pub fn quoted(&self, alloc: Global, text: &[u8]) -> Result<Vec<u8>, AllocError>
        requires { (self.now.place + 2 ≤ self.now.behind) × (self.now.behind ≤ length text.now) }
        ensures { IfOk result (λ value. (signs : List ℕ) (pieces : List Piece) → TokenAt signs text.now self.now.place self.now.behind (quoted pieces) → value.items ≡ quoted_value pieces) }
    {
        unescaped(alloc, &text[self.place + 1..self.behind - 1])
    }
}
