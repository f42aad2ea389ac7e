//! From pieces of a DDS to its tokens.

ghost use Rattle.std.specs.Prelude.{◌≡◌, ℕ, ◌+◌, ◌<◌, ◌≤◌, List, [], ◌++◌, false, length, None, IfOk, MatchBool};
ghost use Rattle.dds_text.specs.inner.States.{State};
ghost use Rattle.dds_text.specs.inner.Standing.{Holds, IsFound, IsFoundAt, IsPlaced, IsRead, IsReadTo, IsTaken, LeadsTo, after_sign, after_word};
ghost use Rattle.dap_model.specs.Tokens.{is_plain};

use crate::front::{Found, Front, LIMIT};
use crate::parser::{Parser, Taken};
use crate::words::{is_plain, is_sign};
use dap_types::Memory;
use std::alloc::Global;
use text_lines::put;

/// Takes the word that a piece holds whole, if there is one, and says whether it is good.
fn take_part(parser: &mut Parser, part: &[u8]) -> Result<bool, Memory>
    ensures { (s : State) → Holds parser.old s → let next = after_word part.now s in
        IfOk result (λ good. MatchBool good (LeadsTo parser.new next) (next ≡ None)) }
{
    if part.is_empty() {
        return Ok(true);
    }
    parser.take_word(part)
}

/// Takes the word that ends with this part, if there is one, and says whether it is good.
#[tactic(auto, using(crate::proofs::Stops::ends))]
fn end_word(parser: &mut Parser, word: &mut Vec<u8>, part: &[u8]) -> Result<bool, Memory>
    ensures { (s : State) → Holds parser.old s → let next = after_word (word.old.items ++ part.now) s in
        IfOk result (λ good. MatchBool good (LeadsTo parser.new next × (word.new.items ≡ [])) (next ≡ None)) }
{
    if word.is_empty() {
        return take_part(parser, part);
    }
    put(word, part)?;
    let good = parser.take_word(word.as_slice())?;
    word.clear();
    Ok(good)
}

/// Takes a byte behind a word.
fn take_sign(parser: &mut Parser, byte: u8) -> Result<Taken, Memory>
    ensures { (s : State) → Holds parser.old s →
        IfOk result (IsTaken parser.new byte (after_sign byte s)) }
{
    if is_sign(byte) {
        return parser.take_sign(byte);
    }
    Ok(Taken::Next)
}

impl Front {
    /// Nothing.
    pub fn new(alloc: Global) -> Front
        ensures { IsRead result [] }
    {
        Front {
            length: 0,
            began: 0,
            word: Vec::new(alloc),
            parser: Parser::new(alloc),
        }
    }

    /// Takes the word that ends with this part, if there is one, and the byte behind it, at this
    /// index of a piece.
    fn stop(&mut self, part: &[u8], byte: u8, i: usize) -> Result<Found, Memory>
        requires { self.old.length + i < LIMIT }
        ensures stays { self.new.length ≡ self.old.length }
        ensures place { IfOk result IsPlaced }
        ensures found { (text more : List ℕ) → IsReadTo self.old part.now text → length text ≡ self.old.length + i → is_plain byte ≡ false →
            IfOk result (IsFoundAt self.new text byte more i) }
    {
        if !end_word(&mut self.parser, &mut self.word, part)? {
            return Ok(Found::Bad(self.began));
        }
        match take_sign(&mut self.parser, byte)? {
            Taken::Next => {
                self.began = self.length + i + 1;
                Ok(Found::Nothing)
            }
            Taken::Bad => Ok(Found::Bad(self.length + i)),
            Taken::Done(dataset) => Ok(Found::Done(i + 1, dataset)),
        }
    }

    /// Reads a piece behind the bytes that were read before it.
    pub fn read(&mut self, piece: &[u8]) -> Result<Found, Memory>
        requires { self.old.length + length piece.now ≤ LIMIT }
        ensures place { IfOk result IsPlaced }
        ensures found { (text : List ℕ) → IsRead self.old text →
            IfOk result (IsFound self.new text piece.now) }
    {
        let mut from = 0;
        for (i, byte) in piece.iter().enumerate() {
            if is_plain(*byte) {
                continue;
            }
            match self.stop(&piece[from..i], *byte, i)? {
                Found::Nothing => from = i + 1,
                Found::Bad(place) => return Ok(Found::Bad(place)),
                Found::Done(used, dataset) => return Ok(Found::Done(used, dataset)),
            }
        }
        put(&mut self.word, &piece[from..])?;
        self.length += piece.len();
        Ok(Found::Nothing)
    }
}
