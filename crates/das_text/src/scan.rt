//! The tokens of a DAS, one after the other.

ghost use Rattle.std.specs.Prelude.{◌≡◌, ◌+◌, ◌<◌, ◌≤◌, ℕ, List, length, drop, IfOk, MatchResult, option_map};
ghost use Rattle.viable.specs.Quoted.{Piece, quoted_value};
ghost use Rattle.text_tokens.specs.Kinds.{IsKind};
ghost use Rattle.text_tokens.specs.Tokens.{Token as AnyToken, TokenAt, Next, NoToken, quoted};
ghost use Rattle.das_text.specs.Grammar.{signs};
ghost use Rattle.das_text.specs.inner.Held.{state_view};
ghost use Rattle.das_text.specs.inner.Machine.{ended, step};
ghost use Rattle.das_text.specs.inner.Standing.{Stands, StopsAt};
ghost use Rattle.das_text.specs.View.{attributes_view};

use crate::Attributes;
use crate::levels::Levels;
use crate::state::{State, Stop};
use crate::steps::{step_by_quoted, step_by_sign, step_by_word};
use dap_types::{Bytes, Memory};
use std::alloc::{AllocError, Global};
use text_tokens::{Kind, Token, next_token};

/// The next whole token.
fn wanted(text: &[u8], at: usize) -> Result<Token, Stop>
    requires { at ≤ length text.now }
    ensures within { IfOk result (λ t. (at ≤ t.place) × (t.place < t.behind) × (t.behind ≤ length text.now)) }
    ensures quotes { IfOk result (λ t. t.kind ≡ Kind.Quoted → t.place + 2 ≤ t.behind) }
    ensures token { MatchResult result (λ t. (token : AnyToken) × IsKind t.kind token × Next signs text.now at t.place t.behind token) (λ stop. (stop ≡ Stop.End) × NoToken signs (drop at text.now)) }
{
    match next_token(b"{};,", text, at) {
        Some(token) => Ok(token),
        None => Err(Stop::End),
    }
}

/// What stands between the quotes of a quoted text, without its escapes.
fn unquoted(alloc: Global, text: &[u8], token: &Token) -> Result<Vec<u8>, AllocError>
    requires { (token.now.place + 2 ≤ token.now.behind) × (token.now.behind ≤ length text.now) }
    ensures { IfOk result (λ value. (signs : List ℕ) (pieces : List Piece) → TokenAt signs text.now token.now.place token.now.behind (quoted pieces) → value.items ≡ quoted_value pieces) }
{
    token.quoted(alloc, text)
}

/// The state behind a token of the text, unless it is bad.
fn next_state(
    levels: &mut Levels,
    state: State,
    text: &[u8],
    token: &Token,
) -> Result<Option<State>, Memory>
    requires within { (token.now.place < token.now.behind) × (token.now.behind ≤ length text.now) }
    requires quotes { token.now.kind ≡ Kind.Quoted → token.now.place + 2 ≤ token.now.behind }
    ensures { (t : AnyToken) → IsKind token.now.kind t → TokenAt signs text.now token.now.place token.now.behind t →
        IfOk result (λ next. option_map (state_view levels.new) next ≡ step (state_view levels.old state) t) }
{
    match token.kind {
        Kind::Sign(sign) => step_by_sign(levels, state, sign),
        Kind::Word => step_by_word(levels, state, token.word(text)),
        Kind::Quoted => {
            let value = unquoted(levels.alloc, text, token)?;
            step_by_quoted(levels, state, Bytes::from_vec(value))
        }
    }
}

/// Why the reading stops at a token: it is bad at its first byte.
fn bad_token(token: &Token) -> Stop
    ensures { result ≡ Stop.Bad token.now.place }
{
    Stop::Bad(token.place)
}

/// The DAS at the front of a text, and the place behind it.
pub fn scan(alloc: Global, text: &[u8]) -> Result<(Attributes, usize), Stop>
    ensures within { IfOk result (λ r. r.1 ≤ length text.now) }
    ensures stands { MatchResult result (λ r. Stands text.now r.1 (ended (attributes_view r.0))) (StopsAt text.now) }
{
    let mut levels = Levels::new(alloc);
    let mut state = State::Begun;
    let mut at = 0;
    'tokens: loop {
        if let State::Ended(attributes) = state {
            return Ok((attributes, at));
        }
        let token = wanted(text, at)?;
        match next_state(&mut levels, state, text, &token)? {
            Some(next) => {
                state = next;
                at = token.behind;
            }
            None => return Err(bad_token(&token)),
        }
    }
}
