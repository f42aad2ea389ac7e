//! Quoted texts.

ghost use Rattle.std.specs.Prelude.{◌≡◌, ◌+◌, ◌<◌, List as Items, length, IfOk, MatchResult, slice_index};
ghost use Rattle.viable.specs.Quoted.{quoted_value, Piece};
ghost use Rattle.constraint_parse.specs.Language.{quoted};
ghost use Rattle.constraint_parse.specs.inner.Machine.{State};
ghost use Rattle.constraint_parse.specs.inner.Standing.{StandsAt, IsPlace, StandsBehind, ReadsValue};
ghost use Rattle.constraint_parse.specs.Refusals.{Refuses};

use crate::ParseRefusal;
use crate::scan::{is_at, skip_blanks};
use dap_types::Bytes;
use std::alloc::Global;
use viable::{pieces_end, unescaped};

/// A quoted text behind its quote, and the place behind it.
pub fn quoted_text(alloc: Global, text: &[u8], quote: usize) -> Result<(Bytes, usize), ParseRefusal>
    requires { (quote < length text.now) × (slice_index text.now quote ≡ 34) }
    ensures onward { IfOk result (λ r. (quote < r.1) × IsPlace text.now r.1) }
    ensures spelled { (s : State) → ReadsValue s → StandsAt text.now quote s →
        MatchResult result (λ r. (p : Items Piece) × (r.0 ≡ quoted_value p) × StandsBehind text.now r.1 s (quoted p)) (Refuses text.now) }
{
    let end = pieces_end(text, quote + 1);
    if !is_at(text, end, b'"') {
        return Err(ParseRefusal::at(text.len()));
    }
    let bytes = unescaped(alloc, &text[quote + 1..end])?;
    Ok((Bytes::from_vec(bytes), skip_blanks(text, end + 1)))
}
