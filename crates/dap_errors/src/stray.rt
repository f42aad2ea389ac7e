//! What stands behind an Error object.

ghost use Rattle.std.specs.Prelude.{◌≡◌, ℕ, ◌+◌, ◌≤◌, length, drop, MatchOption};
ghost use Rattle.dap_errors.specs.Reading.{IsEnd, IsStray};

use text_tokens::white_end;

/// The first place behind an object at which neither white space nor the one semicolon stands.
pub fn stray(text: &[u8], behind: usize) -> Option<usize>
    requires { behind ≤ length text.now }
    ensures { MatchOption result (IsEnd (drop behind text.now)) (λ place. (count : ℕ) × IsStray (drop behind text.now) count × (place ≡ behind + count)) }
{
    let semicolon = white_end(text, behind);
    if semicolon == text.len() {
        return None;
    }
    if text[semicolon] != b';' {
        return Some(semicolon);
    }
    let end = white_end(text, semicolon + 1);
    if end == text.len() {
        return None;
    }
    Some(end)
}
