//! Laws of tokens, apart from any reader.

ghost use Rattle.std.specs.Prelude.{◌≡◌, ℕ, List};
ghost use Rattle.text_tokens.specs.Tokens.{AreTokens, Placed};

/// Each text has whole tokens, and one list of them.
pub fn whole_tokens()
    ensures some { (signs text : List ℕ) → (tokens : List Placed) × AreTokens signs text tokens }
    ensures one { (signs text : List ℕ) (tokens other : List Placed) → AreTokens signs text tokens → AreTokens signs text other → tokens ≡ other }
{}
