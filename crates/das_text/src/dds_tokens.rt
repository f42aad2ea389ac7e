//! The tokens of a DDS as tokens of a text in which white space is free.

ghost use Rattle.std.specs.Prelude.{◌≡◌, ℕ, false, List, [], ◌∷◌, map, drop};
ghost use Rattle.dap_model.specs.Tokens.{tokens_from, whole_tokens};
ghost use Rattle.text_tokens.specs.Tokens.{Token, Placed, Next, AreTokens};
ghost use Rattle.das_text.specs.DdsTokens.{NoQuoteNext, NoQuotes, dds_placed, dds_signs, dds_token, is_quoted};

/// The next token of a text is that of a DDS, unless it is quoted or a quote ends it; so are all
/// whole tokens of a text without quotes.
pub fn dds_tokens_agree()
    ensures next { (text : List ℕ) (at place behind : ℕ) (t : Token) → Next dds_signs text at place behind t → is_quoted t ≡ false → NoQuoteNext (drop behind text) →
        tokens_from [] at (drop at text) ≡ record { token = dds_token t; place = place } ∷ tokens_from [] behind (drop behind text) }
    ensures all { (text : List ℕ) (tokens : List Placed) → NoQuotes text → AreTokens dds_signs text tokens → whole_tokens text ≡ map dds_placed tokens }
{}
