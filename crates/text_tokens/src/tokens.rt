//! Tokens of a text in which white space is free: signs, words, and quoted texts.

ghost use Rattle.std.specs.Prelude.{◌≡◌, ℕ, ◌+◌, ◌<◌, ◌≤◌, List, length, drop, slice_index, IfSome, MatchBool, MatchOption, ◌≢◌, IsTrue, not};
ghost use Rattle.viable.specs.Runs.{IsRunTo};
ghost use Rattle.text_tokens.specs.Tokens.{Token as AnyToken, TokenAt, is_white, is_sign, is_word_byte, Next, NoToken, IsPart};
ghost use Rattle.text_tokens.specs.Kinds.{IsKind};

use viable::pieces_end;

/// What stands at a token.
#[derive(Clone, Copy, Debug, PartialEq, Eq)]
pub enum Kind {
    Sign(u8),
    /// A longest run of other bytes than white space, signs and quotes.
    Word,
    /// A text between two quotes.
    Quoted,
}

/// A whole token of a text.
#[derive(Clone, Copy, Debug)]
pub struct Token {
    pub kind: Kind,
    /// The place of its first byte.
    pub place: usize,
    /// The place behind its last byte.
    pub behind: usize,
}

fn is_white_byte(byte: u8) -> bool
    ensures { result ≡ is_white byte }
{
    byte == b'\t' || byte == b'\n' || byte == b'\r' || byte == b' '
}

fn is_sign_byte(signs: &[u8], byte: u8) -> bool
    ensures { result ≡ is_sign signs.now byte }
{
    signs.contains(&byte)
}

fn in_word(signs: &[u8], byte: u8) -> bool
    ensures { result ≡ is_word_byte signs.now byte }
{
    !is_white_byte(byte) && byte != b'"' && !is_sign_byte(signs, byte)
}

/// The first place from `from` on at which no white space stands.
pub fn white_end(text: &[u8], from: usize) -> usize
    requires { from ≤ length text.now }
    ensures within { (from ≤ result) × (result ≤ length text.now) }
    ensures run { (run : List ℕ) × IsRunTo is_white text.now from result run }
{
    let mut to = from;
    while to < text.len() && is_white_byte(text[to]) {
        to += 1;
    }
    to
}

/// Where the word ends that begins at a place.
fn word_end(signs: &[u8], text: &[u8], from: usize) -> usize
    requires { from ≤ length text.now }
    ensures within { (from ≤ result) × (result ≤ length text.now) }
    ensures run { (run : List ℕ) × IsRunTo (is_word_byte signs.now) text.now from result run }
{
    let mut to = from;
    while to < text.len() && in_word(signs, text[to]) {
        to += 1;
    }
    to
}

fn is_quote(text: &[u8], at: usize) -> bool
    ensures { MatchBool result ((at < length text.now) × (slice_index text.now at ≡ 34)) (at < length text.now → slice_index text.now at ≢ 34) }
{
    at < text.len() && text[at] == b'"'
}

/// The quoted text that begins at a place, unless the text ends before it does.
fn quoted_at(signs: &[u8], text: &[u8], place: usize) -> Option<Token>
    requires { (place < length text.now) × (slice_index text.now place ≡ 34) }
    ensures within { IfSome result (λ t. (place < t.behind) × (t.behind ≤ length text.now)) }
    ensures quotes { IfSome result (λ t. t.kind ≡ Kind.Quoted → t.place + 2 ≤ t.behind) }
    ensures token { MatchOption result (IsPart signs.now (drop place text.now))
        (λ t. (t.place ≡ place) × (token : AnyToken) × IsKind t.kind token × TokenAt signs.now text.now place t.behind token) }
{
    let end = pieces_end(text, place + 1);
    if !is_quote(text, end) {
        return None;
    }
    Some(Token {
        kind: Kind::Quoted,
        place,
        behind: end + 1,
    })
}

/// The word that begins at a place, unless the text ends before it does.
fn word_at(signs: &[u8], text: &[u8], place: usize) -> Option<Token>
    requires { (place < length text.now) × IsTrue (is_word_byte signs.now (slice_index text.now place)) }
    ensures within { IfSome result (λ t. (place < t.behind) × (t.behind ≤ length text.now)) }
    ensures quotes { IfSome result (λ t. t.kind ≡ Kind.Quoted → t.place + 2 ≤ t.behind) }
    ensures token { MatchOption result (IsPart signs.now (drop place text.now))
        (λ t. (t.place ≡ place) × (token : AnyToken) × IsKind t.kind token × TokenAt signs.now text.now place t.behind token) }
{
    let behind = word_end(signs, text, place);
    if behind == text.len() {
        return None;
    }
    Some(Token {
        kind: Kind::Word,
        place,
        behind,
    })
}

/// The token at a place at which no white space stands, unless none is whole.
fn token_at(signs: &[u8], text: &[u8], place: usize) -> Option<Token>
    requires { (place ≤ length text.now) × (place < length text.now → IsTrue (not (is_white (slice_index text.now place)))) }
    ensures within { IfSome result (λ t. (place < t.behind) × (t.behind ≤ length text.now)) }
    ensures quotes { IfSome result (λ t. t.kind ≡ Kind.Quoted → t.place + 2 ≤ t.behind) }
    ensures token { MatchOption result (IsPart signs.now (drop place text.now))
        (λ t. (t.place ≡ place) × (token : AnyToken) × IsKind t.kind token × TokenAt signs.now text.now place t.behind token) }
{
    if place == text.len() {
        return None;
    }
    let byte = text[place];
    if byte == b'"' {
        return quoted_at(signs, text, place);
    }
    if is_sign_byte(signs, byte) {
        return Some(Token {
            kind: Kind::Sign(byte),
            place,
            behind: place + 1,
        });
    }
    word_at(signs, text, place)
}

/// The next whole token from a place on, or none where only the front of one is left.
pub fn next_token(signs: &[u8], text: &[u8], at: usize) -> Option<Token>
    requires { at ≤ length text.now }
    ensures within { IfSome result (λ t. (at ≤ t.place) × (t.place < t.behind) × (t.behind ≤ length text.now)) }
    ensures quotes { IfSome result (λ t. t.kind ≡ Kind.Quoted → t.place + 2 ≤ t.behind) }
    ensures token { MatchOption result (NoToken signs.now (drop at text.now))
        (λ t. (token : AnyToken) × IsKind t.kind token × Next signs.now text.now at t.place t.behind token) }
{
    let place = white_end(text, at);
    token_at(signs, text, place)
}
