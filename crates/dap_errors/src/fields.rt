//! The tokens of an Error object, one after the other.

ghost use Rattle.std.specs.Prelude.{◌≡◌, ◌≢◌, ℕ, ◌+◌, ◌<◌, ◌≤◌, false, not, List, [], ◌==◌, ◌&&◌, ◌∷◌, ◌++◌, length, drop, IsTrue, IfOk, MatchResult, MatchBool};
ghost use Rattle.text_tokens.specs.Tokens.{Token as AnyToken, word, TokenAt, Next, NoToken};
ghost use Rattle.text_tokens.specs.Kinds.{IsKind};
ghost use Rattle.dap_errors.specs.Object.{signs, Value, Field, value_token, is_code, is_message};
ghost use Rattle.dap_errors.specs.inner.Machine.{State, Named, Fields, Assigned, Ended, field_of, has_both, may_hold, may_label};
ghost use Rattle.dap_errors.specs.inner.Standing.{StandsAt, StopsAt, WantsSign, has_name, label_kind, Holds, Says};

use crate::ErrorObject;
use crate::code_word::code_of;
use crate::found::{Found, Label};
use crate::object::Stop;
use dap_types::Bytes;
use std::alloc::Global;
use text_tokens::{Kind, Token, next_token};
use viable::unescaped;

/// The next whole token.
fn wanted(text: &[u8], at: usize) -> Result<Token, Stop>
    requires { at ≤ length text.now }
    ensures within { IfOk result (λ t. (at ≤ t.place) × (t.place < t.behind) × (t.behind ≤ length text.now)) }
    ensures quotes { IfOk result (λ t. t.kind ≡ Kind.Quoted → t.place + 2 ≤ t.behind) }
    ensures token { MatchResult result (λ t. (token : AnyToken) × IsKind t.kind token × Next signs text.now at t.place t.behind token) (λ stop. (stop ≡ Stop.End) × NoToken signs (drop at text.now)) }
{
    match next_token(b"{};=", text, at) {
        Some(token) => Ok(token),
        None => Err(Stop::End),
    }
}

fn is_sign(kind: Kind, sign: u8) -> bool
    ensures { MatchBool result (kind ≡ Kind.Sign sign) (kind ≢ Kind.Sign sign) }
{
    kind == Kind::Sign(sign)
}

/// The place behind a sign that has to come next.
fn expect_sign(text: &[u8], at: usize, sign: u8) -> Result<usize, Stop>
    requires { at ≤ length text.now }
    ensures within { IfOk result (λ r. (at < r) × (r ≤ length text.now)) }
    ensures stands { (s next : State) → WantsSign s sign next → StandsAt text.now at s → MatchResult result (λ r. StandsAt text.now r next) (StopsAt text.now) }
{
    let token = wanted(text, at)?;
    if !is_sign(token.kind, sign) {
        return Err(Stop::Bad(token.place));
    }
    Ok(token.behind)
}

/// Whether a token is a word of this name, without regard to case.
fn is_named(text: &[u8], token: &Token, name: &[u8]) -> bool
    requires { (token.now.place ≤ token.now.behind) × (token.now.behind ≤ length text.now) }
    ensures { (t : AnyToken) → IsKind token.now.kind t → TokenAt signs text.now token.now.place token.now.behind t → result ≡ has_name name.now t }
{
    match token.kind {
        Kind::Word => name.eq_ignore_ascii_case(&text[token.place..token.behind]),
        _ => false,
    }
}

/// The place behind the word `Error`.
fn error_word(text: &[u8]) -> Result<usize, Stop>
    ensures within { IfOk result (λ r. r ≤ length text.now) }
    ensures stands { MatchResult result (λ r. StandsAt text.now r Named) (StopsAt text.now) }
{
    let token = wanted(text, 0)?;
    if !is_named(text, &token, b"error") {
        return Err(Stop::Bad(token.place));
    }
    Ok(token.behind)
}

fn label_of(word: &[u8]) -> Label
    ensures { result ≡ label_kind word.now }
{
    if is_code_label(word) {
        Label::Code
    } else if is_message_label(word) {
        Label::Message
    } else {
        Label::Other
    }
}

#[tactic(auto, unfolding(crate::specs::Object::is_code), using(viable::proofs::Words::same_name))]
fn is_code_label(word: &[u8]) -> bool
    ensures { result ≡ is_code word.now }
{
    b"code".eq_ignore_ascii_case(word)
}

#[tactic(auto, unfolding(crate::specs::Object::is_message), using(viable::proofs::Words::same_name))]
fn is_message_label(word: &[u8]) -> bool
    ensures { result ≡ is_message word.now }
{
    b"message".eq_ignore_ascii_case(word)
}

/// Whether a field of this name was found before, of which there may be one alone.
fn is_taken(found: &Found, label: Label) -> bool
    ensures { (done : List Field) (w : List ℕ) → label_kind w ≡ label → Holds found.now done → result ≡ not (may_label done w) }
{
    match label {
        Label::Code => found.code.is_some(),
        Label::Message => found.message.is_some(),
        Label::Other => false,
    }
}

/// The value of a field `code`.
fn code_field(text: &[u8], value: &Token, found: Found) -> Result<Found, Stop>
    requires { (value.now.place < value.now.behind) × (value.now.behind ≤ length text.now) }
    ensures takes { (at : ℕ) (done : List Field) (w : List ℕ) (t : AnyToken) → IsTrue (is_code w) → StandsAt text.now at (Assigned done w) → IsKind value.now.kind t → Next signs text.now at value.now.place value.now.behind t → Holds found done → IsTrue (may_label done w) →
        MatchResult result (λ f. (v : Value) × (value_token v ≡ t) × IsTrue (may_hold w v) × Holds f (done ++ field_of w v ∷ [])) (StopsAt text.now) }
{
    match value.kind {
        Kind::Word => {
            let code = code_of(&text[value.place..value.behind]);
            if code.is_none() {
                return Err(Stop::Bad(value.place));
            }
            Ok(Found {
                code,
                message: found.message,
            })
        }
        Kind::Quoted => Err(Stop::Bad(value.place)),
        Kind::Sign(_) => Err(Stop::Bad(value.place)),
    }
}

/// The value of a field `message`.
fn message_field(alloc: Global, text: &[u8], value: &Token, found: Found) -> Result<Found, Stop>
    requires within { (value.now.place < value.now.behind) × (value.now.behind ≤ length text.now) }
    requires quotes { value.now.kind ≡ Kind.Quoted → value.now.place + 2 ≤ value.now.behind }
    ensures takes { (at : ℕ) (done : List Field) (w : List ℕ) (t : AnyToken) → is_code w ≡ false → IsTrue (is_message w) → StandsAt text.now at (Assigned done w) → IsKind value.now.kind t → Next signs text.now at value.now.place value.now.behind t → Holds found done → IsTrue (may_label done w) →
        MatchResult result (λ f. (v : Value) × (value_token v ≡ t) × IsTrue (may_hold w v) × Holds f (done ++ field_of w v ∷ [])) (StopsAt text.now) }
{
    match value.kind {
        Kind::Quoted => {
            let message = unescaped(alloc, &text[value.place + 1..value.behind - 1])?;
            Ok(Found {
                code: found.code,
                message: Some(Bytes::from_vec(message)),
            })
        }
        Kind::Word => Err(Stop::Bad(value.place)),
        Kind::Sign(_) => Err(Stop::Bad(value.place)),
    }
}

/// The value of another field, which is passed over.
fn other_field(text: &[u8], value: &Token, found: Found) -> Result<Found, Stop>
    ensures takes { (at : ℕ) (done : List Field) (w : List ℕ) (t : AnyToken) → is_code w ≡ false → is_message w ≡ false → StandsAt text.now at (Assigned done w) → IsKind value.now.kind t → Next signs text.now at value.now.place value.now.behind t → Holds found done →
        MatchResult result (λ f. (v : Value) × (value_token v ≡ t) × IsTrue (may_hold w v) × Holds f (done ++ field_of w v ∷ [])) (StopsAt text.now) }
{
    match value.kind {
        Kind::Word => Ok(found),
        Kind::Quoted => Ok(found),
        Kind::Sign(_) => Err(Stop::Bad(value.place)),
    }
}

fn take_value(
    alloc: Global,
    text: &[u8],
    label: Label,
    value: &Token,
    found: Found,
) -> Result<Found, Stop>
    requires within { (value.now.place < value.now.behind) × (value.now.behind ≤ length text.now) }
    requires quotes { value.now.kind ≡ Kind.Quoted → value.now.place + 2 ≤ value.now.behind }
    ensures takes { (at : ℕ) (done : List Field) (w : List ℕ) (t : AnyToken) → label_kind w ≡ label → StandsAt text.now at (Assigned done w) → IsKind value.now.kind t → Next signs text.now at value.now.place value.now.behind t → Holds found done → IsTrue (may_label done w) →
        MatchResult result (λ f. (v : Value) × (value_token v ≡ t) × IsTrue (may_hold w v) × Holds f (done ++ field_of w v ∷ [])) (StopsAt text.now) }
{
    match label {
        Label::Code => code_field(text, value, found),
        Label::Message => message_field(alloc, text, value, found),
        Label::Other => other_field(text, value, found),
    }
}

/// The rest of a field behind its name, and the place behind it.
fn field(alloc: Global, text: &[u8], name: &Token, found: Found) -> Result<(Found, usize), Stop>
    requires { (name.now.place ≤ name.now.behind) × (name.now.behind ≤ length text.now) }
    ensures within { IfOk result (λ r. (name.now.behind < r.1) × (r.1 ≤ length text.now)) }
    ensures takes { (at : ℕ) (done : List Field) (w : List ℕ) → StandsAt text.now at (Fields done) → Next signs text.now at name.now.place name.now.behind (word w) → Holds found done →
        MatchResult result (λ r. (v : Value) × Holds r.0 (done ++ field_of w v ∷ []) × StandsAt text.now r.1 (Fields (done ++ field_of w v ∷ []))) (StopsAt text.now) }
{
    let label = label_of(&text[name.place..name.behind]);
    if is_taken(&found, label) {
        return Err(Stop::Bad(name.place));
    }
    let at = expect_sign(text, name.behind, b'=')?;
    let value = wanted(text, at)?;
    let found = take_value(alloc, text, label, &value, found)?;
    let behind = expect_sign(text, value.behind, b';')?;
    Ok((found, behind))
}

/// The object of what was found, where this sign is its last brace and nothing is missing.
fn ended(found: Found, token: &Token, sign: u8) -> Result<(ErrorObject, usize), Stop>
    ensures { MatchResult result (λ r. (r.1 ≡ token.now.behind) × ((done : List Field) → Holds found done → IsTrue (sign == 125 && has_both done) × Says r.0 done)) (λ stop. (stop ≡ Stop.Bad token.now.place) × ((done : List Field) → Holds found done → (sign == 125 && has_both done) ≡ false)) }
{
    if sign != b'}' {
        return Err(Stop::Bad(token.place));
    }
    match (found.code, found.message) {
        (Some(code), Some(message)) => Ok((ErrorObject { code, message }, token.behind)),
        (_, _) => Err(Stop::Bad(token.place)),
    }
}

/// The fields of an object behind its first brace, to its last, and the place behind it.
fn fields(alloc: Global, text: &[u8], from: usize) -> Result<(ErrorObject, usize), Stop>
    requires { from ≤ length text.now }
    ensures within { IfOk result (λ r. r.1 ≤ length text.now) }
    ensures stands { StandsAt text.now from (Fields []) → MatchResult result (λ r. StandsAt text.now r.1 (Ended r.0)) (StopsAt text.now) }
{
    let mut at = from;
    let mut found = Found {
        code: None,
        message: None,
    };
    'names: loop {
        let token = wanted(text, at)?;
        match token.kind {
            Kind::Word => {
                let (next, behind) = field(alloc, text, &token, found)?;
                found = next;
                at = behind;
            }
            Kind::Sign(sign) => return ended(found, &token, sign),
            Kind::Quoted => return Err(Stop::Bad(token.place)),
        }
    }
}

/// The object at the front of a text, and the place behind it.
pub fn object(alloc: Global, text: &[u8]) -> Result<(ErrorObject, usize), Stop>
    ensures within { IfOk result (λ r. r.1 ≤ length text.now) }
    ensures stands { MatchResult result (λ r. StandsAt text.now r.1 (Ended r.0)) (StopsAt text.now) }
{
    let at = error_word(text)?;
    let at = expect_sign(text, at, b'{')?;
    fields(alloc, text, at)
}
