//! What a token of a DAS is to the tokens before it (DAP 2.0, DAS).

ghost use Rattle.std.specs.Prelude.{◌≡◌, List as Items, [], ◌∷◌, ◌++◌, IfOk, option_map};
ghost use Rattle.viable.specs.Quoted.{Piece, quoted_value};
ghost use Rattle.text_tokens.specs.Tokens.{sign as sign_token, word as word_token, quoted as quoted_token};
ghost use Rattle.das_text.specs.inner.Held.{inner_view, outer_view, state_view};
ghost use Rattle.das_text.specs.inner.Machine.{add, step};

use crate::levels::Levels;
use crate::state::State;
use crate::{Attribute, Entry, Word};
use dap_types::{Bytes, Id, List, Memory, limits};
use text_lines::base_of_word;

/// Containers are nested no deeper.
const MOST_DEPTH: usize = limits::MOST_DEPTH;

/// The first word of an entry. Where no container may be opened it is a type.
fn begin_entry(levels: &Levels, word: &[u8]) -> Result<Option<State>, Memory>
    ensures { IfOk result (λ next. option_map (state_view levels.now) next ≡ step (state_view levels.now State.Inside) (word_token word.now)) }
{
    if levels.depth() >= MOST_DEPTH && base_of_word(word).is_none() {
        return Ok(None);
    }
    Ok(Some(State::Worded(Id::raw(levels.alloc, word)?)))
}

/// The name of an attribute behind its type. No attribute stands outside all containers.
#[tactic(auto, using(crate::proofs::OpenContainers::attributes))]
fn name_attribute(levels: &Levels, first: Id, word: &[u8]) -> Result<Option<State>, Memory>
    ensures { IfOk result (λ next. option_map (state_view levels.now) next ≡ step (state_view levels.now (State.Worded first)) (word_token word.now)) }
{
    if levels.depth() == 0 {
        return Ok(None);
    }
    let Some(base) = base_of_word(first.bytes()) else {
        return Ok(None);
    };
    Ok(Some(State::Named(Attribute {
        base,
        name: Id::raw(levels.alloc, word)?,
        values: List::new(levels.alloc),
    })))
}

/// The attribute with one more value.
fn with_value(attribute: Attribute, value: Word) -> Result<Attribute, Memory>
    ensures { IfOk result (λ a. a ≡ record attribute { values = attribute.values ++ value ∷ [] }) }
{
    let mut attribute = attribute;
    attribute.values.push(value)?;
    Ok(attribute)
}

/// The state behind a word, unless it is bad.
pub fn step_by_word(levels: &mut Levels, state: State, word: &[u8]) -> Result<Option<State>, Memory>
    ensures { IfOk result (λ next. option_map (state_view levels.new) next ≡ step (state_view levels.old state) (word_token word.now)) }
{
    match state {
        State::Begun => Ok((word == b"Attributes".as_slice()).then_some(State::Headed)),
        State::Inside => begin_entry(levels, word),
        State::Worded(first) => name_attribute(levels, first, word),
        State::Named(attribute) | State::Parted(attribute) => {
            let value = Word::Plain(Bytes::new(levels.alloc, word)?);
            Ok(Some(State::Valued(with_value(attribute, value)?)))
        }
        State::Headed | State::Valued(_) | State::Ended(_) => Ok(None),
    }
}

/// The state behind a quoted text, unless it is bad.
pub fn step_by_quoted(levels: &Levels, state: State, text: Bytes) -> Result<Option<State>, Memory>
    ensures { (pieces : Items Piece) → text ≡ quoted_value pieces → IfOk result (λ next. option_map (state_view levels.now) next ≡ step (state_view levels.now state) (quoted_token pieces)) }
{
    match state {
        State::Named(attribute) | State::Parted(attribute) => {
            Ok(Some(State::Valued(with_value(attribute, Word::Quoted(text))?)))
        }
        State::Begun
        | State::Headed
        | State::Inside
        | State::Worded(_)
        | State::Valued(_)
        | State::Ended(_) => Ok(None),
    }
}

/// The `{` of a container.
fn open_container(levels: &mut Levels, name: Id) -> Result<Option<State>, Memory>
    ensures { IfOk result (λ next. option_map (state_view levels.new) next ≡ step (state_view levels.old (State.Worded name)) (sign_token 123)) }
{
    if levels.depth() >= MOST_DEPTH {
        return Ok(None);
    }
    levels.enter(name)?;
    Ok(Some(State::Inside))
}

/// The `;` of an attribute.
#[tactic(auto, using(crate::proofs::Views::views))]
fn end_attribute(levels: &mut Levels, attribute: Attribute) -> Result<State, Memory>
    ensures { IfOk result (λ next. state_view levels.new next ≡ add (outer_view levels.old) (inner_view levels.old) attribute) }
{
    levels.add(Entry::Attr(attribute))?;
    Ok(State::Inside)
}

/// The state behind a sign, unless it is bad.
pub fn step_by_sign(levels: &mut Levels, state: State, sign: u8) -> Result<Option<State>, Memory>
    ensures { IfOk result (λ next. option_map (state_view levels.new) next ≡ step (state_view levels.old state) (sign_token sign)) }
{
    match (state, sign) {
        (State::Headed, b'{') => Ok(Some(State::Inside)),
        (State::Inside, b'}') => Ok(Some(levels.leave()?)),
        (State::Worded(name), b'{') => open_container(levels, name),
        (State::Named(attribute), b';') => Ok(Some(end_attribute(levels, attribute)?)),
        (State::Valued(attribute), b';') => Ok(Some(end_attribute(levels, attribute)?)),
        (State::Valued(attribute), b',') => Ok(Some(State::Parted(attribute))),
        (_, _) => Ok(None),
    }
}
