//! What the tokens of a DDS declare.

ghost use Rattle.std.specs.Prelude.{◌≡◌, IfOk, MatchBool, None};
ghost use Rattle.dap_model.specs.Tokens.{word, sign as sign_token};
ghost use Rattle.dap_types.specs.View.{dataset_view};
ghost use Rattle.dds_text.specs.declared.parser.Parser.{Parser as ParserValue};
ghost use Rattle.dds_text.specs.inner.States.{State as MachineState, begun, dataset_called};
ghost use Rattle.dds_text.specs.inner.Held.{go};
ghost use Rattle.dds_text.specs.inner.Standing.{Holds, IsTaken, LeadsTo};

use crate::level::Levels;
use crate::sign_steps::step_by_sign;
use crate::state::State;
use crate::word_steps::step_by_word;
use dap_types::{Dataset, Memory};
use std::alloc::Global;
use std::mem;

/// What a sign is to the tokens before it.
#[derive(Drop)]
pub enum Taken {
    /// They go on.
    Next,
    /// It is bad.
    Bad,
    /// It ends a dataset.
    Done(Dataset),
}

/// The `;` behind the name of the dataset.
fn end_dataset(dataset: Dataset, sign: u8) -> Taken
    ensures { (p : ParserValue) → IsTaken p sign (go (dataset_called (dataset_view dataset)) (sign_token sign)) result }
{
    if sign == b';' {
        Taken::Done(dataset)
    } else {
        Taken::Bad
    }
}

/// What the tokens so far declare.
#[derive(Drop)]
pub struct Parser {
    pub levels: Levels,
    pub state: State,
}

impl Parser {
    /// Before the first token.
    #[tactic(auto, unfolding(crate::specs::inner::Standing::Holds))]
    pub fn new(alloc: Global) -> Parser
        ensures { Holds result begun }
    {
        Parser {
            levels: Levels::new(alloc),
            state: State::Begun,
        }
    }

    /// What the next token goes on from.
    fn rest_at(&mut self, state: State)
        ensures { self.new ≡ record self.old { state = state } }
    {
        self.state = state;
    }

    /// Takes a word, and says whether it is good.
    #[tactic(auto, unfolding(crate::specs::inner::Standing::Holds))]
    pub fn take_word(&mut self, bytes: &[u8]) -> Result<bool, Memory>
        ensures { (s : MachineState) → Holds self.old s → let next = go s (word bytes.now) in
            IfOk result (λ good. MatchBool good (LeadsTo self.new next) (next ≡ None)) }
    {
        let state = mem::replace(&mut self.state, State::Begun);
        match step_by_word(&mut self.levels, state, bytes)? {
            Some(next) => {
                self.rest_at(next);
                Ok(true)
            }
            None => Ok(false),
        }
    }

    /// Takes a sign.
    #[tactic(auto, unfolding(crate::specs::inner::Standing::Holds))]
    pub fn take_sign(&mut self, byte: u8) -> Result<Taken, Memory>
        ensures { (s : MachineState) → Holds self.old s →
            IfOk result (IsTaken self.new byte (go s (sign_token byte))) }
    {
        let state = mem::replace(&mut self.state, State::Begun);
        if let State::DatasetCalled(dataset) = state {
            return Ok(end_dataset(dataset, byte));
        }
        match step_by_sign(&mut self.levels, state, byte)? {
            Some(next) => {
                self.rest_at(next);
                Ok(Taken::Next)
            }
            None => Ok(Taken::Bad),
        }
    }
}
