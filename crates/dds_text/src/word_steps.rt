//! What a word of a DDS is to the tokens before it (DAP 2.0, DDS).

ghost use Rattle.std.specs.Prelude.{◌≡◌, [], Some, IfOk, map};
ghost use Rattle.dap_types.specs.View.{member_view};
ghost use Rattle.dap_model.specs.Tokens.{word as word_token};
ghost use Rattle.dds_text.specs.inner.Held.{HaveNames, IsCounted, IsSound, MovesTo, grid_view, kind_view, levels_view, state_view, whole_view};
ghost use Rattle.dds_text.specs.inner.Machine.{open_whole, step};
ghost use Rattle.dds_text.specs.inner.States.{in_grid, inside, with_name};

use crate::declaring::declare_by_word;
use crate::keywords::{is_keyword, kind_of_word};
use crate::level::{Levels, Maps};
use crate::lists::fitted;
use crate::roles::begin;
use crate::state::{GridStage, Kind, Role, State, Whole};
use dap_types::{Dataset, Decl, Id, List, Memory};
use text_lines::base_of_word;

/// The word `Structure`, `Sequence` or `Grid` of a member, unless it is too deep or one member too
/// many.
#[tactic(auto, using(crate::proofs::OpenLevels::depths))]
fn begin_whole(levels: &mut Levels, kind: Kind) -> Option<State>
    ensures { HaveNames levels.old → IsCounted levels.old.count (inside (levels_view levels.old)) →
        MovesTo (Some (open_whole (levels_view levels.old) (kind_view kind))) levels.new result }
{
    let depth = levels.outer.len() + 1;
    if !levels.count.admit(depth) {
        return None;
    }
    Some(State::Opening(kind))
}

/// The first word of a member.
fn begin_member(levels: &mut Levels, word: &[u8]) -> Option<State>
    ensures { HaveNames levels.old → IsCounted levels.old.count (inside (levels_view levels.old)) →
        MovesTo (step (inside (levels_view levels.old)) (word_token word.now)) levels.new result }
{
    if let Some(base) = base_of_word(word) {
        return begin(levels, Role::Variable, base);
    }
    let kind = kind_of_word(word)?;
    begin_whole(levels, kind)
}

/// A word in a Grid, before its maps.
fn grid_word(levels: &mut Levels, stage: GridStage, word: &[u8]) -> Option<State>
    ensures { HaveNames levels.old → IsCounted levels.old.count (in_grid (levels_view levels.old) (grid_view stage)) →
        MovesTo (step (in_grid (levels_view levels.old) (grid_view stage)) (word_token word.now)) levels.new result }
{
    match stage {
        GridStage::Entered => {
            is_keyword(b"Array", word).then_some(State::InGrid(GridStage::Arrayed))
        }
        GridStage::Ready => {
            let base = base_of_word(word)?;
            begin(levels, Role::GridArray, base)
        }
        GridStage::Filled(array) => {
            if !is_keyword(b"Maps", word) {
                return None;
            }
            Some(State::InGrid(GridStage::Mapping(array)))
        }
        GridStage::Arrayed | GridStage::Mapping(_) => None,
    }
}

/// What has parts, with its name.
#[tactic(auto, using(dap_types::proofs::Views::views))]
fn with_name(whole: Whole, name: Id) -> Decl
    ensures { member_view result ≡ with_name (whole_view whole) name }
{
    match whole {
        Whole::Structure(parts) => Decl::Structure(name, fitted(parts)),
        Whole::Sequence(columns) => Decl::Sequence(name, fitted(columns)),
        Whole::Grid(Maps { array, maps }) => Decl::Grid(name, array, fitted(maps)),
    }
}

/// The name of what has parts.
#[tactic(auto, using(crate::proofs::OpenLevels::found, crate::proofs::Counted::counts))]
fn call_whole(levels: &Levels, whole: Whole, word: &[u8]) -> Result<Option<State>, Memory>
    ensures { IsSound levels.now (State.Closed whole) →
        IfOk result (MovesTo (step (state_view levels.now (State.Closed whole)) (word_token word.now)) levels.now) }
{
    let name = Id::raw(levels.alloc, word)?;
    if levels.inner.names.has(&name) {
        return Ok(None);
    }
    Ok(Some(State::Called(with_name(whole, name))))
}

/// The name of the dataset.
fn call_dataset(levels: &Levels, members: List<Decl>, word: &[u8]) -> Result<Option<State>, Memory>
    ensures { IsSound levels.now (State.DatasetClosed members) →
        IfOk result (MovesTo (step (state_view levels.now (State.DatasetClosed members)) (word_token word.now)) levels.now) }
{
    let name = Id::raw(levels.alloc, word)?;
    let members = fitted(members);
    Ok(Some(State::DatasetCalled(Dataset { name, members })))
}

/// The state behind a word, unless it is bad.
pub fn step_by_word(levels: &mut Levels, state: State, word: &[u8]) -> Result<Option<State>, Memory>
    ensures { IsSound levels.old state →
        IfOk result (MovesTo (step (state_view levels.old state) (word_token word.now)) levels.new) }
{
    match state {
        State::Begun => Ok(is_keyword(b"Dataset", word).then_some(State::Headed)),
        State::Inside => Ok(begin_member(levels, word)),
        State::Declaring(role, stage) => declare_by_word(levels, role, stage, word),
        State::InSequence(columns) => {
            let Some(base) = base_of_word(word) else {
                return Ok(None);
            };
            Ok(begin(levels, Role::Column(columns), base))
        }
        State::InGrid(stage) => Ok(grid_word(levels, stage, word)),
        State::InMaps(maps) => {
            let Some(base) = base_of_word(word) else {
                return Ok(None);
            };
            Ok(begin(levels, Role::GridMap(maps), base))
        }
        State::Closed(whole) => call_whole(levels, whole, word),
        State::DatasetClosed(members) => call_dataset(levels, members, word),
        State::Headed | State::Opening(_) | State::Called(_) | State::DatasetCalled(_) => Ok(None),
    }
}
