//! What a sign of a DDS is to the tokens before it (DAP 2.0, DDS).

ghost use Rattle.std.specs.Prelude.{◌≡◌, [], IfOk};
ghost use Rattle.dap_model.specs.Tokens.{sign as sign_token};
ghost use Rattle.dds_text.specs.inner.Held.{IsNotLast, IsSound, MovesTo, state_view};
ghost use Rattle.dds_text.specs.inner.Machine.{step};

use crate::declaring::declare_by_sign;
use crate::level::{Columns, Levels, Maps};
use crate::state::{GridStage, Kind, State, Whole};
use dap_types::{Decl, List, Memory};

/// The `{` of what has parts.
fn open_whole(levels: &mut Levels, kind: Kind, sign: u8) -> Result<Option<State>, Memory>
    ensures { IsSound levels.old (State.Opening kind) →
        IfOk result (MovesTo (step (state_view levels.old (State.Opening kind)) (sign_token sign)) levels.new) }
{
    if sign != b'{' {
        return Ok(None);
    }
    match kind {
        Kind::Structure => {
            levels.enter()?;
            Ok(Some(State::Inside))
        }
        Kind::Sequence => Ok(Some(State::InSequence(Columns::new(levels.alloc)))),
        Kind::Grid => Ok(Some(State::InGrid(GridStage::Entered))),
    }
}

/// The `:` in a Grid.
fn grid_sign(levels: &Levels, stage: GridStage, sign: u8) -> Option<State>
    ensures { IsSound levels.now (State.InGrid stage) →
        MovesTo (step (state_view levels.now (State.InGrid stage)) (sign_token sign)) levels.now result }
{
    if sign != b':' {
        return None;
    }
    match stage {
        GridStage::Arrayed => Some(State::InGrid(GridStage::Ready)),
        GridStage::Mapping(array) => Some(State::InMaps(Maps {
            array,
            maps: List::new(levels.alloc),
        })),
        GridStage::Entered | GridStage::Ready | GridStage::Filled(_) => None,
    }
}

/// The `}` of a level.
#[tactic(auto, using(crate::proofs::Counted::counts))]
fn close_level(levels: &mut Levels, sign: u8) -> Option<State>
    ensures { IsSound levels.old State.Inside →
        MovesTo (step (state_view levels.old State.Inside) (sign_token sign)) levels.new result }
{
    if sign != b'}' {
        return None;
    }
    Some(levels.leave())
}

/// The `}` of a Sequence.
fn close_sequence(levels: &Levels, columns: Columns, sign: u8) -> Option<State>
    ensures { IsSound levels.now (State.InSequence columns) →
        MovesTo (step (state_view levels.now (State.InSequence columns)) (sign_token sign)) levels.now result }
{
    if sign != b'}' {
        return None;
    }
    Some(State::Closed(Whole::Sequence(columns.list)))
}

/// The `}` of a Grid, which is bad where a map is missing.
fn close_grid(levels: &Levels, maps: Maps, sign: u8) -> Option<State>
    ensures { IsSound levels.now (State.InMaps maps) →
        MovesTo (step (state_view levels.now (State.InMaps maps)) (sign_token sign)) levels.now result }
{
    if sign != b'}' || maps.maps.items().len() < maps.array.dims.items().len() {
        return None;
    }
    Some(State::Closed(Whole::Grid(maps)))
}

/// The `;` behind the name of what has parts.
#[tactic(auto, using(crate::proofs::Counted::counts))]
fn end_whole(levels: &mut Levels, member: Decl, sign: u8) -> Result<Option<State>, Memory>
    ensures { IsSound levels.old (State.Called member) →
        IfOk result (MovesTo (step (state_view levels.old (State.Called member)) (sign_token sign)) levels.new) }
{
    if sign != b';' {
        return Ok(None);
    }
    levels.add(member)?;
    Ok(Some(State::Inside))
}

/// The state behind a sign that does not end a dataset, unless it is bad.
pub fn step_by_sign(levels: &mut Levels, state: State, sign: u8) -> Result<Option<State>, Memory>
    ensures { IsSound levels.old state → IsNotLast state →
        IfOk result (MovesTo (step (state_view levels.old state) (sign_token sign)) levels.new) }
{
    match state {
        State::Headed => Ok((sign == b'{').then_some(State::Inside)),
        State::Inside => Ok(close_level(levels, sign)),
        State::Declaring(role, stage) => declare_by_sign(levels, role, stage, sign),
        State::Opening(kind) => open_whole(levels, kind, sign),
        State::InSequence(columns) => Ok(close_sequence(levels, columns, sign)),
        State::InGrid(stage) => Ok(grid_sign(levels, stage, sign)),
        State::InMaps(maps) => Ok(close_grid(levels, maps, sign)),
        State::Called(member) => end_whole(levels, member, sign),
        State::Begun | State::Closed(_) | State::DatasetClosed(_) | State::DatasetCalled(_) => Ok(
            None,
        ),
    }
}
