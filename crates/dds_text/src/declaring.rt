//! A declaration of a base type, token by token (DAP 2.0, DDS).

ghost use Rattle.std.specs.Prelude.{◌≡◌, IfOk, if◌then◌else◌};
ghost use Rattle.dap_types.specs.Model.{array as array_member, scalar};
ghost use Rattle.dap_types.specs.View.{member_view};
ghost use Rattle.dap_model.specs.Grammar.{has_dims};
ghost use Rattle.dap_model.specs.Tokens.{sign as sign_token, word as word_token};
ghost use Rattle.dds_text.specs.inner.Held.{HaveNames, MovesTo, RoleHasNames, levels_view, own_number, role_view, stage_view};
ghost use Rattle.dds_text.specs.inner.Machine.{declare_step, open_dim};
ghost use Rattle.dds_text.specs.inner.States.{with_dim, without_dims};

use crate::keywords::size_of_word;
use crate::level::{Columns, Levels, Maps};
use crate::lists::{fitted, push};
use crate::roles::{is_other, is_repeated, may_have_dims, most_dims, wanted_size};
use crate::state::{GridStage, Role, Stage, State};
use dap_types::{ArrayDecl, BaseType, Column, Decl, Dim, Id, List, Memory};

fn with_dim(array: ArrayDecl, dim: Dim) -> Result<ArrayDecl, Memory>
    ensures { IfOk result (λ a. a ≡ with_dim array dim) }
{
    let mut array = array;
    push(&mut array.dims, dim)?;
    Ok(array)
}

/// Takes the name.
fn take_name(
    levels: &Levels,
    role: Role,
    base: BaseType,
    name: &[u8],
) -> Result<Option<State>, Memory>
    ensures { HaveNames levels.now → RoleHasNames role → levels.now.count ≡ own_number (levels_view levels.now) (role_view role) →
        IfOk result (MovesTo (declare_step (levels_view levels.now) (role_view role) (stage_view (Stage.Typed base)) (word_token name.now)) levels.now) }
{
    let name = Id::raw(levels.alloc, name)?;
    if is_repeated(levels, &role, &name) {
        return Ok(None);
    }
    let array = ArrayDecl {
        name,
        base,
        dims: List::new(levels.alloc),
    };
    Ok(Some(State::Declaring(role, Stage::Named(array))))
}

/// Takes the size of a dimension that has a name.
fn take_size(levels: &Levels, role: Role, array: ArrayDecl, dim: Id, word: &[u8]) -> Option<State>
    ensures { HaveNames levels.now → RoleHasNames role → levels.now.count ≡ own_number (levels_view levels.now) (role_view role) →
        MovesTo (declare_step (levels_view levels.now) (role_view role) (stage_view (Stage.Equated array dim)) (word_token word.now)) levels.now result }
{
    let size = size_of_word(word)?;
    if is_other(wanted_size(&role), size) {
        return None;
    }
    let dim = Dim {
        name: Some(dim),
        size,
    };
    Some(State::Declaring(role, Stage::Measured(array, dim)))
}

/// Takes a word.
pub fn declare_by_word(
    levels: &Levels,
    role: Role,
    stage: Stage,
    word: &[u8],
) -> Result<Option<State>, Memory>
    ensures { HaveNames levels.now → RoleHasNames role → levels.now.count ≡ own_number (levels_view levels.now) (role_view role) →
        IfOk result (MovesTo (declare_step (levels_view levels.now) (role_view role) (stage_view stage) (word_token word.now)) levels.now) }
{
    match stage {
        Stage::Typed(base) => take_name(levels, role, base, word),
        Stage::Bracketed(array) => {
            let word = Id::raw(levels.alloc, word)?;
            Ok(Some(State::Declaring(role, Stage::Worded(array, word))))
        }
        Stage::Equated(array, dim) => Ok(take_size(levels, role, array, dim, word)),
        Stage::Named(_) => Ok(None),
        Stage::Worded(_, _) => Ok(None),
        Stage::Measured(_, _) => Ok(None),
    }
}

/// Takes the `]` behind a size alone.
fn end_size(
    levels: &Levels,
    role: Role,
    array: ArrayDecl,
    word: &Id,
) -> Result<Option<State>, Memory>
    ensures { HaveNames levels.now → RoleHasNames role → levels.now.count ≡ own_number (levels_view levels.now) (role_view role) →
        IfOk result (MovesTo (declare_step (levels_view levels.now) (role_view role) (stage_view (Stage.Worded array word.now)) (sign_token 93)) levels.now) }
{
    let Some(size) = size_of_word(word.bytes()) else {
        return Ok(None);
    };
    if is_other(wanted_size(&role), size) {
        return Ok(None);
    }
    let array = with_dim(array, Dim { name: None, size })?;
    Ok(Some(State::Declaring(role, Stage::Named(array))))
}

/// Takes the sign behind a word in brackets.
fn end_word(
    levels: &Levels,
    role: Role,
    array: ArrayDecl,
    word: Id,
    sign: u8,
) -> Result<Option<State>, Memory>
    ensures { HaveNames levels.now → RoleHasNames role → levels.now.count ≡ own_number (levels_view levels.now) (role_view role) →
        IfOk result (MovesTo (declare_step (levels_view levels.now) (role_view role) (stage_view (Stage.Worded array word)) (sign_token sign)) levels.now) }
{
    match sign {
        b']' => end_size(levels, role, array, &word),
        b'=' => Ok(Some(State::Declaring(role, Stage::Equated(array, word)))),
        _ => Ok(None),
    }
}

/// Takes the `]` behind the size of a dimension that has a name.
fn end_dim(
    levels: &Levels,
    role: Role,
    array: ArrayDecl,
    dim: Dim,
    sign: u8,
) -> Result<Option<State>, Memory>
    ensures { HaveNames levels.now → RoleHasNames role → levels.now.count ≡ own_number (levels_view levels.now) (role_view role) →
        IfOk result (MovesTo (declare_step (levels_view levels.now) (role_view role) (stage_view (Stage.Measured array dim)) (sign_token sign)) levels.now) }
{
    if sign != b']' {
        return Ok(None);
    }
    let array = with_dim(array, dim)?;
    Ok(Some(State::Declaring(role, Stage::Named(array))))
}

/// Takes the `[` of one more dimension.
fn open_dim(levels: &Levels, role: Role, array: ArrayDecl) -> Option<State>
    ensures { HaveNames levels.now → RoleHasNames role → levels.now.count ≡ own_number (levels_view levels.now) (role_view role) →
        MovesTo (open_dim (levels_view levels.now) (role_view role) array) levels.now result }
{
    if !may_have_dims(&role) || array.dims.items().len() >= most_dims(&role) {
        return None;
    }
    Some(State::Declaring(role, Stage::Bracketed(array)))
}

/// A declaration without dimensions as a scalar or a column.
fn without_dims(array: ArrayDecl) -> Column
    ensures { result ≡ without_dims array }
{
    Column {
        name: array.name,
        base: array.base,
    }
}

fn has_dims(array: &ArrayDecl) -> bool
    ensures { result ≡ has_dims array.now }
{
    !array.dims.items().is_empty()
}

/// A member of a level.
#[tactic(auto, using(dap_types::proofs::Views::views))]
fn variable(array: ArrayDecl) -> Decl
    ensures { member_view result ≡ (if has_dims array then array_member array else scalar (without_dims array)) }
{
    if has_dims(&array) {
        Decl::Array(array)
    } else {
        Decl::Base(without_dims(array))
    }
}

/// Takes the `;` behind a member of a level.
#[tactic(auto, using(crate::proofs::Counted::counts))]
fn end_variable(levels: &mut Levels, array: ArrayDecl) -> Result<Option<State>, Memory>
    ensures { HaveNames levels.old → levels.old.count ≡ own_number (levels_view levels.old) (role_view Role.Variable) →
        IfOk result (MovesTo (declare_step (levels_view levels.old) (role_view Role.Variable) (stage_view (Stage.Named array)) (sign_token 59)) levels.new) }
{
    levels.add(variable(array))?;
    Ok(Some(State::Inside))
}

/// Takes the `;` behind a column.
#[tactic(auto, using(crate::proofs::Counted::counts))]
fn end_column(levels: &Levels, columns: Columns, array: ArrayDecl) -> Result<Option<State>, Memory>
    ensures { HaveNames levels.now → RoleHasNames (Role.Column columns) → levels.now.count ≡ own_number (levels_view levels.now) (role_view (Role.Column columns)) →
        IfOk result (MovesTo (declare_step (levels_view levels.now) (role_view (Role.Column columns)) (stage_view (Stage.Named array)) (sign_token 59)) levels.now) }
{
    if has_dims(&array) {
        return Ok(None);
    }
    let mut columns = columns;
    columns.add(without_dims(array))?;
    Ok(Some(State::InSequence(columns)))
}

/// Takes the `;` behind a map.
#[tactic(auto, using(crate::proofs::Counted::counts))]
fn end_map(levels: &Levels, maps: Maps, array: ArrayDecl) -> Result<Option<State>, Memory>
    ensures { HaveNames levels.now → levels.now.count ≡ own_number (levels_view levels.now) (role_view (Role.GridMap maps)) →
        IfOk result (MovesTo (declare_step (levels_view levels.now) (role_view (Role.GridMap maps)) (stage_view (Stage.Named array)) (sign_token 59)) levels.now) }
{
    if !has_dims(&array) {
        return Ok(None);
    }
    let mut maps = maps;
    push(&mut maps.maps, array)?;
    Ok(Some(State::InMaps(maps)))
}

/// Takes the `;` behind a declaration.
fn end_declaration(
    levels: &mut Levels,
    role: Role,
    array: ArrayDecl,
) -> Result<Option<State>, Memory>
    ensures { HaveNames levels.old → RoleHasNames role → levels.old.count ≡ own_number (levels_view levels.old) (role_view role) →
        IfOk result (MovesTo (declare_step (levels_view levels.old) (role_view role) (stage_view (Stage.Named array)) (sign_token 59)) levels.new) }
{
    let array = ArrayDecl {
        name: array.name,
        base: array.base,
        dims: fitted(array.dims),
    };
    match role {
        Role::Variable => end_variable(levels, array),
        Role::Column(columns) => end_column(levels, columns, array),
        Role::GridArray => {
            if !has_dims(&array) {
                return Ok(None);
            }
            Ok(Some(State::InGrid(GridStage::Filled(array))))
        }
        Role::GridMap(maps) => end_map(levels, maps, array),
    }
}

/// Takes the sign behind a name or a dimension.
fn end_name(
    levels: &mut Levels,
    role: Role,
    array: ArrayDecl,
    sign: u8,
) -> Result<Option<State>, Memory>
    ensures { HaveNames levels.old → RoleHasNames role → levels.old.count ≡ own_number (levels_view levels.old) (role_view role) →
        IfOk result (MovesTo (declare_step (levels_view levels.old) (role_view role) (stage_view (Stage.Named array)) (sign_token sign)) levels.new) }
{
    match sign {
        b';' => end_declaration(levels, role, array),
        b'[' => Ok(open_dim(levels, role, array)),
        _ => Ok(None),
    }
}

/// Takes a sign.
pub fn declare_by_sign(
    levels: &mut Levels,
    role: Role,
    stage: Stage,
    sign: u8,
) -> Result<Option<State>, Memory>
    ensures { HaveNames levels.old → RoleHasNames role → levels.old.count ≡ own_number (levels_view levels.old) (role_view role) →
        IfOk result (MovesTo (declare_step (levels_view levels.old) (role_view role) (stage_view stage) (sign_token sign)) levels.new) }
{
    match stage {
        Stage::Named(array) => end_name(levels, role, array, sign),
        Stage::Worded(array, word) => end_word(levels, role, array, word, sign),
        Stage::Measured(array, dim) => end_dim(levels, role, array, dim, sign),
        Stage::Typed(_) | Stage::Bracketed(_) | Stage::Equated(_, _) => Ok(None),
    }
}
