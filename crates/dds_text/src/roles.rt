//! What a declaration of a base type may be, by what stands around it.

ghost use Rattle.std.specs.Prelude.{◌≡◌, ◌+◌, Some};
ghost use Rattle.dap_model.specs.Grammar.{is_other};
ghost use Rattle.dds_text.specs.inner.Held.{HaveNames, MovesTo, RoleHasNames, is_extra, levels_view, own_depth, own_number, role_view};
ghost use Rattle.dds_text.specs.inner.Machine.{begin};
ghost use Rattle.dds_text.specs.inner.States.{may_have_dims, most_dims, repeats, wanted_size};

use crate::level::{Levels, Maps};
use crate::state::{Role, Stage, State};
use dap_types::{BaseType, Id};

#[tactic(auto, using(crate::proofs::OpenLevels::depths))]
fn depth_of(levels: &Levels, role: &Role) -> usize
    ensures { result ≡ own_depth (levels_view levels.now) (role_view role.now) }
{
    let depth = levels.outer.len() + 1;
    match role {
        Role::Variable => depth,
        Role::Column(_) | Role::GridArray | Role::GridMap(_) => depth + 1,
    }
}

/// The size that the dimension of a map has to have, if there is a dimension of the array for it.
fn size_for(maps: &Maps) -> Option<u32>
    ensures { result ≡ wanted_size (role_view (Role.GridMap maps.now)) }
{
    let dim = maps.array.dims.items().get(maps.maps.items().len())?;
    Some(dim.size)
}

/// The size that a dimension has to have.
pub fn wanted_size(role: &Role) -> Option<u32>
    ensures { result ≡ wanted_size (role_view role.now) }
{
    match role {
        Role::GridMap(maps) => size_for(maps),
        Role::Variable | Role::Column(_) | Role::GridArray => None,
    }
}

fn is_extra(role: &Role) -> bool
    ensures { result ≡ is_extra (role_view role.now) }
{
    match role {
        Role::GridMap(maps) => size_for(maps).is_none(),
        Role::Variable | Role::Column(_) | Role::GridArray => false,
    }
}

pub fn is_other(wanted: Option<u32>, size: u32) -> bool
    ensures { result ≡ is_other wanted size }
{
    match wanted {
        Some(wanted) => wanted != size,
        None => false,
    }
}

pub fn may_have_dims(role: &Role) -> bool
    ensures { result ≡ may_have_dims (role_view role.now) }
{
    match role {
        Role::Column(_) => false,
        Role::Variable | Role::GridArray | Role::GridMap(_) => true,
    }
}

pub fn most_dims(role: &Role) -> usize
    ensures { result ≡ most_dims (role_view role.now) }
{
    match role {
        Role::GridMap(_) => 1,
        Role::Variable | Role::Column(_) | Role::GridArray => 32,
    }
}

#[tactic(auto, using(crate::proofs::OpenLevels::found))]
pub fn is_repeated(levels: &Levels, role: &Role, name: &Id) -> bool
    ensures { HaveNames levels.now → RoleHasNames role.now →
        result ≡ repeats (levels_view levels.now) (role_view role.now) name.now }
{
    match role {
        Role::Variable => levels.inner.names.has(name),
        Role::Column(columns) => columns.names.has(name),
        Role::GridArray => false,
        Role::GridMap(maps) => maps.has(name.bytes()),
    }
}

/// Begins a declaration behind its type, unless it is too deep or one member too many.
pub fn begin(levels: &mut Levels, role: Role, base: BaseType) -> Option<State>
    ensures { HaveNames levels.old → RoleHasNames role → levels.old.count + 1 ≡ own_number (levels_view levels.old) (role_view role) →
        MovesTo (Some (begin (levels_view levels.old) (role_view role) base)) levels.new result }
{
    let depth = depth_of(levels, &role);
    if is_extra(&role) || !levels.count.admit(depth) {
        return None;
    }
    Some(State::Declaring(role, Stage::Typed(base)))
}
