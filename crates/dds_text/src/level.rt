//! The levels of a dataset that are open: its own, and those of the Structures inside one another.

ghost use Rattle.std.specs.Prelude.{◌≡◌, ◌+◌, ℕ, List as Items, [], ◌∷◌, ◌++◌, OnOk, length, map};
ghost use Rattle.std.specs.List.{list_any};
ghost use Rattle.std.specs.Str.{bytes_eq};
ghost use Rattle.dap_types.specs.View.{member_view};
ghost use Rattle.dds_text.specs.inner.Held.{HasColumnNames, HasNames, HaveNames, level_view, levels_view, state_view};
ghost use Rattle.dds_text.specs.inner.States.{add, behind_level, is_name_of_map, top, within};

use crate::count::MemberCount;
use crate::lists::push;
use crate::state::{State, Whole};
use dap_types::{ArrayDecl, Column, Decl, List, Memory, Names};
use std::alloc::Global;
use std::mem;

/// The members of a level so far.
#[derive(Drop)]
pub struct Level {
    pub members: List<Decl>,
    pub names: Names,
}

/// The columns of a Sequence so far.
#[derive(Drop)]
pub struct Columns {
    pub list: List<Column>,
    pub names: Names,
}

/// The array of a Grid, and its maps so far.
#[derive(Drop)]
pub struct Maps {
    pub array: ArrayDecl,
    pub maps: List<ArrayDecl>,
}

/// The open levels.
#[derive(Drop)]
pub struct Levels {
    pub alloc: Global,
    /// The innermost.
    pub inner: Level,
    /// Those around it, the dataset's first.
    pub outer: Vec<Level>,
    pub count: MemberCount,
}

impl Level {
    /// Without members.
    #[tactic(auto, using(crate::proofs::Named::nothing_named))]
    pub fn new(alloc: Global) -> Level
        ensures empty { level_view result ≡ [] }
        ensures names { HasNames result }
    {
        Level {
            members: List::new(alloc),
            names: Names::new(alloc),
        }
    }

    /// Puts a member behind the others.
    #[tactic(auto, using(crate::proofs::Named::more_named))]
    fn add(&mut self, member: Decl) -> Result<(), Memory>
        ensures added { OnOk result
            (level_view self.new ≡ level_view self.old ++ member_view member ∷ []) }
        ensures names { HasNames self.old → OnOk result (HasNames self.new) }
    {
        self.names.insert(member.name())?;
        push(&mut self.members, member)?;
        Ok(())
    }
}

impl Columns {
    /// None.
    #[tactic(auto, using(crate::proofs::Named::nothing_named))]
    pub fn new(alloc: Global) -> Columns
        ensures empty { result.list ≡ [] }
        ensures names { HasColumnNames result }
    {
        Columns {
            list: List::new(alloc),
            names: Names::new(alloc),
        }
    }

    /// Puts a column behind the others.
    #[tactic(auto, using(crate::proofs::Named::more_named))]
    pub fn add(&mut self, column: Column) -> Result<(), Memory>
        ensures added { OnOk result (self.new.list ≡ self.old.list ++ column ∷ []) }
        ensures names { HasColumnNames self.old → OnOk result (HasColumnNames self.new) }
    {
        self.names.insert(&column.name)?;
        push(&mut self.list, column)?;
        Ok(())
    }
}

fn is_name_among(maps: &[ArrayDecl], name: &[u8]) -> bool
    ensures { result ≡ list_any (λ map. bytes_eq name.now map.name) maps.now }
{
    maps.iter().any(|map| name == map.name.bytes())
}

impl Maps {
    /// Whether the array or one of the maps has the name.
    pub fn has(&self, name: &[u8]) -> bool
        ensures { result ≡ is_name_of_map self.now.array self.now.maps name.now }
    {
        name == self.array.name.bytes() || is_name_among(self.maps.items(), name)
    }
}

impl Levels {
    /// The level of a dataset without members.
    pub fn new(alloc: Global) -> Levels
        ensures empty { levels_view result ≡ top [] }
        ensures none { result.count ≡ 0 }
        ensures names { HaveNames result }
    {
        Levels {
            alloc,
            inner: Level::new(alloc),
            outer: Vec::new(alloc),
            count: MemberCount::new(),
        }
    }

    /// Puts a member behind those of the innermost level.
    pub fn add(&mut self, member: Decl) -> Result<(), Memory>
        ensures added { OnOk result
            (levels_view self.new ≡ add (levels_view self.old) (member_view member)) }
        ensures count { self.new.count ≡ self.old.count }
        ensures names { HaveNames self.old → OnOk result (HaveNames self.new) }
    {
        self.inner.add(member)?;
        Ok(())
    }

    /// Opens a level inside the innermost.
    pub fn enter(&mut self) -> Result<(), Memory>
        ensures entered { OnOk result
            (levels_view self.new ≡ within (levels_view self.old) []) }
        ensures count { self.new.count ≡ self.old.count }
        ensures names { HaveNames self.old → OnOk result (HaveNames self.new) }
    {
        let around = mem::replace(&mut self.inner, Level::new(self.alloc));
        self.outer.push(around)?;
        Ok(())
    }

    /// Closes the innermost level. The one around it is the innermost then, if there is one.
    pub fn leave(&mut self) -> State
        ensures left { state_view self.new result ≡ behind_level (levels_view self.old) }
        ensures count { self.new.count ≡ self.old.count }
        ensures names { HaveNames self.old → HaveNames self.new }
    {
        match self.outer.pop() {
            Some(around) => {
                let closed = mem::replace(&mut self.inner, around);
                State::Closed(Whole::Structure(closed.members))
            }
            None => {
                let closed = mem::replace(&mut self.inner, Level::new(self.alloc));
                State::DatasetClosed(closed.members)
            }
        }
    }
}
