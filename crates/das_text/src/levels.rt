//! The containers that are open, inside one another.

ghost use Rattle.std.specs.Prelude.{◌≡◌, List as Items, [], ◌∷◌, ◌++◌, IfOk, OnOk, length};
ghost use Rattle.das_text.specs.inner.Held.{inner_view, outer_view, state_view};
ghost use Rattle.das_text.specs.inner.Machine.{leave};
ghost use Rattle.das_text.specs.View.{entry_view};

use crate::state::State;
use crate::{Attributes, Entry};
use dap_types::{Id, List, Memory};
use std::alloc::Global;
use std::mem;

/// What stands around an open container: the entries before it, and its name.
#[derive(Drop)]
pub struct Around {
    pub entries: List<Entry>,
    pub name: Id,
}

/// The open containers.
#[derive(Drop)]
pub struct Levels {
    pub alloc: Global,
    /// The entries of the innermost, or of the DAS itself where none is open.
    pub inner: List<Entry>,
    /// What stands around each, the outermost first.
    pub outer: Vec<Around>,
}

impl Levels {
    /// No container is open, and none was.
    pub fn new(alloc: Global) -> Levels
        ensures inner { inner_view result ≡ [] }
        ensures outer { outer_view result ≡ [] }
    {
        Levels {
            alloc,
            inner: List::new(alloc),
            outer: Vec::new(alloc),
        }
    }

    /// How many are open.
    pub fn depth(&self) -> usize
        ensures { result ≡ length (outer_view self.now) }
    {
        self.outer.len()
    }

    /// Puts an entry behind the others.
    pub fn add(&mut self, entry: Entry) -> Result<(), Memory>
        ensures inner { OnOk result (inner_view self.new ≡ inner_view self.old ++ entry_view entry ∷ []) }
        ensures outer { outer_view self.new ≡ outer_view self.old }
    {
        self.inner.push(entry)
    }

    /// Opens a container inside the innermost.
    pub fn enter(&mut self, name: Id) -> Result<(), Memory>
        ensures inner { OnOk result (inner_view self.new ≡ []) }
        ensures outer { OnOk result (outer_view self.new ≡ record { entries = inner_view self.old; name = name } ∷ outer_view self.old) }
    {
        let entries = mem::replace(&mut self.inner, List::new(self.alloc));
        self.outer.push(Around { entries, name })?;
        Ok(())
    }

    /// Closes the innermost, or the DAS itself where none is open.
    pub fn leave(&mut self) -> Result<State, Memory>
        ensures left { IfOk result (λ s. state_view self.new s ≡ leave (outer_view self.old) (inner_view self.old)) }
    {
        match self.outer.pop() {
            Some(around) => {
                let entries = mem::replace(&mut self.inner, around.entries);
                self.inner.push(Entry::Container(around.name, entries))?;
                Ok(State::Inside)
            }
            None => {
                let containers = mem::replace(&mut self.inner, List::new(self.alloc));
                Ok(State::Ended(Attributes { containers }))
            }
        }
    }
}
