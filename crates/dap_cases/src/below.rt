ghost use Rattle.std.specs.Prelude.{◌≡◌};

use crate::files::joined;
use dap_outside::{Failed, Shelf};
use std::alloc::Global;

/// The files of a shelf whose names begin with a prefix, by what stands behind it. It tells what the shelf tells of
/// them. A want of memory inside a call is a fault.
#[derive(Drop)]
pub struct Below<'a, S> {
    shelf: &'a mut S,
    prefix: &'a str,
    alloc: Global,
    faults: u64,
}

impl<'a, S: Shelf> Below<'a, S> {
    ghost use Rattle.dap_cases.specs.Prefixed.{told_below};

    /// The files below this prefix.
    pub fn new(alloc: Global, shelf: &'a mut S, prefix: &'a str) -> Below<'a, S>
        ensures files { ⟦<Below<'a, S> as Shelf>⟧.files result ≡ told_below prefix.now (S.files shelf.old) }
    {
        Below {
            shelf,
            prefix,
            alloc,
            faults: 0,
        }
    }
}

impl<'a, S: Shelf> Shelf for Below<'a, S> {
    ghost use Rattle.dap_cases.specs.Prefixed.{name_below, told_below};
    ghost use Rattle.dap_cases.specs.inner.BytesBelow.{below_are_bytes};

    type File = S::File;

    ghost files = { λ s. told_below s.prefix.now (S.files s.shelf.now) };

    ghost content = { λ s file. S.content s.shelf.now file };

    ghost name_of = { λ s file. name_below s.prefix.now (S.name_of s.shelf.now file) };

    ghost size_of = { λ s file. S.size_of s.shelf.now file };

    ghost faults = { λ s. s.faults };

    ghost asked = { λ s. S.asked s.shelf.now };

    ghost greatest = { λ s. S.greatest s.shelf.now };

    ghost files_are_bytes = { λ s named name bytes is holds. below_are_bytes (S.files s.shelf.now) s.prefix.now named name bytes (S.files_are_bytes s.shelf.now) is holds };

    ghost content_is_bytes = { λ s file bytes is. S.content_is_bytes s.shelf.now file bytes is };

    fn find(&mut self, name: &str) -> Result<Option<S::File>, Failed> {
        let Ok(whole) = joined(self.alloc, self.prefix, name) else {
            self.faults = self.faults.saturating_add(1);
            return Err(Failed);
        };
        match self.shelf.find(whole.as_str()) {
            Ok(found) => Ok(found),
            Err(Failed) => {
                self.faults = self.faults.saturating_add(1);
                Err(Failed)
            }
        }
    }

    fn size(&self, file: &S::File) -> u64 {
        self.shelf.size(file)
    }

    fn read_at(&mut self, file: &mut S::File, at: u64, into: &mut [u8]) -> Result<(), Failed> {
        match self.shelf.read_at(file, at, into) {
            Ok(()) => Ok(()),
            Err(Failed) => {
                self.faults = self.faults.saturating_add(1);
                Err(Failed)
            }
        }
    }
}
