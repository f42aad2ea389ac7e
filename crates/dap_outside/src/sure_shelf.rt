ghost use Rattle.std.specs.Prelude.{◌≡◌, ◌≤◌, ◌<◌, ℕ, List, Some, Option, length};
ghost use Rattle.dap_outside.specs.Stored.{AreBytes};

use crate::search::{fill_from, place_named, see_bytes, size_of_entry};
use crate::{Failed, MemFile, Shelf};
use dap_types::List;

/// Files in memory, which it tells. No call fails. A file is the number of its entry.
#[derive(Debug, Drop)]
pub struct SureShelf {
    files: List<MemFile>,
    asked: u128,
    greatest: u64,
    ghost bytes: { AreBytes files },
}

impl SureShelf {
    ghost use Rattle.dap_outside.specs.MemShelf.{bytes_named};

    /// A shelf of these files, of which the first of a name is found.
    pub fn new(files: List<MemFile>) -> SureShelf
        ensures files { ⟦<SureShelf as Shelf>⟧.files result ≡ Some (bytes_named files) }
        ensures asked { ⟦<SureShelf as Shelf>⟧.asked result ≡ 0 }
        ensures greatest { ⟦<SureShelf as Shelf>⟧.greatest result ≡ 0 }
    {
        see_bytes(files.items());
        SureShelf {
            files,
            asked: 0,
            greatest: 0,
        }
    }
}

impl Shelf for SureShelf {
    ghost use Rattle.std.specs.Prelude.{Some};
    ghost use Rattle.dap_outside.specs.MemShelf.{bytes_named, bytes_at, name_at, size_at};
    ghost use Rattle.dap_outside.specs.inner.BytesFit.{all_named_fit, at_fit};

    type File = usize;

    ghost files = { λ s. Some (bytes_named s.files) };

    ghost content = { λ s file. bytes_at s.files file };

    ghost name_of = { λ s file. name_at s.files file };

    ghost size_of = { λ s file. size_at s.files file };

    ghost faults = { λ _. 0 };

    ghost asked = { λ s. s.asked };

    ghost greatest = { λ s. s.greatest };

    ghost files_are_bytes = { λ s files name bytes. all_named_fit s.files files name bytes s.bytes };

    ghost content_is_bytes = { λ s file bytes. at_fit s.files file bytes s.bytes };

    fn find(&mut self, name: &str) -> Result<Option<usize>, Failed> {
        Ok(place_named(self.files.items(), name))
    }

    fn size(&self, file: &usize) -> u64 {
        size_of_entry(self.files.items(), *file)
    }

    fn read_at(&mut self, file: &mut usize, at: u64, into: &mut [u8]) -> Result<(), Failed> {
        self.asked = self.asked.saturating_add(into.len() as u128);
        self.greatest = self.greatest.max(into.len() as u64);
        fill_from(self.files.items(), *file, at, into);
        Ok(())
    }
}
