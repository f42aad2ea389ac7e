ghost use Rattle.std.specs.Prelude.{◌≡◌, ◌≤◌, ◌<◌, ◌+◌, ℕ, List, [], Some, None, Option, length, max, IfOk, OnOk};
ghost use Rattle.dap_outside.specs.Calls.{IsOneMore};
ghost use Rattle.dap_outside.specs.Causes.{HasCause, more_asked};
ghost use Rattle.dap_outside.specs.Files.{Finds, Reads};
ghost use Rattle.dap_outside.specs.Stored.{AreBytes};

use crate::calls::Calls;
use crate::search::{fill_from, place_named, see_bytes, size_of_entry};
use crate::{Failed, Shelf};
use dap_types::{Bytes, List, Name};

/// A file in memory.
#[derive(Debug, Drop)]
pub struct MemFile {
    pub name: Name,
    pub bytes: Bytes,
}

/// Files in memory, which it tells. The calls of `find` and `read_at` whose numbers, counted together
/// from 1, are in a list fail, and no others. A file is the number of its entry.
#[derive(Debug, Drop)]
pub struct MemShelf {
    files: List<MemFile>,
    calls: Calls,
    asked: u128,
    greatest: u64,
    ghost bytes: { AreBytes files },
    ghost only_listed: { calls.fails ≡ [] → calls.faults ≡ 0 },
}

impl MemShelf {
    ghost use Rattle.dap_outside.specs.MemShelf.{bytes_named};

    /// A shelf of these files, of which the first of a name is found. The calls in `fails` fail.
    pub fn new(files: List<MemFile>, fails: List<u64>) -> MemShelf
        ensures files { ⟦<MemShelf as Shelf>⟧.files result ≡ Some (bytes_named files) }
        ensures faults { ⟦<MemShelf as Shelf>⟧.faults result ≡ 0 }
        ensures asked { ⟦<MemShelf as Shelf>⟧.asked result ≡ 0 }
        ensures greatest { ⟦<MemShelf as Shelf>⟧.greatest result ≡ 0 }
        ensures calls { (result.calls.made ≡ 0) × (result.calls.fails ≡ fails) }
    {
        see_bytes(files.items());
        MemShelf {
            files,
            calls: Calls::new(fails),
            asked: 0,
            greatest: 0,
        }
    }
}

impl Shelf for MemShelf {
    ghost use Rattle.std.specs.Prelude.{Some};
    ghost use Rattle.dap_outside.specs.MemShelf.{bytes_named, bytes_at, name_at, size_at};
    ghost use Rattle.dap_outside.specs.inner.BytesFit.{all_named_fit, at_fit};

    type File = usize;

    ghost files = { λ s. Some (bytes_named s.files) };

    ghost content = { λ s file. bytes_at s.files file };

    ghost name_of = { λ s file. name_at s.files file };

    ghost size_of = { λ s file. size_at s.files file };

    ghost faults = { λ s. s.calls.faults };

    ghost asked = { λ s. s.asked };

    ghost greatest = { λ s. s.greatest };

    ghost files_are_bytes = { λ s files name bytes. all_named_fit s.files files name bytes s.bytes };

    ghost content_is_bytes = { λ s file bytes. at_fit s.files file bytes s.bytes };

    /// Finds the first file of the name. Fails exactly where the call is listed.
    fn find(&mut self, name: &str) -> Result<Option<usize>, Failed>
        ensures found { IfOk result (Finds (Some (bytes_named self.old.files)) (name_at self.new.files) (bytes_at self.new.files) name.now) }
        ensures files { self.new.files ≡ self.old.files }
        ensures asked { self.new.asked ≡ self.old.asked }
        ensures greatest { self.new.greatest ≡ self.old.greatest }
        ensures cause { HasCause self.old.calls.faults self.new.calls.faults result }
        ensures calls { IsOneMore self.old.calls self.new.calls ⊥ result }
    {
        self.calls.count(true)?;
        Ok(place_named(self.files.items(), name))
    }

    fn size(&self, file: &usize) -> u64 {
        size_of_entry(self.files.items(), *file)
    }

    /// Reads from a byte of the file on. Fails exactly where the call is listed.
    fn read_at(&mut self, file: &mut usize, at: u64, into: &mut [u8]) -> Result<(), Failed>
        requires { at + length into.old ≤ size_at self.old.files file.old }
        ensures read { OnOk result (Reads (bytes_at self.old.files file.old) at into.new) }
        ensures same_file { file.new ≡ file.old }
        ensures files { self.new.files ≡ self.old.files }
        ensures asked { self.new.asked ≡ more_asked self.old.asked (length into.old) }
        ensures greatest { self.new.greatest ≡ max self.old.greatest (length into.old) }
        ensures cause { HasCause self.old.calls.faults self.new.calls.faults result }
        ensures calls { IsOneMore self.old.calls self.new.calls ⊥ result }
    {
        self.asked = self.asked.saturating_add(into.len() as u128);
        self.greatest = self.greatest.max(into.len() as u64);
        self.calls.count(true)?;
        fill_from(self.files.items(), *file, at, into);
        Ok(())
    }
}
