ghost use Rattle.std.specs.Prelude.{◌≡◌, ◌≤◌, ◌<◌, ◌+◌, ◌^◌, ℕ, List, Option, Some, length, max, IfOk, OnOk, OnErr};
ghost use Rattle.dap_outside.specs.Causes.{HasCause, more_asked};
ghost use Rattle.dap_outside.specs.Files.{Told, Finds, HasSize, Reads, IsBytes};

use crate::Failed;

/// Files that are found by name and read in parts. No call changes them.
pub trait Shelf {
    /// A file that was found.
    type File: Drop;

    /// The files by name, where it tells them.
    ghost files: { Self → Told };

    /// The bytes of a file, where it tells them.
    ghost content: { Self → Self.File → Option (List ℕ) };

    /// The name by which a file was found, where it tells its files.
    ghost name_of: { Self → Self.File → Option (List ℕ) };

    /// The number of bytes of a file, at most 2^63-1.
    ghost size_of: { Self → Self.File → ℕ };

    /// How often a call has failed, up to 2^64-1.
    ghost faults: { Self → ℕ };

    /// How many bytes were asked of it, up to 2^128-1.
    ghost asked: { Self → ℕ };

    /// The greatest length that was asked at once.
    ghost greatest: { Self → ℕ };

    /// The file of a name, `None` where there is none. Fails only where the count of faults rose.
    fn find(&mut self, name: &str) -> Result<Option<Self::File>, Failed>
        ensures found { IfOk result (Finds (files self.old) (name_of self.new) (content self.new) name.now) }
        ensures files { files self.new ≡ files self.old }
        ensures content { content self.new ≡ content self.old }
        ensures names { name_of self.new ≡ name_of self.old }
        ensures sizes { size_of self.new ≡ size_of self.old }
        ensures asked { asked self.new ≡ asked self.old }
        ensures greatest { greatest self.new ≡ greatest self.old }
        ensures cause { HasCause (faults self.old) (faults self.new) result };

    /// The number of bytes of the file.
    fn size(&self, file: &Self::File) -> u64
        ensures size { result ≡ size_of self.now file.now }
        ensures small { result < 2 ^ 63 }
        ensures told { HasSize (content self.now file.now) result };

    /// Fills the buffer with the bytes from a place on. Fails only where the count of faults rose.
    fn read_at(&mut self, file: &mut Self::File, at: u64, into: &mut [u8]) -> Result<(), Failed>
        requires { at + length into.old ≤ size_of self.old file.old }
        ensures read { OnOk result (Reads (content self.old file.old) at into.new) }
        ensures same_file { content self.new file.new ≡ content self.old file.old }
        ensures same_name { name_of self.new file.new ≡ name_of self.old file.old }
        ensures same_size { size_of self.new file.new ≡ size_of self.old file.old }
        ensures files { files self.new ≡ files self.old }
        ensures content { content self.new ≡ content self.old }
        ensures names { name_of self.new ≡ name_of self.old }
        ensures sizes { size_of self.new ≡ size_of self.old }
        ensures asked { asked self.new ≡ more_asked (asked self.old) (length into.old) }
        ensures greatest { greatest self.new ≡ max (greatest self.old) (length into.old) }
        ensures cause { HasCause (faults self.old) (faults self.new) result };

    /// What it tells of its files are bytes.
    ghost files_are_bytes: { (s : Self) (named : List ℕ → Option (List ℕ)) (name bytes : List ℕ) → files s ≡ Some named → named name ≡ Some bytes → IsBytes bytes };

    ghost content_is_bytes: { (s : Self) (file : Self.File) (bytes : List ℕ) → content s file ≡ Some bytes → IsBytes bytes };
}
