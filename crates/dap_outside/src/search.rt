ghost use Rattle.std.specs.Prelude.{◌≡◌, ◌≤◌, ◌<◌, ◌+◌, ◌^◌, ℕ, List, Some, None, length, MatchOption};
ghost use Rattle.dap_outside.specs.Files.{HasSize, IsBytes, Reads};
ghost use Rattle.dap_outside.specs.MemShelf.{bytes_at, bytes_named, name_at, size_at};
ghost use Rattle.dap_outside.specs.Stored.{AreBytes};

use crate::MemFile;

/// The place of the first file of a name.
pub fn place_named(files: &[MemFile], name: &str) -> Option<usize>
    ensures { MatchOption result (bytes_named files.now name.now ≡ None)
        (λ place. (bytes : List ℕ) × (bytes_named files.now name.now ≡ Some bytes)
        × (name_at files.now place ≡ Some name.now) × (bytes_at files.now place ≡ Some bytes)) }
{
    for (place, file) in files.iter().enumerate() {
        if file.name.as_str() == name {
            return Some(place);
        }
    }
    None
}

/// The number of bytes of the file at a place.
pub fn size_of_entry(files: &[MemFile], place: usize) -> u64
    ensures size { result ≡ size_at files.now place }
    ensures small { result < 2 ^ 63 }
    ensures told { HasSize (bytes_at files.now place) result }
{
    match files.get(place) {
        Some(found) => found.bytes.bytes().len() as u64,
        None => 0,
    }
}

/// Fills the buffer from a byte of the file at a place.
pub fn fill_from(files: &[MemFile], place: usize, at: u64, into: &mut [u8])
    requires { at + length into.old ≤ size_at files.now place }
    ensures { Reads (bytes_at files.now place) at into.new }
{
    if let Some(found) = files.get(place) {
        let from = at as usize;
        into.copy_from_slice(&found.bytes.bytes()[from..from + into.len()]);
    }
}

/// What the files hold are bytes. It looks at each file once, and at none of its bytes.
pub fn see_bytes(files: &[MemFile])
    ensures { AreBytes files.now }
{
    for file in files {
        are_bytes(file.bytes.bytes());
    }
}

fn are_bytes(bytes: &[u8])
    ensures { IsBytes bytes.now }
{}
