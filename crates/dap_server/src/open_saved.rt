//! Opening a file that holds a saved data response.

ghost use Rattle.std.specs.Prelude.{◌≡◌, ◌+◌, ◌≤◌, ℕ, List, length, min, IfOk, IfErr};
ghost use Rattle.dap_types.specs.Limits.{most_saved};
ghost use Rattle.dap_outside.specs.Causes.{Rose};
ghost use Rattle.dap_outside.specs.Files.{HasSize};
ghost use Rattle.dap_types.specs.Model.{Tree};
ghost use Rattle.saved_source.specs.Responses.{Holds, IsSaved, dataset_in};
ghost use Rattle.dap_server.specs.Files.{IsSavedCause, saved_cause};
ghost use Rattle.dap_server.specs.inner.Opening.{IsRead, StaysBut, WhereFault, WhereRefused, stop_of};

use crate::no_answer::{Stop, damaged};
use crate::open::read_front;
use crate::saved_file::SavedFile;
use dap_errors::FileCause;
use dap_outside::Shelf;
use dap_types::{Bytes, limits};
use saved_source::{SavedRefusal, hold_saved};
use std::alloc::Global;

/// The most bytes of a saved response.
const SAVED_MAX: u64 = limits::MOST_SAVED as u64;

/// The stop for which there is no response.
fn refusal_stop(refusal: SavedRefusal) -> Stop
    ensures { result ≡ stop_of (saved_cause refusal) }
{
    match refusal {
        SavedRefusal::TooLong => damaged(FileCause::SavedTooLong),
        SavedRefusal::BadBody { place } => damaged(FileCause::BadBody { place }),
        SavedRefusal::RepeatedName { member } => damaged(FileCause::RepeatedName { member }),
        SavedRefusal::Memory => Stop::Memory,
    }
}

/// The response in a file of these bytes.
fn saved_in(alloc: Global, bytes: Vec<u8>, name: &str) -> Result<SavedFile, Stop>
    ensures saved { IfOk result (λ s. (ts : List Tree) × IsSaved bytes.items name.now (dataset_in s.saved) ts × Holds s.saved ts) }
    ensures refused { IfErr result (WhereRefused (λ cause. IsSavedCause name.now bytes.items cause)) }
    ensures no_fault { IfErr result (WhereFault ⊥) }
{
    let held = Bytes::from_vec(bytes);
    match hold_saved(alloc, held, name.as_bytes()) {
        Ok(saved) => Ok(SavedFile { saved }),
        Err(refusal) => Err(refusal_stop(refusal)),
    }
}

/// The response in a file, which is read whole.
pub fn open_saved<S: Shelf>(
    alloc: Global,
    shelf: &mut S,
    file: &mut S::File,
    name: &str,
) -> Result<SavedFile, Stop>
    ensures saved { IfOk result (λ s. (bytes : List ℕ) × IsRead (S.content shelf.old file.old) bytes × (S.size_of shelf.old file.old ≡ length bytes)
        × ((ts : List Tree) × IsSaved bytes name.now (dataset_in s.saved) ts × Holds s.saved ts)) }
    ensures refused { IfErr result (WhereRefused (λ cause. (bytes : List ℕ) × IsRead (S.content shelf.old file.old) bytes × IsSavedCause name.now bytes cause)) }
    ensures why { IfErr result (WhereFault (Rose (S.faults shelf.old) (S.faults shelf.new))) }
    ensures later { S.faults shelf.old ≤ S.faults shelf.new }
    ensures stays { StaysBut result (S.faults shelf.old) (S.faults shelf.new) }
    ensures files { S.files shelf.new ≡ S.files shelf.old }
    ensures content { S.content shelf.new file.new ≡ S.content shelf.old file.old }
    ensures sizes { S.size_of shelf.new file.new ≡ S.size_of shelf.old file.old }
    ensures told { HasSize (S.content shelf.old file.old) (S.size_of shelf.old file.old) }
    ensures asked { S.asked shelf.new ≤ S.asked shelf.old + min (S.size_of shelf.old file.old) most_saved }
{
    let size = shelf.size(file);
    if size > SAVED_MAX {
        return Err(damaged(FileCause::SavedTooLong));
    }
    let bytes = read_front(alloc, shelf, file, size)?;
    saved_in(alloc, bytes, name)
}
