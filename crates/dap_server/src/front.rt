//! The header of a netCDF file, read from the front of the file.

ghost use Rattle.std.specs.Prelude.{◌≡◌, ◌+◌, ◌-◌, ◌*◌, ◌<◌, ◌≤◌, ◌^◌, ◌++◌, ℕ, List, length, min, max, IfOk, IfErr, IfNone, IfSome, OnOk};
ghost use Rattle.dap_types.specs.Limits.{most_header, most_piece};
ghost use Rattle.dap_outside.specs.Causes.{Rose};
ghost use Rattle.dap_outside.specs.Files.{HasSize, Reads};
ghost use Rattle.netcdf_source.specs.Header.{IsCut, IsHeader};
ghost use Rattle.dap_server.specs.Files.{IsHeaderCause, front, header_cause};
ghost use Rattle.dap_server.specs.inner.Opening.{IsRead, IsWanted, StaysBut, WhereFault, WhereRefused, stop_of};

use crate::no_answer::{Stop, damaged};
use dap_errors::FileCause;
use dap_outside::Shelf;
use dap_types::limits;
use netcdf_source::{Header, HeaderRefusal, read_front};
use std::alloc::Global;

/// The most bytes of a header.
const HEADER_MAX: u64 = limits::MOST_HEADER as u64;

/// The bytes that are read first.
const FIRST: u64 = limits::MOST_PIECE as u64;

/// The stop for which there is no header.
fn header_stop(refusal: HeaderRefusal) -> Stop
    ensures { result ≡ stop_of (header_cause refusal) }
{
    match refusal {
        HeaderRefusal::NotCdf => damaged(FileCause::NotCdf),
        HeaderRefusal::Streaming => damaged(FileCause::Streaming),
        HeaderRefusal::BadField { place } => damaged(FileCause::BadField { place }),
        HeaderRefusal::HeaderCut => damaged(FileCause::HeaderCut),
        HeaderRefusal::HeaderTooLong => damaged(FileCause::HeaderTooLong),
        HeaderRefusal::PastEnd { var } => damaged(FileCause::PastEnd { var }),
        HeaderRefusal::Memory => Stop::Memory,
    }
}

/// The header of a file of this size that begins with these bytes, `None` where they stop within it.
fn header_in(alloc: Global, held: &[u8], size: u64) -> Result<Option<Header>, Stop>
    requires held { length held.now ≤ min size most_header }
    requires size { size < 2 ^ 63 }
    ensures header { IfOk result (λ found. IfSome found (λ h. ((more : List ℕ) → IsHeader h.contents (held.now ++ more) size) × (h.length ≡ size))) }
    ensures more { IfOk result (λ found. IfNone found ((length held.now < min size most_header) × IsCut held.now)) }
    ensures refused { IfErr result (WhereRefused (λ cause. (more : List ℕ) → length (held.now ++ more) ≡ min size most_header → IsHeaderCause (held.now ++ more) size cause)) }
    ensures no_fault { IfErr result (WhereFault ⊥) }
{
    match read_front(alloc, held, size) {
        Ok(found) => Ok(found),
        Err(refusal) => Err(header_stop(refusal)),
    }
}

/// Reads on behind the first bytes of a file, until so many are held.
fn read_on<S: Shelf>(
    shelf: &mut S,
    file: &mut S::File,
    held: &mut Vec<u8>,
    len: u64,
) -> Result<(), Stop>
    requires more { length held.old.items ≤ len }
    requires within { len ≤ S.size_of shelf.old file.old }
    requires small { len ≤ most_header }
    requires read { Reads (S.content shelf.old file.old) 0 held.old.items }
    ensures bytes { OnOk result (Reads (S.content shelf.old file.old) 0 held.new.items × (length held.new.items ≡ len)) }
    ensures why { IfErr result (WhereFault (Rose (S.faults shelf.old) (S.faults shelf.new))) }
    ensures no_cause { IfErr result (WhereRefused (λ cause. ⊥)) }
    ensures later { S.faults shelf.old ≤ S.faults shelf.new }
    ensures stays { StaysBut result (S.faults shelf.old) (S.faults shelf.new) }
    ensures files { S.files shelf.new ≡ S.files shelf.old }
    ensures contents { S.content shelf.new ≡ S.content shelf.old }
    ensures all_sizes { S.size_of shelf.new ≡ S.size_of shelf.old }
    ensures content { S.content shelf.new file.new ≡ S.content shelf.old file.old }
    ensures sizes { S.size_of shelf.new file.new ≡ S.size_of shelf.old file.old }
    ensures asked { S.asked shelf.new + length held.old.items ≤ S.asked shelf.old + len }
{
    let done = held.len();
    held.resize(len as usize, 0)?;
    match shelf.read_at(file, done as u64, &mut held[done..]) {
        Ok(()) => Ok(()),
        Err(_) => Err(Stop::ShelfFault),
    }
}

/// How many first bytes are held next, behind so many: 64 KiB, and then twice as many, up to the most.
fn next_len(len: usize, most: u64) -> u64
    requires { len ≤ most_header }
    ensures { result ≡ min most (max most_piece (2 * len)) }
{
    most.min(FIRST.max(2 * len as u64))
}

/// Reads on until so many first bytes are held: the header, `None` where they stop within it.
fn read_header_on<S: Shelf>(
    alloc: Global,
    shelf: &mut S,
    file: &mut S::File,
    held: &mut Vec<u8>,
    len: u64,
    size: u64,
) -> Result<Option<Header>, Stop>
    requires size { size ≡ S.size_of shelf.old file.old }
    requires small { size < 2 ^ 63 }
    requires more { length held.old.items ≤ len }
    requires within { len ≤ min size most_header }
    requires read { Reads (S.content shelf.old file.old) 0 held.old.items }
    ensures bytes { IfOk result (λ found. Reads (S.content shelf.old file.old) 0 held.new.items × (length held.new.items ≡ len)) }
    ensures header { IfOk result (λ found. IfSome found (λ h. ((more : List ℕ) → IsHeader h.contents (held.new.items ++ more) size) × (h.length ≡ size))) }
    ensures more { IfOk result (λ found. IfNone found ((len < min size most_header) × IsCut held.new.items)) }
    ensures refused { IfErr result (WhereRefused (λ cause. Reads (S.content shelf.old file.old) 0 held.new.items × (length held.new.items ≤ min size most_header)
        × ((more : List ℕ) → length (held.new.items ++ more) ≡ min size most_header → IsHeaderCause (held.new.items ++ more) size cause))) }
    ensures why { IfErr result (WhereFault (Rose (S.faults shelf.old) (S.faults shelf.new))) }
    ensures later { S.faults shelf.old ≤ S.faults shelf.new }
    ensures stays { StaysBut result (S.faults shelf.old) (S.faults shelf.new) }
    ensures files { S.files shelf.new ≡ S.files shelf.old }
    ensures contents { S.content shelf.new ≡ S.content shelf.old }
    ensures all_sizes { S.size_of shelf.new ≡ S.size_of shelf.old }
    ensures content { S.content shelf.new file.new ≡ S.content shelf.old file.old }
    ensures sizes { S.size_of shelf.new file.new ≡ S.size_of shelf.old file.old }
    ensures asked { S.asked shelf.new + length held.old.items ≤ S.asked shelf.old + len }
{
    read_on(shelf, file, held, len)?;
    header_in(alloc, held.as_slice(), size)
}

/// The header of a netCDF file. Of its first 1,048,576 bytes so many are read, each once, that they hold
/// the header: 64 KiB, and while these stop within it twice as many.
pub fn open_netcdf<S: Shelf>(
    alloc: Global,
    shelf: &mut S,
    file: &mut S::File,
) -> Result<Header, Stop>
    ensures header { IfOk result (λ h. (bytes : List ℕ) × IsRead (S.content shelf.old file.old) bytes × (S.size_of shelf.old file.old ≡ length bytes) × IsHeader h.contents (front bytes) (length bytes) × (h.length ≡ length bytes)) }
    ensures refused { IfErr result (WhereRefused (λ cause. (bytes : List ℕ) × IsRead (S.content shelf.old file.old) bytes × IsHeaderCause (front bytes) (length bytes) cause)) }
    ensures why { IfErr result (WhereFault (Rose (S.faults shelf.old) (S.faults shelf.new))) }
    ensures later { S.faults shelf.old ≤ S.faults shelf.new }
    ensures stays { StaysBut result (S.faults shelf.old) (S.faults shelf.new) }
    ensures files { S.files shelf.new ≡ S.files shelf.old }
    ensures contents { S.content shelf.new ≡ S.content shelf.old }
    ensures all_sizes { S.size_of shelf.new ≡ S.size_of shelf.old }
    ensures content { S.content shelf.new file.new ≡ S.content shelf.old file.old }
    ensures sizes { S.size_of shelf.new file.new ≡ S.size_of shelf.old file.old }
    ensures told { HasSize (S.content shelf.old file.old) (S.size_of shelf.old file.old) }
    ensures asked { S.asked shelf.new ≤ S.asked shelf.old + min (S.size_of shelf.old file.old) most_header }

    // No more is asked than 64 KiB, or than twice as many first bytes as stop within the header.
    ensures wanted { (n : ℕ) × IsWanted (S.content shelf.old file.old) n × (S.asked shelf.new ≤ S.asked shelf.old + n) }
{
    let size = shelf.size(file);
    let most = size.min(HEADER_MAX);
    let mut held = Vec::new(alloc);
    'fronts: loop {
        let len = next_len(held.len(), most);
        match read_header_on(alloc, shelf, file, &mut held, len, size) {
            Ok(Some(header)) => return Ok(header),
            Ok(None) => {}
            Err(stop) => return Err(stop),
        }
    }
}
