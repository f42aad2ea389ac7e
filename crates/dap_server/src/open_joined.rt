//! Opening a list of netCDF files and the files that it names, which are joined.

ghost use Rattle.std.specs.Prelude.{◌≡◌, ◌+◌, ◌≤◌, ℕ, List, length, IfOk, IfErr, Ok, Err, Some};
ghost use Rattle.dap_errors.specs.declared.cause.Cause.{Cause};
ghost use Rattle.dap_outside.specs.Causes.{Rose};
ghost use Rattle.dap_outside.specs.Files.{HasSize};
ghost use Rattle.join_source.specs.Joins.{headers_in, name_in};
ghost use Rattle.join_source.specs.Lists.{list_of};
ghost use Rattle.join_source.specs.Members.{CanJoin, contents_of};
ghost use Rattle.dap_server.specs.Costs.{IsAskedBefore, IsWithinBadLine, most_first, most_of_joined};
ghost use Rattle.dap_server.specs.Files.{form_of, joined};
ghost use Rattle.dap_server.specs.Joins.{AreJoined, Lists, Member, contents_in, join_cause, list_cause};
ghost use Rattle.dap_server.specs.inner.Joining.{IsJoinOf, MayOpenWithin, most_of_size};
ghost use Rattle.dap_server.specs.inner.Members.{AreHeadersOf};
ghost use Rattle.dap_server.specs.inner.Opening.{IsRead, StaysBut, WhereFault, WhereRefused, stop_of};

use crate::members::{MemberFiles, open_members};
use crate::no_answer::{Stop, damaged};
use crate::open::{find, read_front};
use dap_errors::FileCause;
use dap_outside::Shelf;
use dap_types::{Bytes, List, limits};
use join_source::{JoinRefusal, Joined, ListRefusal, join, read_list};
use netcdf_source::Header;
use std::alloc::Global;

/// The most bytes of a list.
const LIST_MAX: u64 = limits::MOST_PIECE as u64;

/// The stop for which there is no list.
fn list_stop(refusal: ListRefusal) -> Stop
    ensures { result ≡ stop_of (list_cause refusal) }
{
    match refusal {
        ListRefusal::TooLong => damaged(FileCause::JoinTooLong),
        ListRefusal::BadLine { line } => damaged(FileCause::BadLine { line }),
        ListRefusal::Memory => Stop::Memory,
    }
}

/// The stop for which files are not joined.
fn join_stop(refusal: JoinRefusal) -> Stop
    ensures { result ≡ stop_of (join_cause refusal) }
{
    match refusal {
        JoinRefusal::NoRecord => damaged(FileCause::NoRecord),
        JoinRefusal::Differs { line } => damaged(FileCause::Differs { line }),
        JoinRefusal::TooManyRecords => damaged(FileCause::TooManyRecords),
        JoinRefusal::Memory => Stop::Memory,
    }
}

/// The names in a list of these bytes.
fn names_in(alloc: Global, bytes: &[u8]) -> Result<List<Bytes>, Stop>
    ensures names { IfOk result (λ names. list_of bytes.now ≡ Ok names) }
    ensures refused { IfErr result (WhereRefused (λ cause. Lists bytes.now (Err cause))) }
    ensures no_fault { IfErr result (WhereFault ⊥) }
{
    match read_list(alloc, bytes) {
        Ok(names) => Ok(names),
        Err(refusal) => Err(list_stop(refusal)),
    }
}

/// The names in a file that lists them, which is read whole.
fn open_list<S: Shelf>(
    alloc: Global,
    shelf: &mut S,
    file: &mut S::File,
) -> Result<List<Bytes>, Stop>
    ensures names { IfOk result (λ names. (bytes : List ℕ) × IsRead (S.content shelf.old file.old) bytes × (list_of bytes ≡ Ok names)) }
    ensures refused { IfErr result (WhereRefused (λ cause. (bytes : List ℕ) × IsRead (S.content shelf.old file.old) bytes × Lists bytes (Err cause))) }
    ensures why { IfErr result (WhereFault (Rose (S.faults shelf.old) (S.faults shelf.new))) }
    ensures later { S.faults shelf.old ≤ S.faults shelf.new }
    ensures stays { StaysBut result (S.faults shelf.old) (S.faults shelf.new) }
    ensures files { S.files shelf.new ≡ S.files shelf.old }
    ensures told { HasSize (S.content shelf.old file.old) (S.size_of shelf.old file.old) }
    ensures asked { S.asked shelf.new ≤ S.asked shelf.old + most_of_size (S.size_of shelf.old file.old) }
{
    let size = shelf.size(file);
    if size > LIST_MAX {
        return Err(damaged(FileCause::JoinTooLong));
    }
    let bytes = read_front(alloc, shelf, file, size)?;
    names_in(alloc, bytes.as_slice())
}

/// Files of these headers joined, under the name of their list.
fn joined_of(alloc: Global, headers: List<Header>, name: &str) -> Result<Joined, Stop>
    requires some { 1 ≤ length headers }
    requires many { length headers ≤ 64 }
    ensures headers { IfOk result (λ j. headers_in j ≡ headers) }
    ensures name { IfOk result (λ j. name_in j ≡ name.now) }
    ensures can_join { IfOk result (λ j. CanJoin (contents_of headers)) }
    ensures refused { IfErr result (WhereRefused (λ cause. (ms : List Member) → AreHeadersOf headers ms → AreJoined name.now ms (Err cause))) }
    ensures no_fault { IfErr result (WhereFault ⊥) }
{
    match join(alloc, headers, name.as_bytes()) {
        Ok(joined) => Ok(joined),
        Err(refusal) => Err(join_stop(refusal)),
    }
}

/// The files that the list of a name joins, opened.
pub fn open_joined<S: Shelf>(
    alloc: Global,
    shelf: &mut S,
    name: &str,
) -> Result<(Joined, List<S::File>), Stop>
    requires form { form_of name.now ≡ Some joined }
    ensures opened { IfOk result (λ p. IsJoinOf (S.files shelf.old) (S.content shelf.new) (S.size_of shelf.new) name.now p.0 p.1) }
    ensures refused { IfErr result (WhereRefused (λ cause. MayOpenWithin (S.files shelf.old) name.now (S.asked shelf.old) (S.asked shelf.new) (Err cause))) }
    ensures why { IfErr result (WhereFault (Rose (S.faults shelf.old) (S.faults shelf.new))) }
    ensures later { S.faults shelf.old ≤ S.faults shelf.new }
    ensures stays { StaysBut result (S.faults shelf.old) (S.faults shelf.new) }
    ensures files { S.files shelf.new ≡ S.files shelf.old }
    ensures asked { S.asked shelf.new ≤ S.asked shelf.old + most_first (S.files shelf.old) name.now }
    ensures asked_before { IfErr result (WhereRefused (λ cause. IsAskedBefore (S.files shelf.old) name.now cause (S.asked shelf.old) (S.asked shelf.new))) }
    ensures before_bad { IsWithinBadLine (S.files shelf.old) name.now (S.asked shelf.old) (S.asked shelf.new) }
    ensures asked_lines { IfOk result (λ p. S.asked shelf.new ≤ S.asked shelf.old + most_of_joined (length p.1)) }
{
    let mut list = find(shelf, name)?;
    let names = open_list(alloc, shelf, &mut list)?;
    let members = open_members(alloc, shelf, names.items())?;
    let MemberFiles { headers, files } = members;
    let joined = joined_of(alloc, headers, name)?;
    Ok((joined, files))
}
