//! The files that the lines of a list name, with their headers.

ghost use Rattle.std.specs.Prelude.{◌≡◌, ◌+◌, ◌≤◌, ◌<◌, ℕ, List, All, length, min, IfOk, IfErr, IsTrue, Ok, Err, Some, None};
ghost use Rattle.dap_types.specs.Limits.{most_header};
ghost use Rattle.dap_outside.specs.Causes.{Rose};
ghost use Rattle.dap_outside.specs.Files.{Finds, HasSize};
ghost use Rattle.dap_errors.specs.declared.cause.Cause.{Cause};
ghost use Rattle.netcdf_source.specs.Header.{IsHeader};
ghost use Rattle.join_source.specs.Names.{is_member_name};
ghost use Rattle.dap_server.specs.Headers.{IsHeaderCause, front};
ghost use Rattle.dap_server.specs.Joins.{IsMember, Member, Members};
ghost use Rattle.dap_server.specs.inner.Members.{AreFilesOf, AreHeadersOf, AsksLine, AsksLines, AsksToBad, bad_member, IsFileOf, IsHeaderOf, most_in_line, most_in_lines};
ghost use Rattle.dap_server.specs.inner.Opening.{IsRead, StaysBut, WhereFault, WhereRefused};

use crate::front::open_netcdf;
use crate::no_answer::{Stop, damaged};
use dap_errors::FileCause;
use dap_outside::Shelf;
use dap_types::{Bytes, List};
use netcdf_source::Header;
use std::alloc::Global;

/// The files of the lines of a list and their headers, in the order of the lines.
#[derive(Drop)]
pub struct MemberFiles<F> {
    pub headers: List<Header>,
    pub files: List<F>,
}

/// The name in a line, as a text.
fn text_of(name: &[u8]) -> &str
    requires { IsTrue (is_member_name name.now) }
    ensures { result.now ≡ name.now }
{
    match str::from_utf8(name) {
        Ok(text) => text,
        Err(_) => unreachable!(),
    }
}

/// The file of the name in a line.
fn find_member<S: Shelf>(shelf: &mut S, name: &str, line: u32) -> Result<S::File, Stop>
    ensures found { IfOk result (λ file. Finds (S.files shelf.old) (S.name_of shelf.new) (S.content shelf.new) name.now (Some file)) }
    ensures refused { IfErr result (WhereRefused (λ cause. IsMember (S.files shelf.old) line name.now (Err cause))) }
    ensures missing { IfErr result (WhereRefused (λ cause. cause ≡ Cause.Damaged (FileCause.NoMember line))) }
    ensures why { IfErr result (WhereFault (Rose (S.faults shelf.old) (S.faults shelf.new))) }
    ensures later { S.faults shelf.old ≤ S.faults shelf.new }
    ensures stays { StaysBut result (S.faults shelf.old) (S.faults shelf.new) }
    ensures files { S.files shelf.new ≡ S.files shelf.old }
    ensures contents { S.content shelf.new ≡ S.content shelf.old }
    ensures sizes { S.size_of shelf.new ≡ S.size_of shelf.old }
    ensures asked { S.asked shelf.new ≡ S.asked shelf.old }
{
    match shelf.find(name) {
        Ok(Some(file)) => Ok(file),
        Ok(None) => Err(damaged(FileCause::NoMember { line })),
        Err(_) => Err(Stop::ShelfFault),
    }
}

/// The stop of a line whose file was not opened.
fn bad_member(stop: Stop, line: u32) -> Stop
    ensures { result ≡ bad_member line stop }
{
    match stop {
        Stop::Refused(_) => damaged(FileCause::BadMember { line }),
        Stop::ShelfFault => Stop::ShelfFault,
        Stop::Memory => Stop::Memory,
    }
}

/// The header of the file of a line.
fn member_header<S: Shelf>(
    alloc: Global,
    shelf: &mut S,
    file: &mut S::File,
    line: u32,
) -> Result<Header, Stop>
    ensures header { IfOk result (λ h. (bytes : List ℕ) × IsRead (S.content shelf.old file.old) bytes × (S.size_of shelf.old file.old ≡ length bytes) × IsHeader h.contents (front bytes) (length bytes) × (h.length ≡ length bytes)) }
    ensures refused { IfErr result (WhereRefused (λ cause. (bytes : List ℕ) × (why : Cause) × IsRead (S.content shelf.old file.old) bytes × IsHeaderCause (front bytes) (length bytes) why × (cause ≡ Cause.Damaged (FileCause.BadMember line)))) }
    ensures why { IfErr result (WhereFault (Rose (S.faults shelf.old) (S.faults shelf.new))) }
    ensures later { S.faults shelf.old ≤ S.faults shelf.new }
    ensures stays { StaysBut result (S.faults shelf.old) (S.faults shelf.new) }
    ensures files { S.files shelf.new ≡ S.files shelf.old }
    ensures contents { S.content shelf.new ≡ S.content shelf.old }
    ensures all_sizes { S.size_of shelf.new ≡ S.size_of shelf.old }
    ensures content { S.content shelf.new file.new ≡ S.content shelf.old file.old }
    ensures sizes { S.size_of shelf.new file.new ≡ S.size_of shelf.old file.old }
    ensures told { HasSize (S.content shelf.old file.old) (S.size_of shelf.old file.old) }
    ensures asked { S.asked shelf.new ≤ S.asked shelf.old + min (S.size_of shelf.old file.old) most_header }
{
    match open_netcdf(alloc, shelf, file) {
        Ok(header) => Ok(header),
        Err(stop) => Err(bad_member(stop, line)),
    }
}

/// The file of a line and its header.
fn open_member<S: Shelf>(
    alloc: Global,
    shelf: &mut S,
    name: &[u8],
    line: u32,
) -> Result<(Header, S::File), Stop>
    requires name { IsTrue (is_member_name name.now) }
    ensures member { IfOk result (λ p. (m : Member) × IsMember (S.files shelf.old) line name.now (Ok m) × IsHeaderOf p.0 m × IsFileOf (S.files shelf.old) (S.content shelf.new) (S.size_of shelf.new) p.1 m) }
    ensures refused { IfErr result (WhereRefused (λ cause. IsMember (S.files shelf.old) line name.now (Err cause))) }
    ensures why { IfErr result (WhereFault (Rose (S.faults shelf.old) (S.faults shelf.new))) }
    ensures later { S.faults shelf.old ≤ S.faults shelf.new }
    ensures stays { StaysBut result (S.faults shelf.old) (S.faults shelf.new) }
    ensures files { S.files shelf.new ≡ S.files shelf.old }
    ensures contents { S.content shelf.new ≡ S.content shelf.old }
    ensures sizes { S.size_of shelf.new ≡ S.size_of shelf.old }
    ensures asked { S.asked shelf.new ≤ S.asked shelf.old + most_in_line (S.files shelf.old) name.now }
    ensures asked_before { IfErr result (WhereRefused (λ cause. AsksLine (S.files shelf.old) name.now line cause (S.asked shelf.old) (S.asked shelf.new))) }
{
    let mut file = find_member(shelf, text_of(name), line)?;
    let header = member_header(alloc, shelf, &mut file, line)?;
    Ok((header, file))
}

/// The files of some lines and their headers, found and read line by line. The first line that names no file, or none
/// with a header, is told.
pub fn open_members<S: Shelf>(
    alloc: Global,
    shelf: &mut S,
    names: &[Bytes],
) -> Result<MemberFiles<S::File>, Stop>
    requires names { All (λ name. IsTrue (is_member_name name)) names.now }
    requires few { length names.now ≤ 64 }
    ensures members { IfOk result (λ r. (ms : List Member) × Members (S.files shelf.old) 1 names.now (Ok ms) × AreHeadersOf r.headers ms × AreFilesOf (S.files shelf.old) (S.content shelf.new) (S.size_of shelf.new) r.files ms) }
    ensures refused { IfErr result (WhereRefused (λ cause. Members (S.files shelf.old) 1 names.now (Err cause))) }
    ensures why { IfErr result (WhereFault (Rose (S.faults shelf.old) (S.faults shelf.new))) }
    ensures later { S.faults shelf.old ≤ S.faults shelf.new }
    ensures stays { StaysBut result (S.faults shelf.old) (S.faults shelf.new) }
    ensures files { S.files shelf.new ≡ S.files shelf.old }
    ensures contents { S.content shelf.new ≡ S.content shelf.old }
    ensures sizes { S.size_of shelf.new ≡ S.size_of shelf.old }
    ensures asked { S.asked shelf.new ≤ S.asked shelf.old + most_in_lines (S.files shelf.old) names.now }
    ensures asked_before { IfErr result (WhereRefused (λ cause. AsksLines (S.files shelf.old) names.now cause (S.asked shelf.old) (S.asked shelf.new))) }
    ensures before_bad { AsksToBad (S.files shelf.old) names.now (S.asked shelf.old) (S.asked shelf.new) }
{
    let mut headers = List::new(alloc);
    let mut files = List::new(alloc);
    for (k, name) in names.iter().enumerate() {
        let (header, file) = open_member(alloc, shelf, name.bytes(), k as u32 + 1)?;
        headers.push(header)?;
        files.push(file)?;
    }
    Ok(MemberFiles { headers, files })
}
