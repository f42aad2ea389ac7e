//! Opening the stored file of a name.

ghost use Rattle.std.specs.Prelude.{◌≡◌, ◌≢◌, ◌+◌, ◌<◌, ◌≤◌, ℕ, List, length, min, IfOk, IfErr, IsTrue, Ok, Err, Some, None, is_some, option_map};
ghost use Rattle.dap_types.specs.Limits.{most_table};
ghost use Rattle.csv_source.specs.Causes.{table_of};
ghost use Rattle.dap_outside.specs.Causes.{Rose};
ghost use Rattle.dap_types.specs.Model.{Tree};
ghost use Rattle.dap_outside.specs.Files.{Finds, HasSize, Reads};
ghost use Rattle.dap_server.specs.Costs.{most_first, most_of_form};
ghost use Rattle.dap_server.specs.Files.{IsStored, IsTableCause, form_of, has_end, joined, table, table_cause};
ghost use Rattle.dap_server.specs.inner.Joining.{MayOpen};
ghost use Rattle.dap_server.specs.inner.Opening.{IsMissing, IsRead, Lies, OpenedAs, StaysBut, WhereFault, WhereRefused, form_view, stop_of};

use crate::front::open_netcdf;
use crate::no_answer::{Stop, damaged};
use crate::open_saved::open_saved;
use crate::saved_file::SavedFile;
use csv_source::{Table, TableRefusal, read_table};
use dap_errors::{Cause, FileCause};
use dap_outside::Shelf;
use dap_types::limits;
use file_names::last_segment;
use netcdf_source::Header;
use std::alloc::Global;

/// The most bytes of a table.
const TABLE_MAX: u64 = limits::MOST_TABLE as u64;

/// A stored file.
#[derive(Drop)]
pub enum Opened {
    Netcdf(Header),
    Table(Table),
    Saved(SavedFile),
}

/// How a file is read, by the end of its name.
#[derive(Clone, Copy, Debug, PartialEq, Eq)]
pub enum FileForm {
    Netcdf,
    Table,
    Saved,
    Joined,
}

/// The first bytes of a file.
pub fn read_front<S: Shelf>(
    alloc: Global,
    shelf: &mut S,
    file: &mut S::File,
    len: u64,
) -> Result<Vec<u8>, Stop>
    requires within { len ≤ S.size_of shelf.old file.old }
    ensures bytes { IfOk result (λ v. Reads (S.content shelf.old file.old) 0 v.items × (length v.items ≡ len)) }
    ensures why { IfErr result (WhereFault (Rose (S.faults shelf.old) (S.faults shelf.new))) }
    ensures no_cause { IfErr result (WhereRefused (λ cause. ⊥)) }
    ensures later { S.faults shelf.old ≤ S.faults shelf.new }
    ensures stays { StaysBut result (S.faults shelf.old) (S.faults shelf.new) }
    ensures files { S.files shelf.new ≡ S.files shelf.old }
    ensures content { S.content shelf.new file.new ≡ S.content shelf.old file.old }
    ensures sizes { S.size_of shelf.new file.new ≡ S.size_of shelf.old file.old }
    ensures asked { S.asked shelf.new ≤ S.asked shelf.old + len }
{
    let Ok(mut bytes) = vec![in alloc; 0u8; len as usize] else {
        return Err(Stop::Memory);
    };
    match shelf.read_at(file, 0, bytes.as_mut_slice()) {
        Ok(()) => Ok(bytes),
        Err(_) => Err(Stop::ShelfFault),
    }
}

/// The stop for which there is no table.
fn table_stop(refusal: TableRefusal) -> Stop
    ensures { result ≡ stop_of (table_cause refusal) }
{
    match refusal {
        TableRefusal::TooLong => damaged(FileCause::TooLong),
        TableRefusal::NoHeader => damaged(FileCause::NoHeader),
        TableRefusal::TooWide => damaged(FileCause::TooWide),
        TableRefusal::RepeatedColumn { column } => damaged(FileCause::RepeatedColumn { column }),
        TableRefusal::Ragged { row } => damaged(FileCause::Ragged { row }),
        TableRefusal::BadCell { row, column } => damaged(FileCause::BadCell { row, column }),
        TableRefusal::Memory => Stop::Memory,
    }
}

/// The table of a file of these bytes.
fn table_in(alloc: Global, bytes: &[u8], name: &str) -> Result<Table, Stop>
    ensures table { IfOk result (λ t. table_of name.now bytes.now ≡ Ok t) }
    ensures refused { IfErr result (WhereRefused (λ cause. IsTableCause name.now bytes.now cause)) }
    ensures no_fault { IfErr result (WhereFault ⊥) }
{
    match read_table(alloc, bytes, name.as_bytes()) {
        Ok(table) => Ok(table),
        Err(refusal) => Err(table_stop(refusal)),
    }
}

/// The table of a file, which is read whole.
fn open_table<S: Shelf>(
    alloc: Global,
    shelf: &mut S,
    file: &mut S::File,
    name: &str,
) -> Result<Table, Stop>
    ensures table { IfOk result (λ t. (bytes : List ℕ) × IsRead (S.content shelf.old file.old) bytes × (S.size_of shelf.old file.old ≡ length bytes) × (table_of name.now bytes ≡ Ok t)) }
    ensures refused { IfErr result (WhereRefused (λ cause. (bytes : List ℕ) × IsRead (S.content shelf.old file.old) bytes × IsTableCause name.now bytes cause)) }
    ensures why { IfErr result (WhereFault (Rose (S.faults shelf.old) (S.faults shelf.new))) }
    ensures later { S.faults shelf.old ≤ S.faults shelf.new }
    ensures stays { StaysBut result (S.faults shelf.old) (S.faults shelf.new) }
    ensures files { S.files shelf.new ≡ S.files shelf.old }
    ensures content { S.content shelf.new file.new ≡ S.content shelf.old file.old }
    ensures sizes { S.size_of shelf.new file.new ≡ S.size_of shelf.old file.old }
    ensures told { HasSize (S.content shelf.old file.old) (S.size_of shelf.old file.old) }
    ensures asked { S.asked shelf.new ≤ S.asked shelf.old + min (S.size_of shelf.old file.old) most_table }
{
    let size = shelf.size(file);
    if size > TABLE_MAX {
        return Err(damaged(FileCause::TooLong));
    }
    let bytes = read_front(alloc, shelf, file, size)?;
    table_in(alloc, bytes.as_slice(), name)
}

/// Whether the last segment of a name ends so, behind at least one byte.
fn has_end(end: &[u8], name: &str) -> bool
    ensures { result ≡ has_end end.now name.now }
{
    let segment = last_segment(name.as_bytes());
    end.len() < segment.len() && segment.ends_with(end)
}

pub fn form_of(name: &str) -> Option<FileForm>
    ensures { option_map form_view result ≡ form_of name.now }
{
    if has_end(b".nc", name) {
        return Some(FileForm::Netcdf);
    }
    if has_end(b".csv", name) {
        return Some(FileForm::Table);
    }
    if has_end(b".dods", name) {
        return Some(FileForm::Saved);
    }
    if has_end(b".join", name) {
        return Some(FileForm::Joined);
    }
    None
}

/// The file of a name.
pub fn find<S: Shelf>(shelf: &mut S, name: &str) -> Result<S::File, Stop>
    ensures found { IfOk result (λ file. Finds (S.files shelf.old) (S.name_of shelf.new) (S.content shelf.new) name.now (Some file)) }
    ensures refused { IfErr result (WhereRefused (λ cause. (cause ≡ Cause.NoFile) × IsMissing (S.files shelf.old) name.now)) }
    ensures why { IfErr result (WhereFault (Rose (S.faults shelf.old) (S.faults shelf.new))) }
    ensures later { S.faults shelf.old ≤ S.faults shelf.new }
    ensures stays { StaysBut result (S.faults shelf.old) (S.faults shelf.new) }
    ensures files { S.files shelf.new ≡ S.files shelf.old }
    ensures asked { S.asked shelf.new ≡ S.asked shelf.old }
{
    match shelf.find(name) {
        Ok(Some(file)) => Ok(file),
        Ok(None) => Err(Stop::Refused(Cause::NoFile)),
        Err(_) => Err(Stop::ShelfFault),
    }
}

/// A file of that form and name.
fn open_file<S: Shelf>(
    alloc: Global,
    shelf: &mut S,
    file: &mut S::File,
    form: FileForm,
    name: &str,
) -> Result<Opened, Stop>
    requires form { form_of name.now ≡ Some (form_view form) }
    requires no_list { form_of name.now ≢ Some joined }
    ensures opened { IfOk result (λ o. (bytes : List ℕ) × IsRead (S.content shelf.old file.old) bytes × (S.size_of shelf.old file.old ≡ length bytes) × ((ts : List Tree) × OpenedAs o name.now bytes ts)) }
    ensures refused { IfErr result (WhereRefused (λ cause. (bytes : List ℕ) × IsRead (S.content shelf.old file.old) bytes × IsStored (S.files shelf.old) (form_view form) name.now bytes (Err cause))) }
    ensures why { IfErr result (WhereFault (Rose (S.faults shelf.old) (S.faults shelf.new))) }
    ensures later { S.faults shelf.old ≤ S.faults shelf.new }
    ensures stays { StaysBut result (S.faults shelf.old) (S.faults shelf.new) }
    ensures files { S.files shelf.new ≡ S.files shelf.old }
    ensures content { S.content shelf.new file.new ≡ S.content shelf.old file.old }
    ensures sizes { S.size_of shelf.new file.new ≡ S.size_of shelf.old file.old }
    ensures told { HasSize (S.content shelf.old file.old) (S.size_of shelf.old file.old) }
    ensures asked { S.asked shelf.new ≤ S.asked shelf.old + min (S.size_of shelf.old file.old) (most_of_form (form_of name.now)) }
{
    match form {
        FileForm::Netcdf => {
            let header = open_netcdf(alloc, shelf, file)?;
            Ok(Opened::Netcdf(header))
        }
        FileForm::Table => {
            let table = open_table(alloc, shelf, file, name)?;
            Ok(Opened::Table(table))
        }
        FileForm::Saved => {
            let response = open_saved(alloc, shelf, file, name)?;
            Ok(Opened::Saved(response))
        }
        FileForm::Joined => unreachable!(),
    }
}

/// The file of that form and of a name.
fn open_as<S: Shelf>(
    alloc: Global,
    shelf: &mut S,
    form: FileForm,
    name: &str,
) -> Result<(Opened, S::File), Stop>
    requires form { form_of name.now ≡ Some (form_view form) }
    requires no_list { form_of name.now ≢ Some joined }
    ensures opened { IfOk result (λ p. (bytes : List ℕ) × Lies (S.files shelf.old) (S.content shelf.new p.1) (S.size_of shelf.new p.1) name.now bytes × ((ts : List Tree) × OpenedAs p.0 name.now bytes ts)) }
    ensures refused { IfErr result (WhereRefused (λ cause. MayOpen (S.files shelf.old) name.now (Err cause))) }
    ensures why { IfErr result (WhereFault (Rose (S.faults shelf.old) (S.faults shelf.new))) }
    ensures later { S.faults shelf.old ≤ S.faults shelf.new }
    ensures stays { StaysBut result (S.faults shelf.old) (S.faults shelf.new) }
    ensures files { S.files shelf.new ≡ S.files shelf.old }
    ensures asked { S.asked shelf.new ≤ S.asked shelf.old + most_first (S.files shelf.old) name.now }
{
    let mut file = find(shelf, name)?;
    let opened = open_file(alloc, shelf, &mut file, form, name)?;
    Ok((opened, file))
}

/// The file of a name, which is no list of files, opened.
pub fn open_named<S: Shelf>(
    alloc: Global,
    shelf: &mut S,
    name: &str,
) -> Result<(Opened, S::File), Stop>
    requires no_list { form_of name.now ≢ Some joined }
    ensures opened { IfOk result (λ p. (bytes : List ℕ) × Lies (S.files shelf.old) (S.content shelf.new p.1) (S.size_of shelf.new p.1) name.now bytes × ((ts : List Tree) × OpenedAs p.0 name.now bytes ts)) }
    ensures refused { IfErr result (WhereRefused (λ cause. MayOpen (S.files shelf.old) name.now (Err cause))) }
    ensures why { IfErr result (WhereFault (IsTrue (is_some (form_of name.now)) × Rose (S.faults shelf.old) (S.faults shelf.new))) }
    ensures later { S.faults shelf.old ≤ S.faults shelf.new }
    ensures stays { StaysBut result (S.faults shelf.old) (S.faults shelf.new) }
    ensures files { S.files shelf.new ≡ S.files shelf.old }
    ensures asked { S.asked shelf.new ≤ S.asked shelf.old + most_first (S.files shelf.old) name.now }
    ensures untouched { form_of name.now ≡ None → shelf.new ≡ shelf.old }
{
    match form_of(name) {
        Some(form) => open_as(alloc, shelf, form, name),
        None => Err(Stop::Refused(Cause::NoFile)),
    }
}
