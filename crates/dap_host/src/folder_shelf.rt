ghost use Rattle.std.specs.Prelude.{◌≡◌, ◌<◌, ◌≤◌, ◌+◌, ◌^◌, ◌↔◌, false, length, max, IsSome, IfSome, OnOk, Some, None, Ok};
ghost use Rattle.std.specs.Fs.{IsFile, file_type, metadata_len};
ghost use Rattle.std.specs.Io.KnownBytes.{Consumes};
ghost use Rattle.dap_outside.specs.Causes.{HasCause, more_asked};
ghost use Rattle.dap_outside.specs.Files.{Reads};
ghost use Rattle.dap_host.specs.Folder.{begins_segment, is_below};

use dap_outside::{Failed, Shelf};
use std::fs::{Metadata, OpenFile};
use std::io::{ErrorKind, Read, Seek, SeekFrom};
use std::rt::Files;
use std::{fs, io};

/// An open file of a folder, and how many bytes it had when it was opened.
#[derive(Drop)]
pub struct Opened<F> {
    file: F,
    size: u64,
    ghost small: { size < 2 ^ 63 },
}

/// The regular files below the folder in which the program was started, by their names in it. It
/// tells nothing of them. A want of memory inside a call is a fault.
#[derive(Drop)]
pub struct FolderShelf<'a, R> {
    files: &'a R,
    faults: u64,
    asked: u128,
    greatest: u64,
}

impl<'a, R: Files> FolderShelf<'a, R> {
    /// The shelf of the folder in which the program was started.
    pub fn new(files: &'a R) -> FolderShelf<'a, R>
        ensures fresh { (result.faults ≡ 0) × (result.asked ≡ 0) × (result.greatest ≡ 0) }
    {
        FolderShelf {
            files,
            faults: 0,
            asked: 0,
            greatest: 0,
        }
    }
}

/// Whether a segment begins here that is not empty and does not begin with a point.
fn begins_segment(bytes: &[u8]) -> bool
    ensures { result ≡ begins_segment bytes.now }
{
    match bytes {
        [first, ..] => *first != b'/' && *first != b'.',
        [] => false,
    }
}

/// Whether a name stays in the folder: it has segments between `/`, of which none is empty and none
/// begins with a point.
#[tactic(auto, unfolding(crate::specs::Folder::has_segments))]
fn is_below(name: &[u8]) -> bool
    ensures { result ≡ is_below name.now }
{
    if !begins_segment(name) {
        return false;
    }
    for (i, byte) in name.iter().enumerate() {
        if *byte == b'/' && !begins_segment(&name[i + 1..]) {
            return false;
        }
    }
    true
}

/// Whether the name leads to a regular file through folders alone. A link leads out of the folder,
/// so it is passed over.
fn leads_to_file<R: Files>(files: &R, name: &str) -> io::Result<bool> {
    for (end, _) in name.match_indices('/') {
        if !fs::symlink_metadata(files, &name[..end])?.is_dir() {
            return Ok(false);
        }
    }
    Ok(fs::symlink_metadata(files, name)?.is_file())
}

/// The open file of which this is known, with its size. `None` where it is no regular file, or has 2^63 bytes or more.
fn if_regular<F: Drop>(file: F, known: Metadata) -> Option<Opened<F>>
    ensures regular { IsSome result ↔ (IsFile (file_type known) × (metadata_len known < 2 ^ 63)) }
    ensures size { IfSome result (λ found. found.size ≡ metadata_len known) }
    ensures file { IfSome result (λ found. found.file ≡ file) }
{
    let size = known.len();
    if known.is_file() && size < 1 << 63 {
        return Some(Opened { file, size });
    }
    None
}

/// Opens a file, `None` where no regular file of that name stands below the folder.
fn open_file<R: Files>(files: &R, name: &str) -> io::Result<Option<Opened<R::File>>>
    ensures { is_below name.now ≡ false → result ≡ Ok None }
{
    if !is_below(name.as_bytes()) || !leads_to_file(files, name)? {
        return Ok(None);
    }
    let file = fs::open(files, name)?;
    let known = file.metadata()?;
    Ok(if_regular(file, known))
}

/// Fills the buffer by as many reads as it takes. A file that ends before fails.
fn read_whole<F: Read>(file: &mut F, into: &mut [u8]) -> Result<(), Failed>
    ensures { OnOk result (Consumes (F.remaining file.old) (F.remaining file.new) into.new) }
{
    let mut filled = 0;
    while filled < into.len() {
        match file.read(&mut into[filled..]) {
            Ok(0) => return Err(Failed),
            Ok(count) => filled += count,
            Err(_) => return Err(Failed),
        }
    }
    Ok(())
}

/// Fills the buffer from a byte of the file on. A file that got shorter fails.
fn fill<F: Read + Seek>(file: &mut F, at: u64, into: &mut [u8]) -> Result<(), Failed>
    ensures { OnOk result ((there : F) × (IfSome (F.stream_position file.old) (λ _. F.stream_position there ≡ Some at))
        × Consumes (F.remaining there) (F.remaining file.new) into.new) }
{
    if file.seek(SeekFrom::Start(at)).is_err() {
        return Err(Failed);
    }
    read_whole(file, into)
}

impl<'a, R: Files> Shelf for FolderShelf<'a, R> {
    ghost use Rattle.std.specs.Prelude.{None};
    ghost use Rattle.std.proofs.lemmas.Option.{none-some};

    type File = Opened<R::File>;

    ghost files = { λ _. None };

    ghost content = { λ _ _. None };

    ghost name_of = { λ _ _. None };

    ghost size_of = { λ _ file. file.size };

    ghost faults = { λ s. s.faults };

    ghost asked = { λ s. s.asked };

    ghost greatest = { λ s. s.greatest };

    ghost files_are_bytes = { λ s named name bytes e f. absurd (none-some named e) };

    ghost content_is_bytes = { λ s file bytes e. absurd (none-some bytes e) };

    fn find(&mut self, name: &str) -> Result<Option<Opened<R::File>>, Failed> {
        match open_file(self.files, name) {
            Ok(found) => Ok(found),
            Err(e) if e.kind() == ErrorKind::NotFound => Ok(None),
            Err(_) => {
                self.faults = self.faults.saturating_add(1);
                Err(Failed)
            }
        }
    }

    fn size(&self, file: &Opened<R::File>) -> u64 {
        file.size
    }

    /// Fills the buffer with what the file gives once it stands at this place. Fails where the file got shorter.
    fn read_at(
        &mut self,
        file: &mut Opened<R::File>,
        at: u64,
        into: &mut [u8],
    ) -> Result<(), Failed>
        requires { at + length into.old ≤ file.old.size }
        ensures read { OnOk result (Reads None at into.new) }
        ensures gives { OnOk result ((there : R.File) × (IfSome (R.File.stream_position file.old.file) (λ _. R.File.stream_position there ≡ Some at))
            × Consumes (R.File.remaining there) (R.File.remaining file.new.file) into.new) }
        ensures size { file.new.size ≡ file.old.size }
        ensures asked { self.new.asked ≡ more_asked self.old.asked (length into.old) }
        ensures greatest { self.new.greatest ≡ max self.old.greatest (length into.old) }
        ensures cause { HasCause self.old.faults self.new.faults result }
    {
        self.asked = self.asked.saturating_add(into.len() as u128);
        self.greatest = self.greatest.max(into.len() as u64);
        match fill(&mut file.file, at, into) {
            Ok(()) => Ok(()),
            Err(Failed) => {
                self.faults = self.faults.saturating_add(1);
                Err(Failed)
            }
        }
    }
}
