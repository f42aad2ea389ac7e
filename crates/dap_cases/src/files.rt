ghost use Rattle.std.specs.Prelude.{◌≡◌, ◌≢◌, ◌++◌, ℕ, List, Option, Some, Err, IfOk, string_bytes};
ghost use Rattle.dap_cases.specs.Files.{held};

use crate::stop::Stop;
use dap_outside::Shelf;
use dap_types::Bytes;
use std::alloc::{AllocError, Global};

/// The most bytes of a file.
const MOST_BYTES: u64 = 1_048_576;

/// A name behind a prefix.
pub fn joined(alloc: Global, prefix: &str, name: &str) -> Result<String, AllocError>
    ensures { IfOk result (λ whole. string_bytes whole ≡ prefix.now ++ name.now) }
{
    let mut whole = String::from_str(alloc, prefix)?;
    whole.push_str(name)?;
    Ok(whole)
}

/// The bytes of an open file.
fn read_whole<S: Shelf>(alloc: Global, shelf: &mut S, file: &mut S::File) -> Result<Bytes, Stop>
    ensures bytes { IfOk result (λ bytes. (told : List ℕ) → S.content shelf.old file.old ≡ Some told → bytes ≡ told) }
    ensures no_write { result ≢ Err Stop.WriteFault }
    ensures files { S.files shelf.new ≡ S.files shelf.old }
{
    let size = shelf.size(file);
    if size > MOST_BYTES {
        return Err(Stop::Unread);
    }
    let mut bytes = vec![in alloc; 0u8; size as usize]?;
    match shelf.read_at(file, 0, bytes.as_mut_slice()) {
        Ok(()) => Ok(Bytes::from_vec(bytes)),
        Err(_) => Err(Stop::Unread),
    }
}

/// The bytes of the file of a name, if there is one.
pub fn find_file<S: Shelf>(alloc: Global, shelf: &mut S, name: &str) -> Result<Option<Bytes>, Stop>
    ensures found { IfOk result (λ found. (files : List ℕ → Option (List ℕ)) → S.files shelf.old ≡ Some files → found ≡ files name.now) }
    ensures no_write { result ≢ Err Stop.WriteFault }
    ensures files { S.files shelf.new ≡ S.files shelf.old }
{
    match shelf.find(name) {
        Ok(Some(mut file)) => {
            let bytes = read_whole(alloc, shelf, &mut file)?;
            Ok(Some(bytes))
        }
        Ok(None) => Ok(None),
        Err(_) => Err(Stop::Unread),
    }
}

/// The bytes of the file of a name, none where there is no such file.
pub fn read_file<S: Shelf>(alloc: Global, shelf: &mut S, name: &str) -> Result<Bytes, Stop>
    ensures bytes { IfOk result (λ bytes. (files : List ℕ → Option (List ℕ)) → S.files shelf.old ≡ Some files → bytes ≡ held files name.now) }
    ensures files { S.files shelf.new ≡ S.files shelf.old }
{
    match find_file(alloc, shelf, name)? {
        Some(bytes) => Ok(bytes),
        None => Ok(Bytes::new(alloc, b"")?),
    }
}
