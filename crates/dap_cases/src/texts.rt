ghost use Rattle.std.specs.Prelude.{◌≡◌, ◌≢◌, Err, IfOk, map};
ghost use Rattle.std.specs.Str.Lines.{lines};

use crate::stop::Stop;
use dap_types::{List, Memory, Name};
use std::alloc::{AllocError, Global};
use std::str;

/// The lines of a text.
fn parts_of(alloc: Global, text: &str) -> Result<Vec<&str>, AllocError>
    ensures { IfOk result (λ parts. map (λ part. part.now) parts.items ≡ lines text.now) }
{
    text.lines().collect(alloc)
}

/// These parts, each as a name.
fn names_of(alloc: Global, parts: &[&str]) -> Result<List<Name>, Memory>
    ensures { IfOk result (λ names. names ≡ map (λ part. part.now) parts.now) }
{
    let mut names = List::new(alloc);
    for part in parts {
        names.push(Name::new(alloc, *part)?)?;
    }
    Ok(names)
}

/// The lines of a text, of which an empty last one is none.
fn lines_of(alloc: Global, text: &str) -> Result<List<Name>, Memory>
    ensures { IfOk result (λ names. names ≡ lines text.now) }
{
    let parts = parts_of(alloc, text)?;
    names_of(alloc, parts.as_slice())
}

/// The lines of a text in UTF-8.
pub fn lines_in(alloc: Global, bytes: &[u8]) -> Result<List<Name>, Stop>
    ensures lines { IfOk result (λ names. names ≡ lines bytes.now) }
    ensures no_write { result ≢ Err Stop.WriteFault }
{
    match str::from_utf8(bytes) {
        Ok(text) => Ok(lines_of(alloc, text)?),
        Err(_) => Err(Stop::Unread),
    }
}
