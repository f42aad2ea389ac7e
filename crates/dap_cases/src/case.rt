ghost use Rattle.std.specs.Prelude.{◌≡◌, ◌++◌, ℕ, List, Option, Some, IfOk};
ghost use Rattle.dap_cases.specs.Cases.{IsCase, IsNumber};
ghost use Rattle.dap_cases.specs.Files.{IsCaseIn, held};

use crate::files::{joined, read_file};
use crate::said::Said;
use crate::stop::Stop;
use crate::texts::lines_in;
use dap_outside::Shelf;
use dap_types::{Bytes, List, Name};
use std::alloc::Global;
use std::str;

/// A case: its words, what standard input gives, and what must come.
#[derive(Drop)]
pub struct Case {
    pub words: List<Name>,
    pub input: Bytes,
    pub wanted: Said,
}

/// The number that a text is in digits, but for blanks behind them, and 0 where there is none.
fn number_in(bytes: &[u8]) -> Result<u8, Stop>
    ensures { IfOk result (IsNumber bytes.now) }
{
    if bytes.is_empty() {
        return Ok(0);
    }
    let Ok(text) = str::from_utf8(bytes) else {
        return Err(Stop::Unread);
    };
    match text.trim_end().parse::<u8>() {
        Ok(number) => Ok(number),
        Err(_) => Err(Stop::Unread),
    }
}

/// The case of these files.
fn case_of(
    alloc: Global,
    args: &[u8],
    input: Bytes,
    out: Bytes,
    err: Bytes,
    number: &[u8],
) -> Result<Case, Stop>
    ensures { IfOk result (IsCase args.now input out err number.now) }
{
    let words = lines_in(alloc, args)?;
    let status = number_in(number)?;
    Ok(Case {
        words,
        input,
        wanted: Said { status, out, err },
    })
}

/// The bytes of the file of a name in a folder, none where there is no such file.
fn read_in<S: Shelf>(alloc: Global, shelf: &mut S, folder: &str, name: &str) -> Result<Bytes, Stop>
    ensures bytes { IfOk result (λ bytes. (files : List ℕ → Option (List ℕ)) → S.files shelf.old ≡ Some files → bytes ≡ held files (folder.now ++ name.now)) }
    ensures files { S.files shelf.new ≡ S.files shelf.old }
{
    let whole = joined(alloc, folder, name)?;
    read_file(alloc, shelf, whole.as_str())
}

/// The case of a folder, whose name ends with `/`: the words in `args`, one a line, `stdin`, `stdout`, `stderr` and
/// the number in `status`. What is not there is empty, or 0.
pub fn read_case<S: Shelf>(alloc: Global, shelf: &mut S, folder: &str) -> Result<Case, Stop>
    ensures read { IfOk result (λ case. (files : List ℕ → Option (List ℕ)) → S.files shelf.old ≡ Some files → IsCaseIn files folder.now case) }
    ensures files { S.files shelf.new ≡ S.files shelf.old }
{
    let args = read_in(alloc, shelf, folder, "args")?;
    let input = read_in(alloc, shelf, folder, "stdin")?;
    let out = read_in(alloc, shelf, folder, "stdout")?;
    let err = read_in(alloc, shelf, folder, "stderr")?;
    let number = read_in(alloc, shelf, folder, "status")?;
    case_of(alloc, args.bytes(), input, out, err, number.bytes())
}
