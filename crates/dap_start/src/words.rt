ghost use Rattle.std.specs.Prelude.{◌≡◌, drop, map, string_bytes, IfOk, IsErr, OnErr};
ghost use Rattle.std.specs.Vec.Iter.{into_iter_items};

use dap_types::{List, Memory, Name};
use std::alloc::Global;
use std::env::Args;
use std::io;

/// The arguments behind the first, which is the program's name. Fails where memory is wanted.
pub fn words_behind(alloc: Global, mut args: Args) -> Result<List<Name>, Memory>
    ensures { IfOk result (λ words. words ≡ map string_bytes (drop 1 (into_iter_items args))) }
{
    args.next();
    let mut words = List::new(alloc);
    for arg in args {
        words.push(Name::new(alloc, arg.as_str())?)?;
    }
    Ok(words)
}

/// The words after the program's name, of the arguments that were had, if they were. Fails where they were not, which is
/// where one is no UTF-8, and where memory is wanted.
pub fn words_of(alloc: Global, args: io::Result<Args>) -> Result<List<Name>, Memory>
    ensures words { IfOk args (λ all. IfOk result (λ words. words ≡ map string_bytes (drop 1 (into_iter_items all)))) }
    ensures none { OnErr args (IsErr result) }
{
    match args {
        Ok(args) => words_behind(alloc, args),
        Err(_) => Err(Memory),
    }
}
