ghost use Rattle.std.specs.Prelude.{◌≡◌, ◌≢◌, ◌≤◌, ◌+◌, ◌-◌, ◌∷◌, ◌++◌, ◌&&◌, ◌<◌, [], Err, IfErr, IfOk, IsTrue, Ok, OnOk, drop, false, length, nat_lt, take};
ghost use Rattle.join_source.specs.Lists.{lines_from, list_of, names_from, without_return};
ghost use Rattle.join_source.specs.Names.{is_member_name};
ghost use Rattle.join_source.specs.declared.refusal.ListRefusal.TheVariants.{Memory};

use crate::ListRefusal;
use crate::name::is_member_name;
use dap_types::{Bytes, List, limits};
use std::alloc::Global;

/// The most bytes of a list.
const MOST_BYTES: usize = limits::MOST_PIECE;
/// The most lines of a list.
const MOST_LINES: usize = limits::MOST_LINES;

/// The names in a list of files, a name a line, as `list_of` has them.
///
/// # Errors
///
/// The first cause of `list_of`, or `Memory` where memory was wanted.
#[tactic(auto, unfolding(crate::specs::Lists::list_of))]
pub fn read_list(alloc: Global, bytes: &[u8]) -> Result<List<Bytes>, ListRefusal>
    ensures names { IfOk result (λ names. list_of bytes.now ≡ Ok names) }
    ensures first_cause { IfErr result (λ e. e ≢ Memory → list_of bytes.now ≡ Err e) }
{
    if bytes.len() > MOST_BYTES {
        return Err(ListRefusal::TooLong);
    }
    let mut names = List::new(alloc);
    let mut start = 0;
    for k in 0..bytes.len() {
        start = step(alloc, &mut names, bytes, start, k)?;
    }
    push_rest(alloc, &mut names, &bytes[start..])?;
    some_of(names)
}

/// Where the line begins in which the byte behind `k` stands, if byte `k` stands in one that begins at `start`. Puts the
/// name in a line that ends at `k` behind the others.
fn step(
    alloc: Global,
    names: &mut List<Bytes>,
    bytes: &[u8],
    start: usize,
    k: usize,
) -> Result<usize, ListRefusal>
    requires within { k < length bytes.now }
    requires start { start ≤ k }
    requires few { length names.old < 65 }
    ensures start { IfOk result (λ next. next ≤ k + 1) }
    ensures few { OnOk result (length names.new < 65) }
    ensures same { IfOk result (λ next. names_from names.new (lines_from (take (k + 1 - next) (drop next bytes.now)) (drop (k + 1) bytes.now)) ≡ names_from names.old (lines_from (take (k - start) (drop start bytes.now)) (drop k bytes.now))) }
    ensures first_cause { IfErr result (λ e. e ≢ Memory → names_from names.old (lines_from (take (k - start) (drop start bytes.now)) (drop k bytes.now)) ≡ Err e) }
{
    if bytes[k] != b'\n' {
        return Ok(start);
    }
    match push_name(alloc, names, without_return(&bytes[start..k])) {
        Ok(()) => Ok(k + 1),
        Err(refusal) => Err(refusal),
    }
}

/// Puts the name in a last line that the end of the list ends, if there is one.
fn push_rest(alloc: Global, names: &mut List<Bytes>, line: &[u8]) -> Result<(), ListRefusal>
    requires { length names.old < 65 }
    ensures same { OnOk result (names_from names.new [] ≡ names_from names.old (lines_from line.now [])) }
    ensures first_cause { IfErr result (λ e. e ≢ Memory → names_from names.old (lines_from line.now []) ≡ Err e) }
{
    if line.is_empty() {
        return Ok(());
    }
    push_name(alloc, names, line)
}

/// The names, if there are some.
#[tactic(auto, unfolding(crate::specs::Lists::names_from))]
fn some_of(names: List<Bytes>) -> Result<List<Bytes>, ListRefusal>
    ensures { names_from names [] ≡ result }
{
    if names.items().is_empty() {
        return Err(ListRefusal::BadLine { line: 1 });
    }
    Ok(names)
}

/// A line without the carriage return at its end.
fn without_return(line: &[u8]) -> &[u8]
    ensures { result.now ≡ without_return line.now }
{
    if line.ends_with(b"\r") {
        return &line[..line.len().saturating_sub(1)];
    }
    line
}

/// Puts the name in a line behind the others.
fn push_name(alloc: Global, names: &mut List<Bytes>, line: &[u8]) -> Result<(), ListRefusal>
    requires { length names.old < 65 }
    ensures name { OnOk result (IsTrue (is_member_name line.now && nat_lt (length names.old) 64) × (names.new ≡ names.old ++ line.now ∷ [])) }
    ensures first_cause { IfErr result (λ e. e ≢ Memory → (e ≡ ListRefusal.BadLine (length names.old + 1)) × ((is_member_name line.now && nat_lt (length names.old) 64) ≡ false)) }
{
    let number = names.items().len();
    if number >= MOST_LINES || !is_member_name(line) {
        return Err(ListRefusal::BadLine {
            line: number as u32 + 1,
        });
    }
    names.push(Bytes::new(alloc, line)?)?;
    Ok(())
}
