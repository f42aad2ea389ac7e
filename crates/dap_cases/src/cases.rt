ghost use Rattle.std.specs.Prelude.{◌≡◌, ◌≢◌, ℕ, List, Option, Some, Err, IfOk, OnErr, map, string_bytes};
ghost use Rattle.std.specs.Io.KnownBytes.{Appends};
ghost use Rattle.dap_outside.specs.Causes.{Rose};
ghost use Rattle.dap_cases.specs.Files.{AreListed, folder_named};
ghost use Rattle.dap_cases.specs.Reports.{report_of};
ghost use Rattle.dap_cases.specs.Runs.{IsVerdictIn};

use crate::case::read_case;
use crate::case_verdict::verdict_on;
use crate::files::{find_file, joined};
use crate::lines::report;
use crate::outcome::Outcome;
use crate::stop::Stop;
use crate::texts::lines_in;
use crate::verdict::Verdict;
use dap_outside::{Shelf, Sink, put_all};
use dap_types::{List, Memory, Name};
use std::alloc::{AllocError, Global};
use std::thread::Threads;

/// The folder of a case, with `/` behind its name.
fn folder_of(alloc: Global, name: &str) -> Result<String, AllocError>
    ensures { IfOk result (λ folder. string_bytes folder ≡ folder_named name.now) }
{
    let below = joined(alloc, "cases/", name)?;
    joined(alloc, below.as_str(), "/")
}

/// The verdict on the case of a name.
fn run_case<R: Threads + Sync, S: Shelf>(
    rt: &R,
    alloc: Global,
    shelf: &mut S,
    name: &str,
) -> Result<Verdict, Memory>
    ensures { IfOk result (λ verdict. (files : List ℕ → Option (List ℕ)) → S.files shelf.old ≡ Some files → IsVerdictIn files name.now verdict) }
{
    let folder = folder_of(alloc, name)?;
    match read_case(alloc, shelf, folder.as_str()) {
        Ok(case) => {
            let prefix = joined(alloc, folder.as_str(), "data/")?;
            verdict_on(rt, alloc, shelf, prefix.as_str(), case)
        }
        Err(Stop::Memory) => Err(Memory),
        Err(_) => Ok(Verdict::Unread),
    }
}

/// The verdicts on the cases of these names.
fn run_each<R: Threads + Sync, S: Shelf>(
    rt: &R,
    alloc: Global,
    shelf: &mut S,
    names: &[Name],
) -> Result<List<Outcome>, Memory>
    ensures { IfOk result (λ outcomes. map (λ outcome. outcome.name) outcomes ≡ names.now) }
{
    let mut outcomes = List::new(alloc);
    for name in names {
        let verdict = run_case(rt, alloc, shelf, name.as_str())?;
        let name = Name::new(alloc, name.as_str())?;
        outcomes.push(Outcome { name, verdict })?;
    }
    Ok(outcomes)
}

/// The names in `list`, one a line.
fn read_list<S: Shelf>(alloc: Global, shelf: &mut S) -> Result<List<Name>, Stop>
    ensures listed { IfOk result (λ names. (files : List ℕ → Option (List ℕ)) → S.files shelf.old ≡ Some files → AreListed files names) }
    ensures no_write { result ≢ Err Stop.WriteFault }
{
    let Some(text) = find_file(alloc, shelf, "list")? else {
        return Err(Stop::Unread);
    };
    lines_in(alloc, text.bytes())
}

/// Runs the cases of `list`, one a line, and puts what came of them, a line for each and their count.
pub fn run_cases<R: Threads + Sync, S: Shelf, O: Sink>(
    rt: &R,
    alloc: Global,
    shelf: &mut S,
    out: &mut O,
) -> Result<List<Outcome>, Stop>
    ensures listed { IfOk result (λ outcomes. (files : List ℕ → Option (List ℕ)) → S.files shelf.old ≡ Some files → AreListed files (map (λ outcome. outcome.name) outcomes)) }
    ensures put { IfOk result (λ outcomes. Appends (O.written out.old) (O.written out.new) (report_of outcomes)) }
    ensures write_fault { result ≡ Err Stop.WriteFault → Rose (O.put_faults out.old) (O.put_faults out.new) }
    ensures nothing_put { OnErr result (result ≢ Err Stop.WriteFault → out.new ≡ out.old) }
{
    let names = read_list(alloc, shelf)?;
    let outcomes = run_each(rt, alloc, shelf, names.items())?;
    let text = report(alloc, outcomes.items())?;
    match put_all(out, text.bytes()) {
        Ok(()) => Ok(outcomes),
        Err(_) => Err(Stop::WriteFault),
    }
}
