ghost use Rattle.std.specs.Prelude.{◌≡◌, ◌<◌, ℕ, List, [], ◌∷◌, codes, IfOk, IsTrue};
ghost use Rattle.dap_cases.specs.Prefixed.{told_below};
ghost use Rattle.dap_cases.specs.Runs.{AreWordsOf, IsGiven, IsVerdictOn};
ghost use Rattle.dap_cases.specs.Verdicts.{Judges};
ghost use Rattle.dap_cases.specs.declared.said.Said.{Said as Given};

use crate::below::Below;
use crate::case::Case;
use crate::said::Said;
use crate::verdict::{Verdict, judge};
use dap_commands::run;
use dap_outside::{MemDial, MemDoor, MemSink, MemSource, Shelf};
use dap_types::{Bytes, List, Memory, Name, limits};
use std::alloc::Global;
use std::thread::Threads;

/// The most bytes that a run may put to a stream.
const ROOM: u32 = 1_048_576;

/// What a run of these words gives, where so many bytes are taken and put at once, no link comes in and none goes out.
fn said_of<R: Threads + Sync, S: Shelf>(
    rt: &R,
    alloc: Global,
    words: &[Name],
    shelf: &mut S,
    input: &[u8],
    piece: u32,
) -> Result<Said, Memory>
    requires { 0 < piece }
    ensures given { IfOk result (IsGiven (S.files shelf.old) words.now input.now) }
    ensures files { S.files shelf.new ≡ S.files shelf.old }
{
    let mut input = MemSource::new(Bytes::new(alloc, input)?, piece, List::new(alloc));
    let mut out = MemSink::new(alloc, ROOM, piece, List::new(alloc))?;
    let mut err = MemSink::new(alloc, ROOM, piece, List::new(alloc))?;
    let mut door = MemDoor::new(alloc, List::new(alloc), List::new(alloc))?;
    let mut dial = MemDial::new(alloc, List::new(alloc), List::new(alloc))?;
    let status = run(
        rt, alloc, words, shelf, &mut input, &mut out, &mut err, &mut door, &mut dial,
    );
    Ok(Said {
        status: status.number(),
        out: Bytes::new(alloc, out.bytes())?,
        err: Bytes::new(alloc, err.bytes())?,
    })
}

/// Whether the words are `answer` and a target alone.
fn are_target_alone(words: &[Name]) -> bool
    ensures { IsTrue result → (target : List ℕ) × (words.now ≡ codes "answer" ∷ target ∷ []) }
{
    match words {
        [name, _] => name.as_str() == "answer",
        _ => false,
    }
}

/// The verdict on a run of a case over the files below a prefix.
fn verdict_by<R: Threads + Sync, S: Shelf>(
    rt: &R,
    alloc: Global,
    shelf: &mut S,
    prefix: &str,
    case: &Case,
    piece: u32,
) -> Result<Verdict, Memory>
    requires { 0 < piece }
    ensures judged { IfOk result (λ verdict. (given : Given) × IsGiven (told_below prefix.now (S.files shelf.old)) case.now.words case.now.input given × Judges given case.now.wanted verdict) }
{
    let mut files = Below::new(alloc, shelf, prefix);
    let found = said_of(
        rt,
        alloc,
        case.words.items(),
        &mut files,
        case.input.bytes(),
        piece,
    )?;
    Ok(judge(&found, &case.wanted))
}

/// The case with seven workers where its words are `answer` and a target alone.
fn by_seven_workers(alloc: Global, mut case: Case) -> Result<Case, Memory>
    ensures { IfOk result (λ c. AreWordsOf case.words c.words × (c.input ≡ case.input) × (c.wanted ≡ case.wanted)) }
{
    if !are_target_alone(case.words.items()) {
        return Ok(case);
    }
    case.words.push(Name::new(alloc, "7")?)?;
    Ok(case)
}

/// The first verdict on runs of a case that does not agree, if one does not: a run that moves 65,536 bytes at once, and
/// runs that move 7 and 1, in which seven workers answer a target that stands alone.
pub fn verdict_on<R: Threads + Sync, S: Shelf>(
    rt: &R,
    alloc: Global,
    shelf: &mut S,
    prefix: &str,
    case: Case,
) -> Result<Verdict, Memory>
    ensures { IfOk result (IsVerdictOn (told_below prefix.now (S.files shelf.old)) case) }
{
    let whole = verdict_by(rt, alloc, shelf, prefix, &case, limits::MOST_PIECE as u32)?;
    if !whole.is_agreed() {
        return Ok(whole);
    }
    let case = by_seven_workers(alloc, case)?;
    let by_sevens = verdict_by(rt, alloc, shelf, prefix, &case, 7)?;
    if !by_sevens.is_agreed() {
        return Ok(by_sevens);
    }
    verdict_by(rt, alloc, shelf, prefix, &case, 1)
}
