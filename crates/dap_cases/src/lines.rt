ghost use Rattle.std.specs.Prelude.{◌≡◌, ◌++◌, IfOk, OnOk};
ghost use Rattle.std.specs.List.{flat_map, list_all};
ghost use Rattle.dap_cases.specs.Reports.{agrees, count_line, line_of, passed, report_of, verdict_text};

use crate::outcome::Outcome;
use crate::verdict::Verdict;
use dap_types::{Bytes, Memory};
use std::alloc::Global;

/// Puts pieces behind a text.
fn append(text: &mut Vec<u8>, pieces: &[&[u8]]) -> Result<(), Memory>
    ensures { OnOk result (text.new.items ≡ text.old.items ++ flat_map (λ piece. piece.now) pieces.now) }
{
    for piece in pieces {
        text.extend_from_slice(piece)?;
    }
    Ok(())
}

/// Puts the rest of a line behind a text: what a verdict says.
fn append_verdict(text: &mut Vec<u8>, verdict: Verdict) -> Result<(), Memory>
    ensures { OnOk result (text.new.items ≡ text.old.items ++ verdict_text verdict) }
{
    let mut first = itoa::Buffer::new();
    let mut second = itoa::Buffer::new();
    match verdict {
        Verdict::Agrees => append(text, &[b" ok\n"]),
        Verdict::Number { found, wanted } => {
            let found = first.format(found).as_bytes();
            let wanted = second.format(wanted).as_bytes();
            append(text, &[b" status ", found, b" and not ", wanted, b"\n"])
        }
        Verdict::Stdout { place } => {
            let place = first.format(place).as_bytes();
            append(text, &[b" stdout differs at ", place, b"\n"])
        }
        Verdict::Stderr { place } => {
            let place = first.format(place).as_bytes();
            append(text, &[b" stderr differs at ", place, b"\n"])
        }
        Verdict::Unread => append(text, &[b" is not read\n"]),
    }
}

/// Puts the line of an outcome behind a text.
fn append_line(text: &mut Vec<u8>, outcome: &Outcome) -> Result<(), Memory>
    ensures { OnOk result (text.new.items ≡ text.old.items ++ line_of outcome.now) }
{
    text.extend_from_slice(outcome.name.as_str().as_bytes())?;
    append_verdict(text, outcome.verdict)
}

/// How many agree.
fn count_passed(outcomes: &[Outcome]) -> usize
    ensures { result ≡ passed outcomes.now }
{
    outcomes
        .iter()
        .filter(|outcome| outcome.verdict.is_agreed())
        .count()
}

/// Puts the line behind a text that says how many of how many agree.
fn append_count(text: &mut Vec<u8>, passed: usize, all: usize) -> Result<(), Memory>
    ensures { OnOk result (text.new.items ≡ text.old.items ++ count_line passed all) }
{
    let mut first = itoa::Buffer::new();
    let mut second = itoa::Buffer::new();
    let passed = first.format(passed).as_bytes();
    let all = second.format(all).as_bytes();
    append(text, &[passed, b" of ", all, b" passed\n"])
}

/// A line for each outcome, and behind them how many of how many agree.
pub fn report(alloc: Global, outcomes: &[Outcome]) -> Result<Bytes, Memory>
    ensures { IfOk result (λ text. text ≡ report_of outcomes.now) }
{
    let mut text = Vec::new(alloc);
    for outcome in outcomes {
        append_line(&mut text, outcome)?;
    }
    append_count(&mut text, count_passed(outcomes), outcomes.len())?;
    Ok(Bytes::from_vec(text))
}

/// Whether all agree.
pub fn all_agree(outcomes: &[Outcome]) -> bool
    ensures { result ≡ list_all agrees outcomes.now }
{
    outcomes.iter().all(|outcome| outcome.verdict.is_agreed())
}
