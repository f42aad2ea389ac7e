//! The clauses of a constraint: comparisons, matches and calls.

ghost use Rattle.std.specs.Prelude.{◌≡◌, ◌⊎◌, ℕ, ◌+◌, ◌<◌, ◌≤◌, List as Items, [], map, IfOk, MatchResult};
ghost use Rattle.dap_types.specs.Names.{constraint_id};
ghost use Rattle.constraint_parse.specs.Language.{ValueTree, value_token, Operator, quoted, path, ItemsTree, ClauseTree, among, name};
ghost use Rattle.constraint_parse.specs.inner.Machine.{State, ClauseNaming, ClauseNamed, Compared, Bracing, Clausal, with_last};
ghost use Rattle.constraint_parse.specs.inner.Standing.{StandsAt, IsPlace, Lacks, StandsBehind, ReadsValue, ReadsValueOnly};
ghost use Rattle.constraint_parse.specs.Values.{clause_value, value_constant, comparison_value, compared_value, operator_value};
ghost use Rattle.constraint_parse.specs.Refusals.{Refuses};

use crate::items::{call_argument, label};
use crate::numbers::word_constant;
use crate::quoted::quoted_text;
use crate::scan::{Class, is_at, run_end, skip_blanks};
use crate::{Clause, Constant, Op, ParseRefusal};
use dap_types::{Id, List};
use std::alloc::Global;

/// The operator at a place, or none for a match, and the place behind it.
fn operator(text: &[u8], at: usize) -> Result<(Option<Op>, usize), ParseRefusal>
    requires { IsPlace text.now at }
    ensures onward { IfOk result (λ r. (at < r.1) × IsPlace text.now r.1) }
    ensures spelled { (items : ItemsTree) (clauses : Items ClauseTree) (front : Items (Items ℕ)) (n : Items ℕ) → StandsAt text.now at (ClauseNamed items clauses front n) → Lacks text.now at 46 → (front ≡ [] → Lacks text.now at 40) →
        MatchResult result (λ r. (o : Operator) × (r.0 ≡ operator_value o) × StandsAt text.now r.1 (Compared items clauses front n o)) (Refuses text.now) }
{
    if is_at(text, at, b'=') {
        if is_at(text, at + 1, b'~') {
            return Ok((None, skip_blanks(text, at + 2)));
        }
        return Ok((Some(Op::Equal), skip_blanks(text, at + 1)));
    }
    if is_at(text, at, b'!') {
        if is_at(text, at + 1, b'=') {
            return Ok((Some(Op::NotEqual), skip_blanks(text, at + 2)));
        }
        return Err(ParseRefusal::at(at + 1));
    }
    if is_at(text, at, b'<') {
        if is_at(text, at + 1, b'=') {
            return Ok((Some(Op::LessEqual), skip_blanks(text, at + 2)));
        }
        return Ok((Some(Op::Less), skip_blanks(text, at + 1)));
    }
    if is_at(text, at, b'>') {
        if is_at(text, at + 1, b'=') {
            return Ok((Some(Op::GreaterEqual), skip_blanks(text, at + 2)));
        }
        return Ok((Some(Op::Greater), skip_blanks(text, at + 1)));
    }
    Err(ParseRefusal::at(at))
}

/// A path behind its first name, and the place behind it.
fn more_labels(
    alloc: Global,
    text: &[u8],
    from: usize,
    first: Id,
) -> Result<(List<Id>, usize), ParseRefusal>
    requires { IsPlace text.now from }
    ensures onward { IfOk result (λ r. (from ≤ r.1) × IsPlace text.now r.1) }
    ensures no_label { IfOk result (λ r. Lacks text.now r.1 46) }
    ensures spelled { (items : ItemsTree) (clauses : Items ClauseTree) (n : Items ℕ) → first ≡ constraint_id n → Lacks text.now from 40 → StandsAt text.now from (ClauseNamed items clauses [] n) →
        MatchResult result (λ r. (front : Items (Items ℕ)) × (last : Items ℕ) × (r.0 ≡ map constraint_id (with_last front last)) × (front ≡ [] → Lacks text.now r.1 40) × StandsAt text.now r.1 (ClauseNamed items clauses front last)) (Refuses text.now) }
{
    let mut at = from;
    let mut labels = List::new(alloc);
    labels.push(first)?;
    'dots: while is_at(text, at, b'.') {
        let (name, behind) = label(alloc, text, skip_blanks(text, at + 1))?;
        labels.push(name)?;
        at = behind;
    }
    Ok((labels, at))
}

/// A value, and the place behind it.
fn value(alloc: Global, text: &[u8], at: usize) -> Result<(Constant, usize), ParseRefusal>
    requires { IsPlace text.now at }
    ensures onward { IfOk result (λ r. (at < r.1) × IsPlace text.now r.1) }
    ensures spelled { (s : State) → ReadsValue s → (ReadsValueOnly s ⊎ Lacks text.now at 123) → StandsAt text.now at s →
        MatchResult result (λ r. (t : ValueTree) × (r.0 ≡ value_constant t) × StandsBehind text.now r.1 s (value_token t)) (Refuses text.now) }
{
    if is_at(text, at, b'"') {
        let (bytes, behind) = quoted_text(alloc, text, at)?;
        return Ok((Constant::Text(bytes), behind));
    }
    let end = run_end(Class::Word, text, at);
    if end == at {
        return Err(ParseRefusal::at(at));
    }
    Ok((word_constant(&text[at..end]), skip_blanks(text, end)))
}

/// The values in braces, behind the opening one, and the place behind them.
fn braced_values(
    alloc: Global,
    text: &[u8],
    from: usize,
) -> Result<(List<Constant>, usize), ParseRefusal>
    requires { IsPlace text.now from }
    ensures onward { IfOk result (λ r. (from < r.1) × IsPlace text.now r.1) }
    ensures spelled { (items : ItemsTree) (clauses : Items ClauseTree) (labels : Items (Items ℕ)) (n : Items ℕ) (o : Operator) → StandsAt text.now from (Bracing items clauses labels n o []) →
        MatchResult result (λ r. (front : Items ValueTree) × (last : ValueTree) × (r.0 ≡ map value_constant (with_last front last)) × StandsAt text.now r.1 (Clausal items (with_last clauses (among labels n o front last)))) (Refuses text.now) }
{
    let mut at = from;
    let mut values = List::new(alloc);
    'commas: loop {
        let (value, behind) = value(alloc, text, at)?;
        values.push(value)?;
        if is_at(text, behind, b'}') {
            return Ok((values, skip_blanks(text, behind + 1)));
        }
        if !is_at(text, behind, b',') {
            return Err(ParseRefusal::at(behind));
        }
        at = skip_blanks(text, behind + 1);
    }
}

/// The values of a clause, and the place behind them.
fn clause_values(
    alloc: Global,
    text: &[u8],
    at: usize,
) -> Result<(List<Constant>, usize), ParseRefusal>
    requires { IsPlace text.now at }
    ensures onward { IfOk result (λ r. (at < r.1) × IsPlace text.now r.1) }
    ensures spelled { (items : ItemsTree) (clauses : Items ClauseTree) (labels : Items (Items ℕ)) (n : Items ℕ) (o : Operator) → StandsAt text.now at (Compared items clauses labels n o) →
        MatchResult result (λ r. (t : ClauseTree) × (clause_value t ≡ compared_value (with_last labels n) o r.0) × StandsAt text.now r.1 (Clausal items (with_last clauses t))) (Refuses text.now) }
{
    if is_at(text, at, b'{') {
        let (values, behind) = braced_values(alloc, text, skip_blanks(text, at + 1))?;
        return Ok((values, behind));
    }
    let (value, behind) = value(alloc, text, at)?;
    let mut values = List::new(alloc);
    values.push(value)?;
    Ok((values, behind))
}

fn comparison(path: List<Id>, op: Option<Op>, values: List<Constant>) -> Clause
    ensures { result ≡ comparison_value path op values }
{
    match op {
        Some(op) => Clause::Compare { path, op, values },
        None => Clause::Match,
    }
}

/// A clause, and the place behind it.
fn clause(alloc: Global, text: &[u8], at: usize) -> Result<(Clause, usize), ParseRefusal>
    requires { IsPlace text.now at }
    ensures onward { IfOk result (λ r. (at < r.1) × IsPlace text.now r.1) }
    ensures spelled { (items : ItemsTree) (clauses : Items ClauseTree) → StandsAt text.now at (ClauseNaming items clauses []) →
        MatchResult result (λ r. (t : ClauseTree) × (r.0 ≡ clause_value t) × StandsAt text.now r.1 (Clausal items (with_last clauses t))) (Refuses text.now) }
{
    let (first, at) = label(alloc, text, at)?;
    if is_at(text, at, b'(') {
        let behind = call_argument(text, at)?;
        return Ok((Clause::Call, behind));
    }
    let (path, at) = more_labels(alloc, text, at, first)?;
    let (op, at) = operator(text, at)?;
    let (values, at) = clause_values(alloc, text, at)?;
    Ok((comparison(path, op, values), at))
}

/// The clauses, each behind an ampersand, and the place behind them.
pub fn clause_list(
    alloc: Global,
    text: &[u8],
    from: usize,
) -> Result<(List<Clause>, usize), ParseRefusal>
    requires { IsPlace text.now from }
    ensures onward { IfOk result (λ r. IsPlace text.now r.1) }
    ensures no_clause { IfOk result (λ r. Lacks text.now r.1 38) }
    ensures spelled { (items : ItemsTree) → StandsAt text.now from (Clausal items []) →
        MatchResult result (λ r. (t : Items ClauseTree) × (r.0 ≡ map clause_value t) × StandsAt text.now r.1 (Clausal items t)) (Refuses text.now) }
{
    let mut at = from;
    let mut clauses = List::new(alloc);
    'ampersands: while is_at(text, at, b'&') {
        let (clause, behind) = clause(alloc, text, skip_blanks(text, at + 1))?;
        clauses.push(clause)?;
        at = behind;
    }
    Ok((clauses, at))
}
