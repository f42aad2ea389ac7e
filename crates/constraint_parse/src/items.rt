//! The items of a constraint: paths with their slabs, and calls.

ghost use Rattle.std.specs.Prelude.{◌≡◌, ℕ, ◌+◌, ◌<◌, ◌≤◌, List as Items, [], length, map, IfOk, MatchResult, MatchBool, slice_index};
ghost use Rattle.dap_types.specs.Names.{constraint_id};
ghost use Rattle.constraint_parse.specs.Language.{SlabTree, StepTree, ItemTree, call, ItemsTree, name, number, argument};
ghost use Rattle.constraint_parse.specs.inner.Machine.{State, Naming, Stepped, Opened, Clausal, Start, with_last, step};
ghost use Rattle.constraint_parse.specs.inner.Standing.{StandsAt, IsPlace, Lacks, ReadsName, ReadsNumber, StandsBehind, StandsBehindItem, MayCall, ReadsCall};
ghost use Rattle.constraint_parse.specs.Values.{number_value, slab_value, step_value, item_value, items_value};
ghost use Rattle.constraint_parse.specs.Refusals.{Refuses};

use crate::numbers::whole_number;
use crate::scan::{Class, is_at, run_end, skip_blanks};
use crate::{Item, Number, ParseRefusal, RawSlab, Step};
use dap_types::{Id, List};
use std::alloc::Global;

/// The name at a place, and the place behind it.
pub fn label(alloc: Global, text: &[u8], at: usize) -> Result<(Id, usize), ParseRefusal>
    requires { IsPlace text.now at }
    ensures onward { IfOk result (λ r. (at < r.1) × IsPlace text.now r.1) }
    ensures spelled { (s : State) → ReadsName s → StandsAt text.now at s →
        MatchResult result (λ r. (n : Items ℕ) × (r.0 ≡ constraint_id n) × StandsBehind text.now r.1 s (name n)) (Refuses text.now) }
{
    let end = run_end(Class::Name, text, at);
    if end == at {
        return Err(ParseRefusal::at(at));
    }
    let id = Id::of_constraint(alloc, &text[at..end])?;
    Ok((id, skip_blanks(text, end)))
}

/// The number at a place, and the place behind it.
fn slab_number(text: &[u8], at: usize) -> Result<(Number, usize), ParseRefusal>
    requires { IsPlace text.now at }
    ensures onward { IfOk result (λ r. (at < r.1) × IsPlace text.now r.1) }
    ensures spelled { (s : State) → ReadsNumber s → StandsAt text.now at s →
        MatchResult result (λ r. (digits : Items ℕ) × (r.0 ≡ number_value digits) × StandsBehind text.now r.1 s (number digits)) (Refuses text.now) }
{
    let end = run_end(Class::Digit, text, at);
    if end == at {
        return Err(ParseRefusal::at(at));
    }
    let value = whole_number(&text[at..end]);
    Ok((value, skip_blanks(text, end)))
}

/// A slab, behind its bracket and any blanks, and the place behind it.
fn slab(text: &[u8], at: usize) -> Result<(RawSlab, usize), ParseRefusal>
    requires { IsPlace text.now at }
    ensures onward { IfOk result (λ r. (at < r.1) × IsPlace text.now r.1) }
    ensures spelled { (items : Items ItemTree) (steps : Items StepTree) (n : Items ℕ) (slabs : Items SlabTree) → StandsAt text.now at (Opened items steps n slabs) →
        MatchResult result (λ r. (t : SlabTree) × (r.0 ≡ slab_value t) × StandsAt text.now r.1 (Stepped items steps n (with_last slabs t))) (Refuses text.now) }
{
    let (first, at) = slab_number(text, at)?;
    if is_at(text, at, b']') {
        let slab = RawSlab {
            first,
            middle: None,
            last: None,
        };
        return Ok((slab, skip_blanks(text, at + 1)));
    }
    if !is_at(text, at, b':') {
        return Err(ParseRefusal::at(at));
    }
    let (second, at) = slab_number(text, skip_blanks(text, at + 1))?;
    if is_at(text, at, b']') {
        let slab = RawSlab {
            first,
            middle: None,
            last: Some(second),
        };
        return Ok((slab, skip_blanks(text, at + 1)));
    }
    if !is_at(text, at, b':') {
        return Err(ParseRefusal::at(at));
    }
    let (third, at) = slab_number(text, skip_blanks(text, at + 1))?;
    if !is_at(text, at, b']') {
        return Err(ParseRefusal::at(at));
    }
    let slab = RawSlab {
        first,
        middle: Some(second),
        last: Some(third),
    };
    Ok((slab, skip_blanks(text, at + 1)))
}

/// The slabs at a place, and the place behind them.
fn slab_list(
    alloc: Global,
    text: &[u8],
    from: usize,
) -> Result<(List<RawSlab>, usize), ParseRefusal>
    requires { IsPlace text.now from }
    ensures onward { IfOk result (λ r. (from ≤ r.1) × IsPlace text.now r.1) }
    ensures no_slab { IfOk result (λ r. Lacks text.now r.1 91) }
    ensures spelled { (items : Items ItemTree) (steps : Items StepTree) (n : Items ℕ) → StandsAt text.now from (Stepped items steps n []) →
        MatchResult result (λ r. (t : Items SlabTree) × (r.0 ≡ map slab_value t) × StandsAt text.now r.1 (Stepped items steps n t)) (Refuses text.now) }
{
    let mut at = from;
    let mut slabs = List::new(alloc);
    while is_at(text, at, b'[') {
        let (slab, behind) = slab(text, skip_blanks(text, at + 1))?;
        slabs.push(slab)?;
        at = behind;
    }
    Ok((slabs, at))
}

/// A name and its slabs, and the place behind them.
fn path_step(alloc: Global, text: &[u8], at: usize) -> Result<(Step, usize), ParseRefusal>
    requires { IsPlace text.now at }
    ensures onward { IfOk result (λ r. (at < r.1) × IsPlace text.now r.1) }
    ensures no_slab { IfOk result (λ r. Lacks text.now r.1 91) }
    ensures spelled { (items : Items ItemTree) (steps : Items StepTree) → StandsAt text.now at (Naming items steps) →
        MatchResult result (λ r. (t : StepTree) × (r.0 ≡ step_value t) × StandsAt text.now r.1 (Stepped items steps t.label t.slabs)) (Refuses text.now) }
{
    let (name, at) = label(alloc, text, at)?;
    let (slabs, at) = slab_list(alloc, text, at)?;
    Ok((Step { name, slabs }, at))
}

/// The argument of a call at its parenthesis: the place behind it.
pub fn call_argument(text: &[u8], at: usize) -> Result<usize, ParseRefusal>
    requires { (at < length text.now) × (slice_index text.now at ≡ 40) }
    ensures onward { IfOk result (λ r. (at < r) × IsPlace text.now r) }
    ensures spelled { (s : State) → ReadsCall s → StandsAt text.now at s →
        MatchResult result (λ r. (a : Items ℕ) × StandsBehind text.now r s (argument a)) (Refuses text.now) }
{
    let end = run_end(Class::Argument, text, at + 1);
    if !is_at(text, end, b')') {
        return Err(ParseRefusal::at(end));
    }
    Ok(skip_blanks(text, end + 1))
}

/// The steps behind a dot, as many as there are.
fn more_steps(
    alloc: Global,
    text: &[u8],
    from: usize,
    first: Step,
) -> Result<(List<Step>, usize), ParseRefusal>
    requires { IsPlace text.now from }
    ensures onward { IfOk result (λ r. (from ≤ r.1) × IsPlace text.now r.1) }
    ensures no_slab { Lacks text.now from 91 → IfOk result (λ r. Lacks text.now r.1 91) }
    ensures no_step { IfOk result (λ r. Lacks text.now r.1 46) }
    ensures spelled { (items : Items ItemTree) (t : StepTree) → first ≡ step_value t → (MayCall [] t.slabs → Lacks text.now from 40) → StandsAt text.now from (Stepped items [] t.label t.slabs) →
        MatchResult result (λ r. (front : Items StepTree) × (last : StepTree) × (r.0 ≡ map step_value (with_last front last)) × (MayCall front last.slabs → Lacks text.now r.1 40) × StandsAt text.now r.1 (Stepped items front last.label last.slabs)) (Refuses text.now) }
{
    let mut at = from;
    let mut steps = List::new(alloc);
    steps.push(first)?;
    'dots: while is_at(text, at, b'.') {
        let (step, behind) = path_step(alloc, text, skip_blanks(text, at + 1))?;
        steps.push(step)?;
        at = behind;
    }
    Ok((steps, at))
}

/// Whether a name without slabs is called.
fn is_call(first: &Step, text: &[u8], at: usize) -> bool
    ensures { MatchBool result ((first.now.slabs ≡ []) × ((at < length text.now) × (slice_index text.now at ≡ 40))) (first.now.slabs ≡ [] → Lacks text.now at 40) }
{
    first.slabs.items().is_empty() && is_at(text, at, b'(')
}

/// An item, and the place behind it.
fn item(alloc: Global, text: &[u8], at: usize) -> Result<(Item, usize), ParseRefusal>
    requires { IsPlace text.now at }
    ensures onward { IfOk result (λ r. (at < r.1) × IsPlace text.now r.1) }
    ensures spelled { (items : Items ItemTree) → StandsAt text.now at (Naming items []) →
        MatchResult result (λ r. (t : ItemTree) × (r.0 ≡ item_value t) × StandsBehindItem text.now r.1 items t) (Refuses text.now) }
{
    let (first, at) = path_step(alloc, text, at)?;
    if is_call(&first, text, at) {
        let behind = call_argument(text, at)?;
        return Ok((Item::Call, behind));
    }
    let (steps, at) = more_steps(alloc, text, at, first)?;
    Ok((Item::Path(steps), at))
}

/// One or more items, and the place behind them.
fn item_list(alloc: Global, text: &[u8], from: usize) -> Result<(List<Item>, usize), ParseRefusal>
    requires { IsPlace text.now from }
    ensures onward { IfOk result (λ r. IsPlace text.now r.1) }
    ensures no_item { IfOk result (λ r. Lacks text.now r.1 44) }
    ensures spelled { StandsAt text.now from (Naming [] []) →
        MatchResult result (λ r. (front : Items ItemTree) × (last : ItemTree) × (r.0 ≡ map item_value (with_last front last)) × StandsBehindItem text.now r.1 front last) (Refuses text.now) }
{
    let (first, behind_first) = item(alloc, text, from)?;
    let mut at = behind_first;
    let mut items = List::new(alloc);
    items.push(first)?;
    'commas: while is_at(text, at, b',') {
        let (item, behind) = item(alloc, text, skip_blanks(text, at + 1))?;
        items.push(item)?;
        at = behind;
    }
    Ok((items, at))
}

/// The items, if there are any, and the place behind them.
pub fn first_items(
    alloc: Global,
    text: &[u8],
    at: usize,
) -> Result<(List<Item>, usize), ParseRefusal>
    requires { IsPlace text.now at }
    ensures onward { IfOk result (λ r. IsPlace text.now r.1) }
    ensures spelled { StandsAt text.now at Start →
        MatchResult result (λ r. (t : ItemsTree) × (r.0 ≡ items_value t) × StandsAt text.now r.1 (Clausal t [])) (Refuses text.now) }
{
    if at == text.len() {
        return Ok((List::new(alloc), at));
    }
    if is_at(text, at, b'&') {
        return Ok((List::new(alloc), at));
    }
    let (items, at) = item_list(alloc, text, at)?;
    Ok((items, at))
}
