//! Constraints of 1,024 items, 1,024 clauses and 1,024 values, and long names and texts in one.

use crate::building::{append_times, name_of, names_sum, sum_of, times};
use crate::expecting::expect;
use constraint_parse::{Clause, Constant, Constraint, Item, Number, parse};
use dap_types::Memory;
use std::alloc::Global;
use std::process::Abort;
use std::test::Fail;

/// The most items of a constraint, clauses of one and values of a clause.
const MOST: u32 = 1024;

/// Appends the names from the second of so many on, each with what stands before and behind it.
pub fn append_names(
    text: &mut Vec<u8>,
    many: u32,
    before: &[u8],
    behind: &[u8],
) -> Result<(), Memory> {
    for number in 1..many {
        text.extend_from_slice(before)?;
        text.extend_from_slice(&name_of(number))?;
        text.extend_from_slice(behind)?;
    }
    Ok(())
}

/// So many items on the columns of `t`, with brackets, so many clauses on them, and in the last clause so many
/// values, each 3.
fn long_constraint(alloc: Global, many: u32) -> Result<Vec<u8>, Memory> {
    let mut text = Vec::from_slice(alloc, b"t.aaaa[1:2:3]")?;
    append_names(&mut text, many, b",t.", b"[1:2:3]")?;
    append_names(&mut text, many, b"&t.", b">=-1")?;
    text.extend_from_slice(b"&t.b={3")?;
    append_times(&mut text, b",3", many.saturating_sub(1) as usize)?;
    text.extend_from_slice(b"}")?;
    Ok(text)
}

fn number_in(constant: &Constant) -> i128 {
    match constant {
        Constant::Whole(Number::Small(value)) => *value,
        _ => 0,
    }
}

/// The sum of the whole numbers among the values of a clause.
fn constants_sum(clause: &Clause) -> i128 {
    let Clause::Compare { values, .. } = clause else {
        return 0;
    };
    let mut sum = 0i128;
    for value in values.items() {
        sum = sum.wrapping_add(number_in(value));
    }
    sum
}

/// The sum of the numbers in the clauses.
fn clauses_sum(clauses: &[Clause]) -> i128 {
    let mut sum = 0i128;
    for clause in clauses {
        sum = sum.wrapping_add(constants_sum(clause));
    }
    sum
}

/// The brackets of an item's last name, and the sum of the bytes of that name.
fn item_seen(item: &Item) -> (usize, u64) {
    let Item::Path(steps) = item else {
        return (0, 0);
    };
    match steps.items().last() {
        Some(last) => (last.slabs.items().len(), sum_of(last.name.bytes())),
        None => (0, 0),
    }
}

/// The same of all items together.
fn items_seen(items: &[Item]) -> (usize, u64) {
    let mut slabs = 0usize;
    let mut sum = 0u64;
    for item in items {
        let (more, more_sum) = item_seen(item);
        slabs = slabs.wrapping_add(more);
        sum = sum.wrapping_add(more_sum);
    }
    (slabs, sum)
}

fn expect_items<R: Abort>(rt: &R, items: &[Item], many: u32) {
    expect(rt, items.len(), many as usize);
    expect(rt, items_seen(items), (many as usize, names_sum(many)));
}

fn expect_clauses<R: Abort>(rt: &R, clauses: &[Clause], many: u32) {
    let sum = i128::from(many) * 3 - (i128::from(many) - 1);
    expect(rt, clauses.len(), many as usize);
    expect(rt, clauses_sum(clauses), sum);
}

/// The text is read as those items and those clauses.
fn expect_constraint<R: Abort>(rt: &R, alloc: Global, many: u32) -> Result<(), Fail> {
    let text = long_constraint(alloc, many)?;
    let constraint = parse(alloc, &text)?;
    expect_items(rt, constraint.items.items(), many);
    expect_clauses(rt, constraint.clauses.items(), many);
    Ok(())
}

#[test]
fn longest_constraint_is_read(rt: HostRuntime) -> Result<(), Fail> {
    expect_constraint(&rt, rt.alloc(), MOST)
}

/// Whether it is this text.
fn is_text(constant: &Constant, wanted: &[u8]) -> bool {
    match constant {
        Constant::Text(text) => text.bytes() == wanted,
        _ => false,
    }
}

/// Whether the clause has this text alone.
fn has_text(clause: &Clause, wanted: &[u8]) -> bool {
    let Clause::Compare { values, .. } = clause else {
        return false;
    };
    let values = values.items();
    values.len() == 1 && is_text(&values[0], wanted)
}

/// The first clause has this text alone.
fn expect_text<R: Abort>(rt: &R, clauses: &[Clause], wanted: &[u8]) {
    let Some(clause) = clauses.first() else {
        panic!(rt; "no clause");
    };
    assert!(rt; has_text(clause, wanted));
}

/// A name and, as a value, a text.
fn long_words(alloc: Global, name: &[u8], value: &[u8]) -> Result<Vec<u8>, Memory> {
    let mut text = Vec::from_slice(alloc, name)?;
    text.extend_from_slice(b"&t.s=\"")?;
    text.extend_from_slice(value)?;
    text.extend_from_slice(b"\"")?;
    Ok(text)
}

/// A name and a text of so many bytes.
fn expect_long_words<R: Abort>(rt: &R, alloc: Global, many: u32) -> Result<(), Fail> {
    let name = times(alloc, b"n", many as usize)?;
    let value = times(alloc, b"v", many as usize)?;
    let constraint = parse(alloc, &long_words(alloc, &name, &value)?)?;
    let sum = u64::from(many) * u64::from(b'n');
    expect(rt, items_seen(constraint.items.items()), (0, sum));
    expect_text(rt, constraint.clauses.items(), &value);
    Ok(())
}

#[test]
fn long_names_and_texts_are_read(rt: HostRuntime) -> Result<(), Fail> {
    expect_long_words(&rt, rt.alloc(), 8_000)
}
