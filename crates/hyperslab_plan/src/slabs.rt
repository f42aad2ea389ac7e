//! From slabs and steps to a shape.

ghost use Rattle.std.specs.Prelude.{◌≡◌, ℕ, ◌+◌, ◌-◌, ◌*◌, ◌/◌, ◌%◌, ◌^◌, ◌<◌, ◌≤◌, length, All, IfOk};
ghost use Rattle.dap_types.specs.Limits.{most_piece};
ghost use Rattle.hyperslab_plan.specs.Along.{starts, rel, Spaced};
ghost use Rattle.hyperslab_plan.specs.Picked.{count_of, span, cost_of};
ghost use Rattle.hyperslab_plan.specs.Shapes.{elements, rel_at, row_cost};

use crate::shape::Shape;
use dap_types::{Memory, Slab};
use std::alloc::Global;

/// Elements of one row that stand no farther apart are read with what lies
/// between them: a longer way costs more than a read of its own.
const NEAR: u64 = 4096;

/// The product of the counts.
pub fn count_all(slabs: &[Slab]) -> u64
    requires { count_of slabs.now < 2 ^ 31 }
    ensures { result ≡ count_of slabs.now }
{
    let mut count: u64 = 1;
    for slab in slabs {
        count *= u64::from(slab.count);
        if count >= 1 << 31 {
            // Only a later slab that picks nothing makes the product small again.
            return 0;
        }
    }
    count
}

/// Where the first picked element stands.
pub fn origin_of(base: u64, steps: &[u64], slabs: &[Slab]) -> u64
    requires one_each { length slabs.now ≡ length steps.now }
    requires below { base + starts slabs.now steps.now < 2 ^ 63 }
    ensures { result ≡ base + starts slabs.now steps.now }
{
    let mut at = base;
    for i in 0..slabs.len() {
        at += u64::from(slabs[i].start) * steps[i];
    }
    at
}

/// From one picked index to the next.
fn jump_of(slab: Slab, step: u64) -> u64
    requires { 2 ≤ slab.count → slab.stride * step < 2 ^ 63 }
    ensures { 2 ≤ slab.count → result ≡ slab.stride * step }
{
    if slab.count < 2 {
        0
    } else {
        u64::from(slab.stride) * step
    }
}

/// The last dimension: a row, where its elements stand close together, and else
/// rows of one element.
fn last_of(alloc: Global, slab: Slab, step: u64, size: u64) -> Result<Shape, Memory>
    requires some { 0 < slab.count }
    requires few { slab.count < 2 ^ 31 }
    requires strided { 0 < slab.stride }
    requires spaced { 2 ≤ slab.count → slab.stride * step < 2 ^ 63 }
    requires small { size ≤ most_piece }
    ensures elements { IfOk result (λ s. elements s ≡ slab.count) }
    ensures places { IfOk result (λ s. (p : ℕ) → p < slab.count → rel_at s p ≡ p * (slab.stride * step)) }
    ensures cost { IfOk result (λ s. row_cost s size ≤ span slab.count slab.stride * size) }
{
    let jump = jump_of(slab, step);
    let count = u64::from(slab.count);
    if count > 1 && step <= size && jump <= NEAR.max(size) {
        return Ok(Shape::row(alloc, count, jump));
    }
    let mut shape = Shape::row(alloc, 1, size);
    shape.repeat(jump, count, size)?;
    Ok(shape)
}

/// All dimensions, from the last to the first.
pub fn shape_of(alloc: Global, steps: &[u64], slabs: &[Slab], size: u64) -> Result<Shape, Memory>
    requires one_each { length slabs.now ≡ length steps.now }
    requires some { 0 < count_of slabs.now }
    requires few { count_of slabs.now < 2 ^ 31 }
    requires strided { All (λ s. 0 < s.stride) slabs.now }
    requires spaced { Spaced slabs.now steps.now }
    requires small { size ≤ most_piece }
    ensures elements { IfOk result (λ s. elements s ≡ count_of slabs.now) }
    ensures places { IfOk result (λ s. (p : ℕ) → p < count_of slabs.now → rel_at s p ≡ rel slabs.now steps.now p) }
    ensures cost { IfOk result (λ s. row_cost s size ≤ cost_of slabs.now size) }
{
    if slabs.is_empty() {
        return Ok(Shape::row(alloc, 1, size));
    }
    let mut i = slabs.len() - 1;
    let mut shape = last_of(alloc, slabs[i], steps[i], size)?;
    while i > 0 {
        i -= 1;
        let slab = slabs[i];
        let jump = jump_of(slab, steps[i]);
        shape.repeat(jump, u64::from(slab.count), size)?;
    }
    Ok(shape)
}
