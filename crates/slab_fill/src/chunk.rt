//! The part of a batch that one worker fills.

ghost use Rattle.std.specs.Prelude.{◌≡◌, ℕ, ◌+◌, ◌*◌, ◌/◌, ◌%◌, ◌<◌, ◌≤◌, length, slice_index, IsTrue};
ghost use Rattle.hyperslab_plan.specs.Batches.{IsBatch};
ghost use Rattle.hyperslab_plan.specs.Numbers.{is_number};
ghost use Rattle.hyperslab_plan.specs.Plans.{base_in, width_in, per_row_in, IsDense};
ghost use Rattle.slab_fill.specs.Elements.{batch_byte};

use crate::rows::write_row;
use hyperslab_plan::{Batch, Plan};

/// Elements that stand end to end.
fn write_dense(plan: &Plan, _batch: &Batch, raw: &[u8], first: usize, part: &mut [u8])
    requires number { IsTrue (is_number (base_in plan.now)) }
    requires dense { IsDense plan.now }
    requires batch { IsBatch plan.now _batch.now }
    requires raw_len { length raw.now ≡ _batch.now.raw_len }
    requires some { 0 < length part.old }
    requires whole { length part.old % width_in plan.now ≡ 0 }
    requires inside { first + length part.old / width_in plan.now ≤ _batch.now.count }
    ensures { (k : ℕ) → k < length part.old → slice_index part.new k ≡ batch_byte plan.now raw.now (first * width_in plan.now + k) }
{
    let size = plan.size() as usize;
    write_row(plan.base(), raw, first * size, size, part)
}

/// Elements of one row, of which the first is element `first` of the batch and stands in that row and
/// column.
fn write_row_part(
    plan: &Plan,
    _batch: &Batch,
    raw: &[u8],
    first: usize,
    row: usize,
    column: usize,
    part: &mut [u8],
)
    requires number { IsTrue (is_number (base_in plan.now)) }
    requires batch { IsBatch plan.now _batch.now }
    requires raw_len { length raw.now ≡ _batch.now.raw_len }
    requires some { 0 < length part.old }
    requires whole { length part.old % width_in plan.now ≡ 0 }
    requires inside { first + length part.old / width_in plan.now ≤ _batch.now.count }
    requires position { row * per_row_in plan.now + column ≡ first }
    requires in_row { column + length part.old / width_in plan.now ≤ per_row_in plan.now }
    ensures { (k : ℕ) → k < length part.old → slice_index part.new k ≡ batch_byte plan.now raw.now (first * width_in plan.now + k) }
{
    let base = plan.base();
    let spacing = plan.spacing();
    let jump = spacing.jump as usize;
    let at = row * spacing.row_len as usize + column * jump;
    write_row(base, raw, at, jump, part)
}

/// Elements that stand equally spaced in each row, row by row.
fn write_rows(plan: &Plan, batch: &Batch, raw: &[u8], first: usize, part: &mut [u8])
    requires number { IsTrue (is_number (base_in plan.now)) }
    requires batch { IsBatch plan.now batch.now }
    requires raw_len { length raw.now ≡ batch.now.raw_len }
    requires whole { length part.old % width_in plan.now ≡ 0 }
    requires inside { first + length part.old / width_in plan.now ≤ batch.now.count }
    ensures { (k : ℕ) → k < length part.old → slice_index part.new k ≡ batch_byte plan.now raw.now (first * width_in plan.now + k) }
{
    let width = plan.width() as usize;
    let per_row = plan.spacing().per_row as usize;
    let count = part.len() / width;
    let mut row = first / per_row;
    let mut column = first % per_row;
    let mut done = 0;
    while done < count {
        let n = (per_row - column).min(count - done);
        let rest = &mut part[done * width..(done + n) * width];
        write_row_part(plan, batch, raw, first + done, row, column, rest);
        done += n;
        row += 1;
        column = 0;
    }
}

/// Writes the XDR forms of a batch's elements from `first` on, as many as `part` has room for.
pub fn write_chunk(plan: &Plan, batch: &Batch, raw: &[u8], first: usize, part: &mut [u8])
    requires number { IsTrue (is_number (base_in plan.now)) }
    requires batch { IsBatch plan.now batch.now }
    requires raw_len { length raw.now ≡ batch.now.raw_len }
    requires some { 0 < length part.old }
    requires whole { length part.old % width_in plan.now ≡ 0 }
    requires inside { first + length part.old / width_in plan.now ≤ batch.now.count }
    ensures { (k : ℕ) → k < length part.old → slice_index part.new k ≡ batch_byte plan.now raw.now (first * width_in plan.now + k) }
{
    if plan.is_dense() {
        write_dense(plan, batch, raw, first, part)
    } else {
        write_rows(plan, batch, raw, first, part)
    }
}
