ghost use Rattle.std.specs.Prelude.{◌≡◌, ℕ, ◌+◌, ◌-◌, ◌*◌, ◌/◌, ◌%◌, ◌^◌, ◌<◌, ◌≤◌, length, All, IfOk, IsTrue, ◌↔◌, slice_get};
ghost use Rattle.dap_types.specs.Limits.{most_piece};
ghost use Rattle.hyperslab_plan.specs.Numbers.{HasSize, width_of};
ghost use Rattle.hyperslab_plan.specs.Shapes.{rel_at};

use crate::batch::{Batch, Run};
use crate::limits::{part_of, row_len_of, rows_in, xdr_width};
use crate::shape::Shape;
use crate::slabs::{count_all, origin_of, shape_of};
use crate::spacing::Spacing;
use dap_types::{BaseType, Layout, Memory, Slab};
use std::alloc::Global;

/// The elements that hyperslabs pick out of an array, where they stand in its file, and how they
/// are fetched.
#[derive(Debug, Drop)]
pub struct Plan {
    base: BaseType,
    /// The bytes of an element in the file.
    size: u64,
    /// Where the first element stands.
    origin: u64,
    shape: Shape,
    total: u64,
    /// All rows.
    rows: u64,
    /// The most elements of a part of a row.
    part: u64,
    /// The most whole rows of a batch, 0 where a row is longer than a batch.
    rows_at_once: u64,
    /// From the first byte of a row to its last.
    row_len: u64,
    ghost whole: { rows * shape.per_row ≡ total },
    ghost few: { total < 2 ^ 31 },
    ghost below: { (p : ℕ) → p < total → origin + rel_at shape p < 2 ^ 63 },
    ghost sized: { 0 < size },
    ghost typed: { HasSize base size },
    ghost part_some: { 0 < part },
    ghost part_raw: { (part - 1) * shape.jump + size ≤ most_piece },
    ghost part_xdr: { part * width_of base ≤ most_piece },
    ghost part_most: { (n : ℕ) → (n - 1) * shape.jump + size ≤ most_piece → n * width_of base ≤ most_piece → n ≤ part },
    ghost rows_raw: { rows_at_once * row_len ≤ most_piece },
    ghost rows_xdr: { rows_at_once * shape.per_row * width_of base ≤ most_piece },
    ghost rows_most: { 0 < row_len → (n : ℕ) → n * row_len ≤ most_piece → n * shape.per_row * width_of base ≤ most_piece → n ≤ rows_at_once },
    ghost row_short: { row_len ≤ most_piece },
    ghost row_is: { 0 < row_len → row_len ≡ (shape.per_row - 1) * shape.jump + size },
    ghost row_fits: { shape.per_row ≤ part → row_len ≡ (shape.per_row - 1) * shape.jump + size },
    ghost row_read: { 0 < rows_at_once → 0 < row_len },
}

impl Plan {
    ghost use Rattle.std.specs.Prelude.{List, Some, map, take, drop};
    ghost use Rattle.dap_types.specs.declared.values.Value.{Value};
    ghost use Rattle.hyperslab_plan.specs.declared.batch.Batch.{Batch};
    ghost use Rattle.dap_model.specs.Cutting.{AreWithin};
    ghost use Rattle.hyperslab_plan.specs.Nested.{cut_places, cut_values};
    ghost use Rattle.hyperslab_plan.specs.Picked.{picked, count_of, cost_of};
    ghost use Rattle.hyperslab_plan.specs.Numbers.{is_number, number_size};
    ghost use Rattle.hyperslab_plan.specs.Plans.{places, place_of, total_of, base_in, size_in, width_in, per_row_in, jump_in, place_in, IsDense};
    ghost use Rattle.hyperslab_plan.specs.Batches.{run_of, IsBatch, IsLargest, InTurn, read_in, read_by, spent, Bounded, Fills, ElementBeginsAt, ElementEndsAt, Fetched, Held};

    /// The plan for the elements that the hyperslabs, one for each dimension, pick out of an array
    /// of that type and layout. No other call takes memory.
    pub fn new(
        alloc: Global,
        layout: &Layout,
        base: BaseType,
        slabs: &[Slab],
    ) -> Result<Plan, Memory>
        requires one_each { length slabs.now ≡ length layout.now.steps }
        requires strided { All (λ s. 0 < s.stride) slabs.now }
        requires below { All (λ place. place < 2 ^ 63) (picked slabs.now layout.now.steps layout.now.base) }
        requires few { count_of slabs.now ≤ 2147483647 }
        requires sized { 0 < layout.now.size }
        requires small { layout.now.size ≤ most_piece }
        requires typed { HasSize base layout.now.size }
        ensures total { IfOk result (λ plan. total_of plan ≡ count_of slabs.now) }
        ensures base { IfOk result (λ plan. base_in plan ≡ base) }
        ensures size { IfOk result (λ plan. size_in plan ≡ layout.now.size) }
        ensures places { IfOk result (λ plan. places plan ≡ picked slabs.now layout.now.steps layout.now.base) }
        // whatever the array's sizes are
        ensures cut { IfOk result (λ plan. (sizes : List ℕ) → AreWithin slabs.now sizes → places plan ≡ cut_places slabs.now sizes layout.now.steps layout.now.base) }
        // and whatever value stands at each place
        ensures values { IfOk result (λ plan. (sizes : List ℕ) (value : ℕ → Value) → AreWithin slabs.now sizes → map value (places plan) ≡ cut_values slabs.now value sizes layout.now.steps layout.now.base) }
        ensures bound { IfOk result (λ plan. (batches : List Batch) (upto : ℕ) → InTurn plan batches 0 upto → read_by plan batches ≤ cost_of slabs.now layout.now.size) }
        ensures spent { IfOk result (λ plan. spent plan (total_of plan) ≤ cost_of slabs.now layout.now.size) }
    {
        let size = u64::from(layout.size);
        let count = count_all(slabs);
        if count == 0 {
            return Ok(Plan::of_rows(0, Shape::row(alloc, 1, size), base, size, 0));
        }
        let steps = layout.steps.items();
        let origin = origin_of(layout.base, steps, slabs);
        let shape = shape_of(alloc, steps, slabs, size)?;
        let rows = count / shape.per_row;
        Ok(Plan::of_rows(origin, shape, base, size, rows))
    }

    /// The elements of `rows` rows.
    fn of_rows(origin: u64, shape: Shape, base: BaseType, size: u64, rows: u64) -> Plan
        requires few { rows * shape.per_row < 2 ^ 31 }
        requires short { shape.per_row < 2 ^ 31 }
        requires below { (p : ℕ) → p < rows * shape.per_row → origin + rel_at shape p < 2 ^ 63 }
        requires sized { 0 < size }
        requires small { size ≤ most_piece }
        requires typed { HasSize base size }
        ensures origin { result.origin ≡ origin }
        ensures shape { result.shape ≡ shape }
        ensures base { result.base ≡ base }
        ensures size { result.size ≡ size }
        ensures rows { result.rows ≡ rows }
    {
        let per_row = shape.per_row;
        let width = xdr_width(base);
        let part = part_of(shape.jump, size, width);
        let row_len = row_len_of(per_row, shape.jump, size, part);
        let rows_at_once = rows_in(per_row, row_len, width);
        Plan {
            base,
            size,
            origin,
            shape,
            total: rows * per_row,
            rows,
            part,
            rows_at_once,
            row_len,
        }
    }

    /// How many elements there are.
    pub fn total(&self) -> u64
        ensures total { result ≡ total_of self.now }
        ensures length { result ≡ length (places self.now) }
    {
        self.total
    }

    /// The type of the elements.
    pub fn base(&self) -> BaseType
        ensures base { result ≡ base_in self.now }
        ensures size { IsTrue (is_number result) → size_in self.now ≡ number_size result }
    {
        self.base
    }

    /// The bytes of an element in the file, at most 65,536.
    pub fn size(&self) -> u64
        ensures size { result ≡ size_in self.now }
        ensures number { IsTrue (is_number (base_in self.now)) → result ≡ number_size (base_in self.now) }
        ensures some { 0 < result }
        ensures few { result ≤ most_piece }
    {
        self.size
    }

    /// The bytes of an element's XDR form in an array (RFC 4506; DAP 2.0, arrays). It is 1 where
    /// the elements are texts, whose forms have no one width.
    pub fn width(&self) -> u64
        ensures width { result ≡ width_in self.now }
        ensures some { 0 < result }
        ensures few { result ≤ 8 }
    {
        xdr_width(self.base)
    }

    /// Where the element of a position in row-major order stands in the file.
    pub fn offset(&self, position: u64) -> u64
        requires { position < total_of self.now }
        ensures item { slice_get (places self.now) position ≡ Some result }
        ensures place { result ≡ place_of self.now position }
        ensures below { result < 2 ^ 63 }
    {
        let mut at = self.origin + position % self.shape.per_row * self.shape.jump;
        let mut row = position / self.shape.per_row;
        for axis in &self.shape.outer {
            at += row % axis.count * axis.jump;
            row /= axis.count;
        }
        at
    }

    /// The batch that begins at a position: as many whole rows as fit, or as much of the rest of a
    /// row as fits.
    pub fn batch(&self, first: u64) -> Batch
        requires { first < total_of self.now }
        ensures is_batch { IsBatch self.now result }
        ensures first { result.first ≡ first }
        ensures bounded { Bounded self.now result }
        ensures largest { IsLargest self.now result }
        ensures sum { read_in self.now result ≡ result.raw_len }
    {
        let per_row = self.shape.per_row;
        let column = first % per_row;
        if column == 0 && self.rows_at_once > 0 {
            let rows = self.rows_at_once.min(self.rows - first / per_row);
            Batch {
                first,
                count: (rows * per_row) as u32,
                runs: rows as u32,
                raw_len: (rows * self.row_len) as u32,
            }
        } else {
            let count = self.part.min(per_row - column);
            Batch {
                first,
                count: count as u32,
                runs: 1,
                raw_len: ((count - 1) * self.shape.jump + self.size) as u32,
            }
        }
    }

    /// The `k`-th read of a batch. The reads fill the raw bytes one after the other.
    pub fn run(&self, batch: &Batch, k: u32) -> Run
        requires batch { IsBatch self.now batch.now }
        requires run { k < batch.now.runs }
        ensures is_run { result ≡ run_of self.now batch.now k }
        ensures inside { result.into + result.len ≤ batch.now.raw_len }
        ensures fills { Fills self.now batch.now }
        ensures begins { ElementBeginsAt self.now batch.now result.at }
        ensures ends { ElementEndsAt self.now batch.now (result.at + result.len) }
    {
        let at = self.offset(batch.first + u64::from(k) * self.shape.per_row);
        let len = if batch.runs == 1 {
            batch.raw_len
        } else {
            self.row_len as u32
        };
        let into = (u64::from(k) * self.row_len) as u32;
        Run { at, len, into }
    }

    /// Where the element `first + j` stands in the batch's raw bytes.
    pub fn place(&self, batch: &Batch, j: u32) -> u32
        requires batch { IsBatch self.now batch.now }
        requires element { j < batch.now.count }
        ensures is_place { result ≡ place_in self.now j }
        ensures inside { result + size_in self.now ≤ batch.now.raw_len }
        ensures held { Held self.now batch.now j }
        ensures bytes { (file raw : List ℕ) → Fetched self.now batch.now file raw → take (size_in self.now) (drop result raw) ≡ take (size_in self.now) (drop (place_of self.now (batch.now.first + j)) file) }
    {
        let element = u64::from(j);
        let per_row = self.shape.per_row;
        let at = element / per_row * self.row_len + element % per_row * self.shape.jump;
        at as u32
    }

    /// Whether the elements of each batch stand end to end in its raw bytes.
    pub fn is_dense(&self) -> bool
        ensures exact { IsTrue result ↔ IsDense self.now }
        ensures places { IsTrue result → (b : Batch) (j : ℕ) → IsBatch self.now b → j < b.count → place_in self.now j ≡ j * size_in self.now }
        ensures raw_len { IsTrue result → (b : Batch) → IsBatch self.now b → b.raw_len ≡ b.count * size_in self.now }
    {
        self.shape.jump == self.size
    }

    /// How the elements of each batch stand in its raw bytes, for a caller that walks them row by row.
    pub fn spacing(&self) -> Spacing
        ensures filled { 0 < result.per_row }
        ensures per_row { result.per_row ≡ per_row_in self.now }
        ensures jump { result.jump ≡ jump_in self.now }
        ensures places { (j : ℕ) → place_in self.now j ≡ j / result.per_row * result.row_len + j % result.per_row * result.jump }
        ensures rows { (r i : ℕ) → i < result.per_row → place_in self.now (r * result.per_row + i) ≡ r * result.row_len + i * result.jump }
    {
        Spacing {
            per_row: self.shape.per_row,
            jump: self.shape.jump,
            row_len: self.row_len,
        }
    }
}
