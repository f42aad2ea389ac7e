ghost use Rattle.std.specs.Prelude.{◌≡◌, ℕ, ◌+◌, ◌-◌, ◌*◌, ◌/◌, ◌%◌, ◌^◌, ◌<◌, ◌≤◌, OnOk, IsTrue, [], max};
ghost use Rattle.dap_types.specs.Limits.{most_piece};
ghost use Rattle.hyperslab_plan.specs.Axes.{Counted};

use dap_types::Memory;
use std::alloc::Global;

/// Rows or blocks of rows that repeat: `count` of them, `jump` bytes apart.
#[derive(Clone, Copy, Debug)]
pub struct Axis {
    pub jump: u64,
    pub count: u64,
}

/// Rows of `per_row` elements that stand `jump` bytes apart, and the axes over
/// which rows repeat, the innermost first.
#[derive(Debug, Drop)]
pub struct Shape {
    pub outer: Vec<Axis>,
    pub per_row: u64,
    pub jump: u64,
    ghost filled: { 0 < per_row },
    ghost counted: { Counted outer.items },
}

impl Shape {
    ghost use Rattle.hyperslab_plan.specs.Shapes.{elements, rel_at, row_cost};

    /// Whether there is one row, of elements of `size` bytes that stand end to end.
    fn is_solid(&self, size: u64) -> bool
        ensures one_row { IsTrue result → self.now.outer.items ≡ [] }
        ensures end_to_end { IsTrue result → self.now.jump ≡ size }
    {
        self.outer.is_empty() && self.jump == size
    }

    /// One row.
    pub fn row(alloc: Global, per_row: u64, jump: u64) -> Shape
        requires { 0 < per_row }
        ensures elements { elements result ≡ per_row }
        ensures places { (p : ℕ) → p < per_row → rel_at result p ≡ p * jump }
        ensures cost { (size : ℕ) → row_cost result size ≡ (per_row - 1) * max jump size + size }
    {
        Shape {
            outer: Vec::new(alloc),
            per_row,
            jump,
        }
    }

    /// All that is there `count` times, `jump` bytes apart. Where elements of
    /// `size` bytes then stand end to end, they become one row.
    pub fn repeat(&mut self, jump: u64, count: u64, size: u64) -> Result<(), Memory>
        requires some { 0 < count }
        requires few { count * elements self.old < 2 ^ 31 }
        requires small { size ≤ most_piece }
        ensures elements { OnOk result (elements self.new ≡ count * elements self.old) }
        ensures places { OnOk result ((p : ℕ) → p < count * elements self.old → rel_at self.new p ≡ p / elements self.old * jump + rel_at self.old (p % elements self.old)) }
        ensures cost { OnOk result (row_cost self.new size ≤ count * row_cost self.old size) }
    {
        if count == 1 {
            return Ok(());
        }
        if self.is_solid(size) && jump == self.per_row * size {
            self.per_row *= count;
            return Ok(());
        }
        self.outer.push(Axis { jump, count })?;
        Ok(())
    }
}
