//! The XDR forms of equally spaced elements, by their type. Elements that stand end to end have
//! loops of their own, which go many at a time.

ghost use Rattle.std.specs.Prelude.{◌≡◌, ℕ, ◌+◌, ◌*◌, ◌/◌, ◌%◌, ◌<◌, ◌≤◌, length, slice_index, IsTrue};
ghost use Rattle.hyperslab_plan.specs.Numbers.{is_number, number_size, width_of};
ghost use Rattle.slab_fill.specs.Elements.{row_byte};
ghost use Rattle.slab_fill.specs.Spots.{spot, signed_word, unsigned_word};

use crate::copies::{copy_all, copy_bytes, copy_double_words, copy_words};
use crate::shorts::{extend_signed, extend_signed_all, extend_unsigned, extend_unsigned_all};
use dap_types::BaseType;

/// Bytes that stand `step` bytes apart from `at` on.
#[tactic(auto, unfolding(crate::specs::Spots::spot))]
fn write_bytes(raw: &[u8], at: usize, step: usize, out: &mut [u8])
    requires some { 0 < length out.old }
    requires room { (j : ℕ) → j < length out.old → spot at step j < length raw.now }
    ensures { (k : ℕ) → k < length out.old → slice_index out.new k ≡ slice_index raw.now (spot at step k) }
{
    if step == 1 {
        copy_all(raw, at, out)
    } else {
        copy_bytes(raw, at, step, out)
    }
}

/// Numbers of 4 bytes that stand `step` bytes apart from `at` on.
fn write_words(raw: &[u8], at: usize, step: usize, out: &mut [u8])
    requires some { 0 < length out.old }
    requires whole { length out.old % 4 ≡ 0 }
    requires room { (j : ℕ) → j < length out.old / 4 → spot at step j + 4 ≤ length raw.now }
    ensures { (k : ℕ) → k < length out.old → slice_index out.new k ≡ slice_index raw.now (spot at step (k / 4) + k % 4) }
{
    if step == 4 {
        copy_all(raw, at, out)
    } else {
        copy_words(raw, at, step, out)
    }
}

/// Numbers of 8 bytes that stand `step` bytes apart from `at` on.
fn write_double_words(raw: &[u8], at: usize, step: usize, out: &mut [u8])
    requires some { 0 < length out.old }
    requires whole { length out.old % 8 ≡ 0 }
    requires room { (j : ℕ) → j < length out.old / 8 → spot at step j + 8 ≤ length raw.now }
    ensures { (k : ℕ) → k < length out.old → slice_index out.new k ≡ slice_index raw.now (spot at step (k / 8) + k % 8) }
{
    if step == 8 {
        copy_all(raw, at, out)
    } else {
        copy_double_words(raw, at, step, out)
    }
}

/// The words of Int16s that stand `step` bytes apart from `at` on.
fn write_signed(raw: &[u8], at: usize, step: usize, out: &mut [u8])
    requires whole { length out.old % 4 ≡ 0 }
    requires room { (j : ℕ) → j < length out.old / 4 → spot at step j + 2 ≤ length raw.now }
    ensures { (k : ℕ) → k < length out.old → slice_index out.new k ≡ slice_index (signed_word (slice_index raw.now (spot at step (k / 4))) (slice_index raw.now (spot at step (k / 4) + 1))) (k % 4) }
{
    if step == 2 {
        extend_signed_all(raw, at, out)
    } else {
        extend_signed(raw, at, step, out)
    }
}

/// The words of UInt16s that stand `step` bytes apart from `at` on.
fn write_unsigned(raw: &[u8], at: usize, step: usize, out: &mut [u8])
    requires whole { length out.old % 4 ≡ 0 }
    requires room { (j : ℕ) → j < length out.old / 4 → spot at step j + 2 ≤ length raw.now }
    ensures { (k : ℕ) → k < length out.old → slice_index out.new k ≡ slice_index (unsigned_word (slice_index raw.now (spot at step (k / 4))) (slice_index raw.now (spot at step (k / 4) + 1))) (k % 4) }
{
    if step == 2 {
        extend_unsigned_all(raw, at, out)
    } else {
        extend_unsigned(raw, at, step, out)
    }
}

/// Writes the XDR forms of numbers that stand `step` bytes apart from `at` on.
pub fn write_row(base: BaseType, raw: &[u8], at: usize, step: usize, out: &mut [u8])
    requires number { IsTrue (is_number base) }
    requires some { 0 < length out.old }
    requires whole { length out.old % width_of base ≡ 0 }
    requires room { (j : ℕ) → j < length out.old / width_of base → spot at step j + number_size base ≤ length raw.now }
    ensures { (k : ℕ) → k < length out.old → slice_index out.new k ≡ row_byte base raw.now at step k }
{
    match base {
        BaseType::Byte => write_bytes(raw, at, step, out),
        BaseType::Int16 => write_signed(raw, at, step, out),
        BaseType::UInt16 => write_unsigned(raw, at, step, out),
        BaseType::Int32 => write_words(raw, at, step, out),
        BaseType::UInt32 => write_words(raw, at, step, out),
        BaseType::Float32 => write_words(raw, at, step, out),
        BaseType::Float64 => write_double_words(raw, at, step, out),
        BaseType::Text | BaseType::Url => {}
    }
}
