//! Numbers of 2 bytes, which become words.

ghost use Rattle.std.specs.Prelude.{◌≡◌, ℕ, ◌+◌, ◌*◌, ◌/◌, ◌%◌, ◌<◌, ◌≤◌, length, slice_index};
ghost use Rattle.slab_fill.specs.Spots.{spot, signed_word, unsigned_word};

use crate::spots::spot_of;

/// The word of an Int16.
#[tactic(auto, unfolding(crate::specs::Spots::signed_word))]
fn signed(high: u8, low: u8) -> [u8; 4]
    ensures { result ≡ signed_word high low }
{
    i32::from(i16::from_be_bytes([high, low])).to_be_bytes()
}

/// The word of a UInt16.
#[tactic(auto, unfolding(crate::specs::Spots::unsigned_word))]
fn unsigned(high: u8, low: u8) -> [u8; 4]
    ensures { result ≡ unsigned_word high low }
{
    u32::from(u16::from_be_bytes([high, low])).to_be_bytes()
}

/// The words of Int16s that stand `step` apart from `at` on.
#[inline(never)]
pub fn extend_signed(raw: &[u8], at: usize, step: usize, out: &mut [u8])
    requires whole { length out.old % 4 ≡ 0 }
    requires room { (j : ℕ) → j < length out.old / 4 → spot at step j + 2 ≤ length raw.now }
    ensures { (k : ℕ) → k < length out.old → slice_index out.new k ≡ slice_index (signed_word (slice_index raw.now (spot at step (k / 4))) (slice_index raw.now (spot at step (k / 4) + 1))) (k % 4) }
{
    for j in 0..out.len() / 4 {
        let place = spot_of(at, step, j);
        out[4 * j..4 * j + 4].copy_from_slice(&signed(raw[place], raw[place + 1]));
    }
}

/// The words of Int16s that stand end to end from `at` on.
#[inline(never)]
pub fn extend_signed_all(raw: &[u8], at: usize, out: &mut [u8])
    requires whole { length out.old % 4 ≡ 0 }
    requires room { (j : ℕ) → j < length out.old / 4 → spot at 2 j + 2 ≤ length raw.now }
    ensures { (k : ℕ) → k < length out.old → slice_index out.new k ≡ slice_index (signed_word (slice_index raw.now (spot at 2 (k / 4))) (slice_index raw.now (spot at 2 (k / 4) + 1))) (k % 4) }
{
    for j in 0..out.len() / 4 {
        let place = spot_of(at, 2, j);
        out[4 * j..4 * j + 4].copy_from_slice(&signed(raw[place], raw[place + 1]));
    }
}

/// The words of UInt16s that stand `step` apart from `at` on.
#[inline(never)]
pub fn extend_unsigned(raw: &[u8], at: usize, step: usize, out: &mut [u8])
    requires whole { length out.old % 4 ≡ 0 }
    requires room { (j : ℕ) → j < length out.old / 4 → spot at step j + 2 ≤ length raw.now }
    ensures { (k : ℕ) → k < length out.old → slice_index out.new k ≡ slice_index (unsigned_word (slice_index raw.now (spot at step (k / 4))) (slice_index raw.now (spot at step (k / 4) + 1))) (k % 4) }
{
    for j in 0..out.len() / 4 {
        let place = spot_of(at, step, j);
        out[4 * j..4 * j + 4].copy_from_slice(&unsigned(raw[place], raw[place + 1]));
    }
}

/// The words of UInt16s that stand end to end from `at` on.
#[inline(never)]
pub fn extend_unsigned_all(raw: &[u8], at: usize, out: &mut [u8])
    requires whole { length out.old % 4 ≡ 0 }
    requires room { (j : ℕ) → j < length out.old / 4 → spot at 2 j + 2 ≤ length raw.now }
    ensures { (k : ℕ) → k < length out.old → slice_index out.new k ≡ slice_index (unsigned_word (slice_index raw.now (spot at 2 (k / 4))) (slice_index raw.now (spot at 2 (k / 4) + 1))) (k % 4) }
{
    for j in 0..out.len() / 4 {
        let place = spot_of(at, 2, j);
        out[4 * j..4 * j + 4].copy_from_slice(&unsigned(raw[place], raw[place + 1]));
    }
}
