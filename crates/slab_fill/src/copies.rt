//! Elements whose XDR form is their bytes in the file.

ghost use Rattle.std.specs.Prelude.{◌≡◌, ℕ, ◌+◌, ◌*◌, ◌/◌, ◌%◌, ◌<◌, ◌≤◌, length, slice_index};
ghost use Rattle.slab_fill.specs.Spots.{spot};

use crate::spots::spot_of;

/// Bytes that stand `step` apart from `at` on.
#[inline(never)]
pub fn copy_bytes(raw: &[u8], at: usize, step: usize, out: &mut [u8])
    requires room { (j : ℕ) → j < length out.old → spot at step j < length raw.now }
    ensures { (k : ℕ) → k < length out.old → slice_index out.new k ≡ slice_index raw.now (spot at step k) }
{
    for j in 0..out.len() {
        out[j] = raw[spot_of(at, step, j)];
    }
}

/// Elements of 4 bytes that stand `step` apart from `at` on.
#[inline(never)]
pub fn copy_words(raw: &[u8], at: usize, step: usize, out: &mut [u8])
    requires whole { length out.old % 4 ≡ 0 }
    requires room { (j : ℕ) → j < length out.old / 4 → spot at step j + 4 ≤ length raw.now }
    ensures { (k : ℕ) → k < length out.old → slice_index out.new k ≡ slice_index raw.now (spot at step (k / 4) + k % 4) }
{
    for j in 0..out.len() / 4 {
        let place = spot_of(at, step, j);
        let word = [raw[place], raw[place + 1], raw[place + 2], raw[place + 3]];
        out[4 * j..4 * j + 4].copy_from_slice(&word);
    }
}

/// The 8 bytes from a place on.
fn double_word_at(raw: &[u8], place: usize) -> [u8; 8]
    requires { place + 8 ≤ length raw.now }
    ensures { (b : ℕ) → b < 8 → slice_index result b ≡ slice_index raw.now (place + b) }
{
    [
        raw[place],
        raw[place + 1],
        raw[place + 2],
        raw[place + 3],
        raw[place + 4],
        raw[place + 5],
        raw[place + 6],
        raw[place + 7],
    ]
}

/// Elements of 8 bytes that stand `step` apart from `at` on.
#[inline(never)]
pub fn copy_double_words(raw: &[u8], at: usize, step: usize, out: &mut [u8])
    requires whole { length out.old % 8 ≡ 0 }
    requires room { (j : ℕ) → j < length out.old / 8 → spot at step j + 8 ≤ length raw.now }
    ensures { (k : ℕ) → k < length out.old → slice_index out.new k ≡ slice_index raw.now (spot at step (k / 8) + k % 8) }
{
    for j in 0..out.len() / 8 {
        let place = spot_of(at, step, j);
        out[8 * j..8 * j + 8].copy_from_slice(&double_word_at(raw, place));
    }
}

/// Elements that stand end to end from `at` on, at once.
pub fn copy_all(raw: &[u8], at: usize, out: &mut [u8])
    requires room { at + length out.old ≤ length raw.now }
    ensures { (k : ℕ) → k < length out.old → slice_index out.new k ≡ slice_index raw.now (at + k) }
{
    out.copy_from_slice(&raw[at..at + out.len()]);
}
