//! Hyperslabs of lists that stand one behind the other.

ghost use Rattle.std.specs.Prelude.{◌≡◌, ℕ, ◌+◌, ◌-◌, ◌*◌, ◌≤◌, ◌==◌, if◌then◌else◌};
ghost use Rattle.dap_model.specs.Cutting.{IsWithin};
ghost use Rattle.join_source.specs.Cutting.{behind, count_below, front_of};

use dap_types::Slab;

/// How many of the indexes that a hyperslab picks are below `n`.
fn count_below(slab: &Slab, n: u32) -> u32
    requires { 1 ≤ slab.now.stride }
    ensures { result ≡ count_below slab.now n }
{
    let left = u64::from(n.saturating_sub(slab.start));
    let stride = u64::from(slab.stride);
    let below = (left + (stride - 1)) / stride;
    u64::from(slab.count).min(below) as u32
}

/// What a hyperslab picks of the first `n` items of a list.
pub fn front_of(slab: &Slab, n: u32) -> Slab
    requires { 1 ≤ slab.now.stride }
    ensures { result ≡ front_of slab.now n }
{
    Slab {
        start: slab.start,
        stride: slab.stride,
        count: count_below(slab, n),
    }
}

/// What it picks of the items behind the first `n`, counted from there.
pub fn behind(slab: &Slab, n: u32) -> Slab
    requires { (size : ℕ) × IsWithin slab.now size × (size ≤ 2147483647) }
    ensures { result ≡ behind slab.now n }
{
    let count = count_below(slab, n);
    Slab {
        start: start_behind(slab, count, n),
        stride: slab.stride,
        count: slab.count - count,
    }
}

/// Where it begins behind the first `count` indexes that it picks, counted from `n`; 0 where there are no more.
fn start_behind(slab: &Slab, count: u32, n: u32) -> u32
    requires within { (size : ℕ) × IsWithin slab.now size × (size ≤ 2147483647) }
    requires few { count ≤ slab.now.count }
    ensures { result ≡ (if slab.now.count == count then 0 else slab.now.start + count * slab.now.stride - n) }
{
    if slab.count == count {
        return 0;
    }
    let start = u64::from(slab.start) + u64::from(count) * u64::from(slab.stride);
    start.saturating_sub(u64::from(n)) as u32
}
