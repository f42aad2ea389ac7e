ghost use Rattle.std.specs.Prelude.{◌≡◌, ℕ, ◌+◌, ◌*◌, ◌/◌, ◌%◌, ◌^◌, ◌<◌, ◌≤◌, length, slice_index, IsTrue};
ghost use Rattle.hyperslab_plan.specs.Batches.{IsBatch};
ghost use Rattle.hyperslab_plan.specs.Numbers.{is_number};
ghost use Rattle.hyperslab_plan.specs.Plans.{base_in, width_in};
ghost use Rattle.slab_fill.specs.Elements.{batch_byte, xdr_of};

use crate::Gate;
use crate::chunk::write_chunk;
use hyperslab_plan::{Batch, Plan};
use std::thread;
use std::thread::Threads;

/// Lends each worker its part of the output, which it fills once it has passed the gate with its
/// number.
fn fill_parts<R: Threads + Sync, G: Gate>(
    rt: &R,
    plan: &Plan,
    batch: &Batch,
    raw: &[u8],
    out: &mut [u8],
    workers: u32,
    gate: &G,
)
    requires number { IsTrue (is_number (base_in plan.now)) }
    requires batch { IsBatch plan.now batch.now }
    requires raw_len { length raw.now ≡ batch.now.raw_len }
    requires room { length out.old ≡ batch.now.count * width_in plan.now }
    requires some { 1 ≤ workers }
    requires many { workers ≤ 64 }
    ensures { (i : ℕ) → i < length out.old → slice_index out.new i ≡ batch_byte plan.now raw.now i }
{
    let size = batch.count.div_ceil(workers) as usize * plan.width() as usize;
    thread::for_each_chunk_mut(
        rt,
        out,
        size,
        &|start: usize, part: &mut [u8]|
            requires number { IsTrue (is_number (base_in plan.now)) }
            requires batch { IsBatch plan.now batch.now }
            requires raw_len { length raw.now ≡ batch.now.raw_len }
            requires sized { 0 < size }
            requires small { start < 2 ^ 32 }
            requires starts { start % width_in plan.now ≡ 0 }
            requires some { 0 < length part.old }
            requires whole { length part.old % width_in plan.now ≡ 0 }
            requires inside { start + length part.old ≤ batch.now.count * width_in plan.now }
            ensures { (k : ℕ) → k < length part.old → slice_index part.new k ≡ batch_byte plan.entry.now raw.entry.now (start + k) }
        {
            gate.enter_with((start / size) as u32, part);
            write_chunk(plan, batch, raw, start / plan.width() as usize, part);
        },
    );
}

/// Fills `out` with the XDR forms of a batch's elements, out of the batch's raw bytes (RFC 4506;
/// DAP 2.0, arrays). The workers, 1 to 64, get `ceil(count / workers)` elements each, in order. They
/// need no memory, and cannot be refused.
pub fn fill<R: Threads + Sync, G: Gate>(
    rt: &R,
    plan: &Plan,
    batch: &Batch,
    raw: &[u8],
    out: &mut [u8],
    workers: u32,
    gate: &G,
)
    requires number { IsTrue (is_number (base_in plan.now)) }
    requires batch { IsBatch plan.now batch.now }
    requires raw_len { length raw.now ≡ batch.now.raw_len }
    requires room { length out.old ≡ batch.now.count * width_in plan.now }
    requires some { 1 ≤ workers }
    requires many { workers ≤ 64 }
    ensures elements { out.new ≡ xdr_of plan.now batch.now raw.now }
{
    fill_parts(rt, plan, batch, raw, out, workers, gate);
}
