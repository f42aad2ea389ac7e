ghost use Rattle.std.specs.Prelude.{◌≡◌, ◌+◌, ◌≤◌, ◌<◌, ℕ, List, Some, All, length, max, OnErr, OnOk};
ghost use Rattle.std.specs.Io.KnownBytes.{Appends};
ghost use Rattle.dap_types.specs.Limits.{most_piece};
ghost use Rattle.hyperslab_plan.specs.Batches.{spent};
ghost use Rattle.hyperslab_plan.specs.Plans.{total_of};
ghost use Rattle.xdr_encode.specs.Elements.{AreInside, AsksUpTo};
ghost use Rattle.xdr_encode.specs.Faults.{HasCauses};
ghost use Rattle.xdr_encode.specs.Leaves.{LeafStops, at_once, scalar_xdr, zeros_before};

use crate::elements::send_elements;
use crate::fault::Fault;
use dap_outside::{Buffer, Shelf, Sink, put_all};
use dap_types::BaseType;
use hyperslab_plan::Plan;
use slab_fill::Gate;
use std::thread::Threads;

/// The zero bytes before the byte of a scalar Byte.
#[tactic(auto, unfolding(crate::specs::Leaves::zeros_before))]
pub fn zeros_before(base: BaseType) -> &'static [u8]
    ensures { result.now ≡ zeros_before base }
{
    match base {
        BaseType::Byte => b"\0\0\0",
        _ => b"",
    }
}

/// Puts the XDR of a scalar. The rooms have 65,536 bytes each. Takes no memory.
pub fn send_scalar<R: Threads + Sync, S: Shelf, O: Sink, G: Gate>(
    rt: &R,
    shelf: &mut S,
    file: &mut S::File,
    out: &mut O,
    buffer: &mut Buffer,
    plan: &Plan,
    raw: &mut [u8],
    sent: &mut [u8],
    workers: u32,
    gate: &G,
) -> Result<(), Fault>
    requires one { total_of plan.now ≡ 1 }
    requires inside { AreInside plan.now (S.size_of shelf.old file.old) }
    requires raw_room { length raw.old ≡ most_piece }
    requires sent_room { length sent.old ≡ most_piece }
    requires some { 1 ≤ workers }
    requires many { workers ≤ 64 }
    ensures ok { OnOk result ((bytes : List ℕ) → All (λ b. b < 256) bytes → S.content shelf.old file.old ≡ Some bytes → Appends (O.written out.old) (O.written out.new) (scalar_xdr plan.now bytes)) }
    ensures err { OnErr result ((bytes : List ℕ) → All (λ b. b < 256) bytes → S.content shelf.old file.old ≡ Some bytes → LeafStops plan.now at_once (scalar_xdr plan.now bytes) (O.written out.old) (O.written out.new) (S.asked shelf.old) (S.asked shelf.new)) }
    ensures same_file { S.content shelf.new file.new ≡ S.content shelf.old file.old }
    ensures same_size { S.size_of shelf.new file.new ≡ S.size_of shelf.old file.old }
    ensures files { S.files shelf.new ≡ S.files shelf.old }
    ensures read { OnOk result (AsksUpTo plan.now (total_of plan.now) (S.asked shelf.old) (S.asked shelf.new)) }
    ensures asked { S.asked shelf.new ≤ S.asked shelf.old + spent plan.now (total_of plan.now) }
    ensures greatest { S.greatest shelf.new ≤ max (S.greatest shelf.old) most_piece }
    ensures cause { HasCauses (S.faults shelf.old) (S.faults shelf.new) (O.put_faults out.old) (O.put_faults out.new) result }
    ensures beside { O.beside_writing out.new ≡ O.beside_writing out.old }
{
    let Ok(()) = put_all(out, zeros_before(plan.base())) else {
        return Err(Fault::Sink);
    };
    send_elements(rt, shelf, file, out, buffer, plan, raw, sent, workers, gate)
}
