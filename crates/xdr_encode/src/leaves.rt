ghost use Rattle.std.specs.Prelude.{◌≡◌, ◌+◌, ◌≤◌, ◌<◌, ℕ, List, [], Some, All, length, max, IsOk, OnErr, OnOk};
ghost use Rattle.std.specs.Io.KnownBytes.{Appends};
ghost use Rattle.dap_types.specs.Limits.{most_piece};
ghost use Rattle.hyperslab_plan.specs.Plans.{total_of};
ghost use Rattle.xdr_encode.specs.Elements.{AsksUpTo};
ghost use Rattle.xdr_encode.specs.Faults.{HasCauses};
ghost use Rattle.xdr_encode.specs.Leaves.{LeafStops};
ghost use Rattle.xdr_encode.specs.Sent.{AskAll, IsInside, LeavesStop, leaf_begins, leaf_cost, leaf_xdr, leaves_cost, leaves_xdr};

use crate::array::send_array;
use crate::fault::Fault;
use crate::leaf::{Kind, Leaf};
use crate::scalar::send_scalar;
use dap_outside::{Buffer, Shelf, Sink};
use slab_fill::Gate;
use std::thread::Threads;

/// Puts the XDR of a leaf. The rooms have 65,536 bytes each. Takes no memory.
#[tactic(auto, unfolding(crate::specs::Sent::leaf_xdr, crate::specs::Sent::leaf_begins))]
fn send_leaf<R: Threads + Sync, S: Shelf, O: Sink, G: Gate>(
    rt: &R,
    shelf: &mut S,
    file: &mut S::File,
    out: &mut O,
    buffer: &mut Buffer,
    leaf: &Leaf,
    raw: &mut [u8],
    sent: &mut [u8],
    workers: u32,
    gate: &G,
) -> Result<(), Fault>
    requires inside { IsInside (S.size_of shelf.old file.old) leaf.now }
    requires raw_room { length raw.old ≡ most_piece }
    requires sent_room { length sent.old ≡ most_piece }
    requires some { 1 ≤ workers }
    requires many { workers ≤ 64 }
    ensures ok { OnOk result ((bytes : List ℕ) → All (λ b. b < 256) bytes → S.content shelf.old file.old ≡ Some bytes → Appends (O.written out.old) (O.written out.new) (leaf_xdr leaf.now bytes)) }
    ensures err { OnErr result ((bytes : List ℕ) → All (λ b. b < 256) bytes → S.content shelf.old file.old ≡ Some bytes → LeafStops leaf.now.plan (leaf_begins leaf.now bytes) (leaf_xdr leaf.now bytes) (O.written out.old) (O.written out.new) (S.asked shelf.old) (S.asked shelf.new)) }
    ensures same_file { S.content shelf.new file.new ≡ S.content shelf.old file.old }
    ensures same_size { S.size_of shelf.new file.new ≡ S.size_of shelf.old file.old }
    ensures files { S.files shelf.new ≡ S.files shelf.old }
    ensures read { OnOk result (AsksUpTo leaf.now.plan (total_of leaf.now.plan) (S.asked shelf.old) (S.asked shelf.new)) }
    ensures asked { S.asked shelf.new ≤ S.asked shelf.old + leaf_cost leaf.now }
    ensures greatest { S.greatest shelf.new ≤ max (S.greatest shelf.old) most_piece }
    ensures cause { HasCauses (S.faults shelf.old) (S.faults shelf.new) (O.put_faults out.old) (O.put_faults out.new) result }
    ensures beside { O.beside_writing out.new ≡ O.beside_writing out.old }
{
    let plan = &leaf.plan;
    match leaf.kind {
        Kind::Scalar => send_scalar(rt, shelf, file, out, buffer, plan, raw, sent, workers, gate),
        Kind::Array => send_array(rt, shelf, file, out, buffer, plan, raw, sent, workers, gate),
    }
}

/// Puts the XDR of leaves, one after the other. The rooms have 65,536 bytes each. Takes no memory.
pub fn send_leaves<R: Threads + Sync, S: Shelf, O: Sink, G: Gate>(
    rt: &R,
    shelf: &mut S,
    file: &mut S::File,
    out: &mut O,
    buffer: &mut Buffer,
    leaves: &[Leaf],
    raw: &mut [u8],
    sent: &mut [u8],
    workers: u32,
    gate: &G,
) -> Result<(), Fault>
    requires inside { All (IsInside (S.size_of shelf.old file.old)) leaves.now }
    requires raw_room { length raw.old ≡ most_piece }
    requires sent_room { length sent.old ≡ most_piece }
    requires some { 1 ≤ workers }
    requires many { workers ≤ 64 }
    ensures ok { OnOk result ((bytes : List ℕ) → All (λ b. b < 256) bytes → S.content shelf.old file.old ≡ Some bytes → Appends (O.written out.old) (O.written out.new) (leaves_xdr leaves.now bytes)) }
    ensures err { OnErr result ((bytes : List ℕ) → All (λ b. b < 256) bytes → S.content shelf.old file.old ≡ Some bytes → LeavesStop leaves.now bytes (O.written out.old) (O.written out.new) (S.asked shelf.old) (S.asked shelf.new)) }
    ensures same_file { S.content shelf.new file.new ≡ S.content shelf.old file.old }
    ensures same_size { S.size_of shelf.new file.new ≡ S.size_of shelf.old file.old }
    ensures files { S.files shelf.new ≡ S.files shelf.old }
    ensures asked { S.asked shelf.new ≤ S.asked shelf.old + leaves_cost leaves.now }
    ensures greatest { S.greatest shelf.new ≤ max (S.greatest shelf.old) most_piece }
    ensures cause { HasCauses (S.faults shelf.old) (S.faults shelf.new) (O.put_faults out.old) (O.put_faults out.new) result }
    ensures beside { O.beside_writing out.new ≡ O.beside_writing out.old }
    ensures alone { leaves.now ≡ [] → IsOk result × (shelf.new ≡ shelf.old) × (out.new ≡ out.old) }
{
    for leaf in leaves {
        send_leaf(rt, shelf, file, out, buffer, leaf, raw, sent, workers, gate)?;
    }
    Ok(())
}
