ghost use Rattle.std.specs.Prelude.{◌≡◌, ◌+◌, ◌≤◌, ℕ, List, Some, length, max, OnErr, OnOk};
ghost use Rattle.std.specs.Io.KnownBytes.{Appends};
ghost use Rattle.dap_types.specs.Limits.{most_piece};
ghost use Rattle.hyperslab_plan.specs.Batches.{spent};
ghost use Rattle.hyperslab_plan.specs.Plans.{total_of};
ghost use Rattle.xdr_encode.specs.Elements.{AreInside, AsksUpTo, StopsAt, forms_from};
ghost use Rattle.xdr_encode.specs.Faults.{HasCauses};

use crate::fault::Fault;
use crate::numbers::send_numbers;
use crate::texts::send_texts;
use dap_outside::{Buffer, Shelf, Sink};
use dap_types::BaseType;
use hyperslab_plan::Plan;
use slab_fill::Gate;
use std::thread::Threads;

/// Puts the XDR forms of all elements of a plan, one batch after the other. The rooms have 65,536
/// bytes each. Takes no memory.
pub fn send_elements<R: Threads + Sync, S: Shelf, O: Sink, G: Gate>(
    rt: &R,
    shelf: &mut S,
    file: &mut S::File,
    out: &mut O,
    buffer: &mut Buffer,
    plan: &Plan,
    raw: &mut [u8],
    sent: &mut [u8],
    workers: u32,
    gate: &G,
) -> Result<(), Fault>
    requires inside { AreInside plan.now (S.size_of shelf.old file.old) }
    requires raw_room { length raw.old ≡ most_piece }
    requires sent_room { length sent.old ≡ most_piece }
    requires some { 1 ≤ workers }
    requires many { workers ≤ 64 }
    ensures ok { OnOk result ((bytes : List ℕ) → S.content shelf.old file.old ≡ Some bytes → Appends (O.written out.old) (O.written out.new) (forms_from plan.now bytes 0 (total_of plan.now))) }
    ensures err { OnErr result ((bytes : List ℕ) → S.content shelf.old file.old ≡ Some bytes → StopsAt plan.now bytes (O.written out.old) (O.written out.new) (S.asked shelf.old) (S.asked shelf.new)) }
    ensures same_file { S.content shelf.new file.new ≡ S.content shelf.old file.old }
    ensures same_size { S.size_of shelf.new file.new ≡ S.size_of shelf.old file.old }
    ensures files { S.files shelf.new ≡ S.files shelf.old }
    ensures content { S.content shelf.new ≡ S.content shelf.old }
    ensures sizes { S.size_of shelf.new ≡ S.size_of shelf.old }
    ensures read { OnOk result (AsksUpTo plan.now (total_of plan.now) (S.asked shelf.old) (S.asked shelf.new)) }
    ensures asked { S.asked shelf.new ≤ S.asked shelf.old + spent plan.now (total_of plan.now) }
    ensures greatest { S.greatest shelf.new ≤ max (S.greatest shelf.old) most_piece }
    ensures cause { HasCauses (S.faults shelf.old) (S.faults shelf.new) (O.put_faults out.old) (O.put_faults out.new) result }
    ensures beside { O.beside_writing out.new ≡ O.beside_writing out.old }
{
    match plan.base() {
        BaseType::Text | BaseType::Url => send_texts(shelf, file, out, buffer, plan, raw),
        _ => send_numbers(rt, shelf, file, out, plan, raw, sent, workers, gate),
    }
}
