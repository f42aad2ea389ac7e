ghost use Rattle.std.specs.Prelude.{◌≡◌, ◌≤◌, ◌+◌, ◌++◌, ℕ, List, Some, length, max, OnErr, OnOk};
ghost use Rattle.std.specs.Io.KnownBytes.{Appends};
ghost use Rattle.dap_types.specs.Limits.{most_piece};
ghost use Rattle.dap_model.specs.Xdr as xdr;
ghost use Rattle.dap_outside.specs.Causes.{HasCause};
ghost use Rattle.dap_outside.specs.Streams.{AppendsFront};
ghost use Rattle.hyperslab_plan.specs.Batches.{spent};
ghost use Rattle.hyperslab_plan.specs.Plans.{total_of};
ghost use Rattle.xdr_encode.specs.Elements.{AreInside, AsksUpTo};
ghost use Rattle.xdr_encode.specs.Faults.{HasCauses};
ghost use Rattle.xdr_encode.specs.Leaves.{LeafStops, array_xdr, begins_in, counts_of, filler_of};

use crate::elements::send_elements;
use crate::fault::Fault;
use crate::put::{padding, put_word};
use dap_outside::{Buffer, Failed, Shelf, Sink, put_all};
use dap_types::BaseType;
use hyperslab_plan::Plan;
use slab_fill::Gate;
use std::thread::Threads;

/// Puts the count of an array: once before texts, and else twice (DAP 2.0, arrays).
#[tactic(auto, unfolding(crate::specs::Leaves::counts_of))]
fn put_counts<O: Sink>(out: &mut O, base: BaseType, count: u32) -> Result<(), Failed>
    ensures ok { OnOk result (Appends (O.written out.old) (O.written out.new) (counts_of base count)) }
    ensures err { OnErr result (AppendsFront (O.written out.old) (O.written out.new) (counts_of base count)) }
    ensures cause { HasCause (O.put_faults out.old) (O.put_faults out.new) result }
    ensures beside { O.beside_writing out.new ≡ O.beside_writing out.old }
{
    match base {
        BaseType::Text | BaseType::Url => put_word(out, count),
        _ => put_twice(out, count),
    }
}

/// Puts a word twice.
fn put_twice<O: Sink>(out: &mut O, count: u32) -> Result<(), Failed>
    ensures ok { OnOk result (Appends (O.written out.old) (O.written out.new) (xdr.word count ++ xdr.word count)) }
    ensures err { OnErr result (AppendsFront (O.written out.old) (O.written out.new) (xdr.word count ++ xdr.word count)) }
    ensures cause { HasCause (O.put_faults out.old) (O.put_faults out.new) result }
    ensures beside { O.beside_writing out.new ≡ O.beside_writing out.old }
{
    put_word(out, count)?;
    put_word(out, count)
}

/// The zero bytes behind so many elements of an array.
#[tactic(auto, unfolding(crate::specs::Leaves::filler_of))]
pub fn filler(base: BaseType, count: u32) -> &'static [u8]
    ensures { result.now ≡ filler_of base count }
{
    match base {
        BaseType::Byte => padding(count as usize),
        _ => b"",
    }
}

/// Puts the XDR of an array. The rooms have 65,536 bytes each. Takes no memory.
pub fn send_array<R: Threads + Sync, S: Shelf, O: Sink, G: Gate>(
    rt: &R,
    shelf: &mut S,
    file: &mut S::File,
    out: &mut O,
    buffer: &mut Buffer,
    plan: &Plan,
    raw: &mut [u8],
    sent: &mut [u8],
    workers: u32,
    gate: &G,
) -> Result<(), Fault>
    requires inside { AreInside plan.now (S.size_of shelf.old file.old) }
    requires raw_room { length raw.old ≡ most_piece }
    requires sent_room { length sent.old ≡ most_piece }
    requires some { 1 ≤ workers }
    requires many { workers ≤ 64 }
    ensures ok { OnOk result ((bytes : List ℕ) → S.content shelf.old file.old ≡ Some bytes → Appends (O.written out.old) (O.written out.new) (array_xdr plan.now bytes)) }
    ensures err { OnErr result ((bytes : List ℕ) → S.content shelf.old file.old ≡ Some bytes → LeafStops plan.now (begins_in plan.now bytes) (array_xdr plan.now bytes) (O.written out.old) (O.written out.new) (S.asked shelf.old) (S.asked shelf.new)) }
    ensures same_file { S.content shelf.new file.new ≡ S.content shelf.old file.old }
    ensures same_size { S.size_of shelf.new file.new ≡ S.size_of shelf.old file.old }
    ensures files { S.files shelf.new ≡ S.files shelf.old }
    ensures read { OnOk result (AsksUpTo plan.now (total_of plan.now) (S.asked shelf.old) (S.asked shelf.new)) }
    ensures asked { S.asked shelf.new ≤ S.asked shelf.old + spent plan.now (total_of plan.now) }
    ensures greatest { S.greatest shelf.new ≤ max (S.greatest shelf.old) most_piece }
    ensures cause { HasCauses (S.faults shelf.old) (S.faults shelf.new) (O.put_faults out.old) (O.put_faults out.new) result }
    ensures beside { O.beside_writing out.new ≡ O.beside_writing out.old }
{
    let count = plan.total() as u32;
    let Ok(()) = put_counts(out, plan.base(), count) else {
        return Err(Fault::Sink);
    };
    send_elements(rt, shelf, file, out, buffer, plan, raw, sent, workers, gate)?;
    let Ok(()) = put_all(out, filler(plan.base(), count)) else {
        return Err(Fault::Sink);
    };
    Ok(())
}
