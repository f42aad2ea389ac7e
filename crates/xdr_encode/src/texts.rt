//! The elements of an array of texts, batch by batch.

ghost use Rattle.std.specs.Prelude.{◌≡◌, ◌≢◌, ◌+◌, ◌≤◌, ◌<◌, ◌^◌, ℕ, List, Some, length, max, IsTrue, OnErr, OnOk, false};
ghost use Rattle.std.specs.Io.KnownBytes.{Appends};
ghost use Rattle.dap_types.specs.Limits.{most_piece};
ghost use Rattle.dap_outside.specs.Buffered.{Puts};
ghost use Rattle.dap_outside.specs.Causes.{HasCause};
ghost use Rattle.dap_outside.specs.Streams.{AppendsFront};
ghost use Rattle.hyperslab_plan.specs.Batches.{IsBatch, Fetched, spent};
ghost use Rattle.hyperslab_plan.specs.Numbers.{is_number};
ghost use Rattle.hyperslab_plan.specs.Plans.{base_in, total_of};
ghost use Rattle.xdr_encode.specs.Elements.{AreInside, AsksUpTo, StopsAt, forms_from};
ghost use Rattle.xdr_encode.specs.Faults.{HasCauses};

use crate::buffered::put_text;
use crate::fault::Fault;
use crate::fetch::fetch;
use dap_outside::{Buffer, Failed, Shelf, Sink};
use hyperslab_plan::{Batch, Plan};
use netcdf_source::without_zeros;

/// Puts the texts of a batch through a buffer, out of its raw bytes, each without the zero bytes at
/// its end.
fn put_texts<O: Sink>(
    buffer: &mut Buffer,
    out: &mut O,
    plan: &Plan,
    batch: &Batch,
    raw: &[u8],
) -> Result<(), Failed>
    requires text { is_number (base_in plan.now) ≡ false }
    requires batch { IsBatch plan.now batch.now }
    requires raw_len { length raw.now ≡ batch.now.raw_len }
    ensures puts { (bytes : List ℕ) → Fetched plan.now batch.now bytes raw.now → Puts (O.written out.old) buffer.old.bytes.items (O.written out.new) buffer.new.bytes.items result (forms_from plan.now bytes batch.now.first batch.now.count) }
    ensures cause { HasCause (O.put_faults out.old) (O.put_faults out.new) result }
    ensures beside { O.beside_writing out.new ≡ O.beside_writing out.old }
{
    let size = plan.size() as usize;
    for j in 0..batch.count {
        let at = plan.place(batch, j) as usize;
        put_text(buffer, out, without_zeros(&raw[at..at + size]))?;
    }
    Ok(())
}

/// The same, all of them out of the buffer, so that what is read next is not read before they are put.
fn put_all_texts<O: Sink>(
    buffer: &mut Buffer,
    out: &mut O,
    plan: &Plan,
    batch: &Batch,
    raw: &[u8],
) -> Result<(), Failed>
    requires text { is_number (base_in plan.now) ≡ false }
    requires batch { IsBatch plan.now batch.now }
    requires raw_len { length raw.now ≡ batch.now.raw_len }
    ensures ok { OnOk result ((bytes : List ℕ) → Fetched plan.now batch.now bytes raw.now → Appends (O.written out.old) (O.written out.new) (forms_from plan.now bytes batch.now.first batch.now.count)) }
    ensures err { OnErr result ((bytes : List ℕ) → Fetched plan.now batch.now bytes raw.now → AppendsFront (O.written out.old) (O.written out.new) (forms_from plan.now bytes batch.now.first batch.now.count)) }
    ensures cause { HasCause (O.put_faults out.old) (O.put_faults out.new) result }
    ensures beside { O.beside_writing out.new ≡ O.beside_writing out.old }
{
    buffer.clear();
    put_texts(buffer, out, plan, batch, raw)?;
    buffer.flush(out)
}

/// Reads a batch and puts its texts.
fn send_text_batch<S: Shelf, O: Sink>(
    shelf: &mut S,
    file: &mut S::File,
    out: &mut O,
    buffer: &mut Buffer,
    plan: &Plan,
    batch: &Batch,
    raw: &mut [u8],
) -> Result<(), Fault>
    requires text { is_number (base_in plan.now) ≡ false }
    requires batch { IsBatch plan.now batch.now }
    requires inside { AreInside plan.now (S.size_of shelf.old file.old) }
    requires raw_room { length raw.old ≡ batch.now.raw_len }
    ensures ok { OnOk result ((bytes : List ℕ) → S.content shelf.old file.old ≡ Some bytes → Appends (O.written out.old) (O.written out.new) (forms_from plan.now bytes batch.now.first batch.now.count)) }
    ensures err { OnErr result ((bytes : List ℕ) → S.content shelf.old file.old ≡ Some bytes → AppendsFront (O.written out.old) (O.written out.new) (forms_from plan.now bytes batch.now.first batch.now.count)) }
    ensures same_file { S.content shelf.new file.new ≡ S.content shelf.old file.old }
    ensures same_size { S.size_of shelf.new file.new ≡ S.size_of shelf.old file.old }
    ensures files { S.files shelf.new ≡ S.files shelf.old }
    ensures content { S.content shelf.new ≡ S.content shelf.old }
    ensures sizes { S.size_of shelf.new ≡ S.size_of shelf.old }
    ensures asked { S.asked shelf.new ≤ S.asked shelf.old + batch.now.raw_len }
    ensures greatest { S.greatest shelf.new ≤ max (S.greatest shelf.old) most_piece }
    ensures cause { HasCauses (S.faults shelf.old) (S.faults shelf.new) (O.put_faults out.old) (O.put_faults out.new) result }
    ensures beside { O.beside_writing out.new ≡ O.beside_writing out.old }
{
    let Ok(()) = fetch(shelf, file, plan, batch, raw) else {
        return Err(Fault::Shelf);
    };
    let Ok(()) = put_all_texts(buffer, out, plan, batch, raw) else {
        return Err(Fault::Sink);
    };
    Ok(())
}

/// Puts the XDR forms of all elements of a plan of texts, one batch after the other. The room has
/// 65,536 bytes. Takes no memory.
pub fn send_texts<S: Shelf, O: Sink>(
    shelf: &mut S,
    file: &mut S::File,
    out: &mut O,
    buffer: &mut Buffer,
    plan: &Plan,
    raw: &mut [u8],
) -> Result<(), Fault>
    requires text { is_number (base_in plan.now) ≡ false }
    requires inside { AreInside plan.now (S.size_of shelf.old file.old) }
    requires raw_room { length raw.old ≡ most_piece }
    ensures ok { OnOk result ((bytes : List ℕ) → S.content shelf.old file.old ≡ Some bytes → Appends (O.written out.old) (O.written out.new) (forms_from plan.now bytes 0 (total_of plan.now))) }
    ensures err { OnErr result ((bytes : List ℕ) → S.content shelf.old file.old ≡ Some bytes → StopsAt plan.now bytes (O.written out.old) (O.written out.new) (S.asked shelf.old) (S.asked shelf.new)) }
    ensures same_file { S.content shelf.new file.new ≡ S.content shelf.old file.old }
    ensures same_size { S.size_of shelf.new file.new ≡ S.size_of shelf.old file.old }
    ensures files { S.files shelf.new ≡ S.files shelf.old }
    ensures content { S.content shelf.new ≡ S.content shelf.old }
    ensures sizes { S.size_of shelf.new ≡ S.size_of shelf.old }
    ensures read { OnOk result (AsksUpTo plan.now (total_of plan.now) (S.asked shelf.old) (S.asked shelf.new)) }
    ensures asked { S.asked shelf.new ≤ S.asked shelf.old + spent plan.now (total_of plan.now) }
    ensures greatest { S.greatest shelf.new ≤ max (S.greatest shelf.old) most_piece }
    ensures cause { HasCauses (S.faults shelf.old) (S.faults shelf.new) (O.put_faults out.old) (O.put_faults out.new) result }
    ensures beside { O.beside_writing out.new ≡ O.beside_writing out.old }
{
    let total = plan.total();
    let mut first = 0;
    while first < total {
        let batch = plan.batch(first);
        let raw_part = &mut raw[..batch.raw_len as usize];
        send_text_batch(shelf, file, out, buffer, plan, &batch, raw_part)?;
        first += u64::from(batch.count);
    }
    Ok(())
}
