//! Arrays in the bytes of a response (DAP 2.0, arrays).

ghost use Rattle.std.specs.Prelude.{◌≡◌, ◌≤◌, ◌<◌, ◌^◌, ◌++◌, ◌*◌, ℕ, List, length, map, min};
ghost use Rattle.dap_model.specs.Cutting.{AreWithin, cut};
ghost use Rattle.dap_model.specs.Fits.{values_in};
ghost use Rattle.dap_model.specs.Xdr as xdr;
ghost use Rattle.dap_outside.specs.Buffered.{Puts};
ghost use Rattle.dap_outside.specs.Causes.{HasCause};
ghost use Rattle.dap_types.specs.Model.{Tree, sizes};
ghost use Rattle.hyperslab_plan.specs.Picked.{count_of};
ghost use Rattle.xdr_values.specs.Walked.{StandsArray};
ghost use Rattle.saved_source.specs.Walked.{StandsNested};
ghost use Rattle.xdr_decode.specs.inner.Taken.{elements_fields, sizes_of};
ghost use Rattle.xdr_encode.specs.Leaves.{counts_of, filler_of};

use crate::cut::put_cut;
use crate::put_value::put_word;
use dap_outside::{Buffer, Failed, Sink};
use dap_types::{ArrayDecl, BaseType, Dim, Slab};
use xdr_encode::filler;
use xdr_values::elements_of;

/// How many elements hyperslabs pick. No array of a response has 2^32.
fn picked_count(slabs: &[Slab]) -> u32
    ensures { result ≡ min (count_of slabs.now) 4294967295 }
{
    if slabs.is_empty() {
        return 1;
    }
    slabs[0].count.saturating_mul(picked_count(&slabs[1..]))
}

/// Puts a word twice.
fn put_twice<O: Sink>(buffer: &mut Buffer, out: &mut O, word: u32) -> Result<(), Failed>
    ensures puts { Puts (O.written out.old) buffer.old.bytes.items (O.written out.new) buffer.new.bytes.items result (xdr.word word ++ xdr.word word) }
    ensures cause { HasCause (O.put_faults out.old) (O.put_faults out.new) result }
    ensures beside { O.beside_writing out.new ≡ O.beside_writing out.old }
{
    put_word(buffer, out, word)?;
    put_word(buffer, out, word)
}

/// Puts the counts of an array: one before strings, and else two.
#[tactic(auto, unfolding(xdr_encode::specs::Leaves::counts_of))]
fn put_counts<O: Sink>(
    buffer: &mut Buffer,
    out: &mut O,
    base: BaseType,
    count: u32,
) -> Result<(), Failed>
    ensures puts { Puts (O.written out.old) buffer.old.bytes.items (O.written out.new) buffer.new.bytes.items result (counts_of base count) }
    ensures cause { HasCause (O.put_faults out.old) (O.put_faults out.new) result }
    ensures beside { O.beside_writing out.new ≡ O.beside_writing out.old }
{
    match base {
        BaseType::Text | BaseType::Url => put_word(buffer, out, count),
        _ => put_twice(buffer, out, count),
    }
}

/// Puts zero bytes up to a multiple of four behind so many packed bytes, and nothing behind others.
fn put_filler<O: Sink>(
    buffer: &mut Buffer,
    out: &mut O,
    base: BaseType,
    count: u32,
) -> Result<(), Failed>
    ensures puts { Puts (O.written out.old) buffer.old.bytes.items (O.written out.new) buffer.new.bytes.items result (filler_of base count) }
    ensures cause { HasCause (O.put_faults out.old) (O.put_faults out.new) result }
    ensures beside { O.beside_writing out.new ≡ O.beside_writing out.old }
{
    buffer.put(out, filler(base, count))
}

/// Puts the elements of an array that hyperslabs pick, which are so many.
fn put_picked<O: Sink>(
    buffer: &mut Buffer,
    out: &mut O,
    base: BaseType,
    dims: &[Dim],
    slabs: &[Slab],
    count: u32,
    bytes: &[u8],
) -> Result<(), Failed>
    ensures puts { (t : Tree) (rest : List ℕ) → StandsNested base (sizes_of dims.now) slabs.now t bytes.now rest → length (values_in (cut slabs.now t)) ≡ count →
        Puts (O.written out.old) buffer.old.bytes.items (O.written out.new) buffer.new.bytes.items result (xdr.bytes_of (elements_fields base (values_in (cut slabs.now t)))) }
    ensures cause { HasCause (O.put_faults out.old) (O.put_faults out.new) result }
    ensures beside { O.beside_writing out.new ≡ O.beside_writing out.old }
{
    if count == 0 {
        return Ok(());
    }
    put_cut(buffer, out, base, dims, slabs, bytes)
}

/// Puts what hyperslabs pick of an array, with its counts.
pub fn put_array<O: Sink>(
    buffer: &mut Buffer,
    out: &mut O,
    decl: &ArrayDecl,
    slabs: &[Slab],
    bytes: &[u8],
) -> Result<(), Failed>
    ensures puts { (t : Tree) (rest : List ℕ) → StandsArray decl.now t bytes.now rest → AreWithin slabs.now (sizes decl.now) →
        Puts (O.written out.old) buffer.old.bytes.items (O.written out.new) buffer.new.bytes.items result (xdr.bytes_of (xdr.array_fields decl.now.base (values_in (cut slabs.now t)))) }
    ensures cause { HasCause (O.put_faults out.old) (O.put_faults out.new) result }
    ensures beside { O.beside_writing out.new ≡ O.beside_writing out.old }
{
    let count = picked_count(slabs);
    let (first, _) = elements_of(decl, bytes);
    put_counts(buffer, out, decl.base, count)?;
    put_picked(
        buffer,
        out,
        decl.base,
        decl.dims.items(),
        slabs,
        count,
        first,
    )?;
    put_filler(buffer, out, decl.base, count)
}
