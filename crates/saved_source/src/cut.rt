//! Hyperslabs of the elements of an array (DAP 2.0, constraint expressions: projections of arrays).

ghost use Rattle.std.specs.Prelude.{◌≡◌, ◌≤◌, ◌<◌, ◌^◌, ◌+◌, ◌*◌, ◌++◌, ℕ, true, List, ◌∷◌, length, map, min};
ghost use Rattle.dap_model.specs.Cutting.{cut, whole_slabs};
ghost use Rattle.dap_model.specs.Fits.{values_in};
ghost use Rattle.dap_model.specs.Xdr as xdr;
ghost use Rattle.dap_outside.specs.Buffered.{Puts};
ghost use Rattle.dap_outside.specs.Causes.{HasCause};
ghost use Rattle.dap_types.specs.Model.{Tree, product};
ghost use Rattle.dap_types.specs.declared.slabs.Slab.{Slab as SlabValue};
ghost use Rattle.dap_types.specs.declared.values.Value.{Value};
ghost use Rattle.xdr_values.specs.Walked.{StandElements};
ghost use Rattle.saved_source.specs.Walked.{StandsNested};
ghost use Rattle.xdr_decode.specs.inner.Taken.{elements_fields, sizes_of};

use dap_outside::{Buffer, Failed, Sink};
use dap_types::{BaseType, Dim, Slab};
use xdr_decode::elements;
use xdr_values::behind;

/// Whether a hyperslab picks each index of a dimension of this size.
fn is_whole(slab: &Slab, size: u32) -> bool
    ensures { result ≡ true → slab.now ≡ record { start = 0; stride = 1; count = size } }
{
    slab.start == 0 && slab.stride == 1 && slab.count == size
}

/// Whether hyperslabs pick each index of their dimensions.
fn are_whole(dims: &[Dim], slabs: &[Slab]) -> bool
    ensures { result ≡ true → slabs.now ≡ whole_slabs (sizes_of dims.now) }
{
    if dims.is_empty() || slabs.is_empty() {
        return dims.is_empty() && slabs.is_empty();
    }
    is_whole(&slabs[0], dims[0].size) && are_whole(&dims[1..], &slabs[1..])
}

/// Puts so many elements.
fn put_whole<O: Sink>(
    buffer: &mut Buffer,
    out: &mut O,
    base: BaseType,
    count: u64,
    bytes: &[u8],
) -> Result<(), Failed>
    ensures puts { (vs : List Value) (rest : List ℕ) → length vs ≡ count → count * 8 < 2 ^ 64 → StandElements base vs bytes.now rest →
        Puts (O.written out.old) buffer.old.bytes.items (O.written out.new) buffer.new.bytes.items result (xdr.bytes_of (elements_fields base vs)) }
    ensures cause { HasCause (O.put_faults out.old) (O.put_faults out.new) result }
    ensures beside { O.beside_writing out.new ≡ O.beside_writing out.old }
{
    let rest = behind(base, count, bytes);
    buffer.put(out, &bytes[..bytes.len().saturating_sub(rest.len())])
}

/// Puts what a hyperslab of stride 1 picks, with all of the so many elements behind each of its indexes.
fn put_run<O: Sink>(
    buffer: &mut Buffer,
    out: &mut O,
    base: BaseType,
    inner: u64,
    slab: Slab,
    bytes: &[u8],
) -> Result<(), Failed>
    requires { inner ≤ 4294967296 }
    ensures puts { (n : ℕ) (ns : List ℕ) (t : Tree) (rest : List ℕ) → inner ≡ min (product ns) 4294967296 → slab.stride ≡ 1 → StandsNested base (n ∷ ns) (slab ∷ whole_slabs ns) t bytes.now rest →
        Puts (O.written out.old) buffer.old.bytes.items (O.written out.new) buffer.new.bytes.items result (xdr.bytes_of (elements_fields base (values_in (cut (slab ∷ whole_slabs ns) t)))) }
    ensures cause { HasCause (O.put_faults out.old) (O.put_faults out.new) result }
    ensures beside { O.beside_writing out.new ≡ O.beside_writing out.old }
{
    let first = behind(base, u64::from(slab.start) * inner, bytes);
    put_whole(buffer, out, base, u64::from(slab.count) * inner, first)
}

/// Puts the elements that hyperslabs pick, in row-major order.
#[cycle(cutting)]
pub fn put_cut<O: Sink>(
    buffer: &mut Buffer,
    out: &mut O,
    base: BaseType,
    dims: &[Dim],
    slabs: &[Slab],
    bytes: &[u8],
) -> Result<(), Failed>
    ensures puts { (t : Tree) (rest : List ℕ) → StandsNested base (sizes_of dims.now) slabs.now t bytes.now rest →
        Puts (O.written out.old) buffer.old.bytes.items (O.written out.new) buffer.new.bytes.items result (xdr.bytes_of (elements_fields base (values_in (cut slabs.now t)))) }
    ensures cause { HasCause (O.put_faults out.old) (O.put_faults out.new) result }
    ensures beside { O.beside_writing out.new ≡ O.beside_writing out.old }
{
    if are_whole(dims, slabs) || dims.is_empty() || slabs.is_empty() {
        return put_whole(buffer, out, base, elements(dims), bytes);
    }
    if slabs[0].stride == 1 && are_whole(&dims[1..], &slabs[1..]) {
        return put_run(buffer, out, base, elements(&dims[1..]), slabs[0], bytes);
    }
    put_each(buffer, out, base, &dims[1..], slabs[0], &slabs[1..], bytes)
}

/// The same for each index that the first hyperslab picks.
#[cycle(cutting)]
fn put_each<O: Sink>(
    buffer: &mut Buffer,
    out: &mut O,
    base: BaseType,
    dims: &[Dim],
    slab: Slab,
    slabs: &[Slab],
    bytes: &[u8],
) -> Result<(), Failed>
    ensures puts { (n : ℕ) (t : Tree) (rest : List ℕ) → StandsNested base (n ∷ sizes_of dims.now) (slab ∷ slabs.now) t bytes.now rest →
        Puts (O.written out.old) buffer.old.bytes.items (O.written out.new) buffer.new.bytes.items result (xdr.bytes_of (elements_fields base (values_in (cut (slab ∷ slabs.now) t)))) }
    ensures cause { HasCause (O.put_faults out.old) (O.put_faults out.new) result }
    ensures beside { O.beside_writing out.new ≡ O.beside_writing out.old }
{
    let inner = elements(dims);
    let mut rest = behind(base, u64::from(slab.start) * inner, bytes);
    for _ in 0..slab.count {
        put_cut(buffer, out, base, dims, slabs, rest)?;
        rest = behind(base, u64::from(slab.stride) * inner, rest);
    }
    Ok(())
}
