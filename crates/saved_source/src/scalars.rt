//! Scalars and cells in the bytes of a response.

ghost use Rattle.std.specs.Prelude.{◌≡◌, ℕ, List, IfOk, is_some};
ghost use Rattle.dap_model.specs.Xdr as xdr;
ghost use Rattle.dap_outside.specs.Buffered.{Puts};
ghost use Rattle.dap_outside.specs.Causes.{HasCause};
ghost use Rattle.dap_types.specs.declared.values.Value.{Value};
ghost use Rattle.grid_projection.specs.Resolved.{marks_in};
ghost use Rattle.xdr_values.specs.Walked.{StandsValue};
ghost use Rattle.saved_source.specs.Walked.{value_sent};

use crate::put_value::put_value;
use dap_outside::{Buffer, Failed, Sink};
use dap_types::BaseType;
use grid_projection::Marks;
use xdr_values::value;

/// Whether this member is a marked leaf.
pub fn is_marked(marks: &Marks, number: u32) -> bool
    ensures { result ≡ is_some (marks_in marks.now number) }
{
    match marks.slabs(number) {
        Some(_) => true,
        None => false,
    }
}

/// Puts the value of a type that is this member, where it is marked. The answer is what stands behind
/// it.
pub fn put_marked<'a, O: Sink>(
    buffer: &mut Buffer,
    out: &mut O,
    marks: &Marks,
    number: u32,
    base: BaseType,
    bytes: &'a [u8],
) -> Result<&'a [u8], Failed>
    ensures puts { (v : Value) (rest : List ℕ) → StandsValue base v bytes.now rest →
        Puts (O.written out.old) buffer.old.bytes.items (O.written out.new) buffer.new.bytes.items result (xdr.bytes_of (value_sent (marks_in marks.now) number base v)) }
    ensures rest { (v : Value) (rest : List ℕ) → StandsValue base v bytes.now rest → IfOk result (λ left. left.now ≡ rest) }
    ensures cause { HasCause (O.put_faults out.old) (O.put_faults out.new) result }
    ensures beside { O.beside_writing out.new ≡ O.beside_writing out.old }
{
    let (own, rest) = value(base, bytes);
    if !is_marked(marks, number) {
        return Ok(rest);
    }
    put_value(buffer, out, base, own)?;
    Ok(rest)
}
