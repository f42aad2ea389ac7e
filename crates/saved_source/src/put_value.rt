//! Single values on their way to a sink.

ghost use Rattle.std.specs.Prelude.{◌≡◌, ℕ, List};
ghost use Rattle.dap_model.specs.Xdr as xdr;
ghost use Rattle.dap_outside.specs.Buffered.{Puts};
ghost use Rattle.dap_outside.specs.Causes.{HasCause};
ghost use Rattle.dap_types.specs.declared.values.Value.{Value};
ghost use Rattle.xdr_values.specs.Walked.{IsValue};

use dap_outside::{Buffer, Failed, Sink};
use dap_types::BaseType;
use xdr_values::first_word;

/// Puts a word: four bytes, the high one first (RFC 4506, unsigned integer).
pub fn put_word<O: Sink>(buffer: &mut Buffer, out: &mut O, word: u32) -> Result<(), Failed>
    ensures puts { Puts (O.written out.old) buffer.old.bytes.items (O.written out.new) buffer.new.bytes.items result (xdr.word word) }
    ensures cause { HasCause (O.put_faults out.old) (O.put_faults out.new) result }
    ensures beside { O.beside_writing out.new ≡ O.beside_writing out.old }
{
    buffer.put(out, &word.to_be_bytes())
}

/// Puts the value of a type that stands in its own bytes. A Byte goes out as a word below 256, also
/// where its sign was extended.
pub fn put_value<O: Sink>(
    buffer: &mut Buffer,
    out: &mut O,
    base: BaseType,
    own: &[u8],
) -> Result<(), Failed>
    ensures puts { (v : Value) → IsValue base v own.now → Puts (O.written out.old) buffer.old.bytes.items (O.written out.new) buffer.new.bytes.items result (xdr.bytes_of (xdr.value_fields base v)) }
    ensures cause { HasCause (O.put_faults out.old) (O.put_faults out.new) result }
    ensures beside { O.beside_writing out.new ≡ O.beside_writing out.old }
{
    match base {
        BaseType::Byte => put_word(buffer, out, first_word(own) % 256),
        _ => buffer.put(out, own),
    }
}
