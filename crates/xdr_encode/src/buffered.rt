//! The forms of XDR on their way through a buffer to a sink.

ghost use Rattle.std.specs.Prelude.{◌≡◌, ◌<◌, ◌^◌, ◌≤ℤ◌, ◌<ℤ◌, neg_ℤ, pos, length};
ghost use Rattle.std.specs.Int.{cast_unsigned, w32};
ghost use Rattle.dap_model.specs.Xdr as xdr;
ghost use Rattle.dap_outside.specs.Buffered.{Puts};
ghost use Rattle.dap_outside.specs.Causes.{HasCause};

use crate::put::padding;
use dap_outside::{Buffer, Failed, Sink};

/// A whole number as a word: as it is, or in two's complement (RFC 4506, unsigned integer and integer).
pub fn word_of(whole: i64) -> u32
    requires low { neg_ℤ (pos (2 ^ 31)) ≤ℤ whole }
    requires high { whole <ℤ pos (2 ^ 32) }
    ensures { result ≡ cast_unsigned w32 whole }
{
    if whole < 0 {
        (whole as i32).cast_unsigned()
    } else {
        whole as u32
    }
}

/// Puts a word: four bytes, the high one first (RFC 4506, unsigned integer).
pub fn put_word<O: Sink>(buffer: &mut Buffer, out: &mut O, word: u32) -> Result<(), Failed>
    ensures puts { Puts (O.written out.old) buffer.old.bytes.items (O.written out.new) buffer.new.bytes.items result (xdr.word word) }
    ensures cause { HasCause (O.put_faults out.old) (O.put_faults out.new) result }
    ensures beside { O.beside_writing out.new ≡ O.beside_writing out.old }
{
    buffer.put(out, &word.to_be_bytes())
}

/// Puts a string: its length, its bytes and its padding (RFC 4506, string).
pub fn put_text<O: Sink>(buffer: &mut Buffer, out: &mut O, text: &[u8]) -> Result<(), Failed>
    requires { length text.now < 2 ^ 31 }
    ensures puts { Puts (O.written out.old) buffer.old.bytes.items (O.written out.new) buffer.new.bytes.items result (xdr.bytes_of (xdr.string_fields text.now)) }
    ensures cause { HasCause (O.put_faults out.old) (O.put_faults out.new) result }
    ensures beside { O.beside_writing out.new ≡ O.beside_writing out.old }
{
    put_word(buffer, out, text.len() as u32)?;
    buffer.put(out, text)?;
    buffer.put(out, padding(text.len()))
}
