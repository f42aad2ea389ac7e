ghost use Rattle.std.specs.Prelude.{◌≡◌, ◌<◌, ◌≤◌, [], ◌∷◌, ◌++◌, codes, IsTrue, IfOk, OnErr, OnOk, length, take};
ghost use Rattle.std.specs.Fmt.{decimal, signed_decimal};
ghost use Rattle.std.specs.List.{flat_map};
ghost use Rattle.dap_outside.specs.Buffered.{Passes, PassesFront, Puts};
ghost use Rattle.dap_model.specs.Shown.{hex, shown_byte, shown_value};
ghost use Rattle.dap_outside.specs.Causes.{HasCause};
ghost use Rattle.dap_outside.specs.Streams.{AppendsFront};
ghost use Rattle.std.specs.Io.KnownBytes.{Appends};

use dap_outside::{Buffer, Failed, Sink};
use float_text::{FloatText, Floats};
use viable::hex_digit;

/// Whether a byte of a text stands for itself.
fn is_plain(byte: u8) -> bool
    ensures { IsTrue result → shown_byte byte ≡ byte ∷ [] }
{
    byte >= b' ' && byte <= b'~' && byte != b'"' && byte != b'\\'
}

/// Puts a byte of a text, escaped where it does not stand for itself.
fn put_byte<O: Sink>(buffer: &mut Buffer, out: &mut O, byte: u8) -> Result<(), Failed>
    ensures puts { Puts (O.written out.old) buffer.old.bytes.items (O.written out.new) buffer.new.bytes.items result (shown_byte byte) }
    ensures cause { HasCause (O.put_faults out.old) (O.put_faults out.new) result }
    ensures beside { O.beside_writing out.new ≡ O.beside_writing out.old }
{
    match byte {
        b'"' => buffer.put(out, b"\\\""),
        b'\\' => buffer.put(out, b"\\\\"),
        b' '..=b'~' => buffer.put(out, &[byte]),
        _ => buffer.put(
            out,
            &[
                b'\\',
                b'x',
                hex_digit(byte / 16, false),
                hex_digit(byte % 16, false),
            ],
        ),
    }
}

/// How many bytes at the front of a text stand for themselves.
fn plain_run(text: &[u8]) -> usize
    ensures most { result ≤ length text.now }
    ensures same { flat_map shown_byte (take result text.now) ≡ take result text.now }
{
    for (at, byte) in text.iter().enumerate() {
        if !is_plain(*byte) {
            return at;
        }
    }
    text.len()
}

/// Puts the first bytes of a text, and answers how many: those that stand for themselves, or else one.
fn put_front<O: Sink>(buffer: &mut Buffer, out: &mut O, text: &[u8]) -> Result<usize, Failed>
    requires { 0 < length text.now }
    ensures some { IfOk result (λ n. 0 < n) }
    ensures most { IfOk result (λ n. n ≤ length text.now) }
    ensures puts { IfOk result (λ n. Passes (O.written out.old) buffer.old.bytes.items (O.written out.new) buffer.new.bytes.items (flat_map shown_byte (take n text.now))) }
    ensures err { OnErr result (PassesFront (O.written out.old) buffer.old.bytes.items (O.written out.new) (flat_map shown_byte text.now)) }
    ensures cause { HasCause (O.put_faults out.old) (O.put_faults out.new) result }
    ensures beside { O.beside_writing out.new ≡ O.beside_writing out.old }
{
    let run = plain_run(text);
    if run > 0 {
        buffer.put(out, &text[..run])?;
        return Ok(run);
    }
    put_byte(buffer, out, text[0])?;
    Ok(1)
}

/// Puts the bytes of a text, with those escaped that do not stand for themselves.
pub fn put_escaped<O: Sink>(buffer: &mut Buffer, out: &mut O, text: &[u8]) -> Result<(), Failed>
    ensures puts { Puts (O.written out.old) buffer.old.bytes.items (O.written out.new) buffer.new.bytes.items result (flat_map shown_byte text.now) }
    ensures cause { HasCause (O.put_faults out.old) (O.put_faults out.new) result }
    ensures beside { O.beside_writing out.new ≡ O.beside_writing out.old }
{
    let mut at = 0;
    while at < text.len() {
        at += put_front(buffer, out, &text[at..])?;
    }
    Ok(())
}

/// Puts the bytes of a text to a sink, escaped as in the line of an element (`shown_byte` of `dap_model`),
/// without the quotes around it. Fails only where the count of faults rose, and then a front of that is put.
pub fn put_shown_text<O: Sink>(out: &mut O, text: &[u8]) -> Result<(), Failed>
    ensures ok { OnOk result (Appends (O.written out.old) (O.written out.new) (flat_map shown_byte text.now)) }
    ensures err { OnErr result (AppendsFront (O.written out.old) (O.written out.new) (flat_map shown_byte text.now)) }
    ensures cause { HasCause (O.put_faults out.old) (O.put_faults out.new) result }
    ensures beside { O.beside_writing out.new ≡ O.beside_writing out.old }
{
    let mut buffer = Buffer::new();
    put_escaped(&mut buffer, out, text)?;
    buffer.flush(out)
}

/// Puts a whole number in decimal digits.
pub fn put_whole<O: Sink>(buffer: &mut Buffer, out: &mut O, whole: i64) -> Result<(), Failed>
    ensures puts { Puts (O.written out.old) buffer.old.bytes.items (O.written out.new) buffer.new.bytes.items result (signed_decimal whole) }
    ensures cause { HasCause (O.put_faults out.old) (O.put_faults out.new) result }
    ensures beside { O.beside_writing out.new ≡ O.beside_writing out.old }
{
    let mut digits = itoa::Buffer::new();
    buffer.put(out, digits.format(whole).as_bytes())
}

/// Puts a number in decimal digits.
pub fn put_number<O: Sink>(buffer: &mut Buffer, out: &mut O, number: u64) -> Result<(), Failed>
    ensures puts { Puts (O.written out.old) buffer.old.bytes.items (O.written out.new) buffer.new.bytes.items result (decimal number) }
    ensures cause { HasCause (O.put_faults out.old) (O.put_faults out.new) result }
    ensures beside { O.beside_writing out.new ≡ O.beside_writing out.old }
{
    let mut digits = itoa::Buffer::new();
    buffer.put(out, digits.format(number).as_bytes())
}

/// The bits of a Float32 as they are written.
fn text32(bits: u32) -> FloatText
    ensures { result ≡ codes "0x" ++ hex 8 bits }
{
    FloatText::of32(Floats::Bits, bits)
}

/// The bits of a Float64 as they are written.
fn text64(bits: u64) -> FloatText
    ensures { result ≡ codes "0x" ++ hex 16 bits }
{
    FloatText::of64(Floats::Bits, bits)
}

/// Puts the bits of a Float32.
pub fn put_word<O: Sink>(buffer: &mut Buffer, out: &mut O, bits: u32) -> Result<(), Failed>
    ensures puts { Puts (O.written out.old) buffer.old.bytes.items (O.written out.new) buffer.new.bytes.items result (codes "0x" ++ hex 8 bits) }
    ensures cause { HasCause (O.put_faults out.old) (O.put_faults out.new) result }
    ensures beside { O.beside_writing out.new ≡ O.beside_writing out.old }
{
    buffer.put(out, text32(bits).bytes())
}

/// Puts the bits of a Float64.
pub fn put_double<O: Sink>(buffer: &mut Buffer, out: &mut O, bits: u64) -> Result<(), Failed>
    ensures puts { Puts (O.written out.old) buffer.old.bytes.items (O.written out.new) buffer.new.bytes.items result (codes "0x" ++ hex 16 bits) }
    ensures cause { HasCause (O.put_faults out.old) (O.put_faults out.new) result }
    ensures beside { O.beside_writing out.new ≡ O.beside_writing out.old }
{
    buffer.put(out, text64(bits).bytes())
}
