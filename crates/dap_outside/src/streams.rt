ghost use Rattle.std.specs.Prelude.{◌≡◌, ◌<◌, ◌≤◌, ◌↔◌, ℕ, List, length, take, Option, Bool, IsTrue, IfOk, OnErr, OnOk};
ghost use Rattle.std.specs.Io.KnownBytes.{Appends, Consumes, IsAtEnd, Keeps};
ghost use Rattle.dap_outside.specs.Causes.{HasCause};
ghost use Rattle.dap_outside.specs.Streams.{AppendsFront, ConsumesFront, EndsWith};

use crate::Failed;

/// Bytes that come.
pub trait Source {
    /// What it holds beside its reading side. No call of this trait changes it.
    ghost Rest: { Type 0 };

    ghost beside_reading: { Self → Rest };

    /// The whole input, taken and left, where it tells that.
    ghost whole: { Self → Option (List ℕ) };

    /// What is left, where it tells that.
    ghost left: { Self → Option (List ℕ) };

    /// The end mark: whether the end has been told.
    ghost ended: { Self → Bool };

    /// How often taking has failed, up to 2^64-1.
    ghost take_faults: { Self → ℕ };

    /// Takes some bytes from the front, as many as are answered. 0 says that nothing is left. Fails
    /// only where the count of faults rose, and then nothing was taken.
    fn take(&mut self, into: &mut [u8]) -> Result<usize, Failed>
        requires { 0 < length into.old }
        ensures most { IfOk result (λ n. n ≤ length into.old) }
        ensures whole { whole self.new ≡ whole self.old }
        ensures bytes { IfOk result (λ n. Consumes (left self.old) (left self.new) (take n into.new)) }
        ensures end { IfOk result (λ n. (n ≡ 0) ↔ IsTrue (ended self.new)) }
        ensures stays { IsTrue (ended self.old) → IsTrue (ended self.new) }
        ensures nothing_left { IfOk result (λ n. n ≡ 0 → IsAtEnd (left self.new)) }
        ensures err { OnErr result ((left self.new ≡ left self.old) × (ended self.new ≡ ended self.old)) }
        ensures cause { HasCause (take_faults self.old) (take_faults self.new) result }
        ensures beside { beside_reading self.new ≡ beside_reading self.old };

    ghost ends_whole: { (s : Self) → EndsWith (whole s) (left s) };

    ghost ended_empty: { (s : Self) → IsTrue (ended s) → IsAtEnd (left s) };
}

/// Bytes that go.
pub trait Sink {
    /// What it holds beside its writing side. No call of this trait changes it.
    ghost Rest: { Type 0 };

    ghost beside_writing: { Self → Rest };

    /// What was written, where it tells that.
    ghost written: { Self → Option (List ℕ) };

    /// How often putting has failed, up to 2^64-1.
    ghost put_faults: { Self → ℕ };

    /// Appends some bytes from the front, at least one, and answers how many. Fails only where the
    /// count of faults rose, and then nothing was appended.
    fn put(&mut self, bytes: &[u8]) -> Result<usize, Failed>
        requires { 0 < length bytes.now }
        ensures some { IfOk result (λ n. (0 < n) × (n ≤ length bytes.now)) }
        ensures bytes { IfOk result (λ n. Appends (written self.old) (written self.new) (take n bytes.now)) }
        ensures err { OnErr result (written self.new ≡ written self.old) }
        ensures cause { HasCause (put_faults self.old) (put_faults self.new) result }
        ensures beside { beside_writing self.new ≡ beside_writing self.old };
}

/// Appends all bytes. Fails only where the count of faults rose, and then some of them, from the
/// front, are appended, and at least one is not.
pub fn put_all<O: Sink>(out: &mut O, bytes: &[u8]) -> Result<(), Failed>
    ensures ok { OnOk result (Appends (O.written out.old) (O.written out.new) bytes.now) }
    ensures err { OnErr result (AppendsFront (O.written out.old) (O.written out.new) bytes.now) }
    ensures cause { HasCause (O.put_faults out.old) (O.put_faults out.new) result }
    ensures beside { O.beside_writing out.new ≡ O.beside_writing out.old }
{
    let mut done = 0;
    while done < bytes.len() {
        done += out.put(&bytes[done..])?;
    }
    Ok(())
}

/// Takes until the buffer is full or the source is at its end, and answers how many bytes. Fails
/// only where the count of faults rose, and then some bytes were taken.
pub fn take_some<I: Source>(source: &mut I, into: &mut [u8]) -> Result<usize, Failed>
    ensures whole { I.whole source.new ≡ I.whole source.old }
    ensures most { IfOk result (λ n. n ≤ length into.old) }
    ensures ok { IfOk result (λ n. Consumes (I.left source.old) (I.left source.new) (take n into.new)) }
    ensures short { IfOk result (λ n. n < length into.old → IsTrue (I.ended source.new) × IsAtEnd (I.left source.new)) }
    ensures stays { IsTrue (I.ended source.old) → IsTrue (I.ended source.new) }
    ensures err { OnErr result (ConsumesFront (I.left source.old) (I.left source.new) into.new) }
    ensures cause { HasCause (I.take_faults source.old) (I.take_faults source.new) result }
    ensures beside { I.beside_reading source.new ≡ I.beside_reading source.old }
{
    let mut taken = 0;
    while taken < into.len() {
        let count = source.take(&mut into[taken..])?;
        if count == 0 {
            break;
        }
        taken += count;
    }
    Ok(taken)
}
