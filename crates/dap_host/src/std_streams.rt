ghost use Rattle.std.specs.Prelude.{◌≡◌, ◌<◌, ◌≤◌, ◌↔◌, length, IfOk, IsTrue, OnErr, Ok, true, false};
ghost use Rattle.std.specs.Io.KnownBytes.{ReadConsumes, WriteAppends};
ghost use Rattle.dap_outside.specs.Causes.{HasCause};

use dap_outside::{Failed, Sink, Source};
use std::io::{Read, Write};

/// A reader as a source. It tells nothing of what is left.
#[derive(Drop)]
pub struct StdSource<R> {
    inner: R,
    faults: u64,
    ended: bool,
}

impl<R: Read> StdSource<R> {
    /// A source of what the reader gives.
    pub fn new(inner: R) -> StdSource<R>
        ensures fresh { (result.inner ≡ inner) × (result.faults ≡ 0) × (result.ended ≡ false) }
    {
        StdSource {
            inner,
            faults: 0,
            ended: false,
        }
    }
}

impl<R: Read> Source for StdSource<R> {
    ghost use Rattle.std.specs.Prelude.{None};

    ghost Rest = { Unit {0} };

    ghost beside_reading = { λ _. tt };

    ghost whole = { λ _. None };

    ghost left = { λ _. None };

    ghost ended = { λ s. s.ended };

    ghost take_faults = { λ s. s.faults };

    ghost ends_whole = { λ _. tt };

    ghost ended_empty = { λ _ _. tt };

    /// Takes what one read gives: the reader's bytes, where they are known, and 0 at their end alone. Behind the
    /// end the reader is not asked.
    fn take(&mut self, into: &mut [u8]) -> Result<usize, Failed>
        requires { 0 < length into.old }
        ensures most { IfOk result (λ n. n ≤ length into.old) }
        ensures reads { self.old.ended ≡ false → ReadConsumes (R.remaining self.old.inner) (R.remaining self.new.inner) result into.new }
        ensures over { self.old.ended ≡ true → (result ≡ Ok 0) × (self.new ≡ self.old) }
        ensures end { IfOk result (λ n. (n ≡ 0) ↔ IsTrue self.new.ended) }
        ensures stays { IsTrue self.old.ended → IsTrue self.new.ended }
        ensures err { OnErr result (self.new.ended ≡ self.old.ended) }
        ensures cause { HasCause self.old.faults self.new.faults result }
    {
        if self.ended {
            return Ok(0);
        }
        match self.inner.read(into) {
            Ok(count) => {
                self.ended = count == 0;
                Ok(count)
            }
            Err(_) => {
                self.faults = self.faults.saturating_add(1);
                Err(Failed)
            }
        }
    }
}

/// A writer as a sink. It tells nothing of what was written.
#[derive(Drop)]
pub struct StdSink<W> {
    inner: W,
    faults: u64,
}

impl<W: Write> StdSink<W> {
    /// A sink into the writer.
    pub fn new(inner: W) -> StdSink<W>
        ensures fresh { (result.inner ≡ inner) × (result.faults ≡ 0) }
    {
        StdSink { inner, faults: 0 }
    }
}

impl<W: Write> Sink for StdSink<W> {
    ghost use Rattle.std.specs.Prelude.{None};

    ghost Rest = { Unit {0} };

    ghost beside_writing = { λ _. tt };

    ghost written = { λ _. None };

    ghost put_faults = { λ s. s.faults };

    /// Puts what one write takes: so many bytes go to the writer's, where they are known, and none at a fault.
    fn put(&mut self, bytes: &[u8]) -> Result<usize, Failed>
        requires { 0 < length bytes.now }
        ensures some { IfOk result (λ n. (0 < n) × (n ≤ length bytes.now)) }
        ensures writes { WriteAppends (W.contents self.old.inner) (W.contents self.new.inner) result bytes.now }
        ensures cause { HasCause self.old.faults self.new.faults result }
    {
        match self.inner.write(bytes) {
            Ok(count) if count > 0 => Ok(count),
            _ => {
                self.faults = self.faults.saturating_add(1);
                Err(Failed)
            }
        }
    }
}
