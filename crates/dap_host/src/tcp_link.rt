//! A stream as a link. It tells nothing of what a peer sends or takes.

ghost use Rattle.std.specs.Prelude.{◌≡◌, ◌<◌, ◌≤◌, ◌↔◌, IfOk, IsTrue, OnErr, OnOk, Ok, true, false, length};
ghost use Rattle.std.specs.Io.KnownBytes.{ReadConsumes, WriteAppends};
ghost use Rattle.std.specs.Duration.{as_nanos};
ghost use Rattle.dap_outside.specs.Causes.{HasCause};
ghost use Rattle.dap_host.specs.Waits.{read_wait, write_wait};

use crate::{ReadLimits, Watch, WriteLimits};
use dap_outside::{Failed, Link, Sink, Source};
use std::io;
use std::io::{ErrorKind, Read, Write};
use std::net::OpenStream;
use std::time::{Clock, Duration};

/// Reads, again where a signal came between.
#[tactic(auto, using(crate::proofs::Again::kept, crate::proofs::Again::kept_read))]
fn read_again<T: Read>(from: &mut T, into: &mut [u8]) -> io::Result<usize>
    ensures most { IfOk result (λ n. n ≤ length into.old) }
    ensures room { length into.new ≡ length into.old }
    ensures bytes { ReadConsumes (T.remaining from.old) (T.remaining from.new) result into.new }
{
    for _ in 0..u64::MAX {
        match from.read(into) {
            Err(e) if e.kind() == ErrorKind::Interrupted => {}
            other => return other,
        }
    }
    Err(io::Error::from(ErrorKind::Interrupted))
}

/// Writes, again where a signal came between.
#[tactic(auto, using(crate::proofs::Again::kept, crate::proofs::Again::kept_write))]
fn write_again<T: Write>(to: &mut T, bytes: &[u8]) -> io::Result<usize>
    ensures most { IfOk result (λ n. n ≤ length bytes.now) }
    ensures bytes { WriteAppends (T.contents to.old) (T.contents to.new) result bytes.now }
{
    for _ in 0..u64::MAX {
        match to.write(bytes) {
            Err(e) if e.kind() == ErrorKind::Interrupted => {}
            other => return other,
        }
    }
    Err(io::Error::from(ErrorKind::Interrupted))
}

/// A stream as a link, of which no read and no write waits longer than its limits allow, by this clock. Where the
/// clock fails a wait counts as no time. What is used up is a fault.
#[derive(Drop)]
pub struct TcpLink<T, C> {
    stream: T,
    clock: C,
    reading: ReadLimits,
    writing: WriteLimits,
    read_time_out: Option<Duration>,
    write_time_out: Option<Duration>,
    ended: bool,
    take_faults: u64,
    put_faults: u64,
}

impl<T, C: Drop> TcpLink<T, C> {
    /// The stream again.
    pub(crate) fn into_stream(self) -> T
        ensures { result ≡ self.stream }
    {
        self.stream
    }
}

impl<T: Read + Write + OpenStream, C: Clock> TcpLink<T, C> {
    /// A link of the stream, with these limits.
    pub fn new(stream: T, clock: C, reading: ReadLimits, writing: WriteLimits) -> TcpLink<T, C>
        ensures fresh { (result.ended ≡ false) × (result.take_faults ≡ 0) × (result.put_faults ≡ 0) }
        ensures limits { (result.reading ≡ reading) × (result.writing ≡ writing) }
    {
        TcpLink {
            stream,
            clock,
            reading,
            writing,
            read_time_out: None,
            write_time_out: None,
            ended: false,
            take_faults: 0,
            put_faults: 0,
        }
    }

    /// Sets for how long the next read waits. Fails where the limits leave no time for it.
    fn allow_read(&mut self) -> io::Result<()>
        ensures time { OnOk result (0 < read_wait self.old.reading) }
        ensures stream { self.new.stream ≡ self.old.stream }
        ensures ended { self.new.ended ≡ self.old.ended }
        ensures faults { (self.new.take_faults ≡ self.old.take_faults) × (self.new.put_faults ≡ self.old.put_faults) }
    {
        let wait = self.reading.wait();
        if wait.is_zero() {
            return Err(io::Error::from(ErrorKind::TimedOut));
        }
        if self.read_time_out != Some(wait) {
            self.stream.set_read_timeout(Some(wait))?;
            self.read_time_out = Some(wait);
        }
        Ok(())
    }

    /// Sets for how long the next write waits. Fails where the limits leave no time for it.
    fn allow_write(&mut self) -> io::Result<()>
        ensures time { OnOk result (0 < write_wait self.old.writing) }
        ensures stream { self.new.stream ≡ self.old.stream }
        ensures ended { self.new.ended ≡ self.old.ended }
        ensures faults { (self.new.take_faults ≡ self.old.take_faults) × (self.new.put_faults ≡ self.old.put_faults) }
    {
        let wait = self.writing.wait();
        if wait.is_zero() {
            return Err(io::Error::from(ErrorKind::TimedOut));
        }
        if self.write_time_out != Some(wait) {
            self.stream.set_write_timeout(Some(wait))?;
            self.write_time_out = Some(wait);
        }
        Ok(())
    }

    /// One read, counted.
    fn read(&mut self, into: &mut [u8]) -> io::Result<usize>
        ensures most { IfOk result (λ n. n ≤ length into.old) }
        ensures bytes { ReadConsumes (T.remaining self.old.stream) (T.remaining self.new.stream) result into.new }
        ensures ended { self.new.ended ≡ self.old.ended }
        ensures faults { (self.new.take_faults ≡ self.old.take_faults) × (self.new.put_faults ≡ self.old.put_faults) }
    {
        self.allow_read()?;
        let watch = Watch::start(&self.clock);
        let result = read_again(&mut self.stream, into);
        self.reading
            .read(watch.elapsed(&self.clock), count_of(&result));
        result
    }

    /// One write, counted.
    fn write(&mut self, bytes: &[u8]) -> io::Result<usize>
        ensures most { IfOk result (λ n. n ≤ length bytes.now) }
        ensures bytes { WriteAppends (T.contents self.old.stream) (T.contents self.new.stream) result bytes.now }
        ensures ended { self.new.ended ≡ self.old.ended }
        ensures faults { (self.new.take_faults ≡ self.old.take_faults) × (self.new.put_faults ≡ self.old.put_faults) }
    {
        self.reading.written();
        self.allow_write()?;
        let watch = Watch::start(&self.clock);
        let result = write_again(&mut self.stream, bytes);
        self.writing
            .write(watch.elapsed(&self.clock), count_of(&result));
        result
    }
}

/// How many bytes a call moved.
fn count_of(moved: &io::Result<usize>) -> usize
    ensures ok { IfOk moved.now (λ n. result ≡ n) }
    ensures err { OnErr moved.now (result ≡ 0) }
{
    match moved {
        Ok(count) => *count,
        Err(_) => 0,
    }
}

impl<T: Read + Write + OpenStream, C: Clock> Source for TcpLink<T, C> {
    ghost use Rattle.std.specs.Prelude.{ℕ, None};

    ghost Rest = { ℕ };

    ghost beside_reading = { λ l. l.put_faults };

    ghost whole = { λ _. None };

    ghost left = { λ _. None };

    ghost ended = { λ l. l.ended };

    ghost take_faults = { λ l. l.take_faults };

    ghost ends_whole = { λ _. tt };

    ghost ended_empty = { λ _ _. tt };

    /// Takes what one read gives: the stream's bytes, where they are known, and 0 at their end alone. Behind the
    /// end the stream is not asked. A read that the limits end is a fault.
    fn take(&mut self, into: &mut [u8]) -> Result<usize, Failed>
        requires { 0 < length into.old }
        ensures most { IfOk result (λ n. n ≤ length into.old) }
        ensures reads { self.old.ended ≡ false → ReadConsumes (T.remaining self.old.stream) (T.remaining self.new.stream) result into.new }
        ensures over { self.old.ended ≡ true → (result ≡ Ok 0) × (self.new ≡ self.old) }
        ensures end { IfOk result (λ n. (n ≡ 0) ↔ IsTrue self.new.ended) }
        ensures stays { IsTrue self.old.ended → IsTrue self.new.ended }
        ensures err { OnErr result (self.new.ended ≡ self.old.ended) }
        ensures cause { HasCause self.old.take_faults self.new.take_faults result }
        ensures beside { self.new.put_faults ≡ self.old.put_faults }
    {
        if self.ended {
            return Ok(0);
        }
        match self.read(into) {
            Ok(count) => {
                self.ended = count == 0;
                Ok(count)
            }
            Err(_) => {
                self.take_faults = self.take_faults.saturating_add(1);
                Err(Failed)
            }
        }
    }
}

impl<T: Read + Write + OpenStream, C: Clock> Sink for TcpLink<T, C> {
    ghost use Rattle.std.specs.Prelude.{ℕ, Bool, None};

    ghost Rest = { Bool × ℕ };

    ghost beside_writing = { λ l. (l.ended, l.take_faults) };

    ghost written = { λ _. None };

    ghost put_faults = { λ l. l.put_faults };

    /// Puts what one write takes: so many bytes go to the stream's, where they are known, and none at a fault, as where
    /// the limits end it.
    fn put(&mut self, bytes: &[u8]) -> Result<usize, Failed>
        requires { 0 < length bytes.now }
        ensures some { IfOk result (λ n. (0 < n) × (n ≤ length bytes.now)) }
        ensures writes { WriteAppends (T.contents self.old.stream) (T.contents self.new.stream) result bytes.now }
        ensures cause { HasCause self.old.put_faults self.new.put_faults result }
        ensures ended { self.new.ended ≡ self.old.ended }
        ensures beside { self.new.take_faults ≡ self.old.take_faults }
    {
        match self.write(bytes) {
            Ok(count) if count > 0 => Ok(count),
            _ => {
                self.put_faults = self.put_faults.saturating_add(1);
                Err(Failed)
            }
        }
    }
}

impl<T: Read + Write + OpenStream, C: Clock> Link for TcpLink<T, C> {
    ghost use Rattle.std.proofs.Common.{refl, ap};

    ghost keeps_written = { λ _ _ _. refl };

    ghost keeps_put_faults = { λ _ _ e. e };

    ghost keeps_whole = { λ _ _ _. refl };

    ghost keeps_left = { λ _ _ _. refl };

    ghost keeps_ended = { λ _ _ e. ap (λ rest. rest.0) e };

    ghost keeps_take_faults = { λ _ _ e. ap (λ rest. rest.1) e };
}
