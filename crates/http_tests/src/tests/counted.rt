ghost use Rattle.std.specs.Prelude.{◌≡◌, ℕ};

use dap_outside::{Failed, MemSink, MemSource, Sink, Source};
use dap_types::{Bytes, List, Memory};
use std::alloc::Global;

/// A source or a sink that counts its calls.
#[derive(Drop)]
pub struct Counted<T> {
    pub inner: T,
    pub calls: u64,
}

impl<O: Sink> Sink for Counted<O> {
    ghost Rest = { O.Rest };

    ghost written = { λ s. O.written s.inner };

    ghost put_faults = { λ s. O.put_faults s.inner };

    ghost beside_writing = { λ s. O.beside_writing s.inner };

    fn put(&mut self, bytes: &[u8]) -> Result<usize, Failed> {
        self.calls = self.calls.saturating_add(1);
        self.inner.put(bytes)
    }
}

impl<I: Source> Source for Counted<I> {
    ghost Rest = { I.Rest };

    ghost whole = { λ s. I.whole s.inner };

    ghost left = { λ s. I.left s.inner };

    ghost ended = { λ s. I.ended s.inner };

    ghost take_faults = { λ s. I.take_faults s.inner };

    ghost beside_reading = { λ s. I.beside_reading s.inner };

    fn take(&mut self, into: &mut [u8]) -> Result<usize, Failed> {
        self.calls = self.calls.saturating_add(1);
        self.inner.take(into)
    }

    ghost ends_whole = { λ s. I.ends_whole s.inner };

    ghost ended_empty = { λ s. I.ended_empty s.inner };
}

fn failing(alloc: Global, number: u64) -> Result<List<u64>, Memory> {
    let mut list = List::new(alloc);
    list.push(number)?;
    Ok(list)
}

fn five_at_once(bytes: Bytes, fails: List<u64>) -> MemSource {
    MemSource::new(bytes, 5, fails)
}

/// A source of which a call fails. No call has the number 0.
pub fn source(alloc: Global, input: &[u8], number: u64) -> Result<Counted<MemSource>, Memory> {
    let bytes = Bytes::new(alloc, input)?;
    let fails = failing(alloc, number)?;
    let inner = five_at_once(bytes, fails);
    Ok(Counted { inner, calls: 0 })
}

fn room(alloc: Global, piece: u32, fails: List<u64>) -> Result<MemSink, Memory> {
    MemSink::new(alloc, 1_000_000, piece.max(1), fails)
}

/// A sink that takes so many bytes a call, of which one fails. No call has the number 0.
pub fn sink(alloc: Global, piece: u32, number: u64) -> Result<Counted<MemSink>, Memory> {
    let inner = room(alloc, piece, failing(alloc, number)?)?;
    Ok(Counted { inner, calls: 0 })
}
