//! The ends of a run, with their calls counted.

ghost use Rattle.std.specs.Prelude.{◌≡◌};

use dap_outside::{Failed, Sink, Source};

/// A source or a sink, and how many calls were made of it.
#[derive(Drop)]
pub struct Counted<E: Drop> {
    pub end: E,
    pub calls: u64,
}

impl<E: Drop> Counted<E> {
    /// Before any call.
    pub fn new(end: E) -> Counted<E> {
        Counted { end, calls: 0 }
    }
}

impl<E: Source + Drop> Source for Counted<E> {
    ghost Rest = { E.Rest };

    ghost beside_reading = { λ s. E.beside_reading s.end };

    ghost whole = { λ s. E.whole s.end };

    ghost left = { λ s. E.left s.end };

    ghost ended = { λ s. E.ended s.end };

    ghost take_faults = { λ s. E.take_faults s.end };

    ghost ends_whole = { λ s. E.ends_whole s.end };

    ghost ended_empty = { λ s e. E.ended_empty s.end e };

    fn take(&mut self, into: &mut [u8]) -> Result<usize, Failed> {
        self.calls = self.calls.saturating_add(1);
        self.end.take(into)
    }
}

impl<E: Sink + Drop> Sink for Counted<E> {
    ghost Rest = { E.Rest };

    ghost written = { λ s. E.written s.end };

    ghost put_faults = { λ s. E.put_faults s.end };

    ghost beside_writing = { λ s. E.beside_writing s.end };

    fn put(&mut self, bytes: &[u8]) -> Result<usize, Failed> {
        self.calls = self.calls.saturating_add(1);
        self.end.put(bytes)
    }
}
