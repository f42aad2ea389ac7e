//! Calls of the outside, counted.

use dap_outside::{Failed, Shelf, Sink, Source};

/// A shelf, a source or a sink, and how often it was called.
#[derive(Drop)]
pub struct Counted<T> {
    pub inner: T,
    pub calls: u64,
}

impl<T> Counted<T> {
    /// It was not called yet.
    pub fn new(inner: T) -> Counted<T> {
        Counted { inner, calls: 0 }
    }
}

impl<S: Shelf> Shelf for Counted<S> {
    type File = S::File;

    ghost files = { λ s. S.files s.inner };

    ghost content = { λ s. S.content s.inner };

    ghost name_of = { λ s. S.name_of s.inner };

    ghost size_of = { λ s. S.size_of s.inner };

    ghost faults = { λ s. S.faults s.inner };

    ghost asked = { λ s. S.asked s.inner };

    ghost greatest = { λ s. S.greatest s.inner };

    ghost files_are_bytes = { λ s. S.files_are_bytes s.inner };

    ghost content_is_bytes = { λ s. S.content_is_bytes s.inner };

    fn find(&mut self, name: &str) -> Result<Option<S::File>, Failed> {
        self.calls = self.calls.saturating_add(1);
        self.inner.find(name)
    }

    fn size(&self, file: &S::File) -> u64 {
        self.inner.size(file)
    }

    fn read_at(&mut self, file: &mut S::File, at: u64, into: &mut [u8]) -> Result<(), Failed> {
        self.calls = self.calls.saturating_add(1);
        self.inner.read_at(file, at, into)
    }
}

impl<I: Source> Source for Counted<I> {
    ghost Rest = { I.Rest };

    ghost beside_reading = { λ s. I.beside_reading s.inner };

    ghost whole = { λ s. I.whole s.inner };

    ghost left = { λ s. I.left s.inner };

    ghost ended = { λ s. I.ended s.inner };

    ghost take_faults = { λ s. I.take_faults s.inner };

    ghost ends_whole = { λ s. I.ends_whole s.inner };

    ghost ended_empty = { λ s. I.ended_empty s.inner };

    fn take(&mut self, into: &mut [u8]) -> Result<usize, Failed> {
        self.calls = self.calls.saturating_add(1);
        self.inner.take(into)
    }
}

impl<O: Sink> Sink for Counted<O> {
    ghost Rest = { O.Rest };

    ghost beside_writing = { λ s. O.beside_writing s.inner };

    ghost written = { λ s. O.written s.inner };

    ghost put_faults = { λ s. O.put_faults s.inner };

    fn put(&mut self, bytes: &[u8]) -> Result<usize, Failed> {
        self.calls = self.calls.saturating_add(1);
        self.inner.put(bytes)
    }
}
