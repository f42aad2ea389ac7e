ghost use Rattle.std.specs.Prelude.{◌≡◌, ℕ};

use dap_outside::{Failed, Sink};

/// A sink that counts its calls.
#[derive(Drop)]
pub struct Counted<O> {
    pub inner: O,
    pub calls: u64,
}

impl<O: Sink> Sink for Counted<O> {
    ghost Rest = { O.Rest };

    ghost written = { λ s. O.written s.inner };

    ghost put_faults = { λ s. O.put_faults s.inner };

    ghost beside_writing = { λ s. O.beside_writing s.inner };

    fn put(&mut self, bytes: &[u8]) -> Result<usize, Failed> {
        self.calls = self.calls.saturating_add(1);
        self.inner.put(bytes)
    }
}
