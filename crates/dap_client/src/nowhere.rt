//! A sink for texts that are not wanted.

ghost use Rattle.std.specs.Prelude.{None};

use dap_outside::{Failed, Sink};

/// Takes all bytes and keeps none. It never fails.
#[derive(Drop)]
pub struct Nowhere;

impl Sink for Nowhere {
    ghost Rest = { Unit {0} };

    ghost written = { λ s. None };

    ghost put_faults = { λ s. 0 };

    ghost beside_writing = { λ s. tt };

    fn put(&mut self, bytes: &[u8]) -> Result<usize, Failed> {
        Ok(bytes.len())
    }
}
