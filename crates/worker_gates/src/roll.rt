//! A gate that counts the workers who come.

use slab_fill::Gate;
use std::sync::atomic::{AtomicU64, Ordering};

/// Which workers came, a bit for each number, and how often one came.
#[derive(Drop)]
pub struct Roll {
    seen: AtomicU64,
    count: AtomicU64,
}

impl Roll {
    /// Nobody came yet.
    pub fn new() -> Roll {
        Roll {
            seen: AtomicU64::new(0),
            count: AtomicU64::new(0),
        }
    }

    /// The bits of those who came, and how often one came.
    pub fn told(&self) -> (u64, u64) {
        (
            self.seen.load(Ordering::SeqCst),
            self.count.load(Ordering::SeqCst),
        )
    }
}

impl Gate for Roll {
    fn enter(&self, worker: u32) {
        if worker < 64 {
            self.seen.fetch_or(1 << worker, Ordering::SeqCst);
        }
        self.count.fetch_add(1, Ordering::SeqCst);
    }
}
