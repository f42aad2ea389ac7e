//! A gate at which two workers look for one another.

use slab_fill::Gate;
use std::sync::atomic::{AtomicBool, Ordering};

/// Two workers who each look for the other. They meet where both are inside the same call at once, for which the
/// machine has to give the process a second thread.
#[derive(Drop)]
pub struct Meeting {
    arrived: [AtomicBool; 2],
    met: [AtomicBool; 2],
}

/// How often a worker looks.
const TURNS: u32 = 100_000_000;

impl Meeting {
    /// Nobody came yet.
    pub fn new() -> Meeting {
        Meeting {
            arrived: [AtomicBool::new(false), AtomicBool::new(false)],
            met: [AtomicBool::new(false), AtomicBool::new(false)],
        }
    }

    /// Whether each of the two saw the other.
    pub fn both_met(&self) -> bool {
        self.met[0].load(Ordering::SeqCst) && self.met[1].load(Ordering::SeqCst)
    }
}

impl Gate for Meeting {
    fn enter(&self, worker: u32) {
        let mine = if worker == 0 { 0 } else { 1 };
        self.arrived[mine].store(true, Ordering::SeqCst);
        for _ in 0..TURNS {
            if self.arrived[1 - mine].load(Ordering::SeqCst) {
                self.met[mine].store(true, Ordering::SeqCst);
                return;
            }
        }
    }
}
