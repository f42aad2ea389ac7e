ghost use Rattle.std.specs.Prelude.{◌≡◌, None};
ghost use Rattle.std.specs.Duration.{as_nanos};

use std::time::{Clock, Duration, Instant};

/// When a wait began, where the clock said it.
#[derive(Clone, Copy)]
pub struct Watch {
    begin: Option<Instant>,
}

impl Watch {
    /// A wait that begins now.
    pub fn start<C: Clock>(clock: &C) -> Watch {
        Watch {
            begin: Instant::now(clock).ok(),
        }
    }

    /// How long it is since then: no time where the clock failed.
    pub fn elapsed<C: Clock>(self, clock: &C) -> Duration
        ensures { self.begin ≡ None → as_nanos result ≡ 0 }
    {
        match (self.begin, Instant::now(clock)) {
            (Some(begin), Ok(now)) => now.duration_since(begin),
            _ => Duration::ZERO,
        }
    }
}
