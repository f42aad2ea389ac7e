ghost use Rattle.std.specs.Prelude.{◌≡◌};
ghost use Rattle.std.specs.Duration.{as_nanos};
ghost use Rattle.dap_host.specs.Budgets.{IsFresh, IsNew, IsSpent, earned, left};

use std::num::NonZeroU64;
use std::time::Duration;

/// For how long a peer may be waited for, one wait with the other: a base, and one second more for each so many bytes
/// that it moves.
#[derive(Clone, Copy, Debug)]
pub struct Budget {
    base: Duration,
    bytes_per_second: Option<NonZeroU64>,
    waited: Duration,
    moved: u64,
}

impl Budget {
    /// A budget of this base, and of one second more for each `bytes_per_second` bytes, none where that is 0.
    pub fn new(base: Duration, bytes_per_second: u64) -> Budget
        ensures { IsNew result (as_nanos base) bytes_per_second }
    {
        Budget {
            base,
            bytes_per_second: NonZeroU64::new(bytes_per_second),
            waited: Duration::ZERO,
            moved: 0,
        }
    }

    /// The same budget, of which nothing is spent.
    pub fn renewed(self) -> Budget
        ensures { IsFresh self result }
    {
        Budget {
            waited: Duration::ZERO,
            moved: 0,
            ..self
        }
    }

    /// What it is once the peer was waited for as long as this, and moved so many bytes meanwhile.
    pub fn spent(self, waited: Duration, bytes: usize) -> Budget
        ensures { IsSpent self result (as_nanos waited) bytes }
    {
        Budget {
            waited: self.waited.saturating_add(waited),
            moved: self.moved.saturating_add(bytes as u64),
            ..self
        }
    }

    /// The whole seconds that the bytes brought.
    fn earned(&self) -> u64
        ensures { result ≡ earned self.now.bytes_per_second self.now.moved }
    {
        match self.bytes_per_second {
            Some(each) => self.moved / each.get(),
            None => 0,
        }
    }

    /// For how long the peer may still be waited for.
    pub fn left(&self) -> Duration
        ensures { as_nanos result ≡ left self.now }
    {
        self.base
            .saturating_add(Duration::from_secs(self.earned()))
            .saturating_sub(self.waited)
    }
}
