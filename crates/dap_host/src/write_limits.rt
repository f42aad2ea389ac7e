ghost use Rattle.std.specs.Prelude.{◌≡◌};
ghost use Rattle.std.specs.Duration.{as_nanos};
ghost use Rattle.dap_host.specs.Budgets.{IsNew, IsSpent};
ghost use Rattle.dap_host.specs.Waits.{write_wait};

use crate::budget::Budget;
use std::time::Duration;

/// For how many seconds a peer may take nothing.
const GAP: u64 = 30;

/// For how many seconds a peer is waited for to take what is written, and how many bytes that it took bring one second more.
const TAKING: u64 = 30;

const TAKEN_BYTES: u64 = 65_536;

/// For how long a peer is waited for to take what is written: a gap without a byte, and all writes of a connection
/// together.
#[derive(Clone, Copy, Debug)]
pub struct WriteLimits {
    gap: Duration,
    budget: Budget,
}

impl WriteLimits {
    /// These limits.
    pub fn new(gap: Duration, budget: Budget) -> WriteLimits
        ensures given { (result.gap ≡ gap) × (result.budget ≡ budget) }
    {
        WriteLimits { gap, budget }
    }

    /// 30 seconds, and one second more for each 65,536 bytes; and 30 seconds without a byte.
    pub fn put() -> WriteLimits
        ensures gap { as_nanos result.gap ≡ 30_000_000_000 }
        ensures budget { IsNew result.budget 30_000_000_000 65_536 }
    {
        WriteLimits::new(
            Duration::from_secs(GAP),
            Budget::new(Duration::from_secs(TAKING), TAKEN_BYTES),
        )
    }

    /// For how long the next write may wait: not at all where the budget is used up.
    pub fn wait(&self) -> Duration
        ensures { as_nanos result ≡ write_wait self.now }
    {
        self.gap.min(self.budget.left())
    }

    /// A write waited for as long as this, and so many bytes were taken.
    pub fn write(&mut self, waited: Duration, bytes: usize)
        ensures gap { self.new.gap ≡ self.old.gap }
        ensures budget { IsSpent self.old.budget self.new.budget (as_nanos waited) bytes }
    {
        self.budget = self.budget.spent(waited, bytes);
    }
}
