ghost use Rattle.std.specs.Prelude.{◌≡◌, false};
ghost use Rattle.dap_outside.specs.Causes.{HasCause};

use crate::Failed;
use dap_types::List;

/// The calls of an object in memory: the numbers of those that fail, how many were made, and how
/// many of these failed.
#[derive(Debug, Drop)]
pub struct Calls {
    fails: List<u64>,
    made: u64,
    faults: u64,
}

impl Calls {
    ghost use Rattle.dap_outside.specs.Calls.{IsOneMore};

    /// None was made. Those with these numbers, counted from 1, are to fail.
    pub fn new(fails: List<u64>) -> Calls
        ensures list { result.fails ≡ fails }
        ensures none { result.made ≡ 0 }
        ensures no_fault { result.faults ≡ 0 }
    {
        Calls {
            fails,
            made: 0,
            faults: 0,
        }
    }

    /// Counts one more call, which fails where its number is listed or it can't be met.
    pub fn count(&mut self, can: bool) -> Result<(), Failed>
        ensures calls { IsOneMore self.old self.new (can ≡ false) result }
        ensures cause { HasCause self.old.faults self.new.faults result }
    {
        self.made = self.made.saturating_add(1);
        if can && !self.fails.items().contains(&self.made) {
            return Ok(());
        }
        self.faults = self.faults.saturating_add(1);
        Err(Failed)
    }
}
