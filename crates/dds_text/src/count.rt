//! The number of members that a dataset has so far.

ghost use Rattle.std.specs.Prelude.{◌≡◌, ◌+◌, not, if◌then◌else◌};
ghost use Rattle.dds_text.specs.inner.States.{is_past};

use dap_types::limits;
use std::marker::Model;

/// A dataset has no more members.
const MOST_MEMBERS: u32 = limits::MOST_MEMBERS as u32;

/// No member is deeper.
const DEEPEST: usize = limits::MOST_DEPTH;

/// The number of members that have begun. Contracts see it as a number.
#[derive(Drop)]
pub struct MemberCount {
    begun: u32,
}

impl Model for MemberCount {
    ghost use Rattle.std.specs.Prelude.{ℕ, ◌≤◌};

    ghost Value = { ℕ };

    ghost view = { λ c. c.begun };

    ghost invariant = { λ c. c.begun ≤ 1000000 };
}

impl MemberCount {
    /// None.
    pub fn new() -> MemberCount
        ensures { result ≡ 0 }
    {
        MemberCount { begun: 0 }
    }

    /// Counts a member of this depth, unless it is too deep or one too many, and says whether it
    /// did.
    pub fn admit(&mut self, depth: usize) -> bool
        ensures admitted { result ≡ not (is_past depth (self.old + 1)) }
        ensures counted { self.new ≡ (if result then self.old + 1 else self.old) }
    {
        if depth > DEEPEST || self.begun >= MOST_MEMBERS {
            return false;
        }
        self.begun += 1;
        true
    }
}
