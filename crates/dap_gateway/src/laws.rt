//! What the definitions of this crate promise, as the contract of a function that does nothing.
ghost use Rattle.dap_gateway.specs.Steady.{HitIsMiss, HitIsReplied, HitIsTold};

/// Where equal requests got equal replies, a hit is answered as a miss would be.
pub fn hit_as_miss()
    ensures replied { HitIsReplied }
    ensures told { HitIsTold }
    ensures alike { HitIsMiss }
{}
