//! Laws of places, plans and batches, for callers above.

ghost use Rattle.hyperslab_plan.specs.Laws.{BatchHolds, BatchIsFetched, CutsArePlaced, LastIsHighest, PickedAreBelow, PickedAreWithin, PlansAreWithin, PlansCut, TurnsAreWhole};

/// What hyperslabs cut out of an array's values is what stands at the places of a plan, in order.
pub fn plans_cut()
    ensures places { CutsArePlaced }
    ensures positions { PlansCut }
{}

/// Where each element of an array stands in its file, so does each one that hyperslabs pick, and each
/// one of a plan: the condition of `Plan::new`, and what its reads need.
pub fn picked_are_within()
    ensures picked { PickedAreWithin }
    ensures below { PickedAreBelow }
    ensures last { LastIsHighest }
    ensures positions { PlansAreWithin }
{}

/// The raw bytes of a batch hold all its elements, as they stand in the file.
pub fn batches_hold()
    ensures held { BatchHolds }
    ensures fetched { BatchIsFetched }
{}

/// Batches one after the other have every position once, in order.
pub fn turns_are_whole()
    ensures law { TurnsAreWhole }
{}
