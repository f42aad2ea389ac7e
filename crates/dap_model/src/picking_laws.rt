//! What constraints leave: indexes, rows and names.
ghost use Rattle.dap_model.specs.Picking.{BracketsAreWithin, BracketsPick, ClauseKeeps, ConstrainedHasWords, EachClauseKeeps};

/// `[start:stride:stop]` picks start, start + stride and so on, up to the stop, which may be picked too.
pub fn brackets_pick()
    ensures law { BracketsPick }
{}

/// Where the stop is an index of a dimension, so is each index that is picked.
pub fn brackets_are_within()
    ensures law { BracketsAreWithin }
{}

/// Clauses keep the rows that each of them keeps.
pub fn each_clause_keeps()
    ensures law { EachClauseKeeps }
{}

/// A clause keeps the rows whose cell stands in its relation to one of its values.
pub fn clause_keeps()
    ensures law { ClauseKeeps }
{}

/// What is left of a dataset whose names are words has words as names.
pub fn constrained_has_words()
    ensures law { ConstrainedHasWords }
{}
