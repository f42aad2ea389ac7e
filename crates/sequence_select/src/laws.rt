ghost use Rattle.sequence_select.specs.Laws.{NoClauseIsLost, OperatorsRelate, OwnClausesDecide, RowsAreKept};

/// The six operators are the relations of two numbers and of two texts.
pub fn operators_relate()
    ensures law { OperatorsRelate }
{}

/// A constraint without a cause loses no clause: each is a selection on a column of a Sequence.
pub fn no_clause_is_lost()
    ensures law { NoClauseIsLost }
{}

/// Whether a row stays depends only on the clauses on its own Sequence.
pub fn own_clauses_decide()
    ensures law { OwnClausesDecide }
{}

/// A row of a table stays exactly where each clause holds in it.
pub fn rows_are_kept()
    ensures law { RowsAreKept }
{}
