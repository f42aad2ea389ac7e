ghost use Rattle.grid_projection.specs.Laws.{MarksSuit};
ghost use Rattle.grid_projection.specs.Worked.{Strided, Single, Past, Other, Same, PartCause, PartMarks, PartLeft, AloneLeft, GridLeft, Empty, EmptyCause, CallRow, BigRow, Mismatch, Unknown, Everything};

/// What the definitions say of some constraints on small datasets.
pub fn worked_rows()
    ensures strided { Strided }
    ensures single { Single }
    ensures past { Past }
    ensures other { Other }
    ensures same { Same }
    ensures part_cause { PartCause }
    ensures part_marks { PartMarks }
    ensures part_left { PartLeft }
    ensures array_alone { AloneLeft }
    ensures grid_left { GridLeft }
    ensures empty { Empty }
    ensures empty_cause { EmptyCause }
    ensures call { CallRow }
    ensures big { BigRow }
    ensures mismatch { Mismatch }
    ensures unknown { Unknown }
    ensures everything { Everything }
{}

/// What a constraint without a cause marks suits the dataset.
pub fn marks_suit()
    ensures law { MarksSuit }
{}
