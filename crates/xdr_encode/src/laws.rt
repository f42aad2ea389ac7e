//! What the definitions promise of one another.

ghost use Rattle.xdr_encode.specs.Counts.{CdfTooLarge};
ghost use Rattle.xdr_encode.specs.Masks.{MaskKeeps};
ghost use Rattle.xdr_encode.specs.Placed.{CutsArePlaced, PlansCut};
ghost use Rattle.xdr_encode.specs.Rows.{RowsAreSent};

/// A netCDF dataset that is not sent is told by its marked leaves.
#[tactic(auto, using(crate::proofs::CdfCounting::cdf_too_large))]
pub fn cdf_too_large()
    ensures { CdfTooLarge }
{}

/// The XDR of what a constraint and a mask leave of a table is that of its rows where the mask is true.
#[tactic(auto, using(crate::proofs::TableSending::rows_are_sent))]
pub fn rows_are_sent()
    ensures { RowsAreSent }
{}

/// To keep rows by their values is to keep them by a mask.
#[tactic(auto, using(crate::proofs::Masking::mask_keeps))]
pub fn mask_keeps()
    ensures { MaskKeeps }
{}

/// What hyperslabs cut out of the values of a file's variable stands at the places that they pick of the
/// variable's layout, and so at the positions of a plan of them, in order.
pub fn cuts_are_placed()
    ensures places { CutsArePlaced }
    ensures positions { PlansCut }
{}
