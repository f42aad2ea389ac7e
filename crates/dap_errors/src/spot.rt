use std::fmt;

/// The part of a constraint that has a cause, counted from 1.
#[derive(Clone, Copy, Debug, PartialEq, Eq)]
pub enum Spot {
    /// An item of the projection.
    Item(u32),
    /// A clause of the selection.
    Clause(u32),
}

impl fmt::Display for Spot {
    ghost use Rattle.std.specs.Prelude.{Some};
    ghost use Rattle.dap_errors.specs.Causes.{spot_text};

    ghost output = { λ spot. Some (spot_text spot) };

    fn fmt<W: fmt::Write>(&self, f: &mut fmt::Formatter<W>) -> fmt::Result {
        match self {
            Spot::Item(number) => write!(f, "item {number}"),
            Spot::Clause(number) => write!(f, "clause {number}"),
        }
    }
}
