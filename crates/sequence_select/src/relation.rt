ghost use Rattle.std.specs.Prelude.{◌≡◌};
ghost use Rattle.sequence_select.specs.Selections.{relation_of};

use constraint_parse::Op;
use std::cmp::Ordering;

/// Whether an operator holds of two values that stand so to one another.
pub fn belongs(op: Op, order: Ordering) -> bool
    ensures { result ≡ relation_of op order }
{
    match op {
        Op::Equal => order.is_eq(),
        Op::NotEqual => order.is_ne(),
        Op::Less => order.is_lt(),
        Op::LessEqual => order.is_le(),
        Op::Greater => order.is_gt(),
        Op::GreaterEqual => order.is_ge(),
    }
}
