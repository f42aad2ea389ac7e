//! The constants of a clause in ascending order. One that equals a cell is found by a search. For the
//! other operators the least and the greatest decide: what is below any is below the greatest, what is
//! above any is above the least, and what differs from any differs from one of these two.

ghost use Rattle.std.specs.Prelude.{◌≡◌, ℤ, Bool, IfOk};
ghost use Rattle.std.specs.List.{list_any};
ghost use Rattle.std.specs.List.Sorted.{IsSorted};
ghost use Rattle.std.specs.Ordering.{int_cmp};
ghost use Rattle.sequence_select.specs.Operands.{numbers_in};
ghost use Rattle.sequence_select.specs.Selections.{relation_of};

use crate::constants::Operand;
use crate::relation::belongs;
use constraint_parse::Op;
use dap_types::Memory;
use std::alloc::Global;

/// The numbers in ascending order, each once.
fn in_order(numbers: Vec<i128>) -> Vec<i128>
    ensures rise { IsSorted int_cmp result.items }
    ensures same { (p : ℤ → Bool) → list_any p result.items ≡ list_any p numbers.items }
{
    let mut numbers = numbers;
    numbers.sort_unstable();
    numbers.dedup();
    numbers
}

/// The whole numbers among the constants of a clause, in ascending order, each once.
#[derive(Debug, Drop)]
pub struct Numbers {
    sorted: Vec<i128>,
    ghost rise: { IsSorted int_cmp sorted.items },
}

impl Numbers {
    pub fn of(alloc: Global, operands: &[Operand]) -> Result<Numbers, Memory>
        ensures { IfOk result (λ numbers. (p : ℤ → Bool) → list_any p numbers.sorted.items ≡ list_any p (numbers_in operands.now)) }
    {
        let mut sorted = Vec::new(alloc);
        for operand in operands {
            if let Operand::Whole(number) = operand {
                sorted.push(*number)?;
            }
        }
        Ok(Numbers {
            sorted: in_order(sorted),
        })
    }

    /// Whether a number stands in the relation to one of these.
    pub fn relates(&self, op: Op, number: i64) -> bool
        ensures { result ≡ list_any (λ b. relation_of op (int_cmp number b)) self.now.sorted.items }
    {
        let number = i128::from(number);
        if op == Op::Equal {
            return self.sorted.binary_search(&number).is_ok();
        }
        if self.sorted.is_empty() {
            return false;
        }
        let last = self.sorted.len() - 1;
        belongs(op, number.cmp(&self.sorted[0])) || belongs(op, number.cmp(&self.sorted[last]))
    }
}
