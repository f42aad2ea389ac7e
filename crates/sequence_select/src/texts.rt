//! The texts among the constants of a clause, as `Numbers` holds its whole numbers.

ghost use Rattle.std.specs.Prelude.{◌≡◌, IfOk};
ghost use Rattle.std.specs.Cmp.Lexicographic.{slice_cmp};
ghost use Rattle.std.specs.List.{list_any};
ghost use Rattle.std.specs.List.Sorted.{IsPermutation, IsSorted};
ghost use Rattle.std.specs.Ordering.{nat_cmp};
ghost use Rattle.sequence_select.specs.Operands.{texts_in};
ghost use Rattle.sequence_select.specs.Selections.{relation_of};

use crate::constants::Operand;
use crate::relation::belongs;
use constraint_parse::Op;
use dap_types::{Bytes, Memory};
use std::alloc::Global;

/// The texts among the constants of a clause, in the order of their bytes.
#[derive(Debug, Drop)]
pub struct Texts {
    sorted: Vec<Bytes>,
    ghost rise: { IsSorted (slice_cmp nat_cmp) sorted.items },
}

impl Texts {
    pub fn of(alloc: Global, operands: &[Operand]) -> Result<Texts, Memory>
        ensures { IfOk result (λ texts. IsPermutation (texts_in operands.now) texts.sorted.items) }
    {
        let mut sorted = Vec::new(alloc);
        for operand in operands {
            if let Operand::Text(text) = operand {
                sorted.push(Bytes::new(alloc, text.bytes())?)?;
            }
        }
        sorted.sort_unstable_by(|a, b| a.bytes().cmp(b.bytes()));
        Ok(Texts { sorted })
    }

    /// Whether a text stands in the relation to one of these.
    pub fn relates(&self, op: Op, text: &[u8]) -> bool
        ensures { result ≡ list_any (λ b. relation_of op (slice_cmp nat_cmp text.now b)) self.now.sorted.items }
    {
        if op == Op::Equal {
            return self
                .sorted
                .binary_search_by(|other| other.bytes().cmp(text))
                .is_ok();
        }
        if self.sorted.is_empty() {
            return false;
        }
        let last = self.sorted.len() - 1;
        belongs(op, text.cmp(self.sorted[0].bytes()))
            || belongs(op, text.cmp(self.sorted[last].bytes()))
    }
}
