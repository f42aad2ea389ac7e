ghost use Rattle.std.specs.Prelude.{◌≡◌, ℕ, ℤ, Bool, List};
ghost use Rattle.std.specs.List.{list_any};
ghost use Rattle.sequence_select.specs.Operands.{numbers_in, texts_in};

use crate::constants::Operand;
use crate::numbers::Numbers;
use crate::texts::Texts;
use constraint_parse::Op;
use dap_types::List;

/// A clause: it holds where a value of the column stands in the relation to one of the constants.
#[derive(Debug, Drop)]
pub struct Test {
    /// The column's number as a member of the dataset.
    pub column: u32,
    pub op: Op,
    /// The constants as the clause has them.
    pub operands: List<Operand>,
    pub numbers: Numbers,
    pub texts: Texts,
    ghost same_numbers: { (p : ℤ → Bool) → list_any p numbers.sorted.items ≡ list_any p (numbers_in operands) },
    ghost same_texts: { (p : List ℕ → Bool) → list_any p texts.sorted.items ≡ list_any p (texts_in operands) },
}
