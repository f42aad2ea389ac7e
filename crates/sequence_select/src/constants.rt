ghost use Rattle.std.specs.Prelude.{◌≡◌, ◌++◌, map, OnOk, IfOk};
ghost use Rattle.std.specs.List.{flat_map};
ghost use Rattle.sequence_select.specs.Selections.{constant_values};
ghost use Rattle.sequence_select.specs.Operands.{operand_value};

use constraint_parse::{Constant, Number};
use dap_types::{Bytes, List, Memory};
use std::alloc::Global;

/// A constant that a column is compared with, of a kind that has an order.
#[derive(Debug, Drop)]
pub enum Operand {
    Whole(i128),
    Text(Bytes),
}

/// Appends a constant of a kind that has an order.
fn push_operand(
    alloc: Global,
    constant: &Constant,
    operands: &mut List<Operand>,
) -> Result<(), Memory>
    ensures { OnOk result (map operand_value operands.new ≡ map operand_value operands.old ++ constant_values constant.now) }
{
    match constant {
        Constant::Whole(Number::Small(number)) => {
            operands.push(Operand::Whole(*number))?;
            Ok(())
        }
        Constant::Text(text) => {
            operands.push(Operand::Text(Bytes::new(alloc, text.bytes())?))?;
            Ok(())
        }
        Constant::Whole(Number::Big) | Constant::Other => Ok(()),
    }
}

/// The constants of a clause.
pub(crate) fn operands(alloc: Global, constants: &[Constant]) -> Result<List<Operand>, Memory>
    ensures { IfOk result (λ operands. map operand_value operands ≡ flat_map constant_values constants.now) }
{
    let mut operands = List::new(alloc);
    for constant in constants {
        push_operand(alloc, constant, &mut operands)?;
    }
    Ok(operands)
}
