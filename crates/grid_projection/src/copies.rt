ghost use Rattle.std.specs.Prelude.{◌≡◌, IfOk};
ghost use Rattle.dap_model.specs.Cutting.{counted};

use dap_types::{ArrayDecl, Column, Dim, Id, List, Memory, Slab};
use std::alloc::Global;

pub fn copied(column: &Column) -> Result<Column, Memory>
    ensures { IfOk result (λ c. c ≡ column.now) }
{
    Ok(Column {
        name: column.name.try_clone()?,
        base: column.base,
    })
}

fn copied_name(name: &Option<Id>) -> Result<Option<Id>, Memory>
    ensures { IfOk result (λ o. o ≡ name.now) }
{
    match name {
        Some(id) => Ok(Some(id.try_clone()?)),
        None => Ok(None),
    }
}

/// The array with its sizes replaced by the counts of the hyperslabs.
pub fn counted(alloc: Global, slabs: &[Slab], array: &ArrayDecl) -> Result<ArrayDecl, Memory>
    ensures { IfOk result (λ a. a ≡ counted slabs.now array.now) }
{
    let mut dims = List::new(alloc);
    for (k, dim) in array.dims.items().iter().enumerate() {
        let Some(slab) = slabs.get(k) else {
            break;
        };
        dims.push(Dim {
            name: copied_name(&dim.name)?,
            size: slab.count,
        })?;
    }
    Ok(ArrayDecl {
        name: array.name.try_clone()?,
        base: array.base,
        dims,
    })
}
