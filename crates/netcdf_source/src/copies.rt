ghost use Rattle.std.specs.Prelude.{◌≡◌, ℕ, List, IfOk};
ghost use Rattle.netcdf_source.specs.Mapping.{with_records};

use crate::header::Contents;
use crate::{Dimension, Shape, Variable};
use dap_types::{List, Memory};
use std::alloc::Global;

fn dimension(dimension: &Dimension) -> Result<Dimension, Memory>
    ensures { IfOk result (λ d. d ≡ dimension.now) }
{
    Ok(Dimension {
        name: dimension.name.try_clone()?,
        length: dimension.length,
    })
}

fn dimensions(alloc: Global, dimensions: &[Dimension]) -> Result<List<Dimension>, Memory>
    ensures { IfOk result (λ list. list ≡ dimensions.now) }
{
    let mut copies = List::with_capacity(alloc, dimensions.len())?;
    for item in dimensions {
        copies.push(dimension(item)?)?;
    }
    Ok(copies)
}

fn shape(alloc: Global, ids: &[u64]) -> Result<Shape, Memory>
    ensures { IfOk result (λ shape. shape ≡ ids.now) }
{
    let mut shape = Shape::with_capacity(alloc, ids.len())?;
    for id in ids {
        shape.push(*id)?;
    }
    Ok(shape)
}

fn variable(alloc: Global, variable: &Variable) -> Result<Variable, Memory>
    ensures { IfOk result (λ v. v ≡ variable.now) }
{
    Ok(Variable {
        name: variable.name.try_clone()?,
        dimensions: shape(alloc, variable.dimensions.items())?,
        attributes: variable.attributes.try_clone(alloc)?,
        external_type: variable.external_type,
        begin: variable.begin,
    })
}

fn variables(alloc: Global, variables: &[Variable]) -> Result<List<Variable>, Memory>
    ensures { IfOk result (λ list. list ≡ variables.now) }
{
    let mut copies = List::with_capacity(alloc, variables.len())?;
    for item in variables {
        copies.push(variable(alloc, item)?)?;
    }
    Ok(copies)
}

/// The same contents with another number of records.
pub fn with_records(alloc: Global, contents: &Contents, records: u64) -> Result<Contents, Memory>
    ensures { IfOk result (λ c. c ≡ with_records records contents.now) }
{
    Ok(Contents {
        records,
        dimensions: dimensions(alloc, contents.dimensions.items())?,
        attributes: contents.attributes.try_clone(alloc)?,
        variables: variables(alloc, contents.variables.items())?,
    })
}
