//! Constraints, and what they mark of a dataset.

ghost use Rattle.dap_types.specs.View.{dataset_view};
ghost use Rattle.dap_types.specs.WellFormed.{IsWellFormed};

use constraint_parse::{Constraint, parse};
use dap_types::{Dataset, Index};
use grid_projection::{Marks, resolve};
use std::alloc::Global;
use std::test::Fail;

/// The constraint of this text.
pub fn constraint_of(alloc: Global, query: &[u8]) -> Result<Constraint, Fail> {
    Ok(parse(alloc, query)?)
}

/// What the constraint of this text marks.
pub fn marks_of(alloc: Global, dataset: &Dataset, query: &[u8]) -> Result<Marks, Fail>
    requires { IsWellFormed (dataset_view dataset.now) }
{
    let index = Index::new(alloc, dataset)?;
    let constraint = constraint_of(alloc, query)?;
    Ok(resolve(alloc, dataset, &index, &constraint)?)
}
