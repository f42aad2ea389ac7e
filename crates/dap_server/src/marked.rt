//! What a query marks of a dataset.

ghost use Rattle.std.specs.Prelude.{◌≡◌, ℕ, List, IfOk, IfErr, None, Some, Err};
ghost use Rattle.constraint_parse.specs.Values.{Spells};
ghost use Rattle.dap_errors.specs.declared.cause.Cause.{Cause};
ghost use Rattle.dap_model.specs.Filter.{SuitsAll};
ghost use Rattle.dap_types.specs.Numbered.{number_in};
ghost use Rattle.dap_types.specs.View.{dataset_view};
ghost use Rattle.dap_types.specs.WellFormed.{IsWellFormed, number_of};
ghost use Rattle.grid_projection.specs.Marks.{marks};
ghost use Rattle.grid_projection.specs.Resolved.{cause, marks_in};
ghost use Rattle.dap_server.specs.Results.{Reads};
ghost use Rattle.dap_server.specs.inner.Marking.{IsRefusedOn};
ghost use Rattle.dap_server.specs.inner.Opening.{WhereFault, WhereRefused, parse_stop};

use crate::no_answer::Stop;
use constraint_parse::{Constraint, ParseRefusal, parse};
use dap_errors::Cause;
use dap_types::{Dataset, Index};
use grid_projection::{Marks, Resolve, resolve};
use std::alloc::Global;

/// A constraint without a cause on a dataset, and what it marks.
#[derive(Drop)]
pub struct Marked {
    pub index: Index,
    pub constraint: Constraint,
    pub marks: Marks,
}

/// The stop of a query that is refused.
fn parse_stop(refusal: ParseRefusal) -> Stop
    ensures { result ≡ parse_stop refusal }
{
    match refusal {
        ParseRefusal::Syntax { place } => Stop::Refused(Cause::Syntax { place }),
        ParseRefusal::Memory => Stop::Memory,
    }
}

/// The constraint of a query.
fn constraint_in(alloc: Global, query: &[u8]) -> Result<Constraint, Stop>
    ensures spelled { IfOk result (Spells query.now) }
    ensures refused { IfErr result (WhereRefused (λ why. Reads query.now (Err why))) }
    ensures no_fault { IfErr result (WhereFault ⊥) }
{
    match parse(alloc, query) {
        Ok(constraint) => Ok(constraint),
        Err(refusal) => Err(parse_stop(refusal)),
    }
}

/// What a constraint marks of a dataset.
fn marks_of(
    alloc: Global,
    dataset: &Dataset,
    index: &Index,
    constraint: &Constraint,
) -> Result<Marks, Stop>
    requires well_formed { IsWellFormed (dataset_view dataset.now) }
    requires indexed { (path : List (List ℕ)) → number_in index.now path ≡ number_of (dataset_view dataset.now) path }
    ensures marks { IfOk result (λ m. marks_in m ≡ marks (dataset_view dataset.now) constraint.now) }
    ensures suits { IfOk result (λ m. SuitsAll (marks_in m) 1 (dataset_view dataset.now).members) }
    ensures accepted { IfOk result (λ m. cause (dataset_view dataset.now) constraint.now ≡ None) }
    ensures refused { IfErr result (WhereRefused (λ why. cause (dataset_view dataset.now) constraint.now ≡ Some why)) }
    ensures no_fault { IfErr result (WhereFault ⊥) }
{
    match resolve(alloc, dataset, index, constraint) {
        Ok(marks) => Ok(marks),
        Err(Resolve::Refused(cause)) => Err(Stop::Refused(cause)),
        Err(Resolve::Memory) => Err(Stop::Memory),
    }
}

/// What a query marks of a dataset, or the first cause for which it is refused there.
pub fn marked_by(alloc: Global, dataset: &Dataset, query: &[u8]) -> Result<Marked, Stop>
    requires { IsWellFormed (dataset_view dataset.now) }
    ensures spelled { IfOk result (λ m. Spells query.now m.constraint) }
    ensures indexed { IfOk result (λ m. (path : List (List ℕ)) → number_in m.index path ≡ number_of (dataset_view dataset.now) path) }
    ensures marks { IfOk result (λ m. marks_in m.marks ≡ marks (dataset_view dataset.now) m.constraint) }
    ensures suits { IfOk result (λ m. SuitsAll (marks_in m.marks) 1 (dataset_view dataset.now).members) }
    ensures accepted { IfOk result (λ m. cause (dataset_view dataset.now) m.constraint ≡ None) }
    ensures refused { IfErr result (WhereRefused (IsRefusedOn (dataset_view dataset.now) query.now)) }
    ensures no_fault { IfErr result (WhereFault ⊥) }
{
    let constraint = constraint_in(alloc, query)?;
    let index = Index::new(alloc, dataset)?;
    let marks = marks_of(alloc, dataset, &index, &constraint)?;
    Ok(Marked {
        index,
        constraint,
        marks,
    })
}
