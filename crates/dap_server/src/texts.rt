//! The texts that a stored file is answered with: its attributes, and the DDS of what a query leaves.

ghost use Rattle.std.specs.Prelude.{◌≡◌, ◌<◌, ◌≤◌, ℕ, List, length, IfOk, IfErr, Ok, Err, MatchResult};
ghost use Rattle.dap_types.specs.Limits.{most_text};
ghost use Rattle.dap_model.specs.Dds.{dds};
ghost use Rattle.dap_model.specs.Filter.{constrained};
ghost use Rattle.das_text.specs.Das.{das};
ghost use Rattle.das_text.specs.View.{attributes_view};
ghost use Rattle.dap_types.specs.Model.{Tree};
ghost use Rattle.dap_types.specs.View.{dataset_view};
ghost use Rattle.dap_types.specs.WellFormed.{IsWellFormed};
ghost use Rattle.grid_projection.specs.Resolved.{marks_in};
ghost use Rattle.dap_server.specs.Results.{DdsAnswers, das_text, result_text};
ghost use Rattle.dap_server.specs.inner.Opening.{WhereFault, WhereRefused, attributes_in, dataset_in, stored_of};

use crate::marked::marked_by;
use crate::no_answer::Stop;
use crate::open::Opened;
use dap_errors::Cause;
use dap_http::Kind;
use dap_types::{Bytes, Dataset, Memory};
use das_text::Attributes;
use grid_projection::Marks;
use std::alloc::Global;
use xdr_encode::{BodyRefusal, left_dds};

fn attributes_in(alloc: Global, opened: &Opened) -> Result<Attributes, Memory>
    ensures { IfOk result (λ a. attributes_view a ≡ attributes_in opened.now) }
{
    match opened {
        Opened::Netcdf(header) => header.attributes(alloc),
        Opened::Table(table) => table.attributes(alloc),
        Opened::Saved(response) => response.saved.attributes(alloc),
    }
}

/// The dataset of a stored file.
pub fn dataset_in(alloc: Global, opened: &Opened, name: &str) -> Result<Dataset, Memory>
    ensures dataset { IfOk result (λ d. dataset_view d ≡ dataset_in opened.now name.now) }
    ensures well_formed { IfOk result (λ d. IsWellFormed (dataset_view d)) }
{
    match opened {
        Opened::Netcdf(header) => header.dataset(alloc, name.as_bytes()),
        Opened::Table(table) => table.dataset(alloc),
        Opened::Saved(response) => response.dataset(alloc),
    }
}

/// The DAS of a stored file.
pub fn das_of(alloc: Global, opened: &Opened) -> Result<Bytes, Memory>
    ensures { IfOk result (λ text. text ≡ das (attributes_in opened.now)) }
{
    let attributes = attributes_in(alloc, opened)?;
    das_text::print(alloc, &attributes)
}

/// The DDS of what marks leave of a dataset. One that is too long is refused before it is printed.
pub fn dds_left(alloc: Global, dataset: &Dataset, marks: &Marks) -> Result<Bytes, Stop>
    requires { IsWellFormed (dataset_view dataset.now) }
    ensures text { IfOk result (λ text. text ≡ dds (constrained (marks_in marks.now) (dataset_view dataset.now))) }
    ensures short { IfOk result (λ text. length text ≤ most_text) }
    ensures refused { IfErr result (WhereRefused (λ why. (why ≡ Cause.TooLarge 0) × (most_text < length (dds (constrained (marks_in marks.now) (dataset_view dataset.now)))))) }
    ensures no_fault { IfErr result (WhereFault ⊥) }
{
    match left_dds(alloc, dataset, marks) {
        Ok(text) => Ok(text),
        Err(BodyRefusal::TooLarge { leaf }) => Err(Stop::Refused(Cause::TooLarge { leaf })),
        Err(BodyRefusal::Memory) => Err(Stop::Memory),
    }
}

/// The DDS of what a query leaves of a stored file.
pub fn dds_of(alloc: Global, opened: &Opened, name: &str, query: &[u8]) -> Result<Bytes, Stop>
    ensures text { IfOk result (λ text. (ts : List Tree) → DdsAnswers (stored_of opened.now name.now ts) query.now (Ok (result_text Kind.Dds text))) }
    ensures refused { IfErr result (WhereRefused (λ why. (ts : List Tree) → DdsAnswers (stored_of opened.now name.now ts) query.now (Err why))) }
    ensures no_fault { IfErr result (WhereFault ⊥) }
{
    let dataset = dataset_in(alloc, opened, name)?;
    let marked = marked_by(alloc, &dataset, query)?;
    let text = dds_left(alloc, &dataset, &marked.marks)?;
    Ok(text)
}
