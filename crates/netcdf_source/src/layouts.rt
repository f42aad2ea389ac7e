ghost use Rattle.std.specs.Prelude.{◌≡◌, ℕ, ◌*◌, ◌^◌, ◌<◌, ◌≤◌, Bool, List, [], ◌∷◌, ◌++◌, map, length, IfOk, OnOk, if◌then◌else◌};
ghost use Rattle.dap_types.specs.Limits.{most_piece};
ghost use Rattle.netcdf_source.specs.Layouts.{row_steps, steps_of, layout_of, SuffixesFit, HasSteps, HaveSteps};
ghost use Rattle.netcdf_source.specs.Mapping.{element_size};
ghost use Rattle.netcdf_source.specs.Parts.{lengths, record_size};
ghost use Rattle.netcdf_source.specs.inner.Told.{told_layout};

use crate::header::Contents;
use crate::parts::{inner, is_record, times_lengths};
use crate::texts::{element_dimensions, element_size, is_offered};
use crate::{Dimension, Variable};
use dap_types::{Layout, List, Memory};
use std::alloc::Global;

/// The step over records, where there is one, with room for so many steps.
fn record_steps(
    alloc: Global,
    count: usize,
    is_record: bool,
    step: u64,
) -> Result<List<u64>, Memory>
    ensures { IfOk result (λ steps. steps ≡ (if is_record then step ∷ [] else [])) }
{
    let mut steps = List::with_capacity(alloc, count)?;
    if is_record {
        steps.push(step)?;
    }
    Ok(steps)
}

/// Puts the row-major steps over these dimensions behind the others.
fn push_row_steps(
    steps: &mut List<u64>,
    dimensions: &[Dimension],
    ids: &[u64],
    size: u32,
) -> Result<(), Memory>
    requires { SuffixesFit (lengths dimensions.now ids.now) size }
    ensures { OnOk result (steps.new ≡ steps.old ++ row_steps size (lengths dimensions.now ids.now)) }
{
    for i in 0..ids.len() {
        let behind = &ids[i + 1..];
        steps.push(times_lengths(dimensions, behind, u64::from(size)))?;
    }
    Ok(())
}

/// Where the elements of a variable stand, `step` being the bytes of a record.
#[tactic(auto, unfolding(crate::specs::Layouts::steps_of, crate::specs::Layouts::HasSteps))]
fn layout(
    alloc: Global,
    contents: &Contents,
    step: u64,
    variable: &Variable,
) -> Result<Layout, Memory>
    requires steps { HasSteps contents.now variable.now }
    requires size { element_size contents.now variable.now ≤ most_piece }
    requires record { step ≡ record_size contents.now.dimensions contents.now.variables }
    ensures { IfOk result (λ l. l ≡ layout_of contents.now variable.now) }
{
    let dimensions = contents.dimensions.items();
    let ids = element_dimensions(contents, variable);
    let size = element_size(contents, variable) as u32;
    let mut steps = record_steps(alloc, ids.len(), is_record(dimensions, ids), step)?;
    push_row_steps(&mut steps, dimensions, inner(dimensions, ids), size)?;
    Ok(Layout {
        base: variable.begin,
        steps,
        size,
    })
}

/// The layout of a variable that is offered, and none for another one.
#[tactic(auto, unfolding(crate::specs::inner::Told::told_layout))]
fn told_layout(
    alloc: Global,
    contents: &Contents,
    step: u64,
    variable: &Variable,
) -> Result<Layout, Memory>
    requires steps { HasSteps contents.now variable.now }
    requires record { step ≡ record_size contents.now.dimensions contents.now.variables }
    ensures { IfOk result (λ l. l ≡ told_layout contents.now variable.now) }
{
    if is_offered(contents, variable) {
        return layout(alloc, contents, step, variable);
    }
    Ok(Layout {
        base: 0,
        steps: List::new(alloc),
        size: 0,
    })
}

/// Where the elements of each variable that is offered stand.
pub fn layouts(alloc: Global, contents: &Contents, step: u64) -> Result<List<Layout>, Memory>
    requires steps { HaveSteps contents.now contents.now.variables }
    requires record { step ≡ record_size contents.now.dimensions contents.now.variables }
    ensures { IfOk result (λ ls. ls ≡ map (told_layout contents.now) contents.now.variables) }
{
    let mut layouts = List::with_capacity(alloc, contents.variables.items().len())?;
    for variable in contents.variables.items() {
        layouts.push(told_layout(alloc, contents, step, variable)?)?;
    }
    Ok(layouts)
}
