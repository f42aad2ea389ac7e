ghost use Rattle.std.specs.Prelude.{◌≡◌, ℕ, ◌+◌, ◌^◌, ◌≤◌, Bool, List, [], ◌∷◌, ◌++◌, IfOk};
ghost use Rattle.dap_types.specs.NameSet.{HasAlso};
ghost use Rattle.netcdf_source.specs.Grammar.{rank_fault, dimension_fault, size_fault, part_fault};
ghost use Rattle.netcdf_source.specs.Parts.{share};
ghost use Rattle.netcdf_source.specs.Versions.{number_width};
ghost use Rattle.netcdf_source.specs.inner.Reading.{Gives, Reads, judged_at, next_id, ids_at, variable_at, next_variable, times, list_at};

use crate::attributes::attributes;
use crate::dimensions::{length_of, new_name};
use crate::failure::{Failure, Stop};
use crate::names::Names;
use crate::parts::grown;
use crate::version::{Version, Width};
use crate::words::{bad, begin, external_type, head, number};
use crate::{Dimension, ExternalType, Shape, Variable};
use dap_types::{List, limits};
use std::alloc::Global;

/// The tag of a list of variables.
const TAG: u32 = 11;
/// The most dimensions of a variable.
const RANK_MAX: u64 = limits::MOST_DIMENSIONS as u64;
/// The bytes of the least variable.
const LEAST: usize = 32;

#[tactic(auto, unfolding(crate::specs::inner::Reading::judged_at, crate::specs::Grammar::rank_fault))]
fn rank(width: Width, bytes: &[u8]) -> Result<(u64, &[u8]), Failure>
    ensures { Reads (λ x. (x.0, x.1.now)) result (judged_at width rank_fault bytes.now) }
{
    let (number, rest) = number(width, bytes)?;
    if number > RANK_MAX {
        return Err(bad(bytes));
    }
    Ok((number, rest))
}

/// The number of a dimension. The record dimension stands first alone.
#[tactic(auto, unfolding(crate::specs::inner::Reading::judged_at, crate::specs::Grammar::dimension_fault))]
fn dimension<'a>(
    width: Width,
    dimensions: &[Dimension],
    is_first: bool,
    bytes: &'a [u8],
) -> Result<(u64, &'a [u8]), Failure>
    ensures { Reads (λ x. (x.0, x.1.now)) result (judged_at width (dimension_fault dimensions.now is_first) bytes.now) }
{
    let (number, rest) = number(width, bytes)?;
    if number >= dimensions.len() as u64 || !is_first && length_of(dimensions, number) == 0 {
        return Err(bad(bytes));
    }
    Ok((number, rest))
}

fn dimension_items<'a>(
    alloc: Global,
    width: Width,
    dimensions: &[Dimension],
    rank: u64,
    bytes: &'a [u8],
) -> Result<(Shape, &'a [u8]), Stop>
    ensures { Gives (λ x. (x.0, x.1.now)) result (times (next_id width dimensions.now) rank [] bytes.now) }
{
    let mut ids = Shape::with_capacity(alloc, rank as usize)?;
    let mut rest = bytes;
    for _ in 0..rank {
        let (id, after) = dimension(width, dimensions, ids.items().is_empty(), rest)?;
        ids.push(id)?;
        rest = after;
    }
    Ok((ids, rest))
}

/// The dimensions of a variable.
#[tactic(auto, unfolding(crate::specs::inner::Reading::ids_at))]
fn ids<'a>(
    alloc: Global,
    width: Width,
    dimensions: &[Dimension],
    bytes: &'a [u8],
) -> Result<(Shape, &'a [u8]), Stop>
    ensures { Gives (λ x. (x.0, x.1.now)) result (ids_at width dimensions.now bytes.now) }
{
    let (rank, rest) = rank(width, bytes)?;
    dimension_items(alloc, width, dimensions, rank, rest)
}

/// A variable's `vsize`, which may be any number, and the bytes of a record with this variable.
#[tactic(auto, unfolding(crate::specs::inner::Reading::judged_at, crate::specs::Grammar::size_fault))]
fn vsize<'a>(
    width: Width,
    dimensions: &[Dimension],
    sum: u64,
    ids: &[u64],
    external_type: ExternalType,
    bytes: &'a [u8],
) -> Result<(u64, u64, &'a [u8]), Failure>
    requires { sum ≤ 2 ^ 62 }
    ensures reading { Reads (λ x. (x.0, x.2.now)) result (judged_at width (size_fault dimensions.now sum ids.now external_type) bytes.now) }
    ensures sum { IfOk result (λ x. (x.1 ≡ sum + share dimensions.now ids.now external_type) × (x.1 ≤ 2 ^ 62)) }
{
    let (size, rest) = number(width, bytes)?;
    match grown(dimensions, sum, ids, external_type) {
        Some(sum) => Ok((size, sum, rest)),
        None => Err(bad(bytes)),
    }
}

/// A variable, and the bytes of a record with it.
#[tactic(auto, unfolding(crate::specs::inner::Reading::variable_at))]
fn variable<'a>(
    alloc: Global,
    version: Version,
    dimensions: &[Dimension],
    names: &mut Names<'a>,
    sum: u64,
    bytes: &'a [u8],
) -> Result<(Variable, u64, &'a [u8]), Stop>
    requires { sum ≤ 2 ^ 62 }
    ensures reading { Gives (λ x. (x.0, x.2.now)) result (variable_at version dimensions.now names.old sum bytes.now) }
    ensures names { IfOk result (λ x. HasAlso names.old x.0.name names.new) }
    ensures sum { IfOk result (λ x. (x.1 ≡ sum + share dimensions.now x.0.dimensions x.0.external_type) × (x.1 ≤ 2 ^ 62)) }
{
    let width = version.number_width();
    let (name, rest) = new_name(alloc, width, names, bytes)?;
    let (ids, rest) = ids(alloc, width, dimensions, rest)?;
    let (attributes, rest) = attributes(alloc, version, rest)?;
    let (external_type, rest) = external_type(version, rest)?;
    let (_, sum, rest) = vsize(width, dimensions, sum, ids.items(), external_type, rest)?;
    let (begin, rest) = begin(version.place_width(), rest)?;
    Ok((
        Variable {
            name,
            dimensions: ids,
            attributes,
            external_type,
            begin,
        },
        sum,
        rest,
    ))
}

fn items<'a>(
    alloc: Global,
    version: Version,
    dimensions: &[Dimension],
    count: u64,
    bytes: &'a [u8],
) -> Result<(List<Variable>, &'a [u8]), Stop>
    ensures { Gives (λ x. (x.0, x.1.now)) result (times (next_variable version dimensions.now) count [] bytes.now) }
{
    let room = (bytes.len() / LEAST).min(count as usize);
    let mut variables = List::with_capacity(alloc, room)?;
    let mut names = Names::new(alloc);
    let mut sum = 0u64;
    let mut rest = bytes;
    for _ in 0..count {
        let (variable, grown, after) = variable(alloc, version, dimensions, &mut names, sum, rest)?;
        sum = grown;
        variables.push(variable)?;
        rest = after;
    }
    Ok((variables, rest))
}

/// The list of variables.
#[tactic(auto, unfolding(crate::specs::inner::Reading::list_at))]
pub fn variables<'a>(
    alloc: Global,
    version: Version,
    dimensions: &[Dimension],
    bytes: &'a [u8],
) -> Result<(List<Variable>, &'a [u8]), Stop>
    ensures { Gives (λ x. (x.0, x.1.now)) result (list_at (number_width version) 11 (next_variable version dimensions.now) bytes.now) }
{
    let (count, rest) = head(version.number_width(), TAG, bytes)?;
    items(alloc, version, dimensions, count, rest)
}
