ghost use Rattle.std.specs.Prelude.{◌≡◌, ℕ, ◌+◌, ◌≤◌, Bool, ◌||◌, [], ◌∷◌, ◌++◌, IfOk};
ghost use Rattle.dap_types.specs.NameSet.{HasAlso};
ghost use Rattle.netcdf_source.specs.Grammar.{length_fault, is_record_dimension};
ghost use Rattle.netcdf_source.specs.Parts.{length_at};
ghost use Rattle.netcdf_source.specs.inner.Reading.{Gives, Reads, new_name_at, judged_at, dimension_at, next_dimension, times, list_at};

use crate::Dimension;
use crate::failure::{Failure, Stop};
use crate::names::Names;
use crate::version::Width;
use crate::words::{bad, head, name_length, number, run};
use dap_types::{Id, List};
use std::alloc::Global;

/// The tag of a list of dimensions.
const TAG: u32 = 10;
/// The bytes of the least dimension.
const LEAST: usize = 12;

/// A name that differs from all of these, and is one of them from now on.
#[tactic(auto, unfolding(crate::specs::inner::Reading::new_name_at, crate::specs::Grammar::repeat_fault))]
pub fn new_name<'a>(
    alloc: Global,
    width: Width,
    names: &mut Names<'a>,
    bytes: &'a [u8],
) -> Result<(Id, &'a [u8]), Stop>
    ensures reading { Gives (λ x. (x.0, x.1.now)) result (new_name_at width names.old bytes.now) }
    ensures names { IfOk result (λ x. HasAlso names.old x.0 names.new) }
{
    let (length, rest) = name_length(width, bytes)?;
    let (name, after) = run(length, rest)?;
    if !names.insert(name)? {
        return Err(Stop::Failed(Failure::Bad(rest.len() + width.bytes())));
    }
    Ok((Id::raw(alloc, name)?, after))
}

/// The length of a dimension, behind a record dimension or not.
#[tactic(auto, unfolding(crate::specs::inner::Reading::judged_at, crate::specs::Grammar::length_fault))]
fn length(width: Width, has_records: bool, bytes: &[u8]) -> Result<(u64, &[u8]), Failure>
    ensures { Reads (λ x. (x.0, x.1.now)) result (judged_at width (length_fault width has_records) bytes.now) }
{
    let (number, rest) = number(width, bytes)?;
    if number > width.largest() || number == 0 && has_records {
        return Err(bad(bytes));
    }
    Ok((number, rest))
}

#[tactic(auto, unfolding(crate::specs::inner::Reading::dimension_at))]
fn dimension<'a>(
    alloc: Global,
    width: Width,
    names: &mut Names<'a>,
    has_records: bool,
    bytes: &'a [u8],
) -> Result<(Dimension, &'a [u8]), Stop>
    ensures reading { Gives (λ x. (x.0, x.1.now)) result (dimension_at width names.old has_records bytes.now) }
    ensures names { IfOk result (λ x. HasAlso names.old x.0.name names.new) }
{
    let (name, rest) = new_name(alloc, width, names, bytes)?;
    let (length, rest) = length(width, has_records, rest)?;
    Ok((Dimension { name, length }, rest))
}

/// Whether one of the dimensions up to this one is the record dimension.
fn with_records(has_records: bool, dimension: &Dimension) -> bool
    ensures { result ≡ (has_records || is_record_dimension dimension.now) }
{
    has_records || dimension.length == 0
}

fn items(
    alloc: Global,
    width: Width,
    count: u64,
    bytes: &[u8],
) -> Result<(List<Dimension>, &[u8]), Stop>
    ensures { Gives (λ x. (x.0, x.1.now)) result (times (next_dimension width) count [] bytes.now) }
{
    let room = (bytes.len() / LEAST).min(count as usize);
    let mut dimensions = List::with_capacity(alloc, room)?;
    let mut names = Names::new(alloc);
    let mut has_records = false;
    let mut rest = bytes;
    for _ in 0..count {
        let (dimension, after) = dimension(alloc, width, &mut names, has_records, rest)?;
        has_records = with_records(has_records, &dimension);
        dimensions.push(dimension)?;
        rest = after;
    }
    Ok((dimensions, rest))
}

/// The list of dimensions.
#[tactic(auto, unfolding(crate::specs::inner::Reading::list_at))]
pub fn dimensions(
    alloc: Global,
    width: Width,
    bytes: &[u8],
) -> Result<(List<Dimension>, &[u8]), Stop>
    ensures { Gives (λ x. (x.0, x.1.now)) result (list_at width 10 (next_dimension width) bytes.now) }
{
    let (count, rest) = head(width, TAG, bytes)?;
    items(alloc, width, count, rest)
}

/// The length of dimension number `id`, which is 0 for the record dimension.
#[tactic(auto, unfolding(crate::specs::Parts::length_at))]
pub fn length_of(dimensions: &[Dimension], id: u64) -> u64
    ensures { result ≡ length_at dimensions.now id }
{
    dimensions.get(id as usize).map_or(1, |d| d.length)
}
