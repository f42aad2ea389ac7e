ghost use Rattle.std.specs.Prelude.{◌≡◌, ℕ, ◌+◌, ◌*◌, ◌^◌, ◌≤◌, Bool, List, min, Some, None, MatchOption};
ghost use Rattle.dap_types.specs.Model.{product};
ghost use Rattle.netcdf_source.specs.Fields.{bad};
ghost use Rattle.netcdf_source.specs.Grammar.{part_fault};
ghost use Rattle.netcdf_source.specs.Parts.{lengths, inner, is_record, part, share};

use crate::dimensions::length_of;
use crate::{Dimension, ExternalType};
use dap_types::limits;

/// The most bytes of a variable, and of a record.
pub const LIMIT: u64 = limits::MOST_VARIABLE;

/// Whether a variable over these dimensions has a part in each record.
pub fn is_record(dimensions: &[Dimension], ids: &[u64]) -> bool
    ensures { result ≡ is_record dimensions.now ids.now }
{
    match ids {
        [first, ..] => length_of(dimensions, *first) == 0,
        [] => false,
    }
}

/// The dimensions inside a record, or all of them.
pub fn inner<'a>(dimensions: &[Dimension], ids: &'a [u64]) -> &'a [u64]
    ensures { lengths dimensions.now result.now ≡ inner (lengths dimensions.now ids.now) }
{
    match ids {
        [first, rest @ ..] if length_of(dimensions, *first) == 0 => rest,
        _ => ids,
    }
}

/// `count` times the product of the lengths, or one more than the limit where that is above it.
pub fn times_lengths(dimensions: &[Dimension], ids: &[u64], count: u64) -> u64
    requires { count ≤ 2 ^ 62 + 1 }
    ensures { result ≡ min (count * product (lengths dimensions.now ids.now)) (2 ^ 62 + 1) }
{
    let mut total = count;
    for id in ids {
        let length = length_of(dimensions, *id);
        total = total.saturating_mul(length).min(LIMIT + 1);
    }
    total
}

/// The bytes of a variable's part, or one more than the limit where they are above it.
#[tactic(auto, unfolding(crate::specs::Parts::part))]
pub fn part(dimensions: &[Dimension], ids: &[u64], external_type: ExternalType) -> u64
    ensures { result ≡ min (part dimensions.now ids.now external_type) (2 ^ 62 + 1) }
{
    let size = u64::from(external_type.size());
    times_lengths(dimensions, inner(dimensions, ids), size)
}

/// The bytes of a record with one more variable, or none where the variable or the record is
/// larger than the limit.
#[tactic(auto, unfolding(crate::specs::Grammar::part_fault))]
pub fn grown(
    dimensions: &[Dimension],
    sum: u64,
    ids: &[u64],
    external_type: ExternalType,
) -> Option<u64>
    requires { sum ≤ 2 ^ 62 }
    ensures { MatchOption result (part_fault dimensions.now sum ids.now external_type ≡ Some (bad 0))
        (λ s. (part_fault dimensions.now sum ids.now external_type ≡ None) × (s ≡ sum + share dimensions.now ids.now external_type) × (s ≤ 2 ^ 62)) }
{
    let part = part(dimensions, ids, external_type);
    if part > LIMIT {
        return None;
    }
    if !is_record(dimensions, ids) {
        return Some(sum);
    }
    let sum = sum + (part + (3 - (part + 3) % 4));
    if sum > LIMIT { None } else { Some(sum) }
}
