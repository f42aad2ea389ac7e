ghost use Rattle.std.specs.Prelude.{◌≡◌, ℕ, ◌+◌, ◌-◌, ◌*◌, ◌^◌, ◌<◌, ◌≤◌, Bool, ◌&&◌, not, ◌==◌, List, true, nat_lt, length, if◌then◌else◌};
ghost use Rattle.dap_model.specs.Xdr.{padded};
ghost use Rattle.netcdf_source.specs.Parts.{is_record, part, share, shares, record_size, bare, mark, is_past, past_end};
ghost use Rattle.netcdf_source.specs.inner.Sound.{IsSound, HasSize, HaveSizes};

use crate::header::Contents;
use crate::parts::{is_record, part};
use crate::{Dimension, Variable};

/// What variables add to a record.
#[derive(Clone, Copy, Drop)]
struct Shares {
    /// The number of record variables.
    count: u64,
    /// The bytes of their parts.
    bare: u64,
    /// The same, with each part padded to a multiple of four.
    padded: u64,
}

/// The bytes of a variable's part.
fn part_of(dimensions: &[Dimension], variable: &Variable) -> u64
    requires { HasSize dimensions.now variable.now }
    ensures part { result ≡ part dimensions.now variable.now.dimensions variable.now.external_type }
    ensures limit { result ≤ 2 ^ 62 }
{
    part(
        dimensions,
        variable.dimensions.items(),
        variable.external_type,
    )
}

/// What a variable adds to a record.
fn shares_of(dimensions: &[Dimension], variable: &Variable) -> Shares
    requires { HasSize dimensions.now variable.now }
    ensures count { result.count ≡ mark dimensions.now variable.now }
    ensures bare { result.bare ≡ bare dimensions.now variable.now }
    ensures padded { result.padded ≡ share dimensions.now variable.now.dimensions variable.now.external_type }
    ensures few { result.padded ≤ 2 ^ 62 + 3 }
{
    if !is_record(dimensions, variable.dimensions.items()) {
        return Shares {
            count: 0,
            bare: 0,
            padded: 0,
        };
    }
    let part = part_of(dimensions, variable);
    Shares {
        count: 1,
        bare: part,
        padded: part + (3 - (part + 3) % 4),
    }
}

/// The bytes of a record. A single record variable is not padded (netCDF classic format, "Note on
/// padding").
pub fn record_size(dimensions: &[Dimension], variables: &[Variable]) -> u64
    requires sizes { HaveSizes dimensions.now variables.now }
    requires count { length variables.now < 2 ^ 32 }
    requires sum { shares dimensions.now variables.now ≤ 2 ^ 62 }
    ensures { result ≡ record_size dimensions.now variables.now }
{
    let mut count = 0u64;
    let mut bare = 0u64;
    let mut padded = 0u64;
    for variable in variables {
        let shares = shares_of(dimensions, variable);
        count += shares.count;
        bare += shares.bare;
        padded += shares.padded;
    }
    if count == 1 { bare } else { padded }
}

/// Whether bytes from `begin` on, `size` behind so many steps, end behind the end of the file.
fn ends_past(begin: u64, steps: u64, step: u64, size: u64, file_len: u64) -> bool
    ensures { result ≡ nat_lt file_len (begin + steps * step + size) }
{
    let Some(distance) = steps.checked_mul(step) else {
        return true;
    };
    let Some(last) = begin.checked_add(distance) else {
        return true;
    };
    match last.checked_add(size) {
        Some(end) => end > file_len,
        None => true,
    }
}

/// The records before the last one.
fn records_before(is_record: bool, records: u64) -> u64
    ensures { result ≡ (if is_record then records - 1 else 0) }
{
    if is_record {
        records.saturating_sub(1)
    } else {
        0
    }
}

/// Whether a variable has an element.
fn has_element(is_record: bool, records: u64) -> bool
    ensures { result ≡ not (is_record && records == 0) }
{
    !is_record || records != 0
}

/// Whether the last byte of a variable stands behind the end of the file.
#[tactic(auto, unfolding(crate::specs::Parts::end_of))]
fn is_past(contents: &Contents, step: u64, variable: &Variable, file_len: u64) -> bool
    requires size { HasSize contents.now.dimensions variable.now }
    requires record { step ≡ record_size contents.now.dimensions contents.now.variables }
    ensures { result ≡ is_past contents.now file_len variable.now }
{
    let dimensions = contents.dimensions.items();
    let is_record = is_record(dimensions, variable.dimensions.items());
    let size = part_of(dimensions, variable);
    let steps = records_before(is_record, contents.records);
    let is_behind = ends_past(variable.begin, steps, step, size, file_len);
    has_element(is_record, contents.records) && is_behind
}

/// The number of the first variable, from 1, whose last byte stands behind the end of the file,
/// `step` being the bytes of a record.
#[tactic(auto, unfolding(crate::specs::Parts::past_end))]
pub fn past_end(contents: &Contents, step: u64, file_len: u64) -> Option<u32>
    requires sound { IsSound contents.now }
    requires record { step ≡ record_size contents.now.dimensions contents.now.variables }
    ensures { result ≡ past_end contents.now file_len }
{
    let variables = contents.variables.items();
    for (i, variable) in variables.iter().enumerate() {
        if is_past(contents, step, variable, file_len) {
            return Some(i as u32 + 1);
        }
    }
    None
}
