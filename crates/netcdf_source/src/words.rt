ghost use Rattle.std.specs.Prelude.{◌≡◌, ℕ, ◌+◌, ◌<◌, ◌≤◌, ◌*◌, ◌^◌, List, length, Ok, IfOk, Bool};
ghost use Rattle.dap_model.specs.Xdr.{padded};
ghost use Rattle.netcdf_source.specs.Grammar.{records_fault, tag_fault, count_fault, name_fault, no_fault, begin_fault};
ghost use Rattle.netcdf_source.specs.Versions.{number_width, place_width};
ghost use Rattle.netcdf_source.specs.declared.version.Width.TheVariants.{Four};
ghost use Rattle.netcdf_source.specs.inner.Reading.{Reads, word_at, long_at, number_at, run_at, judged_at, type_at, head_at, name_at};

use crate::ExternalType;
use crate::failure::Failure;
use crate::version::{Version, Width};
use dap_types::limits;

/// The refusal of the field that these bytes begin with.
pub fn bad(bytes: &[u8]) -> Failure
    ensures { result ≡ Failure.Bad (length bytes.now) }
{
    Failure::Bad(bytes.len())
}

/// A number of four bytes.
#[tactic(auto, unfolding(crate::specs::inner::Reading::word_at))]
pub fn word(bytes: &[u8]) -> Result<(u32, &[u8]), Failure>
    ensures { Reads (λ x. (x.0, x.1.now)) result (word_at bytes.now) }
{
    if bytes.len() < 4 {
        return Err(Failure::Cut);
    }
    let (front, rest) = bytes.split_at(4);
    let number = u32::from_be_bytes([front[0], front[1], front[2], front[3]]);
    Ok((number, rest))
}

/// A number of eight bytes.
#[tactic(auto, unfolding(crate::specs::inner::Reading::long_at))]
fn long(bytes: &[u8]) -> Result<(u64, &[u8]), Failure>
    ensures { Reads (λ x. (x.0, x.1.now)) result (long_at bytes.now) }
{
    if bytes.len() < 8 {
        return Err(Failure::Cut);
    }
    let (front, rest) = bytes.split_at(8);
    let number = u64::from_be_bytes([
        front[0], front[1], front[2], front[3], front[4], front[5], front[6], front[7],
    ]);
    Ok((number, rest))
}

/// A number of that width.
pub fn number(width: Width, bytes: &[u8]) -> Result<(u64, &[u8]), Failure>
    ensures { Reads (λ x. (x.0, x.1.now)) result (number_at width bytes.now) }
{
    match width {
        Width::Four => {
            let (number, rest) = word(bytes)?;
            Ok((u64::from(number), rest))
        }
        Width::Eight => long(bytes),
    }
}

/// A number that may be any.
#[tactic(auto, unfolding(crate::specs::inner::Reading::judged_at))]
pub fn any_number(width: Width, bytes: &[u8]) -> Result<(u64, &[u8]), Failure>
    ensures { Reads (λ x. (x.0, x.1.now)) result (judged_at width no_fault bytes.now) }
{
    number(width, bytes)
}

/// So many bytes, and behind them their padding to a multiple of four.
#[tactic(auto, unfolding(crate::specs::inner::Reading::run_at))]
pub fn run(length: u64, bytes: &[u8]) -> Result<(&[u8], &[u8]), Failure>
    requires { length < 2 ^ 63 }
    ensures { Reads (λ x. (x.0.now, x.1.now)) result (run_at length bytes.now) }
{
    let whole = length + (3 - (length + 3) % 4);
    if (bytes.len() as u64) < whole {
        return Err(Failure::Cut);
    }
    Ok((&bytes[..length as usize], &bytes[whole as usize..]))
}

/// So many values of that many bytes each, and their padding.
#[tactic(auto, unfolding(crate::specs::inner::Reading::run_at))]
pub fn values(count: u64, size: u32, bytes: &[u8]) -> Result<(&[u8], &[u8]), Failure>
    ensures { Reads (λ x. (x.0.now, x.1.now)) result (run_at (count * size) bytes.now) }
{
    let Some(length) = count.checked_mul(u64::from(size)) else {
        return Err(Failure::Cut);
    };
    if length > bytes.len() as u64 {
        return Err(Failure::Cut);
    }
    run(length, bytes)
}

/// The number of records.
#[tactic(auto, unfolding(crate::specs::inner::Reading::judged_at, crate::specs::Grammar::records_fault))]
pub fn records(width: Width, bytes: &[u8]) -> Result<(u64, &[u8]), Failure>
    ensures { Reads (λ x. (x.0, x.1.now)) result (judged_at width (records_fault width) bytes.now) }
{
    let (number, rest) = number(width, bytes)?;
    if number == width.all_ones() {
        return Err(Failure::Streaming);
    }
    if number > width.largest() {
        return Err(bad(bytes));
    }
    Ok((number, rest))
}

/// The tag of a list: its own, or 0 where the list is absent.
#[tactic(auto, unfolding(crate::specs::inner::Reading::judged_at, crate::specs::Grammar::tag_fault))]
fn tag(wanted: u32, bytes: &[u8]) -> Result<(u32, &[u8]), Failure>
    ensures { Reads (λ x. (x.0, x.1.now)) result (judged_at Four (tag_fault wanted) bytes.now) }
{
    let (number, rest) = word(bytes)?;
    if number != 0 && number != wanted {
        return Err(bad(bytes));
    }
    Ok((number, rest))
}

/// The number of items of a list with that tag.
#[tactic(auto, unfolding(crate::specs::inner::Reading::judged_at, crate::specs::Grammar::count_fault))]
fn count(width: Width, tag: u32, bytes: &[u8]) -> Result<(u64, &[u8]), Failure>
    ensures { Reads (λ x. (x.0, x.1.now)) result (judged_at width (count_fault tag) bytes.now) }
{
    let (number, rest) = number(width, bytes)?;
    if tag == 0 && number != 0 {
        return Err(bad(bytes));
    }
    Ok((number, rest))
}

/// The tag of a list and the number of its items.
#[tactic(auto, unfolding(crate::specs::inner::Reading::head_at))]
pub fn head(width: Width, wanted: u32, bytes: &[u8]) -> Result<(u64, &[u8]), Failure>
    ensures { Reads (λ x. (x.0, x.1.now)) result (head_at width wanted bytes.now) }
{
    let (tag, rest) = tag(wanted, bytes)?;
    count(width, tag, rest)
}

/// The length of a name: 1 to 256.
#[tactic(auto, unfolding(crate::specs::inner::Reading::judged_at, crate::specs::Grammar::name_fault))]
pub fn name_length(width: Width, bytes: &[u8]) -> Result<(u64, &[u8]), Failure>
    ensures reading { Reads (λ x. (x.0, x.1.now)) result (judged_at width name_fault bytes.now) }
    ensures few { IfOk result (λ x. x.0 ≤ 256) }
{
    let (number, rest) = number(width, bytes)?;
    if number == 0 || number > limits::MOST_NAME {
        return Err(bad(bytes));
    }
    Ok((number, rest))
}

/// A name, which may repeat another one.
#[tactic(auto, unfolding(crate::specs::inner::Reading::name_at))]
pub fn name(width: Width, bytes: &[u8]) -> Result<(&[u8], &[u8]), Failure>
    ensures { Reads (λ x. (x.0.now, x.1.now)) result (name_at width bytes.now) }
{
    let (length, rest) = name_length(width, bytes)?;
    run(length, rest)
}

/// A type.
#[tactic(auto, unfolding(crate::specs::inner::Reading::type_at))]
pub fn external_type(version: Version, bytes: &[u8]) -> Result<(ExternalType, &[u8]), Failure>
    ensures { Reads (λ x. (x.0, x.1.now)) result (type_at version bytes.now) }
{
    let (number, rest) = word(bytes)?;
    match ExternalType::of_number(version, number) {
        Some(external_type) => Ok((external_type, rest)),
        None => Err(bad(bytes)),
    }
}

/// The place of a variable.
#[tactic(auto, unfolding(crate::specs::inner::Reading::judged_at, crate::specs::Grammar::begin_fault))]
pub fn begin(width: Width, bytes: &[u8]) -> Result<(u64, &[u8]), Failure>
    ensures { Reads (λ x. (x.0, x.1.now)) result (judged_at width begin_fault bytes.now) }
{
    let (number, rest) = number(width, bytes)?;
    if number >= 1 << 63 {
        return Err(bad(bytes));
    }
    Ok((number, rest))
}
