//! The numbers that the cells of a column write.

ghost use Rattle.std.specs.Prelude.{◌≡◌, ◌≤◌, ◌<◌, ◌^◌, ◌⊎◌, pos, neg_ℤ, ◌≤ℤ◌, ◌<ℤ◌, true, false, MatchOption, IfSome};
ghost use Rattle.std.specs.Str.Parse.{digits_value, signed_digits_value, starts_with_minus, without_leading_sign};
ghost use Rattle.csv_source.specs.Cells.{are_digits, bits_of, is_bits, is_in, is_whole, least, limit, trimmed, whole_of, without_end_spaces, without_front_spaces};

use dap_types::BaseType;
use float_text::{Floats, Reading, read32, read64};
use viable::number_within;

/// The greatest number without its sign: that of an UInt32.
const GREATEST: u64 = 4_294_967_295;

fn without_front_spaces(text: &[u8]) -> &[u8]
    ensures { result.now ≡ without_front_spaces text.now }
{
    let mut start = 0;
    while start < text.len() && text[start] == b' ' {
        start += 1;
    }
    &text[start..]
}

fn without_end_spaces(text: &[u8]) -> &[u8]
    ensures { result.now ≡ without_end_spaces text.now }
{
    let mut end = text.len();
    while end > 0 && text[end - 1] == b' ' {
        end -= 1;
    }
    &text[..end]
}

fn without_sign(text: &[u8]) -> &[u8]
    ensures { result.now ≡ without_leading_sign text.now }
{
    match text {
        [b'-', rest @ ..] => rest,
        [b'+', rest @ ..] => rest,
        _ => text,
    }
}

fn has_minus(text: &[u8]) -> bool
    ensures { result ≡ starts_with_minus text.now }
{
    match text {
        [first, ..] => *first == b'-',
        _ => false,
    }
}

/// The number that an optional sign and digits write, where it is no greater than that of any type.
#[tactic(auto, unfolding(crate::specs::Cells::are_digits))]
fn signed(text: &[u8]) -> Option<i64>
    ensures number { MatchOption result ((are_digits (without_leading_sign text.now) ≡ false) ⊎ (4294967295 < digits_value 10 (without_leading_sign text.now))) (λ z. (are_digits (without_leading_sign text.now) ≡ true) × (z ≡ signed_digits_value 10 text.now)) }
    ensures small { IfSome result (λ z. (neg_ℤ (pos (2 ^ 40)) ≤ℤ z) × (z <ℤ pos (2 ^ 40))) }
{
    let magnitude = number_within(without_sign(text), GREATEST)? as i64;
    if has_minus(text) {
        Some(-magnitude)
    } else {
        Some(magnitude)
    }
}

fn low(base: BaseType) -> i64
    ensures { result ≡ least base }
{
    match base {
        BaseType::Int16 => -32_768,
        BaseType::Int32 => -2_147_483_648,
        _ => 0,
    }
}

fn past(base: BaseType) -> i64
    ensures { result ≡ limit base }
{
    match base {
        BaseType::Byte => 256,
        BaseType::Int16 => 32_768,
        BaseType::UInt16 => 65_536,
        BaseType::Int32 => 2_147_483_648,
        BaseType::UInt32 => 4_294_967_296,
        _ => 0,
    }
}

fn is_in(base: BaseType, number: i64) -> bool
    ensures { result ≡ is_in base number }
{
    low(base) <= number && number < past(base)
}

/// The number that a cell of a column of this type writes.
pub(crate) fn whole(base: BaseType, field: &[u8]) -> Option<i64>
    ensures { MatchOption result (is_whole base field.now ≡ false) (λ z. (is_whole base field.now ≡ true) × (z ≡ whole_of field.now)) }
{
    let number = signed(without_end_spaces(without_front_spaces(field)))?;
    if is_in(base, number) {
        Some(number)
    } else {
        None
    }
}

/// The bits that a cell of a Float32 column writes.
pub(crate) fn bits32(field: &[u8]) -> Option<u32>
    ensures { MatchOption result (is_bits 8 field.now ≡ false) (λ n. (is_bits 8 field.now ≡ true) × (n ≡ bits_of field.now)) }
{
    match read32(Floats::Bits, field) {
        Reading::Bits(bits) => Some(bits),
        Reading::TooLarge => None,
        Reading::NoFloat => None,
    }
}

/// The bits that a cell of a Float64 column writes.
pub(crate) fn bits64(field: &[u8]) -> Option<u64>
    ensures { MatchOption result (is_bits 16 field.now ≡ false) (λ n. (is_bits 16 field.now ≡ true) × (n ≡ bits_of field.now)) }
{
    match read64(Floats::Bits, field) {
        Reading::Bits(bits) => Some(bits),
        Reading::TooLarge => None,
        Reading::NoFloat => None,
    }
}
