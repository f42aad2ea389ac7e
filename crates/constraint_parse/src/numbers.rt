//! What digits and words stand for.

ghost use Rattle.std.specs.Prelude.{◌≡◌};
ghost use Rattle.constraint_parse.specs.Values.{number_value, negative_value, signed_value, word_value};

use crate::scan::all_digits;
use crate::{Constant, Number};
use viable::magnitude;

const LARGEST: u128 = 0x7fff_ffff_ffff_ffff_ffff_ffff_ffff_ffff;

/// The number that digits stand for.
pub fn whole_number(digits: &[u8]) -> Number
    ensures { result ≡ number_value digits.now }
{
    let Some(value) = magnitude(digits) else {
        return Number::Big;
    };
    if value <= LARGEST {
        return Number::Small(value as i128);
    }
    Number::Big
}

/// The number that digits behind a minus stand for.
fn negative_number(digits: &[u8]) -> Number
    ensures { result ≡ negative_value digits.now }
{
    let Some(value) = magnitude(digits) else {
        return Number::Big;
    };
    if value <= LARGEST {
        return Number::Small(-(value as i128));
    }
    if value == LARGEST + 1 {
        return Number::Small(i128::MIN);
    }
    Number::Big
}

fn signed_constant(word: &[u8]) -> Constant
    ensures { result ≡ signed_value word.now }
{
    let Some((sign, digits)) = word.split_first() else {
        return Constant::Other;
    };
    if *sign == b'+' && all_digits(digits) {
        return Constant::Whole(whole_number(digits));
    }
    if *sign == b'-' && all_digits(digits) {
        return Constant::Whole(negative_number(digits));
    }
    Constant::Other
}

/// What a word stands for.
pub fn word_constant(word: &[u8]) -> Constant
    ensures { result ≡ word_value word.now }
{
    if all_digits(word) {
        Constant::Whole(whole_number(word))
    } else {
        signed_constant(word)
    }
}
