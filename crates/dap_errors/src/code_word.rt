//! The code of an Error object, as a word has it.

ghost use Rattle.std.specs.Prelude.{◌≡◌, false, IsTrue, MatchOption};
ghost use Rattle.dap_errors.specs.Object.{is_code_word, code_value, has_minus, unsigned};

use viable::number;

/// The most digits of a code.
const MOST_DIGITS: usize = 9;

fn begins_with_minus(word: &[u8]) -> bool
    ensures { result ≡ has_minus word.now }
{
    match word {
        [first, ..] => *first == b'-',
        [] => false,
    }
}

fn without_minus(word: &[u8]) -> &[u8]
    ensures { result.now ≡ unsigned word.now }
{
    match word {
        [b'-', digits @ ..] => digits,
        _ => word,
    }
}

/// The code that a word is: an optional minus and 1 to 9 digits.
pub fn code_of(word: &[u8]) -> Option<i32>
    ensures { MatchOption result (is_code_word word.now ≡ false) (λ code. IsTrue (is_code_word word.now) × (code ≡ code_value word.now)) }
{
    let value = number(without_minus(word), MOST_DIGITS)? as i32;
    if begins_with_minus(word) {
        return Some(-value);
    }
    Some(value)
}
