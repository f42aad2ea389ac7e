//! Numbers as decimal and as hexadecimal digits.

ghost use Rattle.std.specs.Prelude.{◌≡◌, ℕ, ◌+◌, ◌-◌, ◌*◌, ◌<◌, ◌≤◌, ◌^◌, ◌⊎◌, true, false, length, IsTrue, IfSome, MatchOption, SomeIff};
ghost use Rattle.std.specs.Char.{digit_value, is_ascii_digit, is_ascii_hexdigit};
ghost use Rattle.std.specs.Fmt.{digit_glyph};
ghost use Rattle.std.specs.List.{list_all};
ghost use Rattle.std.specs.Str.Parse.{digits_value};
ghost use Rattle.viable.specs.Numerals.{decimal, is_numeral};
ghost use Rattle.viable.specs.Runs.{is_run};

/// Whether each byte is a decimal digit.
pub fn all_digits(word: &[u8]) -> bool
    ensures { result ≡ list_all is_ascii_digit word.now }
{
    word.iter().all(|byte| byte.is_ascii_digit())
}

#[tactic(auto, using(crate::proofs::Runs::run_laws))]
fn is_numeral(word: &[u8], most: usize) -> bool
    ensures { result ≡ is_numeral most word.now }
{
    !word.is_empty() && all_digits(word) && word.len() <= most
}

fn with_digit(value: u128, digit: u8) -> Option<u128>
    ensures { SomeIff result (value * 10 + (digit - 48) < 2 ^ 128) (value * 10 + (digit - 48)) }
{
    let shifted = value.checked_mul(10)?;
    shifted.checked_add(digit.saturating_sub(b'0') as u128)
}

/// The number that digits write, however many, none where it has more than 128 bits.
pub fn magnitude(digits: &[u8]) -> Option<u128>
    ensures { SomeIff result (decimal digits.now < 2 ^ 128) (decimal digits.now) }
{
    let mut value: u128 = 0;
    for digit in digits {
        let Some(next) = with_digit(value, *digit) else {
            return None;
        };
        value = next;
    }
    Some(value)
}

/// The number that at most 20 digits write.
pub fn wide_value_of(digits: &[u8]) -> u128
    requires { IsTrue (list_all is_ascii_digit digits.now) × (length digits.now ≤ 20) }
    ensures { result ≡ digits_value 10 digits.now }
{
    match magnitude(digits) {
        Some(value) => value,
        None => unreachable!(),
    }
}

/// The number that at most 19 digits write.
pub fn value_of(digits: &[u8]) -> u64
    requires { IsTrue (list_all is_ascii_digit digits.now) × (length digits.now ≤ 19) }
    ensures value { result ≡ digits_value 10 digits.now }
    ensures bound { (most : ℕ) → length digits.now ≤ most → result < 10 ^ most }
{
    wide_value_of(digits) as u64
}

/// The number that a word writes in 1 to `most` decimal digits, none where it is no such word.
#[tactic(auto, using(crate::proofs::Digits::numerals))]
pub fn number(word: &[u8], most: usize) -> Option<u64>
    requires { most ≤ 19 }
    ensures number { MatchOption result (is_numeral most word.now ≡ false) (λ n. IsTrue (is_numeral most word.now) × (n ≡ digits_value 10 word.now)) }
    ensures bound { IfSome result (λ n. n < 10 ^ most) }
{
    if !is_numeral(word, most) {
        return None;
    }
    Some(value_of(word))
}

/// The number that one or more digits write, with any zeros in front, where it is at most `most`,
/// none for any other word.
pub fn number_within(digits: &[u8], most: u64) -> Option<u64>
    requires { most < 2 ^ 60 }
    ensures number { MatchOption result ((is_run is_ascii_digit digits.now ≡ false) ⊎ (most < digits_value 10 digits.now)) (λ n. (is_run is_ascii_digit digits.now ≡ true) × (n ≡ digits_value 10 digits.now)) }
    ensures bound { IfSome result (λ n. n ≤ most) }
{
    if digits.is_empty() {
        return None;
    }
    let mut value = 0u64;
    for digit in digits {
        if !digit.is_ascii_digit() {
            return None;
        }
        value = value * 10 + u64::from(*digit - b'0');
        if value > most {
            return None;
        }
    }
    Some(value)
}

/// A number below 16 as a hexadecimal digit, whose letters are capital where `capital`.
pub fn hex_digit(value: u8, capital: bool) -> u8
    requires { value < 16 }
    ensures { result ≡ digit_glyph capital value }
{
    match (value, capital) {
        (0..=9, _) => b'0' + value,
        (_, true) => b'A' + (value - 10),
        (_, false) => b'a' + (value - 10),
    }
}

fn value_of_hex_digit(digit: u8) -> u8
    requires { is_ascii_hexdigit digit ≡ true }
    ensures value { result ≡ digit_value digit }
    ensures small { result < 16 }
{
    match digit {
        b'0'..=b'9' => digit - b'0',
        b'A'..=b'F' => digit - 55,
        _ => digit - 87,
    }
}

/// Whether each byte is a hexadecimal digit.
pub fn all_hex_digits(word: &[u8]) -> bool
    ensures { result ≡ list_all is_ascii_hexdigit word.now }
{
    word.iter().all(|byte| byte.is_ascii_hexdigit())
}

/// The number that at most 16 hexadecimal digits write.
pub fn hex_value_of(digits: &[u8]) -> u64
    requires digits { list_all is_ascii_hexdigit digits.now ≡ true }
    requires few { length digits.now ≤ 16 }
    ensures value { result ≡ digits_value 16 digits.now }
    ensures bound { result < 16 ^ length digits.now }
{
    let mut value = 0u64;
    for digit in digits {
        value = value * 16 + u64::from(value_of_hex_digit(*digit));
    }
    value
}
