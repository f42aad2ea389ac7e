//! The numbers of a command line.

ghost use Rattle.std.specs.Prelude.{◌≡◌, ℕ, MatchOption};
ghost use Rattle.viable.specs.Numerals.{is_numeral};
ghost use Rattle.dap_commands.specs.Words.{IsNumber, IsSeed};

use viable::{all_digits, wide_value_of};

/// Whether a word is 1 to 20 digits.
#[tactic(auto, using(viable::proofs::Runs::run_laws))]
fn is_numeral(word: &[u8]) -> bool
    ensures { result ≡ is_numeral 20 word.now }
{
    !word.is_empty() && all_digits(word) && word.len() <= 20
}

/// The number from 1 to `most` that a word is in 1 to 20 digits.
#[tactic(auto, using(viable::proofs::Digits::numerals))]
pub fn number_to(word: &str, most: u64) -> Option<u64>
    ensures { MatchOption result ((n : ℕ) → ¬ (IsNumber most word.now n)) (λ n. IsNumber most word.now n) }
{
    let digits = word.as_bytes();
    if !is_numeral(digits) {
        return None;
    }
    let value = wide_value_of(digits);
    if value < 1 || value > u128::from(most) {
        return None;
    }
    Some(value as u64)
}

/// The number below 2^64 that a word is in 1 to 20 digits.
#[tactic(auto, using(viable::proofs::Digits::numerals))]
pub fn seed_of(word: &str) -> Option<u64>
    ensures { MatchOption result ((n : ℕ) → ¬ (IsSeed word.now n)) (λ n. IsSeed word.now n) }
{
    let digits = word.as_bytes();
    if !is_numeral(digits) {
        return None;
    }
    let value = wide_value_of(digits);
    if value > u128::from(u64::MAX) {
        return None;
    }
    Some(value as u64)
}
