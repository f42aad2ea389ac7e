//! The words that are a float.

ghost use Rattle.std.specs.Prelude.{◌≡◌, Some, map};
ghost use Rattle.std.specs.Char.{to_ascii_lowercase};
ghost use Rattle.std.specs.Float.{binary32, binary64};
ghost use Rattle.std.specs.Float.Parse.{is_infinity_text, is_nan_text, lowercases_to, without_sign};
ghost use Rattle.float_text.specs.Word.{decimal_reading, has_minus, has_sign, infinity_of, number_reading, reading, rounded};

use crate::floats::Floats;
use crate::hexadecimal::bits_of;
use crate::order::{INFINITY32, INFINITY64};
use crate::reading::Reading;

const MINUS_INFINITY32: u32 = 0xff80_0000;

const MINUS_INFINITY64: u64 = 0xfff0_0000_0000_0000;

/// The NaN that a word writes.
const NAN32: u32 = 0x7fc0_0000;

const NAN64: u64 = 0x7ff8_0000_0000_0000;

fn has_minus(word: &[u8]) -> bool
    ensures { result ≡ has_minus word.now }
{
    match word {
        [first, ..] => *first == b'-',
        _ => false,
    }
}

fn has_sign(word: &[u8]) -> bool
    ensures { result ≡ has_sign word.now }
{
    match word {
        [first, ..] => *first == b'+' || *first == b'-',
        _ => false,
    }
}

fn without_sign(word: &[u8]) -> &[u8]
    ensures { result.now ≡ without_sign word.now }
{
    if has_sign(word) { &word[1..] } else { word }
}

/// Whether the text is this word of lower-case letters, in any case.
fn spells(text: &[u8], word: &[u8]) -> bool
    requires { map to_ascii_lowercase word.now ≡ word.now }
    ensures { result ≡ lowercases_to text.now word.now }
{
    text.eq_ignore_ascii_case(word)
}

fn is_infinity_text(text: &[u8]) -> bool
    ensures { result ≡ is_infinity_text text.now }
{
    spells(text, b"inf") || spells(text, b"infinity")
}

fn is_nan_text(text: &[u8]) -> bool
    ensures { result ≡ is_nan_text text.now }
{
    spells(text, b"nan")
}

/// A number that has been rounded once.
#[tactic(auto, unfolding(crate::specs::Word::rounded))]
fn rounded32(x: f32) -> Reading<u32>
    ensures { result ≡ rounded binary32 (Some x) }
{
    if x.is_finite() {
        Reading::Bits(x.to_bits())
    } else {
        Reading::TooLarge
    }
}

#[tactic(auto, unfolding(crate::specs::Word::rounded))]
fn number32(word: &[u8]) -> Reading<u32>
    ensures { result ≡ number_reading binary32 word.now }
{
    match fast_float::parse::<f32, _>(word) {
        Err(_) => Reading::NoFloat,
        Ok(x) => rounded32(x),
    }
}

/// A number that has been rounded once.
#[tactic(auto, unfolding(crate::specs::Word::rounded))]
fn rounded64(x: f64) -> Reading<u64>
    ensures { result ≡ rounded binary64 (Some x) }
{
    if x.is_finite() {
        Reading::Bits(x.to_bits())
    } else {
        Reading::TooLarge
    }
}

#[tactic(auto, unfolding(crate::specs::Word::rounded))]
fn number64(word: &[u8]) -> Reading<u64>
    ensures { result ≡ number_reading binary64 word.now }
{
    match fast_float::parse::<f64, _>(word) {
        Err(_) => Reading::NoFloat,
        Ok(x) => rounded64(x),
    }
}

fn infinity32(negative: bool) -> u32
    ensures { result ≡ infinity_of binary32 negative }
{
    if negative {
        MINUS_INFINITY32
    } else {
        INFINITY32
    }
}

fn infinity64(negative: bool) -> u64
    ensures { result ≡ infinity_of binary64 negative }
{
    if negative {
        MINUS_INFINITY64
    } else {
        INFINITY64
    }
}

#[tactic(auto, unfolding(crate::specs::Word::decimal_reading))]
fn decimal32(word: &[u8]) -> Reading<u32>
    ensures { result ≡ decimal_reading binary32 word.now }
{
    let text = without_sign(word);
    if is_infinity_text(text) {
        Reading::Bits(infinity32(has_minus(word)))
    } else if is_nan_text(text) {
        Reading::Bits(NAN32)
    } else {
        number32(word)
    }
}

#[tactic(auto, unfolding(crate::specs::Word::decimal_reading))]
fn decimal64(word: &[u8]) -> Reading<u64>
    ensures { result ≡ decimal_reading binary64 word.now }
{
    let text = without_sign(word);
    if is_infinity_text(text) {
        Reading::Bits(infinity64(has_minus(word)))
    } else if is_nan_text(text) {
        Reading::Bits(NAN64)
    } else {
        number64(word)
    }
}

/// What a word is as a Float32: with `Bits` `0x` and 8 hexadecimal digits alone; with `Decimals`
/// also a decimal, rounded once, an infinity or a NaN (C, strtof, decimal subset). `TooLarge`
/// exactly where a decimal rounds to an infinity.
#[tactic(auto, unfolding(crate::specs::Word::reading, crate::specs::Word::other_reading))]
pub fn read32(floats: Floats, word: &[u8]) -> Reading<u32>
    ensures { result ≡ reading binary32 floats word.now }
{
    if let Some(bits) = bits_of(word, 8) {
        return Reading::Bits(bits as u32);
    }
    match floats {
        Floats::Bits => Reading::NoFloat,
        Floats::Decimals => decimal32(word),
    }
}

/// What a word is as a Float64: with `Bits` `0x` and 16 hexadecimal digits alone; with `Decimals`
/// also a decimal, rounded once, an infinity or a NaN (C, strtod, decimal subset). `TooLarge`
/// exactly where a decimal rounds to an infinity.
#[tactic(auto, unfolding(crate::specs::Word::reading, crate::specs::Word::other_reading))]
pub fn read64(floats: Floats, word: &[u8]) -> Reading<u64>
    ensures { result ≡ reading binary64 floats word.now }
{
    if let Some(bits) = bits_of(word, 16) {
        return Reading::Bits(bits);
    }
    match floats {
        Floats::Bits => Reading::NoFloat,
        Floats::Decimals => decimal64(word),
    }
}
