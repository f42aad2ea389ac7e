//! What words of a DDS stand for (DAP 2.0, DDS). Keywords and the names of types may be in any case.

ghost use Rattle.std.specs.Prelude.{◌≡◌};
ghost use Rattle.std.specs.Str.{str_eq_ignore_ascii_case};
ghost use Rattle.dds_text.specs.inner.Machine.{kind_of_word, size_of_word};
ghost use Rattle.dds_text.specs.inner.Held.{kind_seen};

use crate::state::Kind;
use dap_types::limits;
use viable::number;

/// The most digits of a size.
const MOST_DIGITS: usize = 10;

/// The largest size of a dimension.
const LARGEST: u64 = limits::MOST_ELEMENTS;

/// Whether the word is this keyword.
#[tactic(auto, using(viable::proofs::Words::same_name))]
pub fn is_keyword(keyword: &[u8], word: &[u8]) -> bool
    ensures { result ≡ str_eq_ignore_ascii_case keyword.now word.now }
{
    keyword.eq_ignore_ascii_case(word)
}

/// The kind of whole that the word names.
pub fn kind_of_word(word: &[u8]) -> Option<Kind>
    ensures { kind_seen result ≡ kind_of_word word.now }
{
    if is_keyword(b"Structure", word) {
        return Some(Kind::Structure);
    }
    if is_keyword(b"Sequence", word) {
        return Some(Kind::Sequence);
    }
    if is_keyword(b"Grid", word) {
        return Some(Kind::Grid);
    }
    None
}

/// The size that the word writes: 1 to 10 digits, and no more than an Int32 holds.
pub fn size_of_word(word: &[u8]) -> Option<u32>
    ensures { result ≡ size_of_word word.now }
{
    let size = number(word, MOST_DIGITS)?;
    if size > LARGEST {
        return None;
    }
    Some(size as u32)
}
