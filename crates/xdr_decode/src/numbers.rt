//! Numbers of an array that stand one after the other, judged at once (RFC 4506; DAP 2.0, arrays).

ghost use Rattle.std.specs.Prelude.{◌≡◌, ◌≤◌, ℕ, List as Items};
ghost use Rattle.dap_model.specs.Laws.{IsNumber, element_width as width_in_array};
ghost use Rattle.xdr_decode.specs.inner.Runs.{Begins, IsShort};

use crate::field::{whole, word_of};
use dap_types::BaseType;

/// How many bytes an element of an array of numbers has.
pub fn element_width(base: BaseType) -> usize
    ensures { result ≡ width_in_array base }
{
    match base {
        BaseType::Byte => 1,
        BaseType::Text => 1,
        BaseType::Url => 1,
        BaseType::Float64 => 8,
        BaseType::Int16 => 4,
        BaseType::UInt16 => 4,
        BaseType::Int32 => 4,
        BaseType::UInt32 => 4,
        BaseType::Float32 => 4,
    }
}

/// How many words from the front are integers of 16 bits. Each is looked at.
#[inline(never)]
fn good_words(base: BaseType, bytes: &[u8]) -> usize
    requires { IsShort base }
    ensures begins { (rest : Items ℕ) × Begins base result bytes.now rest }
{
    let mut count = 0;
    let mut rest = bytes;
    while rest.len() >= 4 {
        match whole(base, word_of(&rest[..4])) {
            Some(_) => {
                count += 1;
                rest = &rest[4..];
            }
            None => return count,
        }
    }
    count
}

/// How many numbers of a type stand at the front of some bytes, of so many at most. Of Int16 and UInt16
/// each word is looked at; any bytes are numbers of the other types.
pub fn good_numbers(base: BaseType, most: usize, bytes: &[u8]) -> usize
    requires { IsNumber base }
    ensures begins { (rest : Items ℕ) × Begins base result bytes.now rest }
    ensures within { result ≤ most }
{
    let count = most.min(bytes.len() / element_width(base));
    match base {
        BaseType::Int16 => good_words(base, &bytes[..4 * count]),
        BaseType::UInt16 => good_words(base, &bytes[..4 * count]),
        _ => count,
    }
}
