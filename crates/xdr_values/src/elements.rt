//! The elements of an array in the bytes of a response.

ghost use Rattle.std.specs.Prelude.{◌≡◌, ◌≤◌, ◌<◌, ◌^◌, ◌++◌, ◌*◌, ℕ, List as Items, length, map, min, All};
ghost use Rattle.dap_model.specs.Fits.{IsOf};
ghost use Rattle.dap_model.specs.Laws.{element_width};
ghost use Rattle.dap_model.specs.Xdr as xdr;
ghost use Rattle.dap_types.specs.declared.values.Value.{Value};
ghost use Rattle.xdr_values.specs.Walked.{StandElements};
ghost use Rattle.xdr_decode.specs.inner.Taken.{elements_fields};
ghost use Rattle.xdr_fields.specs.Wants.{IsTextType};

use crate::scalars::value;
use dap_types::BaseType;

/// How many bytes an element has in an array of numbers; 1 for a text.
fn width(base: BaseType) -> usize
    ensures { result ≡ element_width base }
{
    match base {
        BaseType::Byte | BaseType::Text | BaseType::Url => 1,
        BaseType::Float64 => 8,
        BaseType::Int16
        | BaseType::UInt16
        | BaseType::Int32
        | BaseType::UInt32
        | BaseType::Float32 => 4,
    }
}

/// What stands behind so many strings, or nothing where there are fewer.
fn behind_texts(base: BaseType, count: u64, bytes: &[u8]) -> &[u8]
    requires { IsTextType base }
    ensures { (vs : Items Value) (rest : Items ℕ) → length vs ≡ count → StandElements base vs bytes.now rest → result.now ≡ rest }
{
    let mut rest = bytes;
    for _ in 0..count {
        if rest.is_empty() {
            return rest;
        }
        let (_, behind) = value(base, rest);
        rest = behind;
    }
    rest
}

/// What stands behind so many bytes, or nothing where there are fewer.
fn behind_bytes(count: u64, bytes: &[u8]) -> &[u8]
    ensures { (own rest : Items ℕ) → length own ≡ count → bytes.now ≡ own ++ rest → result.now ≡ rest }
{
    let at = count.min(bytes.len() as u64);
    &bytes[at as usize..]
}

/// What stands behind so many elements of an array, or nothing where there are fewer.
pub fn behind(base: BaseType, count: u64, bytes: &[u8]) -> &[u8]
    ensures { (vs : Items Value) (rest : Items ℕ) → length vs ≡ count → count * 8 < 2 ^ 64 → StandElements base vs bytes.now rest → result.now ≡ rest }
{
    match base {
        BaseType::Text | BaseType::Url => behind_texts(base, count, bytes),
        _ => behind_bytes(count.saturating_mul(width(base) as u64), bytes),
    }
}
