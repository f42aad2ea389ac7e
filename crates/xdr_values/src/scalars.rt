//! Single values in the bytes of a response.

ghost use Rattle.std.specs.Prelude.{◌≡◌, ◌≤◌, ◌<◌, ◌^◌, ◌++◌, ◌-◌, ℕ, List, length};
ghost use Rattle.dap_model.specs.Xdr as xdr;
ghost use Rattle.dap_types.specs.declared.values.Value.{Value};
ghost use Rattle.xdr_values.specs.Walked.{IsValue, StandsValue};

use dap_types::BaseType;

/// So many bytes of the front, or all, and what stands behind them.
pub fn split(bytes: &[u8], at: usize) -> (&[u8], &[u8])
    ensures own { (own rest : List ℕ) → bytes.now ≡ own ++ rest → length own ≡ at → result.0.now ≡ own }
    ensures rest { (own rest : List ℕ) → bytes.now ≡ own ++ rest → length own ≡ at → result.1.now ≡ rest }
    ensures shorter { length result.1.now ≡ length bytes.now - at }
{
    bytes.split_at(at.min(bytes.len()))
}

/// The word that stands at the front (RFC 4506, unsigned integer).
pub fn first_word(bytes: &[u8]) -> u32
    ensures { (n : ℕ) (rest : List ℕ) → n < 2 ^ 32 → bytes.now ≡ xdr.word n ++ rest → result ≡ n }
{
    if bytes.len() < 4 {
        return 0;
    }
    u32::from_be_bytes([bytes[0], bytes[1], bytes[2], bytes[3]])
}

/// How many zero bytes make a multiple of four.
pub fn fill(count: usize) -> usize
    ensures { result ≡ xdr.fill count }
{
    match count % 4 {
        1 => 3,
        2 => 2,
        3 => 1,
        _ => 0,
    }
}

/// How many bytes the string at the front has, with its length and its padding (RFC 4506, string).
fn string_width(bytes: &[u8]) -> usize
    ensures { (text rest : List ℕ) → length text < 2 ^ 31 → bytes.now ≡ xdr.bytes_of (xdr.string_fields text) ++ rest → result ≡ length (xdr.bytes_of (xdr.string_fields text)) }
{
    let size = first_word(bytes) as usize;
    4 + size + fill(size)
}

/// How many bytes the value of a type at the front has.
fn width(base: BaseType, bytes: &[u8]) -> usize
    ensures { (v : Value) (own rest : List ℕ) → IsValue base v own → bytes.now ≡ own ++ rest → result ≡ length own }
{
    match base {
        BaseType::Text | BaseType::Url => string_width(bytes),
        BaseType::Float64 => 8,
        _ => 4,
    }
}

/// The bytes of the value of a type at the front, and what stands behind them.
pub fn value(base: BaseType, bytes: &[u8]) -> (&[u8], &[u8])
    ensures own { (v : Value) (rest : List ℕ) → StandsValue base v bytes.now rest → IsValue base v result.0.now }
    ensures rest { (v : Value) (rest : List ℕ) → StandsValue base v bytes.now rest → result.1.now ≡ rest }
    ensures within { length result.1.now ≤ length bytes.now }
{
    split(bytes, width(base, bytes))
}
