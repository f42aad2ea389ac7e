ghost use Rattle.std.specs.Prelude.{◌≡◌};
ghost use Rattle.std.specs.Str.{str_eq_ignore_ascii_case};
ghost use Rattle.dap_model.specs.Dds.{type_word};
ghost use Rattle.text_lines.specs.TypeWords.{base_of_word};

use dap_types::BaseType;

/// The word for a type (DAP 2.0, base types).
pub fn type_word(base: BaseType) -> &'static [u8]
    ensures { result.now ≡ type_word base }
{
    match base {
        BaseType::Byte => b"Byte",
        BaseType::Int16 => b"Int16",
        BaseType::UInt16 => b"UInt16",
        BaseType::Int32 => b"Int32",
        BaseType::UInt32 => b"UInt32",
        BaseType::Float32 => b"Float32",
        BaseType::Float64 => b"Float64",
        BaseType::Text => b"String",
        BaseType::Url => b"Url",
    }
}

#[tactic(auto, using(viable::proofs::Words::same_name))]
fn is_named(name: &[u8], word: &[u8]) -> bool
    ensures { result ≡ str_eq_ignore_ascii_case name.now word.now }
{
    name.eq_ignore_ascii_case(word)
}

/// The type that a word names, in any case (DAP 2.0, base types).
pub fn base_of_word(word: &[u8]) -> Option<BaseType>
    ensures { result ≡ base_of_word word.now }
{
    if is_named(b"Byte", word) {
        return Some(BaseType::Byte);
    }
    if is_named(b"Int16", word) {
        return Some(BaseType::Int16);
    }
    if is_named(b"UInt16", word) {
        return Some(BaseType::UInt16);
    }
    if is_named(b"Int32", word) {
        return Some(BaseType::Int32);
    }
    if is_named(b"UInt32", word) {
        return Some(BaseType::UInt32);
    }
    if is_named(b"Float32", word) {
        return Some(BaseType::Float32);
    }
    if is_named(b"Float64", word) {
        return Some(BaseType::Float64);
    }
    if is_named(b"String", word) {
        return Some(BaseType::Text);
    }
    if is_named(b"Url", word) {
        return Some(BaseType::Url);
    }
    None
}
