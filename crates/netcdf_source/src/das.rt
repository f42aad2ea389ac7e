ghost use Rattle.std.specs.Prelude.{◌≡◌, ℕ, ◌≤◌, [], ◌∷◌, ◌++◌, length, map, filter, codes, IfOk};
ghost use Rattle.std.specs.Fmt.{decimal, signed_decimal};
ghost use Rattle.dap_model.specs.Shown.{hex};
ghost use Rattle.das_text.specs.View.{attributes_view, entry_view};
ghost use Rattle.netcdf_source.specs.Attributes.{pieces, value_base, word_of, words_of, attribute_of, entry_of, container_of, attributes_of, variable_container};
ghost use Rattle.netcdf_source.specs.Mapping.{is_offered};
ghost use Rattle.netcdf_source.specs.Types.{size_of};
ghost use Rattle.netcdf_source.specs.Values.{without_zeros};

use crate::ExternalType;
use crate::attribute::Attribute;
use crate::attributes::AttributeList;
use crate::header::Contents;
use crate::ids::{file_id, stored_id};
use crate::texts::is_offered;
use dap_types::{BaseType, Bytes, Id, List, Memory};
use das_text::{Attributes, Entry, Word};
use float_text::{FloatText, Floats};
use std::alloc::Global;

/// The type of an attribute's values: whole numbers of up to 32 bits keep theirs, all else is
/// text.
fn value_base(external_type: ExternalType) -> BaseType
    ensures { result ≡ value_base external_type }
{
    match external_type {
        ExternalType::Byte | ExternalType::UByte => BaseType::Byte,
        ExternalType::Short => BaseType::Int16,
        ExternalType::UShort => BaseType::UInt16,
        ExternalType::Int => BaseType::Int32,
        ExternalType::UInt => BaseType::UInt32,
        ExternalType::Char
        | ExternalType::Float
        | ExternalType::Double
        | ExternalType::Int64
        | ExternalType::UInt64 => BaseType::Text,
    }
}

/// A text without the zero bytes at its end.
pub fn without_zeros(bytes: &[u8]) -> &[u8]
    ensures same { result.now ≡ without_zeros bytes.now }
    ensures shorter { length result.now ≤ length bytes.now }
{
    let mut end = bytes.len();
    while end > 0 && bytes[end - 1] == 0 {
        end -= 1;
    }
    &bytes[..end]
}

/// The bits of a Float32 as they are written.
fn text32(bits: u32) -> FloatText
    ensures { result ≡ codes "0x" ++ hex 8 bits }
{
    FloatText::of32(Floats::Bits, bits)
}

/// The bits of a Float64 as they are written.
fn text64(bits: u64) -> FloatText
    ensures { result ≡ codes "0x" ++ hex 16 bits }
{
    FloatText::of64(Floats::Bits, bits)
}

/// A whole number, in decimal digits.
fn whole_word(alloc: Global, number: i64) -> Result<Word, Memory>
    ensures { IfOk result (λ w. w ≡ Word.Plain (signed_decimal number)) }
{
    let mut buffer = itoa::Buffer::new();
    let digits = buffer.format(number).as_bytes();
    Ok(Word::Plain(Bytes::new(alloc, digits)?))
}

/// A whole number of 64 bits with a sign, whose decimal digits are a text.
fn long_word(alloc: Global, number: i64) -> Result<Word, Memory>
    ensures { IfOk result (λ w. w ≡ Word.Quoted (signed_decimal number)) }
{
    let mut buffer = itoa::Buffer::new();
    let digits = buffer.format(number).as_bytes();
    Ok(Word::Quoted(Bytes::new(alloc, digits)?))
}

/// The same without a sign.
fn unsigned_long_word(alloc: Global, number: u64) -> Result<Word, Memory>
    ensures { IfOk result (λ w. w ≡ Word.Quoted (decimal number)) }
{
    let mut buffer = itoa::Buffer::new();
    let digits = buffer.format(number).as_bytes();
    Ok(Word::Quoted(Bytes::new(alloc, digits)?))
}

fn text_word(alloc: Global, text: &[u8]) -> Result<Word, Memory>
    ensures { IfOk result (λ w. w ≡ Word.Quoted text.now) }
{
    Ok(Word::Quoted(Bytes::new(alloc, text)?))
}

/// A value from its bytes, the high byte first. All chars are one value.
fn word_of(alloc: Global, external_type: ExternalType, bytes: &[u8]) -> Result<Word, Memory>
    requires { size_of external_type ≤ length bytes.now }
    ensures { IfOk result (λ w. w ≡ word_of external_type bytes.now) }
{
    match external_type {
        ExternalType::Byte | ExternalType::UByte => {
            whole_word(alloc, i64::from(u8::from_be_bytes([bytes[0]])))
        }
        ExternalType::Char => text_word(alloc, without_zeros(bytes)),
        ExternalType::Short => {
            whole_word(alloc, i64::from(i16::from_be_bytes([bytes[0], bytes[1]])))
        }
        ExternalType::UShort => {
            whole_word(alloc, i64::from(u16::from_be_bytes([bytes[0], bytes[1]])))
        }
        ExternalType::Int => {
            let number = i32::from_be_bytes([bytes[0], bytes[1], bytes[2], bytes[3]]);
            whole_word(alloc, i64::from(number))
        }
        ExternalType::UInt => {
            let number = u32::from_be_bytes([bytes[0], bytes[1], bytes[2], bytes[3]]);
            whole_word(alloc, i64::from(number))
        }
        ExternalType::Float => {
            let bits = u32::from_be_bytes([bytes[0], bytes[1], bytes[2], bytes[3]]);
            text_word(alloc, text32(bits).bytes())
        }
        ExternalType::Double => {
            let bits = u64::from_be_bytes([
                bytes[0], bytes[1], bytes[2], bytes[3], bytes[4], bytes[5], bytes[6], bytes[7],
            ]);
            text_word(alloc, text64(bits).bytes())
        }
        ExternalType::Int64 => {
            let number = i64::from_be_bytes([
                bytes[0], bytes[1], bytes[2], bytes[3], bytes[4], bytes[5], bytes[6], bytes[7],
            ]);
            long_word(alloc, number)
        }
        ExternalType::UInt64 => {
            let number = u64::from_be_bytes([
                bytes[0], bytes[1], bytes[2], bytes[3], bytes[4], bytes[5], bytes[6], bytes[7],
            ]);
            unsigned_long_word(alloc, number)
        }
    }
}

/// The values whose bytes stand one behind the other.
fn numbers(alloc: Global, external_type: ExternalType, bytes: &[u8]) -> Result<List<Word>, Memory>
    ensures { IfOk result (λ ws. ws ≡ map (word_of external_type) (pieces (size_of external_type) bytes.now)) }
{
    let mut words = List::new(alloc);
    for piece in bytes.chunks_exact(external_type.size() as usize) {
        words.push(word_of(alloc, external_type, piece)?)?;
    }
    Ok(words)
}

fn text(alloc: Global, bytes: &[u8]) -> Result<List<Word>, Memory>
    ensures { IfOk result (λ ws. ws ≡ Word.Quoted bytes.now ∷ []) }
{
    let mut words = List::new(alloc);
    words.push(text_word(alloc, bytes)?)?;
    Ok(words)
}

fn words_of(alloc: Global, external_type: ExternalType, bytes: &[u8]) -> Result<List<Word>, Memory>
    ensures { IfOk result (λ ws. ws ≡ words_of external_type bytes.now) }
{
    match external_type {
        ExternalType::Char => text(alloc, without_zeros(bytes)),
        _ => numbers(alloc, external_type, bytes),
    }
}

/// What an attribute becomes. One without values has an empty text.
#[tactic(auto, unfolding(crate::specs::Attributes::attribute_of))]
fn attribute_of(alloc: Global, attribute: &Attribute) -> Result<das_text::Attribute, Memory>
    ensures { IfOk result (λ a. a ≡ attribute_of attribute.now) }
{
    let name = stored_id(alloc, attribute.name())?;
    let bytes = attribute.values();
    if bytes.is_empty() {
        return Ok(das_text::Attribute {
            base: BaseType::Text,
            name,
            values: text(alloc, b"")?,
        });
    }
    Ok(das_text::Attribute {
        base: value_base(attribute.external_type()),
        name,
        values: words_of(alloc, attribute.external_type(), bytes)?,
    })
}

#[tactic(auto, using(das_text::proofs::Views::views))]
fn entry_of(alloc: Global, attribute: &Attribute) -> Result<Entry, Memory>
    ensures { IfOk result (λ e. entry_view e ≡ entry_of attribute.now) }
{
    Ok(Entry::Attr(attribute_of(alloc, attribute)?))
}

fn entries_of(alloc: Global, attributes: &AttributeList) -> Result<List<Entry>, Memory>
    ensures { IfOk result (λ es. map entry_view es ≡ map entry_of attributes.now) }
{
    let mut entries = List::new(alloc);
    let mut unread = attributes.unread();
    while let Some(attribute) = unread.next() {
        entries.push(entry_of(alloc, &attribute)?)?;
    }
    Ok(entries)
}

/// The container of that name.
#[tactic(auto, using(das_text::proofs::Views::views))]
fn container_of(alloc: Global, name: Id, attributes: &AttributeList) -> Result<Entry, Memory>
    ensures { IfOk result (λ e. entry_view e ≡ container_of name attributes.now) }
{
    Ok(Entry::Container(name, entries_of(alloc, attributes)?))
}

/// A container for each variable that is offered.
fn variable_containers(alloc: Global, contents: &Contents) -> Result<List<Entry>, Memory>
    ensures { IfOk result (λ es. map entry_view es ≡ map variable_container (filter (is_offered contents.now) contents.now.variables)) }
{
    let mut containers = List::new(alloc);
    for variable in contents.variables.items() {
        if is_offered(contents, variable) {
            let name = file_id(alloc, &variable.name)?;
            containers.push(container_of(alloc, name, &variable.attributes)?)?;
        }
    }
    Ok(containers)
}

/// The attributes of a file.
pub fn attributes_of(alloc: Global, contents: &Contents) -> Result<Attributes, Memory>
    ensures { IfOk result (λ a. attributes_view a ≡ attributes_of contents.now) }
{
    let mut containers = variable_containers(alloc, contents)?;
    let name = Id::raw(alloc, b"NC_GLOBAL")?;
    containers.push(container_of(alloc, name, &contents.attributes)?)?;
    Ok(Attributes { containers })
}
