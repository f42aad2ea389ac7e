//! Headers of 1,048,576 bytes.

ghost use Rattle.std.specs.Prelude.{◌≡◌, IfOk};

use crate::building::{append_times, append_words, expect_length, expect_same, name_of};
use crate::expecting::expect;
use crate::text_limits::word_sum;
use dap_types::{Bytes, Memory};
use das_text::{Entry, Word};
use netcdf_source::{Header, read_header};
use std::alloc::Global;
use std::process::Abort;
use std::test::Fail;

/// The bytes of the longest header.
pub const LONGEST: u32 = 1_048_576;

/// The variables of the widest header, each of which takes 56 bytes of it and 8 behind it.
pub const VARIABLES: u32 = 18_000;

/// The words before the attribute: a dimension `x` of two indexes.
const FRONT: &[u32] = &[0x43444601, 0, 0x0a, 1, 1, 0x78000000, 2];

/// The same of two records: the record dimension `x`.
const RECORDS: &[u32] = &[0x43444601, 2, 0x0a, 1, 1, 0x78000000, 0];

/// The type of an attribute of bytes, and of one of chars (netCDF classic format, `nc_type`).
const BYTES: u32 = 1;

const CHARS: u32 = 2;

/// The front of a header up to its variables, which begins with these words: 52 bytes and those of the attribute
/// `a`, which has so many values of one byte, a multiple of four, each of them 7.
fn append_front(bytes: &mut Vec<u8>, front: &[u32], kind: u32, values: u32) -> Result<(), Memory> {
    append_words(bytes, front)?;
    append_words(bytes, &[0x0c, 1, 1, 0x61000000])?;
    append_words(bytes, &[kind, values])?;
    append_times(bytes, &[7], values as usize)
}

/// The bytes of the attribute that fills a header of that length with so many variables.
fn filler(variables: u32, length: u32) -> u32 {
    length
        .saturating_sub(60)
        .saturating_sub(variables.saturating_mul(56))
}

/// What stands behind the name of a variable, up to its size: its dimension, its attribute, and its type.
const DECLARED: &[u32] = &[1, 0, 0x0c, 1, 1, 0x75000000, 2, 1, 0x78000000, 4];

fn append_variable(bytes: &mut Vec<u8>, number: u32, size: u32, begin: u32) -> Result<(), Memory> {
    append_words(bytes, &[4])?;
    bytes.extend_from_slice(&name_of(number))?;
    append_words(bytes, DECLARED)?;
    append_words(bytes, &[size, begin])
}

/// Variables whose values, of so many bytes each, stand one behind the other from this place on.
fn append_variables(
    bytes: &mut Vec<u8>,
    variables: u32,
    size: u32,
    from: u32,
) -> Result<(), Memory> {
    let mut begin = from;
    for number in 0..variables {
        append_variable(bytes, number, size, begin)?;
        begin = begin.wrapping_add(size);
    }
    Ok(())
}

/// A header of that length: so many variables over one dimension, each with an attribute `u`, the text `x`.
fn header_over(
    alloc: Global,
    front: &[u32],
    variables: u32,
    size: u32,
    length: u32,
) -> Result<Vec<u8>, Memory> {
    let mut bytes = Vec::new(alloc);
    append_front(&mut bytes, front, BYTES, filler(variables, length))?;
    append_words(&mut bytes, &[0x0b, variables])?;
    append_variables(&mut bytes, variables, size, length)?;
    Ok(bytes)
}

/// A header of that length with so many variables of two ints. The values of one stand behind those of the one
/// before it.
pub fn wide_header(alloc: Global, variables: u32, length: u32) -> Result<Vec<u8>, Memory> {
    header_over(alloc, FRONT, variables, 8, length)
}

/// A header of that length and of two records, each of which has an int of each of so many variables.
pub fn record_header(alloc: Global, variables: u32, length: u32) -> Result<Vec<u8>, Memory> {
    header_over(alloc, RECORDS, variables, 4, length)
}

/// The bytes of the file of either header.
pub fn wide_len(variables: u32, length: u32) -> u64 {
    u64::from(length) + 8 * u64::from(variables)
}

/// The DAS of that file.
pub fn wide_das(alloc: Global, variables: u32, length: u32) -> Result<Vec<u8>, Memory> {
    let mut text = Vec::new(alloc);
    text.extend_from_slice(b"Attributes {\n")?;
    for number in 0..variables {
        text.extend_from_slice(b"    ")?;
        text.extend_from_slice(&name_of(number))?;
        text.extend_from_slice(b" {\n        String u \"x\";\n    }\n")?;
    }
    text.extend_from_slice(b"    NC_GLOBAL {\n        Byte a 7")?;
    let more = filler(variables, length).saturating_sub(1);
    append_times(&mut text, b", 7", more as usize)?;
    text.extend_from_slice(b";\n    }\n}\n")?;
    Ok(text)
}

/// The DDS of so many variables over the dimension that stands behind each, under a name.
pub fn dds_over(
    alloc: Global,
    variables: u32,
    dimension: &[u8],
    name: &[u8],
) -> Result<Vec<u8>, Memory> {
    let mut text = Vec::new(alloc);
    text.extend_from_slice(b"Dataset {\n")?;
    for number in 0..variables {
        text.extend_from_slice(b"    Int32 ")?;
        text.extend_from_slice(&name_of(number))?;
        text.extend_from_slice(dimension)?;
    }
    text.extend_from_slice(b"} ")?;
    text.extend_from_slice(name)?;
    text.extend_from_slice(b";\n")?;
    Ok(text)
}

/// The DDS of that file under a name.
pub fn wide_dds(alloc: Global, variables: u32, name: &[u8]) -> Result<Vec<u8>, Memory> {
    dds_over(alloc, variables, b"[x = 2];\n", name)
}

/// The header that stands in the front of a file of that length.
pub fn header_of<R: Abort>(
    rt: &R,
    alloc: Global,
    front: &[u8],
    file_len: u64,
) -> Result<Header, Fail>
    ensures { IfOk result (λ h. h.length ≡ file_len) }
{
    assert!(rt; front.len() as u64 == file_len.min(1_048_576));
    assert!(rt; file_len < 1 << 63);
    let Ok(header) = read_header(alloc, front, file_len) else {
        panic!(rt; "no header");
    };
    Ok(header)
}

/// Whether the member is a leaf of ints that stands there.
fn is_placed(header: &Header, member: u32, begin: u64) -> bool {
    match header.layout(member) {
        Some(layout) => layout.base == begin && layout.size == 4,
        None => false,
    }
}

/// Whether each variable is a leaf of ints that stands behind the one before it, from this place on.
fn are_placed(header: &Header, variables: u32, from: u32) -> bool {
    let mut begin = u64::from(from);
    for number in 0..variables {
        if !is_placed(header, number.wrapping_add(1), begin) {
            return false;
        }
        begin = begin.wrapping_add(8);
    }
    true
}

/// The header of that file.
fn wide_file<R: Abort>(rt: &R, alloc: Global, variables: u32, length: u32) -> Result<Header, Fail> {
    let bytes = wide_header(alloc, variables, length)?;
    expect_length(rt, &bytes, length as usize);
    header_of(rt, alloc, &bytes, wide_len(variables, length))
}

fn dds_of(alloc: Global, header: &Header) -> Result<Bytes, Memory> {
    let dataset = header.dataset(alloc, b"f")?;
    dds_text::print(alloc, &dataset)
}

fn das_of(alloc: Global, header: &Header) -> Result<Bytes, Memory> {
    let attributes = header.attributes(alloc)?;
    das_text::print(alloc, &attributes)
}

/// The variables stand where they are to.
fn expect_placed<R: Abort>(rt: &R, alloc: Global, variables: u32, length: u32) -> Result<(), Fail> {
    let header = wide_file(rt, alloc, variables, length)?;
    assert!(rt; are_placed(&header, variables, length));
    Ok(())
}

/// The DDS that its header gives.
fn mapped_dds<R: Abort>(rt: &R, alloc: Global, variables: u32, length: u32) -> Result<Bytes, Fail> {
    let header = wide_file(rt, alloc, variables, length)?;
    Ok(dds_of(alloc, &header)?)
}

/// The DAS that its header gives.
fn mapped_das<R: Abort>(rt: &R, alloc: Global, variables: u32, length: u32) -> Result<Bytes, Fail> {
    let header = wide_file(rt, alloc, variables, length)?;
    Ok(das_of(alloc, &header)?)
}

fn expect_texts<R: Abort>(rt: &R, alloc: Global, variables: u32, length: u32) -> Result<(), Fail> {
    let dds = mapped_dds(rt, alloc, variables, length)?;
    expect_same(rt, dds.bytes(), &wide_dds(alloc, variables, b"f")?);
    let das = mapped_das(rt, alloc, variables, length)?;
    expect_same(rt, das.bytes(), &wide_das(alloc, variables, length)?);
    Ok(())
}

#[test]
fn widest_header_is_mapped(rt: HostRuntime) -> Result<(), Fail> {
    expect_placed(&rt, rt.alloc(), VARIABLES, LONGEST)?;
    expect_texts(&rt, rt.alloc(), VARIABLES, LONGEST)
}

/// How many values there are, and what the bytes of their words come to.
fn words_seen(values: &[Word]) -> (u32, u64) {
    let mut count = 0u32;
    let mut sum = 0u64;
    for value in values {
        count = count.wrapping_add(1);
        sum = sum.wrapping_add(word_sum(value));
    }
    (count, sum)
}

/// The same of the first attribute of the first container.
fn first_seen(containers: &[Entry]) -> (u32, u64) {
    let Some(Entry::Container(_, entries)) = containers.first() else {
        return (0, 0);
    };
    match entries.items().first() {
        Some(Entry::Attr(attribute)) => words_seen(attribute.values.items()),
        _ => (0, 0),
    }
}

/// A header of that length that is one attribute of that type.
fn one_attribute(alloc: Global, length: u32, kind: u32) -> Result<Vec<u8>, Memory> {
    let mut bytes = Vec::new(alloc);
    append_front(&mut bytes, FRONT, kind, filler(0, length))?;
    append_words(&mut bytes, &[0, 0])?;
    Ok(bytes)
}

/// Its words, and what their bytes come to.
fn attribute_seen<R: Abort>(
    rt: &R,
    alloc: Global,
    length: u32,
    kind: u32,
) -> Result<(u32, u64), Fail> {
    let bytes = one_attribute(alloc, length, kind)?;
    expect_length(rt, &bytes, length as usize);
    let header = header_of(rt, alloc, &bytes, u64::from(length))?;
    let attributes = header.attributes(alloc)?;
    Ok(first_seen(attributes.containers.items()))
}

fn expect_attribute<R: Abort>(
    rt: &R,
    alloc: Global,
    length: u32,
    kind: u32,
    expected: (u32, u64),
) -> Result<(), Fail> {
    let seen = attribute_seen(rt, alloc, length, kind)?;
    expect(rt, seen, expected);
    Ok(())
}

/// As many words `7` as there are bytes, or one of as many bytes.
#[test]
fn longest_attributes_are_read(rt: HostRuntime) -> Result<(), Fail> {
    let alloc = rt.alloc();
    expect_attribute(&rt, alloc, LONGEST, BYTES, (1_048_516, 57_668_380))?;
    expect_attribute(&rt, alloc, LONGEST, CHARS, (1, 7_339_612))
}
