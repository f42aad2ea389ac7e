//! Texts of 16 MiB, and Error objects of 64 KiB.

use crate::building::{
    append_times, expect_length, expect_same, name_of, names_sum, sum_of, times,
};
use crate::expecting::expect;
use dap_errors::{print_error, read_error};
use dap_types::{BaseType, Bytes, Dataset, Decl, Index, Memory, check};
use das_text::{Attributes, Entry, Word};
use dds_text::{DdsReader, DdsStep};
use std::alloc::Global;
use std::process::Abort;
use std::test::Fail;

/// The bytes of the longest DDS and of the longest DAS.
const LONGEST: usize = 16_777_216;

/// The most members of a dataset.
const MEMBERS: u32 = 1_000_000;

fn append_members(text: &mut Vec<u8>, members: u32) -> Result<(), Memory> {
    for number in 0..members {
        text.extend_from_slice(b"    Byte ")?;
        text.extend_from_slice(&name_of(number))?;
        text.extend_from_slice(b";\n")?;
    }
    Ok(())
}

/// A DDS of so many members, each a Byte, and of that length.
fn long_dds(alloc: Global, members: u32, length: usize) -> Result<Vec<u8>, Memory> {
    let mut text = Vec::from_slice(alloc, b"Dataset {\n")?;
    append_members(&mut text, members)?;
    text.extend_from_slice(b"} ")?;
    let left = length.saturating_sub(text.len()).saturating_sub(2);
    append_times(&mut text, b"n", left)?;
    text.extend_from_slice(b";\n")?;
    Ok(text)
}

/// Hands a piece to the reader, and tells whether it takes more.
fn takes_more(reader: &mut DdsReader, piece: &[u8]) -> Result<bool, Memory> {
    let step = reader.push(piece)?;
    Ok(matches!(step, DdsStep::More))
}

/// The dataset of the text, which comes in pieces of 64 KiB.
fn read_dds(alloc: Global, text: &[u8]) -> Result<Option<Dataset>, Memory> {
    let mut reader = DdsReader::new(alloc, 0);
    for piece in text.chunks(65536) {
        if !takes_more(&mut reader, piece)? {
            break;
        }
    }
    Ok(reader.dataset())
}

fn is_byte(member: &Decl) -> bool {
    match member {
        Decl::Base(column) => column.base == BaseType::Byte,
        _ => false,
    }
}

/// How many members are Bytes, and the sum of the bytes of their names.
fn members_seen(members: &[Decl]) -> (u32, u64) {
    let mut count = 0u32;
    let mut sum = 0u64;
    for member in members {
        if is_byte(member) {
            count = count.wrapping_add(1);
            sum = sum.wrapping_add(sum_of(member.name().bytes()));
        }
    }
    (count, sum)
}

/// The members have to be found by their names.
fn expect_found<R: Abort>(rt: &R, alloc: Global, dataset: &Dataset) -> Result<(), Fail> {
    let Ok(()) = check(alloc, dataset) else {
        panic!(rt; "not well formed");
    };
    let index = Index::new(alloc, dataset)?;
    let mut number = 0u32;
    for member in dataset.members.items() {
        number = number.wrapping_add(1);
        let path = [member.name().try_clone()?];
        assert!(rt; index.member(&path) == Some(number));
    }
    Ok(())
}

fn dataset_of<R: Abort>(rt: &R, alloc: Global, text: &[u8]) -> Result<Dataset, Fail> {
    match read_dds(alloc, text)? {
        Some(dataset) => Ok(dataset),
        None => panic!(rt; "no dataset"),
    }
}

/// The text of the dataset that a text has.
fn dds_again<R: Abort>(rt: &R, alloc: Global, text: &[u8]) -> Result<Bytes, Fail> {
    let dataset = dataset_of(rt, alloc, text)?;
    Ok(dds_text::print(alloc, &dataset)?)
}

/// The text has so many members, with names of that sum, which are found.
fn expect_members<R: Abort>(
    rt: &R,
    alloc: Global,
    text: &[u8],
    members: u32,
    sum: u64,
) -> Result<(), Fail> {
    let dataset = dataset_of(rt, alloc, text)?;
    expect(rt, members_seen(dataset.members.items()), (members, sum));
    expect_found(rt, alloc, &dataset)
}

fn expect_dds<R: Abort>(rt: &R, alloc: Global, members: u32, length: usize) -> Result<(), Fail> {
    let text = long_dds(alloc, members, length)?;
    expect_length(rt, &text, length);
    let again = dds_again(rt, alloc, &text)?;
    expect_same(rt, again.bytes(), &text);
    expect_members(rt, alloc, &text, members, names_sum(members))
}

#[test]
fn longest_dds_is_read_and_printed(rt: HostRuntime) -> Result<(), Fail> {
    expect_dds(&rt, rt.alloc(), MEMBERS, LONGEST)
}

/// The first container: an attribute of ten times so many values and one more, and so many others.
fn append_first(text: &mut Vec<u8>, many: usize) -> Result<(), Memory> {
    text.extend_from_slice(b"    v {\n        Byte b 7")?;
    append_times(text, b", 7", many.saturating_mul(10))?;
    text.extend_from_slice(b";\n")?;
    append_times(text, b"        Url u \"x\";\n", many)?;
    text.extend_from_slice(b"    }\n")?;
    Ok(())
}

/// A DAS of that length: so many containers and so many attributes, ten times as many values, and a long
/// value.
fn long_das(alloc: Global, many: usize, length: usize) -> Result<Vec<u8>, Memory> {
    let mut text = Vec::from_slice(alloc, b"Attributes {\n")?;
    append_first(&mut text, many)?;
    append_times(&mut text, b"    c {\n    }\n", many)?;
    text.extend_from_slice(b"    w {\n        String s \"")?;
    let left = length.saturating_sub(text.len()).saturating_sub(11);
    append_times(&mut text, b"q", left)?;
    text.extend_from_slice(b"\";\n    }\n}\n")?;
    Ok(text)
}

/// The sum of the bytes of a value.
pub fn word_sum(value: &Word) -> u64 {
    match value {
        Word::Plain(text) => sum_of(text.bytes()),
        Word::Quoted(text) => sum_of(text.bytes()),
    }
}

/// The sum of the bytes of the values.
fn values_sum(values: &[Word]) -> u64 {
    let mut sum = 0u64;
    for value in values {
        sum = sum.wrapping_add(word_sum(value));
    }
    sum
}

/// The entries of the first container, and the values of its first attribute, with the sum of their bytes.
fn first_seen(containers: &[Entry]) -> (usize, usize, u64) {
    let Some(Entry::Container(_, entries)) = containers.first() else {
        return (0, 0, 0);
    };
    let count = entries.items().len();
    let Some(Entry::Attr(attribute)) = entries.items().first() else {
        return (count, 0, 0);
    };
    let values = attribute.values.items();
    (count, values.len(), values_sum(values))
}

fn attributes_of<R: Abort>(rt: &R, alloc: Global, text: &[u8]) -> Result<Attributes, Fail> {
    match das_text::read(alloc, text) {
        Ok(attributes) => Ok(attributes),
        Err(_) => panic!(rt; "no attributes"),
    }
}

/// The text of the attributes that a text has.
fn das_again<R: Abort>(rt: &R, alloc: Global, text: &[u8]) -> Result<Bytes, Fail> {
    let attributes = attributes_of(rt, alloc, text)?;
    Ok(das_text::print(alloc, &attributes)?)
}

/// The text has so many containers, and its first one so many entries, values and their sum.
fn expect_entries<R: Abort>(
    rt: &R,
    alloc: Global,
    text: &[u8],
    containers: usize,
    first: (usize, usize, u64),
) -> Result<(), Fail> {
    let attributes = attributes_of(rt, alloc, text)?;
    let found = attributes.containers.items();
    expect(rt, found.len(), containers);
    expect(rt, first_seen(found), first);
    Ok(())
}

fn expect_das<R: Abort>(rt: &R, alloc: Global, many: u32, length: usize) -> Result<(), Fail> {
    let count = many as usize;
    let text = long_das(alloc, count, length)?;
    expect_length(rt, &text, length);
    let again = das_again(rt, alloc, &text)?;
    expect_same(rt, again.bytes(), &text);
    let values = u64::from(many) * 10 + 1;
    let first = (count + 1, values as usize, values * 55);
    expect_entries(rt, alloc, &text, count + 2, first)
}

#[test]
fn longest_das_is_read_and_printed(rt: HostRuntime) -> Result<(), Fail> {
    expect_das(&rt, rt.alloc(), 100_000, LONGEST)
}

/// An Error object with that message, up to its last brace.
fn error_text(alloc: Global, message: &[u8]) -> Result<Vec<u8>, Memory> {
    let mut text = Vec::from_slice(alloc, b"Error {\n    code = 1;\n    message = \"")?;
    text.extend_from_slice(message)?;
    text.extend_from_slice(b"\";\n}")?;
    Ok(text)
}

/// The text is read as an Error object with that message.
fn expect_message<R: Abort>(
    rt: &R,
    alloc: Global,
    text: &[u8],
    message: &[u8],
) -> Result<(), Fail> {
    let Ok(object) = read_error(alloc, text) else {
        panic!(rt; "no object");
    };
    expect(rt, object.code, 1);
    expect_same(rt, object.message.bytes(), message);
    Ok(())
}

/// An Error object with a message of so many bytes is printed and read. It ends at that place.
fn expect_error<R: Abort>(rt: &R, alloc: Global, many: usize, end: usize) -> Result<(), Fail> {
    let message = times(alloc, b"m", many)?;
    let mut text = error_text(alloc, &message)?;
    expect_length(rt, &text, end);
    text.extend_from_slice(b";\n")?;
    let printed = print_error(alloc, 1, &message)?;
    expect_same(rt, printed.bytes(), &text);
    expect_message(rt, alloc, &text, &message)
}

#[test]
fn longest_error_object_is_printed_and_read(rt: HostRuntime) -> Result<(), Fail> {
    expect_error(&rt, rt.alloc(), 65_495, 65_536)
}
