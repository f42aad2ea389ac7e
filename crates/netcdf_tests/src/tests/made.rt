use std::alloc::Global;
use std::test::Fail;

/// A variable: its name, its dimensions, the words of its attributes, its type and its place.
#[derive(Clone, Copy)]
pub struct Variable<'a> {
    pub name: &'a [u8],
    pub dimensions: &'a [u32],
    pub attributes: &'a [u32],
    pub number: u32,
    pub begin: u32,
}

pub fn with_attributes<'a>(
    name: &'a [u8],
    dimensions: &'a [u32],
    attributes: &'a [u32],
    number: u32,
    begin: u32,
) -> Variable<'a> {
    Variable {
        name,
        dimensions,
        attributes,
        number,
        begin,
    }
}

/// The words of an empty list, in versions 1 and 2.
const NO_ATTRIBUTES: [u32; 2] = [0, 0];

/// A variable without attributes, in versions 1 and 2.
pub fn sample<'a>(name: &'a [u8], dimensions: &'a [u32], number: u32, begin: u32) -> Variable<'a> {
    with_attributes(name, dimensions, &NO_ATTRIBUTES, number, begin)
}

pub fn push_word(bytes: &mut Vec<u8>, word: u32) -> Result<(), Fail> {
    bytes.extend_from_slice(&word.to_be_bytes())?;
    Ok(())
}

pub fn push_words(bytes: &mut Vec<u8>, words: &[u32]) -> Result<(), Fail> {
    for word in words {
        push_word(bytes, *word)?;
    }
    Ok(())
}

pub fn push_zeros(bytes: &mut Vec<u8>, count: usize) -> Result<(), Fail> {
    for _ in 0..count {
        bytes.push(0)?;
    }
    Ok(())
}

/// How many items follow.
fn push_count(bytes: &mut Vec<u8>, count: usize) -> Result<(), Fail> {
    push_word(bytes, (count % 1000) as u32)
}

fn push_padding(bytes: &mut Vec<u8>, count: usize) -> Result<(), Fail> {
    for _ in 0..count {
        bytes.push(0xff)?;
    }
    Ok(())
}

fn push_name(bytes: &mut Vec<u8>, name: &[u8]) -> Result<(), Fail> {
    push_count(bytes, name.len())?;
    bytes.extend_from_slice(name)?;
    push_padding(bytes, (4 - name.len() % 4) % 4)
}

/// The dimensions of a variable.
fn push_ids(bytes: &mut Vec<u8>, ids: &[u32]) -> Result<(), Fail> {
    push_count(bytes, ids.len())?;
    for id in ids {
        push_word(bytes, *id)?;
    }
    Ok(())
}

/// Where a variable begins, in version 2 above 2^32.
fn push_begin(bytes: &mut Vec<u8>, version: u8, begin: u32) -> Result<(), Fail> {
    if version == 2 {
        push_words(bytes, &[1, begin])
    } else {
        push_word(bytes, begin)
    }
}

fn push_variable(bytes: &mut Vec<u8>, version: u8, v: &Variable) -> Result<(), Fail> {
    push_name(bytes, v.name)?;
    push_ids(bytes, v.dimensions)?;
    push_words(bytes, v.attributes)?;
    push_word(bytes, v.number)?;
    push_word(bytes, 7)?;
    push_begin(bytes, version, v.begin)
}

/// The tag of a list, and how many items it has.
fn push_head(bytes: &mut Vec<u8>, tag: u32, count: usize) -> Result<(), Fail> {
    push_word(bytes, tag)?;
    push_count(bytes, count)
}

fn push_dimension(bytes: &mut Vec<u8>, name: &[u8], length: u32) -> Result<(), Fail> {
    push_name(bytes, name)?;
    push_word(bytes, length)
}

fn push_dimensions(bytes: &mut Vec<u8>, dimensions: &[(&[u8], u32)]) -> Result<(), Fail> {
    push_head(bytes, 10, dimensions.len())?;
    for (name, length) in dimensions {
        push_dimension(bytes, name, *length)?;
    }
    Ok(())
}

fn push_variables(bytes: &mut Vec<u8>, version: u8, variables: &[Variable]) -> Result<(), Fail> {
    push_head(bytes, 11, variables.len())?;
    for v in variables {
        push_variable(bytes, version, v)?;
    }
    Ok(())
}

/// A file of that version without attributes of its own, and behind its header so many zero bytes.
pub fn file(
    alloc: Global,
    version: u8,
    records: u32,
    dimensions: &[(&[u8], u32)],
    variables: &[Variable],
    data: usize,
) -> Result<Vec<u8>, Fail> {
    let mut bytes = Vec::from_slice(alloc, &[0x43, 0x44, 0x46, version])?;
    push_word(&mut bytes, records)?;
    push_dimensions(&mut bytes, dimensions)?;
    push_head(&mut bytes, 12, 0)?;
    push_variables(&mut bytes, version, variables)?;
    push_zeros(&mut bytes, data)?;
    Ok(bytes)
}
