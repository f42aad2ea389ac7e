use crate::tests::expecting::expect;
use crate::tests::lists::add;
use dap_types::{BaseType, Bytes, Id, List, Memory};
use das_text::{Attribute, Attributes, Entry, Word, print};
use std::alloc::Global;
use std::process::Abort;
use std::test::Fail;
use text_lines::put_line;

fn plain(alloc: Global, bytes: &[u8]) -> Result<Word, Memory> {
    Ok(Word::Plain(Bytes::new(alloc, bytes)?))
}

fn quoted(alloc: Global, text: &[u8]) -> Result<Word, Memory> {
    Ok(Word::Quoted(Bytes::new(alloc, text)?))
}

/// At most two values.
fn values(alloc: Global, first: Option<Word>, second: Option<Word>) -> Result<List<Word>, Memory> {
    let mut values = List::new(alloc);
    if let Some(word) = first {
        add(&mut values, word)?;
    }
    if let Some(word) = second {
        add(&mut values, word)?;
    }
    Ok(values)
}

/// An attribute with at most two values.
fn attribute(
    alloc: Global,
    base: BaseType,
    name: &[u8],
    first: Option<Word>,
    second: Option<Word>,
) -> Result<Entry, Memory> {
    let name = Id::raw(alloc, name)?;
    let values = values(alloc, first, second)?;
    Ok(Entry::Attr(Attribute { base, name, values }))
}

fn container(alloc: Global, name: &[u8], entries: List<Entry>) -> Result<Entry, Memory> {
    Ok(Entry::Container(Id::raw(alloc, name)?, entries))
}

/// One variable and the file, both without attributes.
fn empty_containers(alloc: Global) -> Result<Attributes, Memory> {
    let mut containers = List::new(alloc);
    add(&mut containers, container(alloc, b"v", List::new(alloc))?)?;
    add(
        &mut containers,
        container(alloc, b"NC_GLOBAL", List::new(alloc))?,
    )?;
    Ok(Attributes { containers })
}

/// Texts with quotes and backslashes, and no value.
fn inner(alloc: Global) -> Result<List<Entry>, Memory> {
    let quotes = quoted(alloc, b"a \"b\"")?;
    let backslashes = quoted(alloc, b"c\\d\n")?;
    let notes = attribute(
        alloc,
        BaseType::Text,
        b"notes",
        Some(quotes),
        Some(backslashes),
    )?;
    let mut inner = List::new(alloc);
    add(&mut inner, notes)?;
    add(
        &mut inner,
        attribute(alloc, BaseType::Url, b"none", None, None)?,
    )?;
    Ok(inner)
}

/// Numbers, that container, and an empty text.
fn outer(alloc: Global) -> Result<List<Entry>, Memory> {
    let low = plain(alloc, b"-1")?;
    let high = plain(alloc, b"2")?;
    let empty = quoted(alloc, b"")?;
    let mut outer = List::new(alloc);
    add(
        &mut outer,
        attribute(alloc, BaseType::Int16, b"range", Some(low), Some(high))?,
    )?;
    add(&mut outer, container(alloc, b"more", inner(alloc)?)?)?;
    add(
        &mut outer,
        attribute(alloc, BaseType::Text, b"units", Some(empty), None)?,
    )?;
    Ok(outer)
}

/// Values of each kind, and a container in another.
fn nested_containers(alloc: Global) -> Result<Attributes, Memory> {
    let mut containers = List::new(alloc);
    add(&mut containers, container(alloc, b"v", outer(alloc)?)?)?;
    Ok(Attributes { containers })
}

/// The attributes are printed so.
fn expect_printed<R: Abort>(
    rt: &R,
    alloc: Global,
    attributes: &Attributes,
    text: &[u8],
) -> Result<(), Fail> {
    expect(rt, print(alloc, attributes)?.bytes(), text);
    Ok(())
}

#[test]
fn empty_containers_are_printed(rt: HostRuntime) -> Result<(), Fail> {
    let lines = b"Attributes {\n    v {\n    }\n    NC_GLOBAL {\n    }\n}\n";
    expect_printed(&rt, rt.alloc(), &empty_containers(rt.alloc())?, lines)
}

#[test]
fn attributes_are_printed(rt: HostRuntime) -> Result<(), Fail> {
    let lines =
        b"Attributes {\n    v {\n        Int16 range -1, 2;\n        more {\n            String notes \"a \\\"b\\\"\", \"c\\\\d\n\";\n            Url none;\n        }\n        String units \"\";\n    }\n}\n";
    expect_printed(&rt, rt.alloc(), &nested_containers(rt.alloc())?, lines)
}

/// A container in a container, so many of them, around an attribute.
fn nested(alloc: Global, depth: u8) -> Result<List<Entry>, Memory> {
    let mut entries = List::new(alloc);
    if depth == 0 {
        add(
            &mut entries,
            attribute(alloc, BaseType::Byte, b"b", None, None)?,
        )?;
        return Ok(entries);
    }
    add(
        &mut entries,
        container(alloc, b"c", nested(alloc, depth - 1)?)?,
    )?;
    Ok(entries)
}

fn nested_lines(alloc: Global, depth: u8) -> Result<Vec<u8>, Memory> {
    let mut lines = Vec::new(alloc);
    put_line(&mut lines, 0, b"Attributes {")?;
    for level in 1..=depth {
        put_line(&mut lines, 4 * u32::from(level), b"c {")?;
    }
    put_line(&mut lines, 4 * (u32::from(depth) + 1), b"Byte b;")?;
    for level in (1..=depth).rev() {
        put_line(&mut lines, 4 * u32::from(level), b"}")?;
    }
    put_line(&mut lines, 0, b"}")?;
    Ok(lines)
}

/// Containers nest at most 16 deep in a text that is read; print goes deeper.
#[test]
fn nested_containers_are_printed(rt: HostRuntime) -> Result<(), Fail> {
    for depth in [1, 15, 16, 17, 100] {
        let containers = nested(rt.alloc(), depth)?;
        let lines = nested_lines(rt.alloc(), depth)?;
        expect_printed(&rt, rt.alloc(), &Attributes { containers }, &lines)?;
    }
    Ok(())
}
