//! Replies of a connection over the largest files.

use crate::making::{append_times, append_words, bytes_body, name_of};
use dap_outside::{MemFile, MemLink, MemShelf};
use dap_server::serve_connection;
use dap_types::{Bytes, List, Memory, Name};
use std::alloc::{AllocGlobal, Global};
use std::process::Abort;
use std::test::Fail;
use std::thread::Threads;

/// The bytes of the longest table.
const TABLE: u32 = 67_108_864;

/// The bytes of the longest header.
const HEADER: u32 = 1_048_576;

/// The variables of the file with the longest DDS, which has 16,774,818 bytes, and the values of its attribute.
const VARIABLES: u32 = 1_997;

const VALUES: u32 = 712_572;

const DATA_HEAD: &[u8] =
    b"HTTP/1.1 200 OK\r\nXDODS-Server: dap2/1.0\r\nXDAP: 2.0\r\nContent-Description: dods_data\r\nContent-Type: application/octet-stream\r\nConnection: close\r\n\r\n";

/// A shelf with one file.
fn shelf_of(alloc: Global, name: &str, bytes: Vec<u8>) -> Result<MemShelf, Memory> {
    let mut files = List::new(alloc);
    files.push(MemFile {
        name: Name::new(alloc, name)?,
        bytes: Bytes::from_vec(bytes),
    })?;
    Ok(MemShelf::new(files, List::new(alloc)))
}

/// The link of a request, which takes so many bytes.
fn asked<R: Threads + AllocGlobal + Sync>(
    rt: &R,
    shelf: &mut MemShelf,
    request: &[u8],
    room: u32,
) -> Result<MemLink, Memory> {
    let alloc = rt.alloc();
    let input = Bytes::new(alloc, request)?;
    let mut link = MemLink::new(
        alloc,
        input,
        room,
        65_536,
        List::new(alloc),
        List::new(alloc),
    )?;
    let _served = serve_connection(rt, alloc, shelf, &mut link, 1);
    Ok(link)
}

/// What is written begins and ends so, and nothing stands between.
fn expect_written<R: Abort>(rt: &R, link: &MemLink, front: &[u8], text: &[u8]) {
    let written = link.written();
    assert!(rt; written.starts_with(front));
    assert!(rt; written.ends_with(text));
    assert!(rt; written.len() == front.len().saturating_add(text.len()));
}

/// A table of one text, of that length.
fn one_cell(alloc: Global, length: u32) -> Result<Vec<u8>, Memory> {
    let mut text = Vec::from_slice(alloc, b"s\n")?;
    append_times(&mut text, b"x", length.saturating_sub(3) as usize)?;
    text.push(b'\n')?;
    Ok(text)
}

/// Its data response, with what fills it up to a multiple of four.
fn one_row(alloc: Global, length: u32, filler: usize) -> Result<Vec<u8>, Memory> {
    let mut body = Vec::from_slice(
        alloc,
        b"Dataset {\n    Sequence {\n        String s;\n    } t;\n} t.csv;\nData:\n",
    )?;
    let count = length.saturating_sub(3);
    append_words(&mut body, &[0x5a000000, count])?;
    append_times(&mut body, b"x", count as usize)?;
    append_times(&mut body, b"\0", filler)?;
    append_words(&mut body, &[0xa5000000])?;
    Ok(body)
}

#[test]
fn longest_table_is_answered(rt: HostRuntime) -> Result<(), Fail> {
    let alloc = rt.alloc();
    let mut shelf = shelf_of(alloc, "t.csv", one_cell(alloc, TABLE)?)?;
    let link = asked(
        &rt,
        &mut shelf,
        b"GET /t.csv.dods HTTP/1.0\r\n\r\n",
        67_200_000,
    )?;
    expect_written(&rt, &link, DATA_HEAD, &one_row(alloc, TABLE, 3)?);
    Ok(())
}

/// A clause on texts, of which the first has so many bytes, with so many others, each byte that is not plain as an
/// escape.
fn many_texts(alloc: Global, length: u32, others: usize) -> Result<Vec<u8>, Memory> {
    let mut request = Vec::from_slice(alloc, b"GET /t.csv.dods?&t.s=%7B%22")?;
    append_times(&mut request, b"b", length as usize)?;
    request.extend_from_slice(b"%22")?;
    append_times(&mut request, b",%22z%22", others)?;
    request.extend_from_slice(b"%7D HTTP/1.0\r\n\r\n")?;
    Ok(request)
}

/// A table of which the middle row is so long.
fn long_row(alloc: Global, length: u32) -> Result<Vec<u8>, Memory> {
    let mut text = Vec::from_slice(alloc, b"s\na\n")?;
    append_times(&mut text, b"b", length as usize)?;
    text.extend_from_slice(b"\nc\n")?;
    Ok(text)
}

/// The data response of that row alone.
fn that_row(alloc: Global, length: u32) -> Result<Vec<u8>, Memory> {
    let mut body = Vec::from_slice(
        alloc,
        b"Dataset {\n    Sequence {\n        String s;\n    } t;\n} t.csv;\nData:\n",
    )?;
    append_words(&mut body, &[0x5a000000, length])?;
    append_times(&mut body, b"b", length as usize)?;
    append_words(&mut body, &[0xa5000000])?;
    Ok(body)
}

#[test]
fn most_texts_of_a_clause_are_judged(rt: HostRuntime) -> Result<(), Fail> {
    let alloc = rt.alloc();
    let mut shelf = shelf_of(alloc, "t.csv", long_row(alloc, 8_000)?)?;
    let request = many_texts(alloc, 8_000, 1_023)?;
    let link = asked(&rt, &mut shelf, &request, 100_000)?;
    expect_written(&rt, &link, DATA_HEAD, &that_row(alloc, 8_000)?);
    Ok(())
}

/// A dimension of one index with a name of 256 bytes.
fn append_dimension(bytes: &mut Vec<u8>, number: u32) -> Result<(), Memory> {
    append_words(bytes, &[256])?;
    bytes.extend_from_slice(&name_of(number))?;
    append_times(bytes, b"d", 251)?;
    append_words(bytes, &[1])
}

/// A Byte over 32 dimensions, which stands there.
fn append_variable(bytes: &mut Vec<u8>, number: u32, begin: u32) -> Result<(), Memory> {
    append_words(bytes, &[5])?;
    bytes.extend_from_slice(&name_of(number))?;
    bytes.extend_from_slice(b"\0\0\0")?;
    append_words(bytes, &[32])?;
    for id in 0..32 {
        append_words(bytes, &[id])?;
    }
    append_words(bytes, &[0, 0, 1, 4, begin])
}

/// A file of 32 dimensions, an attribute `a` of so many bytes 127 and so many variables, all at one place, behind a
/// header of that length.
fn long_file(alloc: Global, variables: u32, values: u32, begin: u32) -> Result<Vec<u8>, Memory> {
    let mut bytes = Vec::new(alloc);
    append_words(&mut bytes, &[0x43444601, 0, 0x0a, 32])?;
    for number in 0..32 {
        append_dimension(&mut bytes, number)?;
    }
    append_words(&mut bytes, &[0x0c, 1, 1, 0x61000000, 1, values])?;
    append_times(&mut bytes, &[127], values as usize)?;
    append_words(&mut bytes, &[0x0b, variables])?;
    for number in 0..variables {
        append_variable(&mut bytes, number, begin)?;
    }
    append_words(&mut bytes, &[0])?;
    Ok(bytes)
}

/// The dimensions of a variable in a DDS.
fn dimensions(alloc: Global) -> Result<Vec<u8>, Memory> {
    let mut text = Vec::new(alloc);
    for number in 0..32 {
        text.push(b'[')?;
        text.extend_from_slice(&name_of(number))?;
        append_times(&mut text, b"d", 251)?;
        text.extend_from_slice(b" = 1]")?;
    }
    Ok(text)
}

/// The DDS of that file, of 8,400 bytes a variable and 18 around them.
fn long_dds(alloc: Global, variables: u32) -> Result<Vec<u8>, Memory> {
    let dimensions = dimensions(alloc)?;
    let mut text = Vec::from_slice(alloc, b"Dataset {\n")?;
    for number in 0..variables {
        text.extend_from_slice(b"    Byte ")?;
        text.extend_from_slice(&name_of(number))?;
        text.extend_from_slice(&dimensions)?;
        text.extend_from_slice(b";\n")?;
    }
    text.extend_from_slice(b"} h.nc;\n")?;
    Ok(text)
}

/// The containers of some variables without attributes.
fn append_containers(text: &mut Vec<u8>, variables: u32) -> Result<(), Memory> {
    for number in 0..variables {
        text.extend_from_slice(b"    ")?;
        text.extend_from_slice(&name_of(number))?;
        text.extend_from_slice(b" {\n    }\n")?;
    }
    Ok(())
}

/// The DAS of that file.
fn long_das(alloc: Global, variables: u32, values: u32) -> Result<Vec<u8>, Memory> {
    let mut text = Vec::from_slice(alloc, b"Attributes {\n")?;
    append_containers(&mut text, variables)?;
    text.extend_from_slice(b"    NC_GLOBAL {\n        Byte a 127")?;
    append_times(&mut text, b", 127", values.saturating_sub(1) as usize)?;
    text.extend_from_slice(b";\n    }\n}\n")?;
    Ok(text)
}

const DDS_HEAD: &[u8] =
    b"HTTP/1.1 200 OK\r\nXDODS-Server: dap2/1.0\r\nXDAP: 2.0\r\nContent-Description: dods_dds\r\nContent-Type: text/plain\r\nContent-Length: 16774818\r\n\r\n";

const DAS_HEAD: &[u8] =
    b"HTTP/1.1 200 OK\r\nXDODS-Server: dap2/1.0\r\nXDAP: 2.0\r\nContent-Description: dods_das\r\nContent-Type: text/plain\r\nContent-Length: 3598858\r\n\r\n";

#[test]
fn longest_header_is_answered(rt: HostRuntime) -> Result<(), Fail> {
    let alloc = rt.alloc();
    let file = long_file(alloc, VARIABLES, VALUES, HEADER)?;
    assert!(rt; file.len() == HEADER as usize + 4);
    let mut shelf = shelf_of(alloc, "h.nc", file)?;
    let dds = asked(
        &rt,
        &mut shelf,
        b"GET /h.nc.dds HTTP/1.1\r\n\r\n",
        17_000_000,
    )?;
    expect_written(&rt, &dds, DDS_HEAD, &long_dds(alloc, VARIABLES)?);
    let das = asked(
        &rt,
        &mut shelf,
        b"GET /h.nc.das HTTP/1.1\r\n\r\n",
        17_000_000,
    )?;
    expect_written(&rt, &das, DAS_HEAD, &long_das(alloc, VARIABLES, VALUES)?);
    Ok(())
}

/// The members of the widest saved response.
const MEMBERS: u32 = 900_000;

const SAVED_HEAD: &[u8] =
    b"HTTP/1.1 200 OK\r\nXDODS-Server: dap2/1.0\r\nXDAP: 2.0\r\nContent-Description: dods_das\r\nContent-Type: text/plain\r\nContent-Length: 16200015\r\n\r\n";

/// The DAS of a saved response: a container without attributes for each member.
fn saved_das(alloc: Global, members: u32) -> Result<Vec<u8>, Memory> {
    let mut text = Vec::from_slice(alloc, b"Attributes {\n")?;
    append_containers(&mut text, members)?;
    text.extend_from_slice(b"}\n")?;
    Ok(text)
}

#[test]
fn widest_response_is_described(rt: HostRuntime) -> Result<(), Fail> {
    let alloc = rt.alloc();
    let mut shelf = shelf_of(alloc, "s.dods", bytes_body(alloc, MEMBERS)?)?;
    let link = asked(
        &rt,
        &mut shelf,
        b"GET /s.dods.das HTTP/1.1\r\n\r\n",
        17_000_000,
    )?;
    expect_written(&rt, &link, SAVED_HEAD, &saved_das(alloc, MEMBERS)?);
    Ok(())
}
