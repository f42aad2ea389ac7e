//! Connections over files and links in memory; the replies are worked out by hand.

ghost use Rattle.std.specs.Prelude.{◌<◌, ◌≤◌};

use crate::expecting::expect;
use dap_outside::{MemFile, MemLink, MemShelf};
use dap_server::{Ending, Served, serve_connection};
use dap_types::{Bytes, List, Memory, Name};
use std::alloc::Global;
use std::process::Abort;
use std::test::Fail;
use std::thread::Threads;

const BUOYS: &[u8] = b"station,depth:Int32\nA1,5\nB22,-7\n";

const V: &[u32] = &[
    0x43444601, 0, 0x0a, 2, 1, 0x79000000, 3, 1, 0x78000000, 4, 0, 0, 0x0b, 1, 1, 0x76000000, 2, 0,
    1, 0, 0, 4, 0x30, 0x60, 0, 1, 2, 3, 4, 5, 6, 7, 8, 9, 10, 11,
];

/// One record variable, with three records and with none.
const R: &[u32] = &[
    0x43444601, 3, 0x0a, 1, 1, 0x74000000, 0, 0, 0, 0x0b, 1, 1, 0x73000000, 1, 0, 0, 0, 3, 4, 0x50,
];

const E: &[u32] = &[
    0x43444601, 0, 0x0a, 1, 1, 0x74000000, 0, 0, 0, 0x0b, 1, 1, 0x73000000, 1, 0, 0, 0, 3, 4, 0x50,
];

/// Each second record of three files.
const JOINED_BODY: &[u8] =
    b"Dataset {\n    Int16 s[t = 3];\n} j.join;\nData:\n\0\0\0\x03\0\0\0\x03\0\0\0\x02\0\0\0\x04\0\0\0\x06";

const JOINED_DAS: &[u8] =
    b"HTTP/1.1 200 OK\r\nXDODS-Server: dap2/1.0\r\nXDAP: 2.0\r\nContent-Description: dods_das\r\nContent-Type: text/plain\r\nContent-Length: 51\r\n\r\nAttributes {\n    s {\n    }\n    NC_GLOBAL {\n    }\n}\n";

/// Of a list whose second line names no file, of one whose second file has another shape, and of one of a file
/// without records.
const NO_MEMBER: &[u8] =
    b"HTTP/1.1 500 Internal Server Error\r\nXDODS-Server: dap2/1.0\r\nXDAP: 2.0\r\nContent-Description: dods_error\r\nContent-Type: text/plain\r\nContent-Length: 77\r\n\r\nError {\n    code = 19;\n    message = \"damaged file: no member in line 2\";\n};\n";

const OTHER_SHAPE: &[u8] =
    b"HTTP/1.1 500 Internal Server Error\r\nXDODS-Server: dap2/1.0\r\nXDAP: 2.0\r\nContent-Description: dods_error\r\nContent-Type: text/plain\r\nContent-Length: 74\r\n\r\nError {\n    code = 19;\n    message = \"damaged file: member 2 differs\";\n};\n";

const NO_RECORD: &[u8] =
    b"HTTP/1.1 500 Internal Server Error\r\nXDODS-Server: dap2/1.0\r\nXDAP: 2.0\r\nContent-Description: dods_error\r\nContent-Type: text/plain\r\nContent-Length: 77\r\n\r\nError {\n    code = 19;\n    message = \"damaged file: no record dimension\";\n};\n";

const DATA_HEAD: &[u8] =
    b"HTTP/1.1 200 OK\r\nXDODS-Server: dap2/1.0\r\nXDAP: 2.0\r\nContent-Description: dods_data\r\nContent-Type: application/octet-stream\r\nTransfer-Encoding: chunked\r\n\r\n";

const DATA_HEAD_CLOSE: &[u8] =
    b"HTTP/1.1 200 OK\r\nXDODS-Server: dap2/1.0\r\nXDAP: 2.0\r\nContent-Description: dods_data\r\nContent-Type: application/octet-stream\r\nConnection: close\r\n\r\n";

const BUOYS_BODY: &[u8] =
    b"Dataset {\n    Sequence {\n        String station;\n        Int32 depth;\n    } buoys;\n} buoys.csv;\nData:\n\x5a\0\0\0\0\0\0\x02A1\0\0\0\0\0\x05\x5a\0\0\0\0\0\0\x03B22\0\xff\xff\xff\xf9\xa5\0\0\0";

/// What a clause and one column leave of the same, saved under another name.
const SAVED_PART: &[u8] =
    b"Dataset {\n    Sequence {\n        Int32 depth;\n    } buoys;\n} saved.dods;\nData:\n\x5a\0\0\0\xff\xff\xff\xf9\xa5\0\0\0";

const SAVED_DAS: &[u8] =
    b"HTTP/1.1 200 OK\r\nXDODS-Server: dap2/1.0\r\nXDAP: 2.0\r\nContent-Description: dods_das\r\nContent-Type: text/plain\r\nContent-Length: 33\r\n\r\nAttributes {\n    buoys {\n    }\n}\n";

const SAVED_DDS: &[u8] =
    b"HTTP/1.1 200 OK\r\nXDODS-Server: dap2/1.0\r\nXDAP: 2.0\r\nContent-Description: dods_dds\r\nContent-Type: text/plain\r\nContent-Length: 73\r\n\r\nDataset {\n    Sequence {\n        Int32 depth;\n    } buoys;\n} saved.dods;\n";

/// Of a saved response without its last byte.
const SAVED_CUT: &[u8] =
    b"HTTP/1.1 500 Internal Server Error\r\nXDODS-Server: dap2/1.0\r\nXDAP: 2.0\r\nContent-Description: dods_error\r\nContent-Type: text/plain\r\nContent-Length: 73\r\n\r\nError {\n    code = 19;\n    message = \"damaged file: bad body at 137\";\n};\n";

const LAST_CHUNK: &[u8] = b"\r\n0\r\n\r\n";

const VERSION: &[u8] =
    b"HTTP/1.1 200 OK\r\nXDODS-Server: dap2/1.0\r\nXDAP: 2.0\r\nContent-Description: dods_version\r\nContent-Type: text/plain\r\nContent-Length: 47\r\n\r\nCore version: DAP/2.0\nServer version: dap2/1.0\n";

const LAST_VERSION: &[u8] =
    b"HTTP/1.1 200 OK\r\nXDODS-Server: dap2/1.0\r\nXDAP: 2.0\r\nContent-Description: dods_version\r\nContent-Type: text/plain\r\nContent-Length: 47\r\nConnection: close\r\n\r\nCore version: DAP/2.0\nServer version: dap2/1.0\n";

const BAD_METHOD: &[u8] =
    b"HTTP/1.1 405 Method Not Allowed\r\nXDODS-Server: dap2/1.0\r\nXDAP: 2.0\r\nAllow: GET, HEAD\r\nContent-Description: dods_error\r\nContent-Type: text/plain\r\nContent-Length: 54\r\nConnection: close\r\n\r\nError {\n    code = 16;\n    message = \"bad method\";\n};\n";

const BAD_TARGET: &[u8] =
    b"HTTP/1.1 400 Bad Request\r\nXDODS-Server: dap2/1.0\r\nXDAP: 2.0\r\nContent-Description: dods_error\r\nContent-Type: text/plain\r\nContent-Length: 54\r\n\r\nError {\n    code = 14;\n    message = \"bad target\";\n};\n";

const BAD_REQUEST: &[u8] =
    b"HTTP/1.1 400 Bad Request\r\nXDODS-Server: dap2/1.0\r\nXDAP: 2.0\r\nContent-Description: dods_error\r\nContent-Type: text/plain\r\nContent-Length: 55\r\nConnection: close\r\n\r\nError {\n    code = 17;\n    message = \"bad request\";\n};\n";

const TOO_LONG: &[u8] =
    b"HTTP/1.1 431 Request Header Fields Too Large\r\nXDODS-Server: dap2/1.0\r\nXDAP: 2.0\r\nContent-Description: dods_error\r\nContent-Type: text/plain\r\nContent-Length: 57\r\nConnection: close\r\n\r\nError {\n    code = 18;\n    message = \"head too long\";\n};\n";

const REFUSED: &[u8] =
    b"HTTP/1.1 400 Bad Request\r\nXDODS-Server: dap2/1.0\r\nXDAP: 2.0\r\nContent-Description: dods_error\r\nContent-Type: text/plain\r\nContent-Length: 65\r\n\r\nError {\n    code = 2;\n    message = \"unknown name in item 1\";\n};\n";

const NO_FILE: &[u8] =
    b"HTTP/1.1 404 Not Found\r\nXDODS-Server: dap2/1.0\r\nXDAP: 2.0\r\nContent-Description: dods_error\r\nContent-Type: text/plain\r\nContent-Length: 56\r\n\r\nError {\n    code = 15;\n    message = \"no such file\";\n};\n";

const READ_FAILED: &[u8] =
    b"HTTP/1.1 500 Internal Server Error\r\nXDODS-Server: dap2/1.0\r\nXDAP: 2.0\r\nContent-Description: dods_error\r\nContent-Type: text/plain\r\nContent-Length: 55\r\n\r\nError {\n    code = 20;\n    message = \"read failed\";\n};\n";

/// The head of the same to HEAD, which ends the connection.
const READ_FAILED_HEAD: &[u8] =
    b"HTTP/1.1 500 Internal Server Error\r\nXDODS-Server: dap2/1.0\r\nXDAP: 2.0\r\nContent-Description: dods_error\r\nContent-Type: text/plain\r\nContent-Length: 55\r\nConnection: close\r\n\r\n";

const DAS: &[u8] =
    b"HTTP/1.1 200 OK\r\nXDODS-Server: dap2/1.0\r\nXDAP: 2.0\r\nContent-Description: dods_das\r\nContent-Type: text/plain\r\nContent-Length: 51\r\n\r\nAttributes {\n    v {\n    }\n    NC_GLOBAL {\n    }\n}\n";

const DDS_HEAD: &[u8] =
    b"HTTP/1.1 200 OK\r\nXDODS-Server: dap2/1.0\r\nXDAP: 2.0\r\nContent-Description: dods_dds\r\nContent-Type: text/plain\r\nContent-Length: 96\r\nConnection: close\r\n\r\n";

/// The DDS of a file without variables.
const LONG_DDS: &[u8] =
    b"HTTP/1.1 200 OK\r\nXDODS-Server: dap2/1.0\r\nXDAP: 2.0\r\nContent-Description: dods_dds\r\nContent-Type: text/plain\r\nContent-Length: 21\r\n\r\nDataset {\n} long.nc;\n";

const GET_BUOYS: &[u8] = b"GET /buoys.csv.dods HTTP/1.1\r\nHost: x\r\n\r\n";

const TWO: &[u8] =
    b"GET /none.html HTTP/1.1\r\n\r\nHEAD /buoys.csv.dds HTTP/1.1\r\nConnection: close\r\n\r\n";

const GET_SAVED: &[u8] =
    b"GET /saved.dods.dods?buoys.depth&buoys.depth%3C0 HTTP/1.1\r\nHost: x\r\n\r\n";

const GET_JOINED: &[u8] = b"GET /j.join.dods?s%5B1:2:5%5D HTTP/1.1\r\nHost: x\r\n\r\n";

const GET_VERSION: &[u8] = b"GET /any.ver HTTP/1.1\r\n\r\n";

/// What a connection wrote, and how it was served.
#[derive(Drop)]
struct Done {
    written: Bytes,
    served: Served,
}

/// The numbers of the calls that fail, and how much moves at once.
#[derive(Clone, Copy)]
struct Faults<'a> {
    shelf: &'a [u64],
    takes: &'a [u64],
    puts: &'a [u64],
    piece: u32,
}

const SURE: Faults<'static> = Faults {
    shelf: &[],
    takes: &[],
    puts: &[],
    piece: 100_000,
};

const THIRD_READ_AND_FIRST_PUT: Faults<'static> = Faults {
    shelf: &[3],
    takes: &[],
    puts: &[1],
    piece: 100_000,
};

/// These calls of the shelf fail.
fn shelf_faults(shelf: &[u64]) -> Faults<'_> {
    Faults { shelf, ..SURE }
}

/// These takes of two bytes fail.
fn take_faults(takes: &[u64]) -> Faults<'_> {
    Faults {
        takes,
        piece: 2,
        ..SURE
    }
}

/// These puts of so many bytes at most fail.
fn put_faults(puts: &[u64], piece: u32) -> Faults<'_> {
    Faults {
        puts,
        piece,
        ..SURE
    }
}

fn numbers(alloc: Global, all: &[u64]) -> Result<List<u64>, Memory> {
    let mut list = List::new(alloc);
    for number in all {
        list.push(*number)?;
    }
    Ok(list)
}

fn file(alloc: Global, name: &str, words: &[u32], behind: &[u8]) -> Result<MemFile, Memory> {
    let mut bytes = Vec::new(alloc);
    for word in words {
        bytes.extend_from_slice(&word.to_be_bytes())?;
    }
    bytes.extend_from_slice(behind)?;
    Ok(MemFile {
        name: Name::new(alloc, name)?,
        bytes: Bytes::from_vec(bytes),
    })
}

/// Files by their names: some words, and bytes behind them.
const NAMED: &[(&str, &[u32], &[u8])] = &[
    ("buoys.csv", &[], BUOYS),
    ("v.nc", V, b""),
    ("saved.dods", &[], BUOYS_BODY),
    ("r.nc", R, b"\0\x01\0\x02\0\x03"),
    ("e.nc", E, b""),
    ("r2.nc", R, b"\0\x04\0\x05\0\x06"),
    ("j.join", &[], b"r.nc\ne.nc\nr2.nc\n"),
    ("none.join", &[], b"r.nc\nnone.nc\n"),
    ("other.join", &[], b"r.nc\nv.nc\n"),
    ("fixed.join", &[], b"v.nc\n"),
];

/// The saved response without its last byte.
fn short(alloc: Global) -> Result<MemFile, Memory> {
    let length = BUOYS_BODY.len().min(137);
    file(alloc, "short.dods", &[], &BUOYS_BODY[..length])
}

fn files(alloc: Global) -> Result<List<MemFile>, Memory> {
    let mut files = List::new(alloc);
    for (name, words, behind) in NAMED {
        files.push(file(alloc, name, words, behind)?)?;
    }
    files.push(short(alloc)?)?;
    Ok(files)
}

fn joined(alloc: Global, parts: &[&[u8]]) -> Result<Vec<u8>, Memory> {
    let mut bytes = Vec::new(alloc);
    for part in parts {
        bytes.extend_from_slice(part)?;
    }
    Ok(bytes)
}

/// A file without variables whose header has 70,048 bytes: one attribute of 70,000 characters.
fn long_header(alloc: Global) -> Result<List<MemFile>, Memory> {
    let mut behind = Vec::new(alloc);
    behind.resize(70_000, b'x')?;
    behind.resize(70_008, 0)?;
    let words = [0x43444601, 0, 0, 0, 12, 1, 1, 0x61000000, 2, 70_000];
    let mut files = List::new(alloc);
    files.push(file(alloc, "long.nc", &words, &behind)?)?;
    Ok(files)
}

/// A link that gives this.
fn link(alloc: Global, input: &[u8], faults: Faults<'_>) -> Result<MemLink, Memory> {
    let takes = numbers(alloc, faults.takes)?;
    let puts = numbers(alloc, faults.puts)?;
    let input = Bytes::new(alloc, input)?;
    MemLink::new(alloc, input, 300_000, faults.piece.max(1), takes, puts)
}

fn serve<R: Threads + Sync>(
    rt: &R,
    alloc: Global,
    shelf: &mut MemShelf,
    link: &mut MemLink,
) -> Served {
    serve_connection(rt, alloc, shelf, link, 3)
}

fn finished(alloc: Global, link: &MemLink, served: Served) -> Result<Done, Memory> {
    Ok(Done {
        written: Bytes::new(alloc, link.written())?,
        served,
    })
}

fn served_over<R: Threads + AllocGlobal + Sync>(
    rt: &R,
    input: &[u8],
    faults: Faults<'_>,
) -> Result<Done, Memory> {
    served_from(rt, files(rt.alloc())?, input, faults)
}

fn served_from<R: Threads + AllocGlobal + Sync>(
    rt: &R,
    files: List<MemFile>,
    input: &[u8],
    faults: Faults<'_>,
) -> Result<Done, Memory> {
    let alloc = rt.alloc();
    let mut shelf = MemShelf::new(files, numbers(alloc, faults.shelf)?);
    let mut link = link(alloc, input, faults)?;
    let served = serve(rt, alloc, &mut shelf, &mut link);
    finished(alloc, &link, served)
}

fn as_served(replies: u32, status: u16, ending: Ending) -> Served {
    Served {
        replies,
        status,
        ending,
    }
}

/// The connection wrote this, and was served so.
fn expect_done<R: Abort>(rt: &R, found: &Done, written: &[u8], served: Served) {
    expect(rt, found.written.bytes(), written);
    expect(rt, found.served, served);
}

/// This input is answered with these bytes, and served so.
fn expect_written<R: Threads + Abort + AllocGlobal + Sync>(
    rt: &R,
    input: &[u8],
    faults: Faults<'_>,
    written: &[u8],
    served: Served,
) -> Result<(), Fail> {
    let found = served_over(rt, input, faults)?;
    expect_done(rt, &found, written, served);
    Ok(())
}

/// An input, the parts of what is written, how many replies, the last status and the ending.
type Row = (&'static [u8], &'static [&'static [u8]], u32, u16, Ending);

const ROWS: &[Row] = &[
    (
        GET_BUOYS,
        &[DATA_HEAD, b"8a\r\n", BUOYS_BODY, LAST_CHUNK],
        1,
        200,
        Ending::Gone,
    ),
    (
        b"GET /buoys.csv.dods HTTP/1.0\r\nHost: x\r\n\r\n",
        &[DATA_HEAD_CLOSE, BUOYS_BODY],
        1,
        200,
        Ending::Closed,
    ),
    (
        b"HEAD /buoys.csv.dods HTTP/1.1\r\n\r\n",
        &[DATA_HEAD],
        1,
        200,
        Ending::Gone,
    ),
    (
        GET_SAVED,
        &[DATA_HEAD, b"5b\r\n", SAVED_PART, LAST_CHUNK],
        1,
        200,
        Ending::Gone,
    ),
    (
        b"GET /saved.dods.dods?buoys.depth&buoys.depth%3C0 HTTP/1.0\r\n\r\n",
        &[DATA_HEAD_CLOSE, SAVED_PART],
        1,
        200,
        Ending::Closed,
    ),
    (
        b"HEAD /saved.dods.dods HTTP/1.1\r\n\r\n",
        &[DATA_HEAD],
        1,
        200,
        Ending::Gone,
    ),
    (
        b"GET /saved.dods.das HTTP/1.1\r\n\r\nGET /saved.dods.dds?buoys.depth HTTP/1.1\r\n\r\n",
        &[SAVED_DAS, SAVED_DDS],
        2,
        200,
        Ending::Gone,
    ),
    (
        b"GET /saved.dods.dods?nope HTTP/1.1\r\n\r\nGET /short.dods.dods HTTP/1.1\r\n\r\n",
        &[REFUSED, SAVED_CUT],
        2,
        500,
        Ending::Gone,
    ),
    (
        GET_JOINED,
        &[DATA_HEAD, b"42\r\n", JOINED_BODY, LAST_CHUNK],
        1,
        200,
        Ending::Gone,
    ),
    (
        b"GET /j.join.dods?s%5B1:2:5%5D HTTP/1.0\r\n\r\n",
        &[DATA_HEAD_CLOSE, JOINED_BODY],
        1,
        200,
        Ending::Closed,
    ),
    (
        b"HEAD /j.join.dods HTTP/1.1\r\n\r\n",
        &[DATA_HEAD],
        1,
        200,
        Ending::Gone,
    ),
    (
        b"GET /none.join.dods HTTP/1.1\r\n\r\nGET /j.join.das HTTP/1.1\r\n\r\n",
        &[NO_MEMBER, JOINED_DAS],
        2,
        200,
        Ending::Gone,
    ),
    (
        b"GET /other.join.dds HTTP/1.1\r\n\r\nGET /fixed.join.dods HTTP/1.1\r\n\r\n",
        &[OTHER_SHAPE, NO_RECORD],
        2,
        500,
        Ending::Gone,
    ),
    (
        b"POST /v.nc.dds HTTP/1.1\r\n\r\n",
        &[BAD_METHOD],
        1,
        405,
        Ending::Closed,
    ),
    (b"", &[], 0, 0, Ending::Gone),
    (
        b"GET /v.nc.das HTTP/1.1\r\n\r\n",
        &[DAS],
        1,
        200,
        Ending::Gone,
    ),
    (GET_VERSION, &[VERSION], 1, 200, Ending::Gone),
    (TWO, &[BAD_TARGET, DDS_HEAD], 2, 200, Ending::Closed),
    (
        b"GET /v.nc.dods?nope HTTP/1.1\r\n\r\n",
        &[REFUSED],
        1,
        400,
        Ending::Gone,
    ),
    (
        b"GET /none.nc.dods HTTP/1.1\r\n\r\nGET http://x:8080/any.ver HTTP/1.1\r\n\r\n",
        &[NO_FILE, VERSION],
        2,
        200,
        Ending::Gone,
    ),
    (
        b"GET /any.ver HTTP/1.1\r\nContent-Length: 3\r\n\r\nabcGET /any.ver HTTP/1.1\r\n\r\n",
        &[LAST_VERSION],
        1,
        200,
        Ending::Closed,
    ),
    (
        b"GET /any.ver HTTP/1.1\r\nContent-Length: 0\r\n\r\nGET /any.ver HTTP/1.1\r\nTransfer-Encoding: identity\r\n\r\n",
        &[VERSION, LAST_VERSION],
        2,
        200,
        Ending::Closed,
    ),
    (
        b"GET /any.ver HTTP/1.1\r\nConnection: keep-alive, Close\r\n\r\nGET /any.ver HTTP/1.1\r\n\r\n",
        &[LAST_VERSION],
        1,
        200,
        Ending::Closed,
    ),
    (
        b"GET /any.ver HTTP/1.0\r\nConnection: keep-alive\r\n\r\nGET /any.ver HTTP/1.1\r\n\r\n",
        &[LAST_VERSION],
        1,
        200,
        Ending::Closed,
    ),
    (
        b"GET /any.ver HTTP/1.1\r\n\r\n\x01\r\n\r\n",
        &[VERSION, BAD_REQUEST],
        2,
        400,
        Ending::Closed,
    ),
    (
        b"GET http://x HTTP/1.1\r\n\r\n",
        &[BAD_TARGET],
        1,
        400,
        Ending::Gone,
    ),
];

/// The row holds where so much moves at once.
fn expect_row<R: Threads + Abort + AllocGlobal + Sync>(
    rt: &R,
    row: &Row,
    piece: u32,
) -> Result<(), Fail> {
    let (input, parts, replies, status, ending) = row;
    let written = joined(rt.alloc(), parts)?;
    let served = as_served(*replies, *status, *ending);
    expect_written(rt, input, Faults { piece, ..SURE }, &written, served)
}

#[test]
fn each_request_has_its_reply(rt: HostRuntime) -> Result<(), Fail> {
    for row in ROWS {
        expect_row(&rt, row, 100_000)?;
        expect_row(&rt, row, 1)?;
    }
    Ok(())
}

/// A request of one header which makes its head so long.
fn long_head(alloc: Global, len: usize) -> Result<Vec<u8>, Memory> {
    let mut bytes = joined(alloc, &[b"GET /any.ver HTTP/1.1\r\na: "])?;
    for _ in 0..len.saturating_sub(30) {
        bytes.push(b'x')?;
    }
    bytes.extend_from_slice(b"\r\n\r\n")?;
    Ok(bytes)
}

/// A request of so many headers.
fn headers(alloc: Global, count: u32) -> Result<Vec<u8>, Memory> {
    let mut bytes = joined(alloc, &[b"GET /any.ver HTTP/1.1\r\n"])?;
    for _ in 0..count {
        bytes.extend_from_slice(b"a: b\r\n")?;
    }
    bytes.extend_from_slice(b"\r\n")?;
    Ok(bytes)
}

#[test]
fn heads_at_their_limits(rt: HostRuntime) -> Result<(), Fail> {
    let alloc = rt.alloc();
    let whole = as_served(1, 200, Ending::Gone);
    let long = as_served(1, 431, Ending::Closed);
    let bad = as_served(1, 400, Ending::Closed);
    expect_written(&rt, &long_head(alloc, 16_384)?, SURE, VERSION, whole)?;
    expect_written(&rt, &long_head(alloc, 16_385)?, SURE, TOO_LONG, long)?;
    expect_written(&rt, &headers(alloc, 64)?, SURE, VERSION, whole)?;
    expect_written(&rt, &headers(alloc, 65)?, SURE, BAD_REQUEST, bad)
}

#[test]
fn a_head_that_is_cut_is_no_request(rt: HostRuntime) -> Result<(), Fail> {
    let alloc = rt.alloc();
    let served = as_served(1, 200, Ending::Gone);
    for len in 0..GET_BUOYS.len() {
        let input = joined(alloc, &[GET_VERSION, &GET_BUOYS[..len]])?;
        expect_written(&rt, &input, Faults { piece: 7, ..SURE }, VERSION, served)?;
    }
    Ok(())
}

/// The same so often.
fn repeated(alloc: Global, part: &[u8], count: u32) -> Result<Vec<u8>, Memory> {
    let mut bytes = Vec::new(alloc);
    for _ in 0..count {
        bytes.extend_from_slice(part)?;
    }
    Ok(bytes)
}

#[test]
fn the_thousandth_is_the_last(rt: HostRuntime) -> Result<(), Fail> {
    let alloc = rt.alloc();
    let mut written = repeated(alloc, VERSION, 999)?;
    written.extend_from_slice(LAST_VERSION)?;
    let served = as_served(1_000, 200, Ending::Closed);
    for count in [1_000, 1_001] {
        let input = repeated(alloc, GET_VERSION, count)?;
        expect_written(&rt, &input, SURE, &written, served)?;
    }
    Ok(())
}

#[test]
fn a_failed_read_before_the_head_is_told(rt: HostRuntime) -> Result<(), Fail> {
    let alloc = rt.alloc();
    let after = joined(alloc, &[BAD_TARGET, READ_FAILED_HEAD])?;
    let one = as_served(1, 500, Ending::Gone);
    let two = as_served(2, 500, Ending::Closed);
    for n in [1u64, 2] {
        let fails: [u64; 1] = [n];
        expect_written(&rt, GET_BUOYS, shelf_faults(&fails), READ_FAILED, one)?;
        expect_written(&rt, TWO, shelf_faults(&fails), &after, two)?;
    }
    Ok(())
}

/// What comes of a request for that file, of which such a call of the shelf fails.
fn expect_long_header<R: Threads + Abort + AllocGlobal + Sync>(
    rt: &R,
    call: u64,
    written: &[u8],
    status: u16,
) -> Result<(), Fail> {
    let fails: [u64; 1] = [call];
    let input = b"GET /long.nc.dds HTTP/1.1\r\n\r\n";
    let found = served_from(rt, long_header(rt.alloc())?, input, shelf_faults(&fails))?;
    expect_done(rt, &found, written, as_served(1, status, Ending::Gone));
    Ok(())
}

/// A header of more than 64 KiB takes one read more, and no third.
#[test]
fn a_long_header_is_read_on(rt: HostRuntime) -> Result<(), Fail> {
    expect_long_header(&rt, 3, READ_FAILED, 500)?;
    expect_long_header(&rt, 4, LONG_DDS, 200)
}

/// What is written begins so, and no last chunk ends it.
fn expect_broken_off<R: Abort>(rt: &R, written: &[u8], front: &[u8]) {
    assert!(rt; written.starts_with(front));
    assert!(rt; !written.ends_with(LAST_CHUNK));
}

/// A file that cannot be read further behind the head of its reply.
#[test]
fn a_failed_read_behind_the_head_breaks_off(rt: HostRuntime) -> Result<(), Fail> {
    let alloc = rt.alloc();
    let input = joined(
        alloc,
        &[GET_VERSION, b"GET /v.nc.dods HTTP/1.1\r\n\r\n", GET_VERSION],
    )?;
    let front = joined(alloc, &[VERSION, DATA_HEAD])?;
    let found = served_over(&rt, &input, shelf_faults(&[3]))?;
    expect_broken_off(&rt, found.written.bytes(), &front);
    expect(&rt, found.served, as_served(1, 200, Ending::Broken));
    Ok(())
}

/// The link fails where the head of a reply that breaks off is put.
#[test]
fn a_failed_put_of_a_reply_that_breaks_off(rt: HostRuntime) -> Result<(), Fail> {
    let input = b"GET /v.nc.dods HTTP/1.1\r\n\r\n";
    let served = as_served(0, 0, Ending::WriteFault);
    expect_written(&rt, input, THIRD_READ_AND_FIRST_PUT, b"", served)
}

/// The connection was broken off behind the head of its reply.
fn expect_broken<R: Abort>(rt: &R, found: &Done, whole: &[u8]) {
    let written = found.written.bytes();
    assert!(rt; written.starts_with(DATA_HEAD));
    assert!(rt; written.len() < whole.len());
    expect(rt, found.served, as_served(0, 0, Ending::Broken));
}

/// Of three files the headers are read by calls 3 to 8, behind the list, and the records by the ninth and tenth.
#[test]
fn each_call_of_the_shelf_for_a_list_may_fail(rt: HostRuntime) -> Result<(), Fail> {
    let alloc = rt.alloc();
    let whole = joined(alloc, &[DATA_HEAD, b"42\r\n", JOINED_BODY, LAST_CHUNK])?;
    for call in 1..12u64 {
        let fails: [u64; 1] = [call];
        let found = served_over(&rt, GET_JOINED, shelf_faults(&fails))?;
        if call <= 8 {
            expect_done(&rt, &found, READ_FAILED, as_served(1, 500, Ending::Gone));
        } else if call <= 10 {
            expect_broken(&rt, &found, &whole);
        } else {
            expect_done(&rt, &found, &whole, as_served(1, 200, Ending::Gone));
        }
    }
    Ok(())
}

/// The connection wrote this, and did not end so.
fn expect_other_ending<R: Abort>(rt: &R, found: &Done, written: &[u8], ending: Ending) {
    assert!(rt; found.served.ending != ending);
    expect(rt, found.written.bytes(), written);
}

/// Each take of a run without a fault fails in turn: the first request is answered where it came before.
fn expect_answered<R: Threads + Abort + AllocGlobal + Sync>(
    rt: &R,
    input: &[u8],
    first: (usize, &[u8], u16),
    whole: &[u8],
    takes: u64,
) -> Result<(), Fail> {
    let (length, reply, status) = first;
    for n in 1..takes.saturating_add(2) {
        let fails: [u64; 1] = [n];
        let found = served_over(rt, input, take_faults(&fails))?;
        if n > takes {
            expect_other_ending(rt, &found, whole, Ending::ReadFault);
        } else if n.saturating_sub(1).saturating_mul(2) >= length as u64 {
            let served = as_served(1, status, Ending::ReadFault);
            expect_done(rt, &found, reply, served);
        } else {
            let served = as_served(0, 0, Ending::ReadFault);
            expect_done(rt, &found, b"", served);
        }
    }
    Ok(())
}

/// Two bytes come at a take. The second input ends its connection by itself, the first by its end, which
/// takes one more.
#[test]
fn each_take_may_fail(rt: HostRuntime) -> Result<(), Fail> {
    let alloc = rt.alloc();
    let two = joined(alloc, &[BAD_TARGET, DDS_HEAD])?;
    expect_answered(&rt, TWO, (27, BAD_TARGET, 400), &two, 39)?;
    let data = joined(alloc, &[DATA_HEAD, b"8a\r\n", BUOYS_BODY, LAST_CHUNK])?;
    expect_answered(&rt, GET_BUOYS, (41, &data, 200), &data, 22)
}

/// How many puts so many bytes take.
fn puts_of(length: usize, piece: u32) -> u64 {
    (length as u64).div_ceil(u64::from(piece.max(1)))
}

/// A front of the replies is out, and a reply is counted where it is out whole.
fn expect_front<R: Abort>(rt: &R, found: &Done, first: &[u8], whole: &[u8]) {
    let written = found.written.bytes();
    assert!(rt; whole.starts_with(written));
    assert!(rt; written.len() < whole.len());
    let replies = if written.len() >= first.len() { 1 } else { 0 };
    expect(rt, found.served.replies, replies);
    expect(rt, found.served.ending, Ending::WriteFault);
}

/// Each put of a run without a fault fails in turn: a front of the replies is out. Each reply goes out by
/// itself.
fn expect_fronts<R: Threads + Abort + AllocGlobal + Sync>(
    rt: &R,
    input: &[u8],
    replies: (&[u8], &[u8]),
    piece: u32,
) -> Result<(), Fail> {
    let (first, second) = replies;
    let whole = joined(rt.alloc(), &[first, second])?;
    let puts = puts_of(first.len(), piece).saturating_add(puts_of(second.len(), piece));
    for n in 1..puts.saturating_add(2) {
        let fails: [u64; 1] = [n];
        let found = served_over(rt, input, put_faults(&fails, piece))?;
        if n > puts {
            expect_other_ending(rt, &found, &whole, Ending::WriteFault);
        } else {
            expect_front(rt, &found, first, &whole);
        }
    }
    Ok(())
}

/// The same of a reply that brings a body in one chunk, of which this is the line.
fn expect_chunk_fronts<R: Threads + Abort + AllocGlobal + Sync>(
    rt: &R,
    input: &[u8],
    line: &[u8],
    body: &[u8],
    piece: u32,
) -> Result<(), Fail> {
    let reply = joined(rt.alloc(), &[DATA_HEAD, line, body, LAST_CHUNK])?;
    expect_fronts(rt, input, (&reply, b""), piece)
}

#[test]
fn each_put_may_fail(rt: HostRuntime) -> Result<(), Fail> {
    for piece in [13, 100_000] {
        expect_chunk_fronts(&rt, GET_BUOYS, b"8a\r\n", BUOYS_BODY, piece)?;
        expect_chunk_fronts(&rt, GET_SAVED, b"5b\r\n", SAVED_PART, piece)?;
        expect_chunk_fronts(&rt, GET_JOINED, b"42\r\n", JOINED_BODY, piece)?;
        expect_fronts(&rt, TWO, (BAD_TARGET, DDS_HEAD), piece)?;
    }
    Ok(())
}

/// A reply that fits in the room goes out in one put, its head with it.
#[test]
fn small_replies_are_one_put(rt: HostRuntime) -> Result<(), Fail> {
    for (input, replies) in [(GET_VERSION, 1), (TWO, 2), (GET_BUOYS, 1), (GET_SAVED, 1)] {
        let fails: [u64; 1] = [u64::from(replies) + 1];
        let found = served_over(&rt, input, put_faults(&fails, 100_000))?;
        expect(&rt, found.served.replies, replies);
    }
    Ok(())
}

/// A table of one cell of 70,000 bytes.
fn long_table(alloc: Global) -> Result<List<MemFile>, Memory> {
    let mut text = Vec::from_slice(alloc, b"s\n")?;
    text.resize(70_002, b'x')?;
    let mut files = List::new(alloc);
    files.push(file(alloc, "long.csv", &[], &text)?)?;
    Ok(files)
}

/// A request for it, of which that put fails.
fn long_response<R: Threads + AllocGlobal + Sync>(rt: &R, put: u64) -> Result<Done, Memory> {
    let fails: [u64; 1] = [put];
    let faults = put_faults(&fails, 100_000);
    let input = b"GET /long.csv.dods HTTP/1.1\r\n\r\n";
    served_from(rt, long_table(rt.alloc())?, input, faults)
}

/// The head of a long response goes out with its first chunk, in one put, and what is left in a second.
#[test]
fn a_long_response_is_two_puts(rt: HostRuntime) -> Result<(), Fail> {
    let first = DATA_HEAD.len().saturating_add(65_545);
    for (put, length) in [(1, 0), (2, first)] {
        let found = long_response(&rt, put)?;
        expect(&rt, found.written.bytes().len(), length);
        expect(&rt, found.served, as_served(0, 0, Ending::WriteFault));
    }
    let found = long_response(&rt, 3)?;
    expect(&rt, found.served, as_served(1, 200, Ending::Gone));
    Ok(())
}
