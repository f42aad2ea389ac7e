//! `save` by its words, of what comes in and of what a dial in memory gives; the files are worked out by hand.

use crate::linked::{Around, expect_linked};
use dap_commands::Status;
use std::test::Fail;

/// Two rows and three columns of an array, as a part of it is answered.
const PART: &[u8] =
    b"Dataset {\n    Int32 v[y = 2][x = 3];\n} v.nc;\nData:\n\0\0\0\x06\0\0\0\x06\0\0\0\x01\0\0\0\x02\0\0\0\x03\0\0\0\x09\0\0\0\x0a\0\0\0\x0b";

/// Its file.
const PART_FILE: &[u8] =
    b"CDF\x01\0\0\0\0\0\0\0\x0a\0\0\0\x02\0\0\0\x01y\0\0\0\0\0\0\x02\0\0\0\x01x\0\0\0\0\0\0\x03\0\0\0\0\0\0\0\0\0\0\0\x0b\0\0\0\x01\0\0\0\x01v\0\0\0\0\0\0\x02\0\0\0\0\0\0\0\x01\0\0\0\0\0\0\0\0\0\0\0\x04\0\0\0\x18\0\0\0\x60\0\0\0\x01\0\0\0\x02\0\0\0\x03\0\0\0\x09\0\0\0\x0a\0\0\0\x0b";

const ROWS_OF_A_TABLE: &[u8] =
    b"Dataset {\n    Sequence {\n        String station;\n        Int32 depth;\n    } buoys;\n} buoys.csv;\nData:\n\x5a\0\0\0\0\0\0\x02A1\0\0\0\0\0\x05\x5a\0\0\0\0\0\0\x03B22\0\xff\xff\xff\xf9\xa5\0\0\0";

const OBJECT: &[u8] = b"Error {\n    code = 2;\n    message = \"unknown name in item 1\";\n};\n";

/// The reply with one element, over HTTP, its file, and what was asked.
const ONE: &[u8] =
    b"HTTP/1.1 200 OK\r\nTransfer-Encoding: chunked\r\n\r\n3f\r\nDataset {\n    Int32 v[y = 1][x = 1];\n} v.nc;\nData:\n\0\0\0\x01\0\0\0\x01\0\0\0\x0b\r\n0\r\n\r\n";

const ONE_FILE: &[u8] =
    b"CDF\x01\0\0\0\0\0\0\0\x0a\0\0\0\x02\0\0\0\x01y\0\0\0\0\0\0\x01\0\0\0\x01x\0\0\0\0\0\0\x01\0\0\0\0\0\0\0\0\0\0\0\x0b\0\0\0\x01\0\0\0\x01v\0\0\0\0\0\0\x02\0\0\0\0\0\0\0\x01\0\0\0\0\0\0\0\0\0\0\0\x04\0\0\0\x04\0\0\0\x60\0\0\0\x0b";

const ONE_ASKED: &[u8] =
    b"GET /v.nc.dods?v%5B2%5D%5B3%5D HTTP/1.1\r\nHost: localhost:8080\r\nUser-Agent: dap2/1.0\r\nAccept-Encoding: identity\r\nConnection: close\r\n\r\n";

const CODED: &[u8] =
    b"HTTP/1.1 200 OK\r\nContent-Encoding: gzip\r\nContent-Length: 3\r\n\r\n\x1f\x8b\x08";

/// Words, what comes in, what the link gives; the status, the output, the line, and what the link gained.
type Row<'t> = (
    &'t [&'t str],
    &'t [u8],
    &'t [u8],
    Status,
    &'t [u8],
    &'t [u8],
    &'t [u8],
);

const URL: &[&str] = &["save", "http://localhost:8080/v.nc", "v[2][3]"];

const ROWS: &[Row] = &[
    (&["save"], PART, b"", Status::Complete, PART_FILE, b"", b""),
    (
        &["save"],
        ROWS_OF_A_TABLE,
        b"",
        Status::Unsaved,
        b"",
        b"dap2: cannot save: member 1: kind\n",
        b"",
    ),
    (
        &["save"],
        b"Dataset { Int32 a; Int32 v[x = 1][1]; } f;\nData:\n",
        b"",
        Status::BadReply,
        b"",
        b"dap2: bad reply: Cut at 49\n",
        b"",
    ),
    (
        &["save"],
        OBJECT,
        b"",
        Status::ServerError,
        b"",
        b"dap2: server error 2: unknown name in item 1\n",
        b"",
    ),
    (URL, b"", ONE, Status::Complete, ONE_FILE, b"", ONE_ASKED),
    (
        URL,
        b"",
        CODED,
        Status::BadReply,
        b"",
        b"dap2: bad reply: Coded at 0\n",
        ONE_ASKED,
    ),
    (
        &["save", "ftp://localhost/v.nc", ""],
        b"",
        b"",
        Status::Words,
        b"",
        b"usage: dap2 answer TARGET [WORKERS] | show | serve PORT WORKERS REQUESTS | fetch URL KIND CE [CE ..] | soak START SIZE | relay HOST UPPORT PORT ROOM REQUESTS | save [URL CE] | ver\n",
        b"",
    ),
    (
        &["save", "http://localhost/v.nc"],
        b"",
        b"",
        Status::Words,
        b"",
        b"usage: dap2 answer TARGET [WORKERS] | show | serve PORT WORKERS REQUESTS | fetch URL KIND CE [CE ..] | soak START SIZE | relay HOST UPPORT PORT ROOM REQUESTS | save [URL CE] | ver\n",
        b"",
    ),
];

#[test]
fn what_is_saved_is_told(rt: HostRuntime) -> Result<(), Fail> {
    for (words, input, given, status, out, err, sent) in ROWS {
        let fails: &[u64] = &[];
        let around = Around {
            input,
            given,
            fails,
        };
        expect_linked(&rt, words, around, (*status, out, err, sent))?;
    }
    Ok(())
}
