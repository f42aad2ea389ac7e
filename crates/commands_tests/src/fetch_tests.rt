//! `fetch` by its words, over a dial in memory; the requests and the replies are worked out by hand.

use crate::linked::{Around, expect_linked};
use dap_commands::Status;
use std::test::Fail;

const GZIP: &[u8] =
    b"HTTP/1.1 200 OK\r\nContent-Encoding: gzip\r\nContent-Length: 3\r\n\r\n\x1f\x8b\x08";

const TWO: &[u8] =
    b"HTTP/1.1 200 OK\r\nContent-Length: 45\r\n\r\nDataset {\n    Int32 v[y = 1][x = 1];\n} v.nc;\nHTTP/1.1 400 Bad Request\r\nContent-Length: 65\r\n\r\nError {\n    code = 2;\n    message = \"unknown name in item 1\";\n};\n";

const DDS: &[u8] = b"Dataset {\n    Int32 v[y = 1][x = 1];\n} v.nc;\n";

const ONE_ASKED: &[u8] =
    b"GET /v.nc.dods?v%5B2%5D%5B3%5D HTTP/1.1\r\nHost: localhost:8080\r\nUser-Agent: dap2/1.0\r\nAccept-Encoding: identity\r\nConnection: close\r\n\r\n";

const TWO_ASKED: &[u8] =
    b"GET /v.nc.dds?v%5B0%5D%5B0%5D HTTP/1.1\r\nHost: localhost:80\r\nUser-Agent: dap2/1.0\r\nAccept-Encoding: identity\r\n\r\nGET /v.nc.dds?nope HTTP/1.1\r\nHost: localhost:80\r\nUser-Agent: dap2/1.0\r\nAccept-Encoding: identity\r\nConnection: close\r\n\r\n";

/// Words, what the link gives, the calls that do not connect; the status, the output, the line, and what the link
/// gained.
type Row<'t> = (
    &'t [&'t str],
    &'t [u8],
    &'t [u64],
    Status,
    &'t [u8],
    &'t [u8],
    &'t [u8],
);

const ROWS: &[Row] = &[
    (
        &["fetch", "http://localhost:8080/v.nc", "dods", "v[2][3]"],
        GZIP,
        &[],
        Status::BadReply,
        b"",
        b"dap2: bad reply: Coded at 0\n",
        ONE_ASKED,
    ),
    (
        &["fetch", "http://localhost/v.nc", "dds", "v[0][0]", "nope"],
        TWO,
        &[],
        Status::ServerError,
        DDS,
        b"dap2: server error 2: unknown name in item 1\n",
        TWO_ASKED,
    ),
    (
        &["fetch", "http://localhost:8080/v.nc", "dods", "v[2][3]"],
        GZIP,
        &[1],
        Status::LinkFault,
        b"",
        b"dap2: link fault\n",
        b"",
    ),
];

#[test]
fn what_is_fetched_is_told(rt: HostRuntime) -> Result<(), Fail> {
    for (words, given, fails, status, out, err, sent) in ROWS {
        let input: &[u8] = b"";
        let around = Around {
            input,
            given,
            fails,
        };
        expect_linked(&rt, words, around, (*status, out, err, sent))?;
    }
    Ok(())
}
