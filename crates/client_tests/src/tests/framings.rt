use crate::tests::cases::{TABLE, TABLE_ROWS, TABLE_SHOWN};
use crate::tests::replies::read;
use crate::tests::showing::{Answer, is_shown};
use dap_http::Kind;
use std::alloc::Global;
use std::test::Fail;
use xdr_decode::Bad;

/// A reply: its head, what stands before and behind the body of the table, and what it is, with the
/// bytes that are put.
type Row<'t> = (&'t [u8], &'t [u8], &'t [u8], Answer, &'t [u8]);

fn table_rows() -> [Row<'static>; 11] {
    [
        // A stated length: right, too short, too long; twice, the same and another.
        (
            b"HTTP/1.1 200 OK\r\nContent-Length: 138\r\n\r\n",
            b"",
            b"",
            Answer::Shown(138),
            TABLE_SHOWN,
        ),
        (
            b"HTTP/1.1 200 OK\r\nContent-Length: 137\r\n\r\n",
            b"",
            b"",
            Answer::Wrong(Bad::Cut, 137),
            TABLE_ROWS,
        ),
        (
            b"HTTP/1.1 200 OK\r\nContent-Length: 139\r\n\r\n",
            b"",
            b"",
            Answer::Wrong(Bad::Cut, 138),
            TABLE_ROWS,
        ),
        (
            b"HTTP/1.1 200 OK\r\nContent-Length: 138\r\nContent-Length: 138\r\n\r\n",
            b"",
            b"",
            Answer::Shown(138),
            TABLE_SHOWN,
        ),
        (
            b"HTTP/1.1 200 OK\r\nContent-Length: 138\r\nContent-Length: 137\r\n\r\n",
            b"",
            b"",
            Answer::Wrong(Bad::BadHead, 0),
            b"",
        ),
        // Up to the end.
        (
            b"HTTP/1.1 200 OK\r\n\r\n",
            b"",
            b"",
            Answer::Shown(138),
            TABLE_SHOWN,
        ),
        (
            b"HTTP/1.1 200 OK\r\n\r\n",
            b"",
            b"x",
            Answer::Wrong(Bad::Trailing, 138),
            TABLE_ROWS,
        ),
        // Chunks with an extension and a trailer; and a stated length beside them, which is not looked at.
        (
            b"HTTP/1.1 200 OK\r\nTransfer-Encoding: chunked\r\nContent-Length: 3\r\n\r\n",
            b"8A;a=b\r\n",
            b"\r\n0\r\nX: y\r\n\r\nrest",
            Answer::Shown(138),
            TABLE_SHOWN,
        ),
        // A line end that is none, counted from the end of the head.
        (
            b"HTTP/1.1 200 OK\r\nTransfer-Encoding: chunked\r\n\r\n",
            b"8a\r\n",
            b"\rx0\r\n\r\n",
            Answer::Wrong(Bad::BadChunk, 142),
            TABLE_ROWS,
        ),
        // A chunk that would be longer than any is.
        (
            b"HTTP/1.1 200 OK\r\nTransfer-Encoding: chunked\r\n\r\n",
            b"fffffffff\r\n",
            b"\r\n0\r\n\r\n",
            Answer::Wrong(Bad::BadChunk, 0),
            b"",
        ),
        // A coded body.
        (
            b"HTTP/1.1 200 OK\r\nContent-Encoding: gzip\r\nContent-Length: 138\r\n\r\n",
            b"",
            b"",
            Answer::Wrong(Bad::Coded, 0),
            b"",
        ),
    ]
}

/// A reply with the table in the middle.
fn around_table(alloc: Global, head: &[u8], before: &[u8], behind: &[u8]) -> Result<Vec<u8>, Fail> {
    let mut reply = Vec::from_slice(alloc, head)?;
    reply.extend_from_slice(before)?;
    reply.extend_from_slice(TABLE)?;
    reply.extend_from_slice(behind)?;
    Ok(reply)
}

fn is_row(alloc: Global, row: Row<'static>, piece: u32) -> Result<bool, Fail> {
    let (head, before, behind, answer, out) = row;
    let reply = around_table(alloc, head, before, behind)?;
    let found = read(alloc, reply.as_slice(), Kind::Dods, piece, None, None)?;
    Ok(is_shown(&found, answer, out))
}

#[test]
fn the_framing_of_a_reply_is_read(rt: HostRuntime) -> Result<(), Fail> {
    for row in table_rows() {
        for piece in [1, 7, 65536] {
            assert!(rt; is_row(rt.alloc(), row, piece)?);
        }
    }
    Ok(())
}

/// A whole reply to a request of a kind, what it is, and the bytes that are put.
type Text<'t> = (Kind, &'t [u8], Answer, &'t [u8]);

fn text_rows() -> [Text<'static>; 11] {
    [
        (
            Kind::Dds,
            b"HTTP/1.1 200 OK\r\nContent-Length: 30\r\n\r\nDataset{Byte b;Int16 a[2];}d;\n",
            Answer::Shown(30),
            b"Dataset {\n    Byte b;\n    Int16 a[2];\n} d;\n",
        ),
        (
            Kind::Dds,
            b"HTTP/1.1 200 OK\r\n\r\nDataset{Byte b;}d; x",
            Answer::Wrong(Bad::Trailing, 19),
            b"",
        ),
        (
            Kind::Dds,
            b"HTTP/1.1 200 OK\r\n\r\nDataset{Byte b;}d",
            Answer::Wrong(Bad::Cut, 17),
            b"",
        ),
        (
            Kind::Das,
            b"HTTP/1.1 200 OK\r\n\r\nAttributes { v { string u \"m\" ; } }\n",
            Answer::Shown(36),
            b"Attributes {\n    v {\n        String u \"m\";\n    }\n}\n",
        ),
        (
            Kind::Das,
            b"HTTP/1.1 200 OK\r\n\r\nAttributes { } x",
            Answer::Wrong(Bad::Trailing, 15),
            b"",
        ),
        (
            Kind::Das,
            b"HTTP/1.1 200 OK\r\n\r\n\"Attributes\"",
            Answer::Wrong(Bad::Cut, 12),
            b"",
        ),
        // An Error object, whatever the status and the kind.
        (
            Kind::Dods,
            b"HTTP/1.1 200 OK\r\nContent-Length: 35\r\n\r\nError { code = 7; message = \"x\"; };",
            Answer::Object(7, b"x"),
            b"",
        ),
        (
            Kind::Dods,
            b"HTTP/1.1 404 Not Found\r\nContent-Length: 42\r\n\r\nError { code = 5; message = \"no file\"; };\n",
            Answer::Object(5, b"no file"),
            b"",
        ),
        (
            Kind::Das,
            b"HTTP/1.1 200 OK\r\n\r\n eRROR { code = 5; message = \"no file\"; };",
            Answer::Object(5, b"no file"),
            b"",
        ),
        // Another page.
        (
            Kind::Dods,
            b"HTTP/1.1 404 Not Found\r\n\r\n<html>\n</html>\n",
            Answer::Wrong(Bad::BadDds, 0),
            b"",
        ),
        (
            Kind::Das,
            b"HTTP/1.1 404 Not Found\r\n\r\n<html>\n</html>\n",
            Answer::Wrong(Bad::BadDas, 0),
            b"",
        ),
    ]
}

fn is_text(alloc: Global, row: Text<'static>, piece: u32) -> Result<bool, Fail> {
    let (kind, reply, answer, out) = row;
    let found = read(alloc, reply, kind, piece, None, None)?;
    Ok(is_shown(&found, answer, out))
}

#[test]
fn a_body_is_read_by_its_kind(rt: HostRuntime) -> Result<(), Fail> {
    for row in text_rows() {
        for piece in [1, 7, 65536] {
            assert!(rt; is_text(rt.alloc(), row, piece)?);
        }
    }
    Ok(())
}
