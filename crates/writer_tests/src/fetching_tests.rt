//! Data responses that are fetched over a dial and links in memory, and saved.

ghost use Rattle.std.specs.Prelude.{All, IfOk};
ghost use Rattle.dap_outside.specs.MemLinks.{IsNew};

use crate::testing::words;
use dap_http::Url;
use dap_outside::{MemDial, MemLink, MemSink};
use dap_types::{Bytes, List, Memory};
use netcdf_writer::{Stored, Why, save_url};
use std::alloc::Global;
use std::rt::HostRuntime;
use std::test::Fail;
use xdr_decode::{Bad, BadField};

const URL: &str = "http://localhost:8080/v.nc";

const REQUEST: &[u8] =
    b"GET /v.nc.dods?v%5B2%5D%5B3%5D HTTP/1.1\r\nHost: localhost:8080\r\nUser-Agent: dap2/1.0\r\nAccept-Encoding: identity\r\nConnection: close\r\n\r\n";

/// The reply with one element, over HTTP.
const DATA: &[u8] =
    b"HTTP/1.1 200 OK\r\nTransfer-Encoding: chunked\r\n\r\n3f\r\nDataset {\n    Int32 v[y = 1][x = 1];\n} v.nc;\nData:\n\0\0\0\x01\0\0\0\x01\0\0\0\x0b\r\n0\r\n\r\n";

/// The same without its last chunk.
const CUT: &[u8] =
    b"HTTP/1.1 200 OK\r\nTransfer-Encoding: chunked\r\n\r\n3f\r\nDataset {\n    Int32 v[y = 1][x = 1];\n} v.nc;\nData:\n\0\0\0\x01\0\0\0\x01\0\0\0\x0b\r\n";

const OBJECT: &[u8] =
    b"HTTP/1.1 400 Bad Request\r\nContent-Length: 65\r\n\r\nError {\n    code = 2;\n    message = \"unknown name in item 1\";\n};\n";

const TEXTS: &[u8] =
    b"HTTP/1.1 200 OK\r\nContent-Length: 35\r\n\r\nDataset { String s; } f;\nData:\n\0\0\0\0";

/// The call of each that fails, none where it is 0.
#[derive(Clone, Copy)]
struct Fails {
    connect: u64,
    take: u64,
    send: u64,
    put: u64,
}

const SURE: Fails = Fails {
    connect: 0,
    take: 0,
    send: 0,
    put: 0,
};

/// How it ended, what was put, what was sent on the link, and how many came back.
#[derive(Drop)]
struct Done {
    stored: Stored,
    out: Bytes,
    sent: Bytes,
    back: usize,
}

fn number(alloc: Global, call: u64) -> Result<List<u64>, Memory> {
    let mut list = List::new(alloc);
    list.push(call)?;
    Ok(list)
}

fn link(alloc: Global, input: &[u8], fails: Fails) -> Result<MemLink, Memory>
    ensures { IfOk result IsNew }
{
    let bytes = Bytes::new(alloc, input)?;
    MemLink::new(
        alloc,
        bytes,
        65536,
        50,
        number(alloc, fails.take)?,
        number(alloc, fails.send)?,
    )
}

fn links(alloc: Global, input: &[u8], fails: Fails) -> Result<List<MemLink>, Memory>
    ensures { IfOk result (All IsNew) }
{
    let mut links = List::new(alloc);
    links.push(link(alloc, input, fails)?)?;
    Ok(links)
}

/// What was sent on the first link that came back.
fn sent(dial: &MemDial) -> &[u8] {
    match dial.back() {
        [link, ..] => link.written(),
        [] => b"",
    }
}

fn saved_from(alloc: Global, input: &[u8], fails: Fails) -> Result<Done, Fail> {
    let mut dial = MemDial::new(
        alloc,
        links(alloc, input, fails)?,
        number(alloc, fails.connect)?,
    )?;
    let mut out = MemSink::new(alloc, 65536, 7, number(alloc, fails.put)?)?;
    let Ok(url) = Url::read(alloc, URL) else {
        return Err(Fail::new("no URL"));
    };
    let stored = save_url(alloc, &mut dial, &url, b"v[2][3]", &mut out);
    Ok(Done {
        stored,
        out: Bytes::new(alloc, out.bytes())?,
        sent: Bytes::new(alloc, sent(&dial))?,
        back: dial.back().len(),
    })
}

#[test]
fn one_is_saved(rt: HostRuntime) -> Result<(), Fail> {
    let alloc = rt.alloc();
    let file = words(
        alloc,
        &[
            0x43444601, 0, 0x0a, 2, 1, 0x79000000, 1, 1, 0x78000000, 1, 0, 0, 0x0b, 1, 1,
            0x76000000, 2, 0, 1, 0, 0, 4, 4, 0x60, 11,
        ],
    )?;
    let done = saved_from(alloc, DATA, SURE)?;
    assert!(&rt; matches!(&done.stored, Stored::Written { bytes: 100 }));
    assert!(&rt; done.out.bytes() == file.as_slice());
    assert!(&rt; done.sent.bytes() == REQUEST);
    assert!(&rt; done.back == 1);
    Ok(())
}

/// What is no data response, or cannot be stored.
#[test]
fn others_are_told(rt: HostRuntime) -> Result<(), Fail> {
    let alloc = rt.alloc();
    let cut = saved_from(alloc, CUT, SURE)?;
    assert!(&rt;
        matches!(
            &cut.stored,
            Stored::BadReply(BadField {
                kind: Bad::Cut,
                place: 63
            })
        )
    );
    let object = saved_from(alloc, OBJECT, SURE)?;
    assert!(&rt;
        matches!(
            &object.stored,
            Stored::ServerError {
                code: 2,
                message: _
            }
        )
    );
    let texts = saved_from(alloc, TEXTS, SURE)?;
    assert!(&rt;
        matches!(
            &texts.stored,
            Stored::Unsavable {
                member: 1,
                why: Why::Kind
            }
        )
    );
    for done in [cut, object, texts] {
        assert!(&rt; done.out.bytes().is_empty());
        assert!(&rt; done.sent.bytes() == REQUEST);
        assert!(&rt; done.back == 1);
    }
    Ok(())
}

/// Each call of the dial, of the link and of the sink fails in turn; a link that came is handed back.
#[test]
fn each_call_fails(rt: HostRuntime) -> Result<(), Fail> {
    let alloc = rt.alloc();
    let done = saved_from(alloc, DATA, Fails { connect: 1, ..SURE })?;
    assert!(&rt; matches!(&done.stored, Stored::LinkFault));
    assert!(&rt; done.back == 0);
    for send in 1..4u64 {
        let done = saved_from(alloc, DATA, Fails { send, ..SURE })?;
        assert!(&rt; matches!(&done.stored, Stored::WriteFault));
        assert!(&rt; REQUEST.starts_with(done.sent.bytes()));
        assert!(&rt; done.out.bytes().is_empty());
        assert!(&rt; done.back == 1);
    }
    for take in 1..3u64 {
        let done = saved_from(alloc, DATA, Fails { take, ..SURE })?;
        assert!(&rt; matches!(&done.stored, Stored::ReadFault));
        assert!(&rt; done.out.bytes().is_empty());
        assert!(&rt; done.back == 1);
    }
    // The 100 bytes go out in 15 puts of at most 7.
    for put in 1..16u64 {
        let done = saved_from(alloc, DATA, Fails { put, ..SURE })?;
        assert!(&rt; matches!(&done.stored, Stored::WriteFault));
        assert!(&rt; done.out.bytes().len() == (put as usize - 1) * 7);
        assert!(&rt; done.back == 1);
    }
    let done = saved_from(alloc, DATA, Fails { put: 16, ..SURE })?;
    assert!(&rt; matches!(&done.stored, Stored::Written { bytes: 100 }));
    Ok(())
}
