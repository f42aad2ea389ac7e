//! Fetching over a dial and links in memory; the requests and the replies are worked out by hand.

ghost use Rattle.std.specs.Prelude.{◌≤◌, ◌<◌, All, IfOk, length};
ghost use Rattle.dap_outside.specs.MemLinks.{IsNew};
ghost use Rattle.dap_client.specs.Fetched.{IsUrl};

use crate::tests::counted::Counted;
use crate::tests::expecting::expect;
use crate::tests::showing::{Answer, answers, failing, sink};
use dap_client::{Fetched, Outcome, fetch, fetch_all};
use dap_http::{Kind, Url, UrlRefusal};
use dap_outside::{Dial, MemDial, MemLink, MemSink, Sink};
use dap_types::{Bytes, List, Memory};
use std::alloc::Global;
use std::process::Abort;
use std::str;
use std::test::Fail;
use xdr_decode::Bad;

/// What is asked, and what the link gives.
#[derive(Clone, Copy)]
struct Asked<'t> {
    url: &'t str,
    kind: Kind,
    ces: &'t [&'t [u8]],
    input: &'t [u8],
}

/// The numbers of the calls that fail, each if any: of connecting, of the link's takes and puts, and of
/// the sink's puts; and how much moves at once.
#[derive(Clone, Copy)]
struct Fails {
    connect: Option<u64>,
    take: Option<u64>,
    send: Option<u64>,
    put: Option<u64>,
    piece: u32,
}

const SURE: Fails = Fails {
    connect: None,
    take: None,
    send: None,
    put: None,
    piece: 65536,
};

/// How a fetching ended, what was put in how many calls, what was sent on the link, if it came back, and how
/// many came.
#[derive(Drop)]
struct Done {
    fetched: Fetched,
    out: Bytes,
    puts: u64,
    sent: Bytes,
    back: usize,
}

fn link(alloc: Global, input: &[u8], fails: Fails) -> Result<MemLink, Memory>
    ensures { IfOk result IsNew }
{
    let bytes = Bytes::new(alloc, input)?;
    let takes = failing(alloc, fails.take)?;
    let puts = failing(alloc, fails.send)?;
    link_of(alloc, bytes, fails.piece.max(1), takes, puts)
}

/// A link of so many bytes at once, with these calls that fail.
fn link_of(
    alloc: Global,
    bytes: Bytes,
    piece: u32,
    takes: List<u64>,
    puts: List<u64>,
) -> Result<MemLink, Memory>
    requires { 0 < piece }
    ensures { IfOk result IsNew }
{
    MemLink::new(alloc, bytes, 65536, piece, takes, puts)
}

fn links(alloc: Global, input: &[u8], fails: Fails) -> Result<List<MemLink>, Memory>
    ensures { IfOk result (All IsNew) }
{
    let mut links = List::new(alloc);
    links.push(link(alloc, input, fails)?)?;
    links.push(link(alloc, input, fails)?)?;
    Ok(links)
}

fn constraints(alloc: Global, ces: &[&[u8]]) -> Result<List<Bytes>, Memory> {
    let mut list = List::new(alloc);
    for ce in ces {
        list.push(Bytes::new(alloc, ce)?)?;
    }
    Ok(list)
}

fn fetch_dds<C: Dial, O: Sink>(
    alloc: Global,
    dial: &mut C,
    url: &Url,
    ces: &[Bytes],
    out: &mut O,
) -> Fetched
    requires url { IsUrl url.now }
    requires some { 1 ≤ length ces.now }
    requires many { length ces.now ≤ 16 }
{
    fetch_all(alloc, dial, url, Kind::Dds, ces, out)
}

fn fetch_das<C: Dial, O: Sink>(
    alloc: Global,
    dial: &mut C,
    url: &Url,
    ces: &[Bytes],
    out: &mut O,
) -> Fetched
    requires url { IsUrl url.now }
    requires some { 1 ≤ length ces.now }
    requires many { length ces.now ≤ 16 }
{
    fetch_all(alloc, dial, url, Kind::Das, ces, out)
}

fn fetch_dods<C: Dial, O: Sink>(
    alloc: Global,
    dial: &mut C,
    url: &Url,
    ces: &[Bytes],
    out: &mut O,
) -> Fetched
    requires url { IsUrl url.now }
    requires some { 1 ≤ length ces.now }
    requires many { length ces.now ≤ 16 }
{
    fetch_all(alloc, dial, url, Kind::Dods, ces, out)
}

/// Fetches, for 1 to 16 constraints.
fn fetch_kind<C: Dial, O: Sink>(
    alloc: Global,
    dial: &mut C,
    url: &Url,
    kind: Kind,
    ces: &[Bytes],
    out: &mut O,
) -> Fetched
    requires url { IsUrl url.now }
    requires some { 1 ≤ length ces.now }
    requires many { length ces.now ≤ 16 }
{
    match kind {
        Kind::Dds => fetch_dds(alloc, dial, url, ces, out),
        Kind::Das => fetch_das(alloc, dial, url, ces, out),
        Kind::Dods => fetch_dods(alloc, dial, url, ces, out),
        Kind::Ver => Fetched {
            whole: 0,
            last: Outcome::LinkFault,
        },
    }
}

/// Fetches from a URL.
fn fetch_from<C: Dial, O: Sink>(
    alloc: Global,
    dial: &mut C,
    asked: Asked,
    out: &mut O,
) -> Result<Fetched, Fail> {
    let list = constraints(alloc, asked.ces)?;
    let ces = list.items();
    let Ok(url) = Url::read(alloc, asked.url) else {
        return Err(Fail::new("no URL"));
    };
    if ces.is_empty() || ces.len() > 16 {
        return Err(Fail::new("not 1 to 16 constraints"));
    }
    Ok(fetch_kind(alloc, dial, &url, asked.kind, ces, out))
}

/// A dial of two links for which this comes.
fn dial(
    alloc: Global,
    input: &[u8],
    fails: Fails,
    connect: Option<u64>,
) -> Result<MemDial, Memory> {
    let connects = failing(alloc, connect)?;
    MemDial::new(alloc, links(alloc, input, fails)?, connects)
}

/// What was sent on the first link that came back.
fn sent(dial: &MemDial) -> &[u8] {
    match dial.back() {
        [link, ..] => link.written(),
        [] => b"",
    }
}

fn collected(
    alloc: Global,
    fetched: Fetched,
    out: &Counted<MemSink>,
    dial: &MemDial,
) -> Result<Done, Memory> {
    let puts = out.calls;
    let out = Bytes::new(alloc, out.end.bytes())?;
    let sent = Bytes::new(alloc, sent(dial))?;
    Ok(Done {
        fetched,
        out,
        puts,
        sent,
        back: dial.back().len(),
    })
}

fn fetched(alloc: Global, asked: Asked, fails: Fails) -> Result<Done, Fail> {
    let mut dial = dial(alloc, asked.input, fails, fails.connect)?;
    let mut out = Counted::new(sink(alloc, fails.piece, fails.put)?);
    let fetched = fetch_from(alloc, &mut dial, asked, &mut out)?;
    Ok(collected(alloc, fetched, &out, &dial)?)
}

/// The reply to a request for one element, over HTTP, and what is shown of it.
const DATA: &[u8] =
    b"HTTP/1.1 200 OK\r\nXDODS-Server: dap2/1.0\r\nXDAP: 2.0\r\nContent-Description: dods_data\r\nContent-Type: application/octet-stream\r\nTransfer-Encoding: chunked\r\nConnection: close\r\n\r\n3f\r\nDataset {\n    Int32 v[y = 1][x = 1];\n} v.nc;\nData:\n\0\0\0\x01\0\0\0\x01\0\0\0\x0b\r\n0\r\n\r\n";

const DATA_SHOWN: &[u8] =
    b"Dataset {\n    Int32 v[y = 1][x = 1];\n} v.nc;\nv[0][0] = 11\ncomplete 63\n";

const DATA_REQUEST: &[u8] =
    b"GET /v.nc.dods?v%5B2%5D%5B3%5D HTTP/1.1\r\nHost: localhost:8080\r\nUser-Agent: dap2/1.0\r\nAccept-Encoding: identity\r\nConnection: close\r\n\r\n";

const ONE: Asked<'static> = Asked {
    url: "http://localhost:8080/v.nc",
    kind: Kind::Dods,
    ces: &[b"v[2][3]"],
    input: DATA,
};

const DDS: &[u8] =
    b"HTTP/1.1 200 OK\r\nXDODS-Server: dap2/1.0\r\nXDAP: 2.0\r\nContent-Description: dods_dds\r\nContent-Type: text/plain\r\nContent-Length: 45\r\n\r\nDataset {\n    Int32 v[y = 1][x = 1];\n} v.nc;\n";

const DDS_SHOWN: &[u8] = b"Dataset {\n    Int32 v[y = 1][x = 1];\n} v.nc;\n";

const REFUSED: &[u8] =
    b"HTTP/1.1 400 Bad Request\r\nXDODS-Server: dap2/1.0\r\nXDAP: 2.0\r\nContent-Description: dods_error\r\nContent-Type: text/plain\r\nContent-Length: 65\r\n\r\nError {\n    code = 2;\n    message = \"unknown name in item 1\";\n};\n";

const UNKNOWN: Answer = Answer::Object(2, b"unknown name in item 1");

const TWO_REQUESTS: &[u8] =
    b"GET /v.nc.dds?v%5B0%5D%5B0%5D HTTP/1.1\r\nHost: localhost:80\r\nUser-Agent: dap2/1.0\r\nAccept-Encoding: identity\r\n\r\nGET /v.nc.dds?nope HTTP/1.1\r\nHost: localhost:80\r\nUser-Agent: dap2/1.0\r\nAccept-Encoding: identity\r\nConnection: close\r\n\r\n";

/// The constraint that leaves all.
const ALL: &[u8] = b"";

/// So many replies of one kind behind one another, one of them refused: that one, from 0.
fn replies(alloc: Global, count: usize, refused: usize) -> Result<Vec<u8>, Memory> {
    let mut input = Vec::new(alloc);
    for at in 0..count {
        input.extend_from_slice(if at == refused { REFUSED } else { DDS })?;
    }
    Ok(input)
}

/// A text so many times.
fn times(alloc: Global, text: &[u8], count: usize) -> Result<Vec<u8>, Memory> {
    let mut all = Vec::new(alloc);
    for _ in 0..count {
        all.extend_from_slice(text)?;
    }
    Ok(all)
}

/// This was answered, behind so many whole replies, and this was put.
fn expect_fetched<R: Abort>(rt: &R, done: &Done, answer: Answer, whole: u32, out: &[u8]) {
    assert!(rt; answers(&done.fetched.last, answer));
    expect(rt, done.fetched.whole, whole);
    expect(rt, done.out.bytes(), out);
    expect(rt, done.back, 1);
}

#[test]
fn one_is_fetched(rt: HostRuntime) -> Result<(), Fail> {
    for piece in [1, 7, 65536] {
        let done = fetched(rt.alloc(), ONE, Fails { piece, ..SURE })?;
        expect_fetched(&rt, &done, Answer::Shown(63), 1, DATA_SHOWN);
        expect(&rt, done.sent.bytes(), DATA_REQUEST);
    }
    Ok(())
}

/// The second is refused under status 400: what it says is told, and nothing of it is put.
#[test]
fn two_are_fetched(rt: HostRuntime) -> Result<(), Fail> {
    let input = replies(rt.alloc(), 2, 1)?;
    let two = Asked {
        url: "http://localhost/v.nc",
        kind: Kind::Dds,
        ces: &[b"v[0][0]", b"nope"],
        input: input.as_slice(),
    };
    for piece in [1, 7, 65536] {
        let done = fetched(rt.alloc(), two, Fails { piece, ..SURE })?;
        expect_fetched(&rt, &done, UNKNOWN, 1, DDS_SHOWN);
        expect(&rt, done.sent.bytes(), TWO_REQUESTS);
    }
    Ok(())
}

/// Of 16 replies one is refused, or none: the ones before it are put.
fn expect_sixteen<R: Abort>(
    rt: &R,
    alloc: Global,
    refused: usize,
    answer: Answer,
    whole: u32,
) -> Result<(), Fail> {
    let input = replies(alloc, 16, refused)?;
    let sixteen = Asked {
        url: "http://localhost/v.nc",
        kind: Kind::Dds,
        ces: &[ALL; 16],
        input: input.as_slice(),
    };
    let done = fetched(alloc, sixteen, SURE)?;
    let shown = times(alloc, DDS_SHOWN, refused)?;
    expect_fetched(rt, &done, answer, whole, shown.as_slice());
    Ok(())
}

/// Of 16 replies, the third of which is refused, two are read; where none is, all are.
#[test]
fn sixteen_are_fetched(rt: HostRuntime) -> Result<(), Fail> {
    for (refused, answer, whole) in [
        (2, UNKNOWN, 2),
        (15, UNKNOWN, 15),
        (16, Answer::Shown(45), 16),
    ] {
        expect_sixteen(&rt, rt.alloc(), refused, answer, whole)?;
    }
    Ok(())
}

/// Whether a fetching that was stopped by a fault put a front alone of what is shown, and handed back its
/// link, on which this much was sent.
fn is_stopped(done: &Done, sent: &[u8]) -> bool {
    DATA_SHOWN.starts_with(done.out.bytes())
        && done.out.bytes().len() < DATA_SHOWN.len()
        && sent.starts_with(done.sent.bytes())
        && done.fetched.whole == 0
        && done.back == 1
}

/// Each take of the link fails in turn: one for each 48 bytes of the reply, and no other.
#[test]
fn each_take_fails(rt: HostRuntime) -> Result<(), Fail> {
    let takes = DATA.len().div_ceil(48) as u64;
    for number in 1..takes.saturating_add(2) {
        let fails = Fails {
            take: Some(number),
            piece: 48,
            ..SURE
        };
        let done = fetched(rt.alloc(), ONE, fails)?;
        expect(&rt, done.sent.bytes(), DATA_REQUEST);
        if number > takes {
            assert!(rt; answers(&done.fetched.last, Answer::Shown(63)));
        } else {
            assert!(rt; matches!(done.fetched.last, Outcome::ReadFault), "{number}");
            assert!(rt; is_stopped(&done, DATA_REQUEST));
        }
    }
    Ok(())
}

/// Each put of the link fails in turn: a front of the request is out, and nothing was put.
#[test]
fn each_put_of_the_request_fails(rt: HostRuntime) -> Result<(), Fail> {
    let puts = DATA_REQUEST.len().div_ceil(16) as u64;
    for number in 1..puts.saturating_add(2) {
        let fails = Fails {
            send: Some(number),
            piece: 16,
            ..SURE
        };
        let done = fetched(rt.alloc(), ONE, fails)?;
        if number > puts {
            assert!(rt; answers(&done.fetched.last, Answer::Shown(63)));
        } else {
            assert!(rt;
                matches!(done.fetched.last, Outcome::WriteFault),
                "{number}"
            );
            assert!(rt; is_stopped(&done, DATA_REQUEST));
            assert!(rt; done.sent.bytes().len() < DATA_REQUEST.len());
            assert!(rt; done.out.bytes().is_empty());
        }
    }
    Ok(())
}

/// Each put of the sink fails in turn: as many as a run without a fault makes.
#[test]
fn each_put_fails(rt: HostRuntime) -> Result<(), Fail> {
    let sure = fetched(rt.alloc(), ONE, Fails { piece: 16, ..SURE })?;
    assert!(rt; sure.puts > 4);
    for number in 1..sure.puts.saturating_add(1) {
        let fails = Fails {
            put: Some(number),
            piece: 16,
            ..SURE
        };
        let done = fetched(rt.alloc(), ONE, fails)?;
        assert!(rt;
            matches!(done.fetched.last, Outcome::WriteFault),
            "{number}"
        );
        assert!(rt; is_stopped(&done, DATA_REQUEST));
        expect(&rt, done.sent.bytes(), DATA_REQUEST);
    }
    Ok(())
}

/// A URL whose host has so many letters, as a text.
fn url_of(alloc: Global, count: usize) -> Result<Vec<u8>, Memory> {
    let host = times(alloc, b"h", count)?;
    let mut text = Vec::from_slice(alloc, b"http://")?;
    text.extend_from_slice(host.as_slice())?;
    text.extend_from_slice(b"/v.nc")?;
    Ok(text)
}

/// Fetches from the longest host that there may be.
fn fetch_far<C: Dial, O: Sink>(
    alloc: Global,
    dial: &mut C,
    text: &[u8],
    out: &mut O,
) -> Result<Outcome, Fail> {
    let Ok(text) = str::from_utf8(text) else {
        return Err(Fail::new("no text"));
    };
    let Ok(url) = Url::read(alloc, text) else {
        return Err(Fail::new("no URL"));
    };
    Ok(fetch(alloc, dial, &url, Kind::Dods, b"v", out))
}

/// Fetches from that host, and says whether all came, or nothing where no link is connected.
fn call_ends(alloc: Global, dial: &mut MemDial, fails: bool) -> Result<bool, Fail> {
    let text = url_of(alloc, 255)?;
    let mut out = sink(alloc, 65536, None)?;
    let outcome = fetch_far(alloc, dial, text.as_slice(), &mut out)?;
    Ok(if fails {
        matches!(outcome, Outcome::LinkFault) && out.bytes().is_empty()
    } else {
        answers(&outcome, Answer::Shown(63)) && out.bytes() == DATA_SHOWN
    })
}

#[test]
fn hosts_have_at_most_255_bytes(rt: HostRuntime) -> Result<(), Fail> {
    let text = url_of(rt.alloc(), 256)?;
    let Ok(text) = str::from_utf8(text.as_slice()) else {
        return Err(Fail::new("no text"));
    };
    assert!(rt; matches!(Url::read(rt.alloc(), text), Err(UrlRefusal::BadUrl)));
    Ok(())
}

/// Three calls over one dial of two links, of which one does not connect.
#[test]
fn a_call_does_not_connect(rt: HostRuntime) -> Result<(), Fail> {
    let alloc = rt.alloc();
    for failing_call in 1..4 {
        let mut dial = dial(alloc, DATA, SURE, Some(failing_call))?;
        for call in 1..4 {
            assert!(rt; call_ends(alloc, &mut dial, call == failing_call)?);
        }
        expect(&rt, dial.back().len(), 2);
    }
    Ok(())
}

/// A coded reply is not read, and its link comes back.
#[test]
fn a_coded_reply_is_refused(rt: HostRuntime) -> Result<(), Fail> {
    let coded = Asked {
        input: b"HTTP/1.1 200 OK\r\nContent-Encoding: gzip\r\nContent-Length: 3\r\n\r\n\x1f\x8b\x08",
        ..ONE
    };
    let done = fetched(rt.alloc(), coded, SURE)?;
    assert!(rt; answers(&done.fetched.last, Answer::Wrong(Bad::Coded, 0)));
    assert!(rt; is_stopped(&done, DATA_REQUEST));
    assert!(rt; done.out.bytes().is_empty());
    Ok(())
}
