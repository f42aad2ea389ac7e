ghost use Rattle.std.specs.Prelude.{◌≡◌, ◌<◌, All, IfOk, IsSome};
ghost use Rattle.dap_outside.specs.MemLinks.{IsNew};

use crate::tests::expecting::expect;
use crate::tests::lists::add;
use dap_outside::{
    Dial, Door, Failed, MemDial, MemDoor, MemFile, MemLink, MemShelf, MemSink, MemSource, Shelf,
    Sink, Source, SureShelf, SureSource, put_all, take_some,
};
use dap_types::{Bytes, List, Memory, Name};
use std::alloc::Global;
use std::process::Abort;
use std::test::Fail;

fn numbers(alloc: Global, all: &[u64]) -> Result<List<u64>, Memory> {
    let mut list = List::new(alloc);
    for number in all {
        list.push(*number)?;
    }
    Ok(list)
}

fn file(alloc: Global, name: &str, bytes: &[u8]) -> Result<MemFile, Memory> {
    let name = Name::new(alloc, name)?;
    let bytes = Bytes::new(alloc, bytes)?;
    Ok(MemFile { name, bytes })
}

fn files(alloc: Global) -> Result<List<MemFile>, Memory> {
    let mut files = List::new(alloc);
    add(&mut files, file(alloc, "a", b"one")?)?;
    add(&mut files, file(alloc, "b", b"three")?)?;
    Ok(files)
}

/// What a take of at most four bytes gives, or none where it fails.
fn take<'b, I: Source>(source: &mut I, into: &'b mut [u8; 4]) -> Result<&'b [u8], Failed> {
    let count = source.take(into)?;
    Ok(&into[..count])
}

/// Each take of at most four bytes gives this, one after the other.
fn expect_takes<R: Abort, I: Source>(rt: &R, source: &mut I, expected: &[Result<&[u8], Failed>]) {
    for wanted in expected {
        expect(rt, take(source, &mut [0; 4]), *wanted);
    }
}

fn put<O: Sink>(out: &mut O) -> Result<usize, Failed> {
    out.put(b"abc")
}

/// Each put takes so many bytes of a text, one after the other.
fn expect_puts<R: Abort, O: Sink>(rt: &R, out: &mut O, expected: &[Result<usize, Failed>]) {
    for wanted in expected {
        expect(rt, put(out), *wanted);
    }
}

/// A source of five bytes, which come in pieces of so many. The listed takes fail.
fn source(alloc: Global, piece: u32, fails: &[u64]) -> Result<MemSource, Memory> {
    let bytes = Bytes::new(alloc, b"abcde")?;
    let fails = numbers(alloc, fails)?;
    Ok(source_of(bytes, piece, fails))
}

fn source_of(bytes: Bytes, piece: u32, fails: List<u64>) -> MemSource {
    MemSource::new(bytes, piece.max(1), fails)
}

/// A sink for so many bytes, which takes so many at once. The listed puts fail.
fn sink(alloc: Global, room: u32, piece: u32, fails: &[u64]) -> Result<MemSink, Memory> {
    MemSink::new(alloc, room, piece.max(1), numbers(alloc, fails)?)
}

/// A link with both, for which these bytes come.
fn both(
    alloc: Global,
    bytes: &[u8],
    room: u32,
    piece: u32,
    takes: &[u64],
    puts: &[u64],
) -> Result<MemLink, Memory> {
    let bytes = Bytes::new(alloc, bytes)?;
    let takes = numbers(alloc, takes)?;
    MemLink::new(
        alloc,
        bytes,
        room,
        piece.max(1),
        takes,
        numbers(alloc, puts)?,
    )
}

/// What the takes of a source of five bytes give.
fn expect_of_source<R: Abort>(
    rt: &R,
    alloc: Global,
    piece: u32,
    fails: &[u64],
    expected: &[Result<&[u8], Failed>],
) -> Result<(), Fail> {
    expect_takes(rt, &mut source(alloc, piece, fails)?, expected);
    Ok(())
}

/// What the takes of a link for which five bytes come give. Its first put fails.
fn expect_of_link<R: Abort>(
    rt: &R,
    alloc: Global,
    piece: u32,
    fails: &[u64],
    expected: &[Result<&[u8], Failed>],
) -> Result<(), Fail> {
    let mut link = both(alloc, b"abcde", 4, piece, fails, &[1])?;
    expect_takes(rt, &mut link, expected);
    expect_puts(rt, &mut link, &[Err(Failed)]);
    Ok(())
}

/// The most bytes of a piece, the takes that fail, and what each gives of five bytes.
const TAKES: [(u32, &[u64], &[Result<&[u8], Failed>]); 3] = [
    (
        2,
        &[2, 5],
        &[
            Ok(b"ab"),
            Err(Failed),
            Ok(b"cd"),
            Ok(b"e"),
            Err(Failed),
            Ok(b""),
            Ok(b""),
        ],
    ),
    (9, &[], &[Ok(b"abcd"), Ok(b"e"), Ok(b"")]),
    (1, &[1, 2], &[Err(Failed), Err(Failed), Ok(b"a"), Ok(b"b")]),
];

#[test]
fn listed_takes_fail(rt: HostRuntime) -> Result<(), Fail> {
    let alloc = rt.alloc();
    for (piece, fails, expected) in TAKES {
        expect_of_source(&rt, alloc, piece, fails, expected)?;
        expect_of_link(&rt, alloc, piece, fails, expected)?;
    }
    Ok(())
}

#[test]
fn no_take_of_a_sure_source_fails(rt: HostRuntime) -> Result<(), Fail> {
    let mut sure = SureSource::new(Bytes::new(rt.alloc(), b"abcde")?, 3);
    expect_takes(&rt, &mut sure, &[Ok(b"abc"), Ok(b"de"), Ok(b""), Ok(b"")]);
    Ok(())
}

/// What the puts into a sink with room for five bytes give, and what is there then.
fn expect_in_sink<R: Abort>(
    rt: &R,
    alloc: Global,
    piece: u32,
    fails: &[u64],
    expected: (&[Result<usize, Failed>], &[u8]),
) -> Result<(), Fail> {
    let (answers, written) = expected;
    let mut out = sink(alloc, 5, piece, fails)?;
    expect_puts(rt, &mut out, answers);
    expect(rt, out.bytes(), written);
    Ok(())
}

/// The same of a link, for which a byte comes. Its first take fails.
fn expect_in_link<R: Abort>(
    rt: &R,
    alloc: Global,
    piece: u32,
    fails: &[u64],
    expected: (&[Result<usize, Failed>], &[u8]),
) -> Result<(), Fail> {
    let (answers, written) = expected;
    let mut link = both(alloc, b"x", 5, piece, &[1], fails)?;
    expect_puts(rt, &mut link, answers);
    expect(rt, link.written(), written);
    expect_takes(rt, &mut link, &[Err(Failed), Ok(b"x"), Ok(b"")]);
    Ok(())
}

/// The most bytes at once, the puts that fail, what each answers, and what is there then.
const PUTS: [(u32, &[u64], &[Result<usize, Failed>], &[u8]); 3] = [
    (
        2,
        &[2],
        &[Ok(2), Err(Failed), Ok(2), Ok(1), Err(Failed)],
        b"ababa",
    ),
    (9, &[], &[Ok(3), Ok(2), Err(Failed), Err(Failed)], b"abcab"),
    (1, &[1, 3], &[Err(Failed), Ok(1), Err(Failed), Ok(1)], b"aa"),
];

#[test]
fn listed_puts_fail(rt: HostRuntime) -> Result<(), Fail> {
    let alloc = rt.alloc();
    for (piece, fails, expected, written) in PUTS {
        expect_in_sink(&rt, alloc, piece, fails, (expected, written))?;
        expect_in_link(&rt, alloc, piece, fails, (expected, written))?;
    }
    Ok(())
}

/// Puts all of the bytes, with that answer.
fn expect_put<R: Abort, O: Sink>(rt: &R, out: &mut O, bytes: &[u8], answer: Result<(), Failed>) {
    expect(rt, put_all(out, bytes), answer);
}

/// What comes for four bytes.
fn taken<'b, I: Source>(source: &mut I, into: &'b mut [u8; 4]) -> Result<&'b [u8], Failed> {
    let count = take_some(source, into)?;
    Ok(&into[..count])
}

/// Takes what comes for four bytes: these, or none where a call fails.
fn expect_taken<R: Abort, I: Source>(rt: &R, source: &mut I, answer: Result<&[u8], Failed>) {
    expect(rt, taken(source, &mut [0; 4]), answer);
}

#[test]
fn all_is_put(rt: HostRuntime) -> Result<(), Fail> {
    let mut out = sink(rt.alloc(), 9, 2, &[4])?;
    expect_put(&rt, &mut out, b"abcde", Ok(()));
    expect_put(&rt, &mut out, b"fg", Err(Failed));
    expect_put(&rt, &mut out, b"hijkl", Err(Failed));
    expect(&rt, out.bytes(), b"abcdehijk");
    Ok(())
}

#[test]
fn all_is_taken(rt: HostRuntime) -> Result<(), Fail> {
    let alloc = rt.alloc();
    let mut source = source_of(Bytes::new(alloc, b"abcdefghi")?, 3, numbers(alloc, &[4])?);
    expect_taken(&rt, &mut source, Ok(b"abcd"));
    expect_taken(&rt, &mut source, Err(Failed));
    expect_taken(&rt, &mut source, Ok(b"hi"));
    Ok(())
}

#[test]
fn all_of_a_sure_source_is_taken(rt: HostRuntime) -> Result<(), Fail> {
    let mut sure = SureSource::new(Bytes::new(rt.alloc(), b"abcdef")?, 1);
    expect_taken(&rt, &mut sure, Ok(b"abcd"));
    expect_taken(&rt, &mut sure, Ok(b"ef"));
    expect_taken(&rt, &mut sure, Ok(b""));
    Ok(())
}

fn is_same(found: [u8; 2], expected: &[u8]) -> bool {
    found.as_slice() == expected
}

/// Whether the last two bytes of a file are these.
fn ends<S: Shelf>(shelf: &mut S, file: &mut S::File, last: &[u8]) -> Result<bool, Failed> {
    let size = shelf.size(file);
    if size < 2 {
        return Ok(false);
    }
    let mut into = [0; 2];
    shelf.read_at(file, size - 2, &mut into)?;
    Ok(is_same(into, last))
}

/// Whether the shelf finds a file of this name and reads its last two bytes as these.
fn reads<S: Shelf>(shelf: &mut S, name: &str, last: &[u8]) -> Result<bool, Failed> {
    match shelf.find(name)? {
        Some(mut file) => ends(shelf, &mut file, last),
        None => Ok(last.is_empty()),
    }
}

/// What reads of the same files give, one after the other.
fn expect_reads<R: Abort, S: Shelf>(rt: &R, shelf: &mut S, expected: [Result<bool, Failed>; 4]) {
    let [first, second, third, fourth] = expected;
    expect(rt, reads(shelf, "a", b"ne"), first);
    expect(rt, reads(shelf, "c", b""), second);
    expect(rt, reads(shelf, "b", b"ee"), third);
    expect(rt, reads(shelf, "a", b"ne"), fourth);
}

#[test]
fn no_call_of_a_sure_shelf_fails(rt: HostRuntime) -> Result<(), Fail> {
    let mut sure = SureShelf::new(files(rt.alloc())?);
    expect_reads(&rt, &mut sure, [Ok(true); 4]);
    Ok(())
}

/// The calls of the four reads are numbered 1 and 2, 3, 4 and 5, 6 and 7.
#[test]
fn a_call_behind_some_reads_of_a_shelf_fails(rt: HostRuntime) -> Result<(), Fail> {
    let alloc = rt.alloc();
    let mut shelf = MemShelf::new(files(alloc)?, numbers(alloc, &[8])?);
    expect_reads(&rt, &mut shelf, [Ok(true); 4]);
    expect(&rt, reads(&mut shelf, "c", b""), Err(Failed));
    expect(&rt, reads(&mut shelf, "c", b""), Ok(true));
    Ok(())
}

#[test]
fn listed_calls_of_a_shelf_fail(rt: HostRuntime) -> Result<(), Fail> {
    let alloc = rt.alloc();
    let mut shelf = MemShelf::new(files(alloc)?, numbers(alloc, &[2, 3, 5])?);
    let expected = [Err(Failed), Err(Failed), Err(Failed), Ok(true)];
    expect_reads(&rt, &mut shelf, expected);
    Ok(())
}

fn links(alloc: Global) -> Result<List<MemLink>, Memory>
    ensures { IfOk result (All IsNew) }
{
    let mut links = List::new(alloc);
    links.push(link(alloc, b"first")?)?;
    links.push(link(alloc, b"second")?)?;
    Ok(links)
}

fn link(alloc: Global, bytes: &[u8]) -> Result<MemLink, Memory>
    ensures { IfOk result IsNew }
{
    let bytes = Bytes::new(alloc, bytes)?;
    link_of(alloc, bytes, List::new(alloc), List::new(alloc))
}

/// A link with room for nine bytes.
fn link_of(
    alloc: Global,
    bytes: Bytes,
    takes: List<u64>,
    puts: List<u64>,
) -> Result<MemLink, Memory>
    ensures { IfOk result IsNew }
{
    MemLink::new(alloc, bytes, 9, 9, takes, puts)
}

/// So many bytes were written on each of two links.
fn expect_written<R: Abort>(rt: &R, links: &[MemLink], expected: [usize; 2]) {
    let written = links.iter().map(|link| link.written().len());
    assert!(rt; written.eq(expected));
}

/// Accepts a link, writes on it what it gives, and hands it back.
fn echo<D: Door>(door: &mut D) -> Result<(), Failed>
    requires { IsSome (D.listens_at door.old) }
    ensures { D.listens_at door.new ≡ D.listens_at door.old }
{
    let mut link = door.accept()?;
    copy(&mut link);
    door.done(link);
    Ok(())
}

fn copy<W: Source + Sink>(link: &mut W) {
    let mut into = [0; 9];
    if let Ok(count) = take_some(link, &mut into) {
        let _ = put_all(link, &into[..count]);
    }
}

/// A door with two links, of which these calls fail.
fn door(alloc: Global, fails: &[u64]) -> Result<MemDoor, Memory> {
    let links = links(alloc)?;
    MemDoor::new(alloc, links, numbers(alloc, fails)?)
}

/// The first call fails, and the fourth, and the last, for which no link is left.
fn expect_echoes<R: Abort, D: Door>(rt: &R, door: &mut D) -> Result<(), Fail> {
    expect(rt, door.listen(80), Err(Failed));
    let Ok(()) = door.listen(80) else {
        return Err(Fail::from("does not listen"));
    };
    expect(rt, echo(door), Ok(()));
    expect(rt, echo(door), Err(Failed));
    expect(rt, echo(door), Ok(()));
    expect(rt, echo(door), Err(Failed));
    Ok(())
}

#[test]
fn a_door_gives_its_links_in_order(rt: HostRuntime) -> Result<(), Fail> {
    let mut door = door(rt.alloc(), &[1, 4])?;
    expect_echoes(&rt, &mut door)?;
    expect_written(&rt, door.back(), [5, 6]);
    Ok(())
}

/// A dial with two links, of which these calls fail.
fn dial(alloc: Global, fails: &[u64]) -> Result<MemDial, Memory> {
    let links = links(alloc)?;
    MemDial::new(alloc, links, numbers(alloc, fails)?)
}

/// Connects, writes on the link what it gives where that is wanted, and hands it back.
fn call<D: Dial>(dial: &mut D, host: &str, port: u16, echoes: bool) -> Result<(), Failed> {
    let mut link = dial.connect(host, port)?;
    if echoes {
        copy(&mut link);
    }
    dial.done(link);
    Ok(())
}

fn host(bytes: &[u8]) -> Result<&str, Fail> {
    let Ok(host) = str::from_utf8(bytes) else {
        return Err(Fail::new("no text"));
    };
    Ok(host)
}

#[test]
fn a_dial_takes_hosts_of_255_bytes(rt: HostRuntime) -> Result<(), Fail> {
    let bytes = [b'h'; 256];
    let long = host(&bytes)?;
    let fits = host(&bytes[..255])?;
    let mut dial = dial(rt.alloc(), &[2])?;
    expect(&rt, call(&mut dial, long, 80, false), Err(Failed));
    expect(&rt, call(&mut dial, fits, 80, false), Err(Failed));
    expect(&rt, call(&mut dial, fits, 80, true), Ok(()));
    expect(&rt, call(&mut dial, "host", 8080, false), Ok(()));
    expect(&rt, call(&mut dial, "host", 8080, false), Err(Failed));
    expect_written(&rt, dial.back(), [5, 0]);
    Ok(())
}
