//! Replies whose heads or whose framing differ in one byte, and heads before the final one.

use crate::tests::cases::{TABLE, TABLE_ROWS, TABLE_SHOWN};
use crate::tests::expecting::expect;
use crate::tests::replies::{DATA_HEAD, read, reply_of};
use crate::tests::showing::{Answer, answers, is_shown};
use dap_http::Kind;
use std::alloc::{AllocError, Global};
use std::process::Abort;
use std::test::Fail;
use xdr_decode::Bad;

/// What is read where a bit of that byte of the head is changed. By RFC 9112, sections 2 to 6, where a
/// line feed alone ends a line too, a letter for each: the table as before (`.`), no head (`H`), another
/// transfer coding (`C`), a body up to the end, which begins with the chunk's size (`E`).
const CHANGED: [(u8, &[u8]); 2] = [
    (
        0x01,
        b"HHHHHHH.H...H..HH.....H......H.........HH..H.H....HH.......H...........H..........HH.......H....H.........................HHEEEEEEEEHEEEEEEEEHCCCCCCCCHH..........H......HHHH",
    ),
    (
        0x20,
        b"HHHHHHHHHHHHH...H.....H......HH...HHHHH.H....HHHHH.H.......H...........HH....H.....H.......H....HH...........H.....H.......H........H........HH.......CH..........HH......HHH",
    ),
];

/// What a letter stands for, and what is put.
fn meaning(letter: u8) -> (Answer, &'static [u8]) {
    match letter {
        b'H' => (Answer::Wrong(Bad::BadHead, 0), b""),
        b'C' => (Answer::Wrong(Bad::Coded, 0), b""),
        b'E' => (Answer::Wrong(Bad::BadDds, 0), b""),
        _ => (Answer::Shown(138), TABLE_SHOWN),
    }
}

/// Whether the reply with the table is that answer, and this is put, where a byte is changed so.
fn is_changed(
    alloc: Global,
    at: usize,
    change: u8,
    answer: Answer,
    out: &[u8],
) -> Result<bool, Fail> {
    let mut reply = reply_of(alloc, TABLE)?;
    if let Some(byte) = reply.as_mut_slice().get_mut(at) {
        *byte ^= change;
    }
    let found = read(alloc, reply.as_slice(), Kind::Dods, 65536, None, None)?;
    Ok(is_shown(&found, answer, out))
}

#[test]
fn each_byte_of_a_head_is_changed(rt: HostRuntime) -> Result<(), Fail> {
    for (change, letters) in CHANGED {
        expect(&rt, letters.len(), DATA_HEAD.len());
        for (at, letter) in letters.iter().enumerate() {
            let (answer, out) = meaning(*letter);
            assert!(rt;
                is_changed(rt.alloc(), at, change, answer, out)?,
                "{change} at {at}"
            );
        }
    }
    Ok(())
}

/// The bytes before and behind the one chunk, from the end of the head: a line of another size, a line
/// or line end that is none, a trailer that does not end.
const FRAMING: [(usize, Bad, u64); 11] = [
    (0, Bad::Trailing, 138),
    (1, Bad::BadChunk, 0),
    (2, Bad::BadChunk, 0),
    (3, Bad::BadChunk, 0),
    (142, Bad::BadChunk, 142),
    (143, Bad::BadChunk, 142),
    (144, Bad::Trailing, 138),
    (145, Bad::BadChunk, 144),
    (146, Bad::BadChunk, 144),
    (147, Bad::Cut, 138),
    (148, Bad::Cut, 138),
];

#[test]
fn each_byte_of_the_framing_is_changed(rt: HostRuntime) -> Result<(), Fail> {
    for (at, kind, place) in FRAMING {
        let answer = Answer::Wrong(kind, place);
        let out: &[u8] = if place == 0 { b"" } else { TABLE_ROWS };
        let at = at.saturating_add(DATA_HEAD.len());
        assert!(rt; is_changed(rt.alloc(), at, 0x01, answer, out)?, "{at}");
    }
    Ok(())
}

/// Writes a chunk, with an extension in its line or none.
fn put_chunk(
    alloc: Global,
    reply: &mut Vec<u8>,
    chunk: &[u8],
    extended: bool,
) -> Result<(), AllocError> {
    let digits = format!(in alloc; "{:X}", chunk.len())?;
    reply.extend_from_slice(digits.as_bytes())?;
    reply.extend_from_slice(if extended { b" ; a=\"b\"\r\n" } else { b"\r\n" })?;
    reply.extend_from_slice(chunk)?;
    reply.extend_from_slice(b"\r\n")
}

/// A reply with the table in chunks of a size, in every second line of them an extension, and with a
/// trailer.
fn in_chunks(alloc: Global, size: usize) -> Result<Vec<u8>, Fail> {
    let mut reply = Vec::from_slice(alloc, DATA_HEAD)?;
    for (number, chunk) in TABLE.chunks(size.max(1)).enumerate() {
        put_chunk(alloc, &mut reply, chunk, number % 2 != 0)?;
    }
    reply.extend_from_slice(b"000\r\nX: y\r\n\r\nrest")?;
    Ok(reply)
}

/// A reply in pieces of a size is shown as the table.
fn expect_table<R: Abort>(rt: &R, alloc: Global, reply: &[u8], piece: u32) -> Result<(), Fail> {
    let found = read(alloc, reply, Kind::Dods, piece, None, None)?;
    assert!(rt; answers(&found.outcome, Answer::Shown(138)));
    expect(rt, found.out.bytes(), TABLE_SHOWN);
    Ok(())
}

#[test]
fn chunks_have_any_size(rt: HostRuntime) -> Result<(), Fail> {
    for size in 1..140 {
        let reply = in_chunks(rt.alloc(), size)?;
        expect_table(&rt, rt.alloc(), reply.as_slice(), 50)?;
    }
    Ok(())
}

/// The reply with the table behind a hundred heads of status 100 to 199.
fn behind_heads(alloc: Global) -> Result<Vec<u8>, Fail> {
    let mut reply = Vec::new(alloc);
    for _ in 0..50 {
        reply.extend_from_slice(b"HTTP/1.1 100 Continue\r\n\r\n")?;
        reply.extend_from_slice(b"HTTP/1.1 199 \r\nContent-Encoding: gzip\r\n\r\n")?;
    }
    reply.extend_from_slice(reply_of(alloc, TABLE)?.as_slice())?;
    Ok(reply)
}

#[test]
fn heads_before_the_final_one_are_passed_over(rt: HostRuntime) -> Result<(), Fail> {
    let reply = behind_heads(rt.alloc())?;
    for piece in [1, 7, 65536] {
        expect_table(&rt, rt.alloc(), reply.as_slice(), piece)?;
    }
    Ok(())
}
