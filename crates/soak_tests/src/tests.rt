//! The file, the connection and the reading, made here of the public calls, beside what `run` writes for `soak`.

use dap_client::{Outcome, read_reply};
use dap_commands::run;
use dap_http::Kind;
use dap_outside::{MemDial, MemDoor, MemFile, MemLink, MemSink, SureShelf, SureSource};
use dap_server::serve_connection;
use dap_types::{Bytes, List, Memory, Name};
use soak::{soak, soak_file};
use std::alloc::Global;
use std::test::Fail;
use std::thread::Threads;

/// A record dimension `t` with three records, dimensions `y` and `x` of 32, shorts `s` and ints `i` over them.
const HEADER: &[u32] = &[
    0x43444601, 3, 0x0a, 3, 1, 0x74000000, 0, 1, 0x79000000, 32, 1, 0x78000000, 32, 0, 0, 0x0b, 2,
    1, 0x73000000, 3, 0, 1, 2, 0, 0, 3, 2048, 156, 1, 0x69000000, 3, 0, 1, 2, 0, 0, 4, 4096, 2204,
];

fn next(state: u64) -> u64 {
    state
        .wrapping_mul(6_364_136_223_846_793_005)
        .wrapping_add(1_442_695_040_888_963_407)
}

/// The file of seed 1 and three records.
fn file(alloc: Global) -> Result<Vec<u8>, Memory> {
    let mut bytes = Vec::new(alloc);
    for word in HEADER {
        bytes.extend_from_slice(&word.to_be_bytes())?;
    }
    let mut state = 1u64;
    for _ in 0..3 {
        for _ in 0..1024 {
            state = next(state);
            bytes.extend_from_slice(&((state >> 48) as u16).to_be_bytes())?;
        }
        for _ in 0..1024 {
            state = next(state);
            bytes.extend_from_slice(&((state >> 32) as u32).to_be_bytes())?;
        }
    }
    Ok(bytes)
}

const REQUEST: &[u8] =
    b"GET /soak.nc.dods?s%5B0:2:2%5D%5B0:31%5D%5B1:3:31%5D,i%5B0:2%5D%5B31:31%5D%5B0:31%5D HTTP/1.1\r\nHost: localhost:80\r\n\r\n";

/// What the connection writes for that request to that file, by 7 workers.
fn reply<R: Threads + AllocGlobal + Sync>(rt: &R) -> Result<Bytes, Memory> {
    let alloc = rt.alloc();
    let mut files = List::new(alloc);
    files.push(MemFile {
        name: Name::new(alloc, "soak.nc")?,
        bytes: Bytes::from_vec(file(alloc)?),
    })?;
    let mut shelf = SureShelf::new(files);
    let request = Bytes::new(alloc, REQUEST)?;
    let none = List::new(alloc);
    let mut link = MemLink::new(alloc, request, 4_194_304, 65_536, none, List::new(alloc))?;
    let _ = serve_connection(rt, alloc, &mut shelf, &mut link, 7);
    Bytes::new(alloc, link.written())
}

/// What `run` writes for `soak 1 3`.
fn said<R: Threads + AllocGlobal + Sync>(rt: &R) -> Result<Bytes, Memory> {
    let alloc = rt.alloc();
    let mut words = List::new(alloc);
    for word in ["soak", "1", "3"] {
        words.push(Name::new(alloc, word)?)?;
    }
    let mut shelf = SureShelf::new(List::new(alloc));
    let mut input = SureSource::new(Bytes::new(alloc, b"")?, 1);
    let mut out = MemSink::new(alloc, 100, 20, List::new(alloc))?;
    let mut err = MemSink::new(alloc, 200, 7, List::new(alloc))?;
    let mut door = MemDoor::new(alloc, List::new(alloc), List::new(alloc))?;
    let mut dial = MemDial::new(alloc, List::new(alloc), List::new(alloc))?;
    let _ = run(
        rt,
        alloc,
        words.items(),
        &mut shelf,
        &mut input,
        &mut out,
        &mut err,
        &mut door,
        &mut dial,
    );
    Bytes::new(alloc, out.bytes())
}

/// How many lines a text has, and the sum of its bytes.
fn counted(text: &[u8]) -> (u32, u32) {
    let mut lines = 0u32;
    let mut sum = 0u32;
    for byte in text {
        sum = sum.wrapping_add(u32::from(*byte));
        if *byte == b'\n' {
            lines = lines.wrapping_add(1);
        }
    }
    (lines, sum)
}

/// The lines of three records are those of what is read of that reply: the shown text has four lines of
/// declarations, one for each element, and one at the end.
#[test]
fn three_records_are_generated_served_and_read(rt: HostRuntime) -> Result<(), Fail> {
    let alloc = rt.alloc();
    let mut source = SureSource::new(reply(&rt)?, 65_536);
    let mut out = MemSink::new(alloc, 25_165_824, 65_536, List::new(alloc))?;
    let Outcome::Complete { bytes } = read_reply(alloc, &mut source, Kind::Dods, &mut out) else {
        return Err(Fail::new("not read"));
    };
    let shown = out.bytes();
    let (lines, sum) = counted(shown);
    let elements = lines.saturating_sub(5);
    let length = shown.len();
    let expected = format!(in alloc;
        "elements {elements}\nbytes {bytes}\nshown {length}\nsum {sum}\n"
    )?;
    let found = said(&rt)?;
    assert_eq!(rt; expected.as_bytes(), found.bytes());
    Ok(())
}

#[test]
fn the_file_is_that_one(rt: HostRuntime) -> Result<(), Fail> {
    let found = soak_file(rt.alloc(), 1, 3)?;
    assert_eq!(rt; found.bytes(), file(rt.alloc())?.as_slice());
    Ok(())
}

#[test]
fn the_most_records(rt: HostRuntime) -> Result<(), Fail> {
    let found = soak(&rt, rt.alloc(), 1, 4_096)?.lines(rt.alloc())?;
    assert_eq!(rt;
        found.bytes(),
        b"elements 851968\nbytes 3407992\nshown 19737256\nsum 1216717528\n".as_slice()
    );
    Ok(())
}
