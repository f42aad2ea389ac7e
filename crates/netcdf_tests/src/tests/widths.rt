use crate::tests::expecting::expect;
use crate::tests::made::push_word;
use netcdf_source::{HeaderRefusal, read_front, read_header};
use std::alloc::Global;
use std::test::Fail;

/// A file of version 5: `u` of UShort over `n` (3), and `q` of Int64 over it.
const FILE: [u32; 55] = [
    0x4344_4605,
    0,
    0,
    0x0a,
    0,
    1,
    0,
    1,
    0x6e00_0000,
    0,
    3,
    0,
    0,
    0,
    0x0b,
    0,
    2,
    0,
    1,
    0x7500_0000,
    0,
    1,
    0,
    0,
    0,
    0,
    0,
    8,
    0,
    8,
    0,
    0xbc,
    0,
    1,
    0x7100_0000,
    0,
    1,
    0,
    0,
    0,
    0,
    0,
    0x0a,
    0,
    0x18,
    0,
    0xc4,
    0xffff_0001,
    0x8000_0000,
    0,
    1,
    0,
    2,
    0,
    3,
];

/// Two words of the file from a place on, and where the file is refused with them.
type Change = (usize, u32, u32, u64);

/// A word of the file, `number` words from its front, with that change.
fn word(number: usize, word: u32, change: Change) -> u32 {
    let (place, first, second, _) = change;
    if number == place / 4 {
        first
    } else if number == place / 4 + 1 {
        second
    } else {
        word
    }
}

/// The bytes of the file with a change.
fn changed(alloc: Global, change: Change) -> Result<Vec<u8>, Fail> {
    let mut bytes = Vec::new(alloc);
    for (number, w) in FILE.iter().enumerate() {
        push_word(&mut bytes, word(number, *w, change))?;
    }
    Ok(bytes)
}

/// The refusal of a small file.
fn refusal(alloc: Global, bytes: &[u8]) -> Option<HeaderRefusal> {
    if bytes.len() > 1048576 {
        return None;
    }
    read_header(alloc, bytes, bytes.len() as u64).err()
}

/// The refusal of the file cut to that length.
fn refusal_at(len: usize) -> HeaderRefusal {
    if len < 4 {
        HeaderRefusal::NotCdf
    } else if len < 188 {
        HeaderRefusal::HeaderCut
    } else if len < 194 {
        HeaderRefusal::PastEnd { var: 1 }
    } else {
        HeaderRefusal::PastEnd { var: 2 }
    }
}

/// Whether more than this front of a file is wanted, or why it is no header.
fn wants_more(alloc: Global, front: &[u8], file_len: u64) -> Result<bool, HeaderRefusal> {
    if front.len() as u64 > file_len || front.len() > 1048576 || file_len >= 1 << 63 {
        return Err(HeaderRefusal::Memory);
    }
    Ok(read_front(alloc, front, file_len)?.is_none())
}

/// Whether the file cut to this front is refused so.
fn is_refused_rightly(alloc: Global, front: &[u8]) -> bool {
    refusal(alloc, front) == Some(refusal_at(front.len()))
}

/// Whether the front wants more of the file exactly where it ends within the header.
fn wants_rightly(alloc: Global, front: &[u8]) -> bool {
    wants_more(alloc, front, 220) == Ok(front.len() < 188)
}

/// Whether the file cut to this front is refused so, and the front wants more of the file exactly
/// where it ends within the header.
fn is_cut_rightly(alloc: Global, front: &[u8]) -> bool {
    is_refused_rightly(alloc, front) && wants_rightly(alloc, front)
}

#[test]
fn fronts_are_cut_and_want_more(rt: HostRuntime) -> Result<(), Fail> {
    let alloc = rt.alloc();
    let bytes = changed(alloc, (1000, 0, 0, 0))?;
    for len in 0..bytes.len() {
        assert!(rt; is_cut_rightly(alloc, &bytes[..len]), "cut at {len}");
    }
    Ok(())
}

/// Fronts that end within the magic.
#[test]
fn shorter_magics_want_more(rt: HostRuntime) -> Result<(), Fail> {
    let alloc = rt.alloc();
    expect(&rt, wants_more(alloc, b"CDF", 220), Ok(true));
    expect(
        &rt,
        wants_more(alloc, b"CDF", 3),
        Err(HeaderRefusal::NotCdf),
    );
    let other = wants_more(alloc, b"CDF\x03", 220);
    expect(&rt, other, Err(HeaderRefusal::NotCdf));
    Ok(())
}

/// Whether more than the first bytes of the file are wanted, or why they are no header.
fn front_wants_more(alloc: Global, bytes: &[u8], len: usize) -> Result<bool, HeaderRefusal> {
    match bytes.get(..len) {
        Some(front) => wants_more(alloc, front, 220),
        None => Err(HeaderRefusal::Memory),
    }
}

/// A name that is too long is refused once its length is whole.
#[test]
fn a_front_with_a_fault_is_refused(rt: HostRuntime) -> Result<(), Fail> {
    let alloc = rt.alloc();
    let bytes = changed(alloc, (68, 0, 257, 68))?;
    expect(&rt, front_wants_more(alloc, &bytes, 75), Ok(true));
    let refused = front_wants_more(alloc, &bytes, 76);
    expect(&rt, refused, Err(HeaderRefusal::BadField { place: 68 }));
    Ok(())
}
