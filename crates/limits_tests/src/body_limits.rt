//! Bodies of the largest headers and tables, and variables and DDSs that are too large.

use crate::building::{append_times, append_words, expect_same, name_of, sum_of, times};
use crate::expected::{Sent, expect_sent, tall_rows, variables_sent};
use crate::expecting::expect;
use crate::header_limits::{LONGEST, VARIABLES, wide_dds, wide_header, wide_len};
use crate::sending::{cut_body, sent_cut, sent_rows};
use crate::table_limits;
use crate::table_limits::{
    COLUMNS, ROWS, TALL, digits_sum, is_kept, tall_table, wide_query, wide_table,
};
use crate::tallies::byte_at;
use dap_types::Memory;
use std::alloc::Global;
use std::process::Abort;
use std::test::Fail;
use std::thread::Threads;
use xdr_encode::BodyRefusal;

/// A wide file, cut by a constraint that leaves its first variables, is sent.
fn expect_variables<R: Threads + Abort + Sync>(
    rt: &R,
    alloc: Global,
    file: (u32, u32),
    query: &[u8],
    left: u32,
) -> Result<(), Fail> {
    let (variables, length) = file;
    let size = wide_len(variables, length).min(1 << 40);
    let front = wide_header(alloc, variables, length)?;
    let sent = sent_cut(rt, alloc, &front, size, query, 2)?;
    let dds = sent.dds.bytes();
    expect_same(rt, dds, &wide_dds(alloc, left, b"f")?);
    expect_sent(rt, &sent.tally, &variables_sent(dds, left, length));
    Ok(())
}

/// Items on the first variables.
fn first_items(alloc: Global, many: u32) -> Result<Vec<u8>, Memory> {
    let mut text = Vec::from_slice(alloc, b"aaaa")?;
    for number in 1..many {
        text.push(b',')?;
        text.extend_from_slice(&name_of(number))?;
    }
    Ok(text)
}

#[test]
fn widest_header_is_sent(rt: HostRuntime) -> Result<(), Fail> {
    let alloc = rt.alloc();
    let file = (VARIABLES, LONGEST);
    expect_variables(&rt, alloc, file, b"", VARIABLES)?;
    expect_variables(&rt, alloc, file, &first_items(alloc, 1024)?, 1024)
}

/// A dimension with so many bytes behind the four of its name, and of that size.
fn append_dimension(bytes: &mut Vec<u8>, number: u32, more: u32, size: u32) -> Result<(), Memory> {
    append_words(bytes, &[4 + more % 256])?;
    bytes.extend_from_slice(&name_of(number))?;
    append_times(bytes, b"!", more as usize)?;
    append_words(bytes, &[size])
}

/// A Byte over the first dimensions, which stands there.
fn append_byte(
    bytes: &mut Vec<u8>,
    number: u32,
    dimensions: u32,
    begin: u32,
) -> Result<(), Memory> {
    append_words(bytes, &[4])?;
    bytes.extend_from_slice(&name_of(number))?;
    append_words(bytes, &[dimensions])?;
    for id in 0..dimensions {
        append_words(bytes, &[id])?;
    }
    append_words(bytes, &[0, 0, 1, 4, begin])
}

/// So many Bytes, all at one place, over 32 dimensions whose names are escaped. Each has 24,527 bytes in the DDS.
fn long_names(alloc: Global, variables: u32, dimensions: u32) -> Result<Vec<u8>, Memory> {
    let mut bytes = Vec::new(alloc);
    append_words(&mut bytes, &[0x43444601, 0, 0x0a, dimensions])?;
    for number in 0..dimensions {
        append_dimension(&mut bytes, number, 252, 1)?;
    }
    append_words(&mut bytes, &[0, 0, 0x0b, variables])?;
    for number in 0..variables {
        append_byte(&mut bytes, number, dimensions, 0)?;
    }
    Ok(bytes)
}

/// Why there is no body of what a constraint leaves of a file of that name and length, or the length of its DDS.
fn dds_len<R: Abort>(
    rt: &R,
    alloc: Global,
    front: &[u8],
    size: u64,
    name: &[u8],
    query: &[u8],
) -> Result<Result<usize, BodyRefusal>, Fail> {
    match cut_body(rt, alloc, front, size, name, query)? {
        Ok(body) => Ok(Ok(body.dds().len())),
        Err(refusal) => Ok(Err(refusal)),
    }
}

/// Under a name of so many bytes the file has a DDS of that length, or no body for that reason.
fn expect_dds_len<R: Abort>(
    rt: &R,
    alloc: Global,
    file: &[u8],
    name_len: usize,
    expected: Result<usize, BodyRefusal>,
) -> Result<(), Fail> {
    let name = times(alloc, b"f", name_len)?;
    let found = dds_len(rt, alloc, file, file.len() as u64, &name, b"")?;
    expect(rt, found, expected);
    Ok(())
}

#[test]
fn longest_dds_is_the_last_that_is_sent(rt: HostRuntime) -> Result<(), Fail> {
    let alloc = rt.alloc();
    let file = long_names(alloc, 684, 32)?;
    expect_dds_len(&rt, alloc, &file, 734, Ok(16_777_216))?;
    let refusal = BodyRefusal::TooLarge { leaf: 0 };
    expect_dds_len(&rt, alloc, &file, 735, Err(refusal))
}

/// The dimensions `y`, `x` and `n`, and three variables.
const LARGEST: &[u32] = &[
    0x43444601,
    0,
    0x0a,
    3,
    1,
    0x79000000,
    65_536,
    1,
    0x78000000,
    65_536,
    1,
    0x6e000000,
    2_147_483_647,
    0,
    0,
    0x0b,
    3,
];

/// `a`, `v[y][x]` and `w[n]`, each up to where it begins.
const VARIABLES_OF_LARGEST: &[&[u32]] = &[
    &[1, 0x61000000, 0, 0, 0, 1, 4],
    &[1, 0x76000000, 2, 0, 1, 0, 0, 1, 0],
    &[1, 0x77000000, 1, 2, 0, 0, 1, 0],
];

/// A file of 8 GiB with Bytes `a`, `v[y = 65536][x = 65536]` and `w[n = 2147483647]`, up to that length.
fn largest_variables(alloc: Global, length: u32) -> Result<Vec<u8>, Memory> {
    let mut bytes = Vec::new(alloc);
    append_words(&mut bytes, LARGEST)?;
    for variable in VARIABLES_OF_LARGEST {
        append_words(&mut bytes, variable)?;
        append_words(&mut bytes, &[length])?;
    }
    bytes.resize(length as usize, 0)?;
    Ok(bytes)
}

/// A file of 4 GiB with a Byte `aaaa` of two indexes in each of so many dimensions, up to that length.
fn deepest_variable(alloc: Global, dimensions: u32, length: u32) -> Result<Vec<u8>, Memory> {
    let mut bytes = Vec::new(alloc);
    append_words(&mut bytes, &[0x43444601, 0, 0x0a, dimensions])?;
    for number in 0..dimensions {
        append_dimension(&mut bytes, number, 0, 2)?;
    }
    append_words(&mut bytes, &[0, 0, 0x0b, 1])?;
    append_byte(&mut bytes, 0, dimensions, length)?;
    bytes.resize(length as usize, 0)?;
    Ok(bytes)
}

/// Where the picked element of this number stands, behind the first: it has the two indexes of every second
/// dimension, and one of each other.
fn spread(number: u32) -> u64 {
    let mut place = 0u64;
    for bit in 0..16u32 {
        if (number >> bit) % 2 == 1 {
            place |= 1 << (2 * bit);
        }
    }
    place
}

/// The body of the picked elements, the first of which stands there.
fn deepest_sent(dds: &[u8], begin: u32, count: u32) -> Sent {
    let mut sent = Sent::head(dds);
    sent.add(8, sum_of(&count.to_be_bytes()).wrapping_mul(2));
    for number in 0..count {
        let place = u64::from(begin).wrapping_add(spread(number));
        sent.add(1, u64::from(byte_at(place)));
    }
    sent
}

#[test]
fn most_dimensions_are_sent(rt: HostRuntime) -> Result<(), Fail> {
    let alloc = rt.alloc();
    let file = deepest_variable(alloc, 32, LONGEST)?;
    let mut query = Vec::from_slice(alloc, b"aaaa")?;
    append_times(&mut query, b"[0][0:1]", 16)?;
    let sent = sent_cut(&rt, alloc, &file, 1 << 33, &query, 1)?;
    let expected = deepest_sent(sent.dds.bytes(), LONGEST, 65_536);
    expect_sent(&rt, &sent.tally, &expected);
    Ok(())
}

/// Each constraint, and the leaf that is too large in what it leaves.
const LARGE: [(&[u8], Option<u32>); 8] = [
    (b"", Some(2)),
    (b"v", Some(1)),
    (b"a,v", Some(2)),
    (b"w,a", None),
    (b"w,v", Some(1)),
    (b"w,v[0:65535][0:32766]", None),
    (b"w,v[0:65535][0:32767]", Some(1)),
    (b"a,v[0:65535][0:2:65535],w", Some(2)),
];

/// What the constraint leaves of the file has that leaf, which is too large, or none.
fn expect_large<R: Abort>(
    rt: &R,
    alloc: Global,
    file: &[u8],
    query: &[u8],
    leaf: Option<u32>,
) -> Result<(), Fail> {
    let refusal = dds_len(rt, alloc, file, 1 << 33, b"f", query)?.err();
    let expected = leaf.map(|leaf| BodyRefusal::TooLarge { leaf });
    expect(rt, refusal, expected);
    Ok(())
}

#[test]
fn leaves_of_too_many_elements_are_told(rt: HostRuntime) -> Result<(), Fail> {
    let alloc = rt.alloc();
    let file = largest_variables(alloc, LONGEST)?;
    for (query, leaf) in &LARGE {
        expect_large(&rt, alloc, &file, query, *leaf)?;
    }
    Ok(())
}

/// The body of the kept rows of a wide table of 1,024 columns.
fn wide_rows(dds: &[u8], rows: u32) -> Sent {
    let mut sent = Sent::head(dds);
    for row in 0..rows {
        if is_kept(row) {
            sent.add(4 + 512 * 4 + 512 * 8, 0x5a);
            sent.add(0, digits_sum(row, COLUMNS, 1 + 48));
        }
    }
    sent.add(4, 0xa5);
    sent
}

#[test]
fn widest_table_is_sent(rt: HostRuntime) -> Result<(), Fail> {
    let alloc = rt.alloc();
    let text = wide_table(alloc, ROWS, COLUMNS, table_limits::LONGEST)?;
    let sent = sent_rows(&rt, alloc, &text, &wide_query(alloc, COLUMNS)?)?;
    expect(&rt, sent.reads, 0);
    expect_sent(&rt, &sent.tally, &wide_rows(sent.dds.bytes(), ROWS));
    Ok(())
}

/// Of a tall table the constraint leaves so many rows, the first.
fn expect_first<R: Threads + Abort + Sync>(
    rt: &R,
    alloc: Global,
    text: &[u8],
    query: &[u8],
    rows: u32,
) -> Result<(), Fail> {
    let sent = sent_rows(rt, alloc, text, query)?;
    expect_sent(rt, &sent.tally, &tall_rows(sent.dds.bytes(), rows));
    Ok(())
}

#[test]
fn tallest_table_is_sent(rt: HostRuntime) -> Result<(), Fail> {
    let alloc = rt.alloc();
    let text = tall_table(alloc, TALL)?;
    expect_first(&rt, alloc, &text, b"", TALL)?;
    expect_first(&rt, alloc, &text, b"&t.n<524288", 524_288)
}
