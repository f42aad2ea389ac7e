use crate::tests::expecting::expect;
use dap_types::{BaseType, Memory};
use std::test::Fail;
use text_lines::{put, put_hex, put_line, put_number, put_spaces, type_word};
use viable::hex_digit;

/// A word and numbers, with spaces between them.
fn put_words(out: &mut Vec<u8>) -> Result<(), Memory> {
    put(out, b"Int16 ")?;
    put_number(out, 0)?;
    put_spaces(out, 2)?;
    put_number(out, 4_294_967_295)
}

/// A line, digits, and no space.
fn put_end(out: &mut Vec<u8>) -> Result<(), Memory> {
    put_line(out, 4, b"} g;")?;
    put_hex(out, 8, 0xc2f6_1caf)?;
    put_hex(out, 2, 0x1a5)?;
    put_spaces(out, 0)
}

#[test]
fn pieces_stand_one_behind_the_other(rt: HostRuntime) -> Result<(), Fail> {
    let mut out = Vec::from_slice(rt.alloc(), b">")?;
    put_words(&mut out)?;
    put_end(&mut out)?;
    expect(
        &rt,
        out.as_slice(),
        b">Int16 0  4294967295    } g;\nc2f61cafa5",
    );
    Ok(())
}

/// Digits behind a mark.
fn put_digits(out: &mut Vec<u8>, digits: u32, bits: u64) -> Result<(), Memory> {
    put(out, b">")?;
    put_hex(out, digits, bits)
}

/// As many digits as are asked for, also more than a word has.
#[test]
fn digits_are_as_many_as_asked(rt: HostRuntime) -> Result<(), Fail> {
    let mut out = Vec::new(rt.alloc());
    put_hex(&mut out, 0, 0xff)?;
    put_digits(&mut out, 16, 0xfedc_ba98_7654_3210)?;
    put_digits(&mut out, 19, 0x8000_0000_0000_000f)?;
    expect(
        &rt,
        out.as_slice(),
        b">fedcba9876543210>000800000000000000f",
    );
    Ok(())
}

#[test]
fn types_have_their_words(rt: HostRuntime) {
    let rows: [(BaseType, &[u8]); 9] = [
        (BaseType::Byte, b"Byte"),
        (BaseType::Int16, b"Int16"),
        (BaseType::UInt16, b"UInt16"),
        (BaseType::Int32, b"Int32"),
        (BaseType::UInt32, b"UInt32"),
        (BaseType::Float32, b"Float32"),
        (BaseType::Float64, b"Float64"),
        (BaseType::Text, b"String"),
        (BaseType::Url, b"Url"),
    ];
    for (base, word) in rows {
        expect(&rt, type_word(base), word);
    }
    expect(&rt, hex_digit(9, false), b'9');
    expect(&rt, hex_digit(10, false), b'a');
    expect(&rt, hex_digit(15, true), b'F');
}
