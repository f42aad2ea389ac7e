use crate::tests::expecting::expect;
use dap_types::{Bytes, Memory};
use das_text::{DasRefusal, print, read};
use std::alloc::{AllocError, Global};
use std::process::Abort;
use std::test::Fail;

/// Why a text is not read.
fn reason(alloc: Global, refusal: DasRefusal) -> Result<Bytes, Memory> {
    let line = match refusal {
        DasRefusal::Bad { place } => format!(in alloc; "bad {place}")?,
        DasRefusal::Trailing { place } => format!(in alloc; "trailing {place}")?,
        DasRefusal::Cut => format!(in alloc; "cut")?,
        DasRefusal::Memory => return Err(Memory),
    };
    Bytes::new(alloc, line.as_bytes())
}

/// The print of what is read, or why nothing is.
fn shown(alloc: Global, text: &[u8]) -> Result<Bytes, Memory> {
    match read(alloc, text) {
        Ok(attributes) => print(alloc, &attributes),
        Err(refusal) => reason(alloc, refusal),
    }
}

/// The text is read, and printed so, or is refused so.
fn expect_shown<R: Abort>(rt: &R, alloc: Global, text: &[u8], form: &[u8]) -> Result<(), Fail> {
    expect(rt, shown(alloc, text)?.bytes(), form);
    Ok(())
}

/// The texts are read so.
fn expect_all<R: Abort>(rt: &R, alloc: Global, rows: &[(&[u8], &[u8])]) -> Result<(), Fail> {
    for (text, form) in rows {
        expect_shown(rt, alloc, text, form)?;
    }
    Ok(())
}

/// Texts, and the print of what is read.
const READ: [(&[u8], &[u8]); 8] = [
    (
        b"Attributes {\n    v {\n        String units \"m\";\n        Int16 range -1, 2;\n        String fill \"0x3f800000\";\n    }\n    NC_GLOBAL {\n    }\n}\n",
        b"Attributes {\n    v {\n        String units \"m\";\n        Int16 range -1, 2;\n        String fill \"0x3f800000\";\n    }\n    NC_GLOBAL {\n    }\n}\n",
    ),
    (
        b"Attributes {\n    v {\n        more {\n            String notes \"a \\\"b\\\"\", \"c\\\\d\n\";\n            Url none;\n        }\n        String units \"\";\n    }\n}\n",
        b"Attributes {\n    v {\n        more {\n            String notes \"a \\\"b\\\"\", \"c\\\\d\n\";\n            Url none;\n        }\n        String units \"\";\n    }\n}\n",
    ),
    (
        b"Attributes {\n    COADSX {\n        String units \"degrees_east\";\n        String modulo \" \";\n        String point_spacing \"even\";\n    }\n    SST {\n        Float32 missing_value -9.99999979e+33;\n        Float32 _FillValue -9.99999979e+33;\n        String long_name \"SEA SURFACE TEMPERATURE\";\n    }\n    NC_GLOBAL {\n        String history \"FERRET V4.30 (debug/no GUI) 15-Aug-96\";\n    }\n    DODS_EXTRA {\n        String Unlimited_Dimension \"TIME\";\n    }\n}\n",
        b"Attributes {\n    COADSX {\n        String units \"degrees_east\";\n        String modulo \" \";\n        String point_spacing \"even\";\n    }\n    SST {\n        Float32 missing_value -9.99999979e+33;\n        Float32 _FillValue -9.99999979e+33;\n        String long_name \"SEA SURFACE TEMPERATURE\";\n    }\n    NC_GLOBAL {\n        String history \"FERRET V4.30 (debug/no GUI) 15-Aug-96\";\n    }\n    DODS_EXTRA {\n        String Unlimited_Dimension \"TIME\";\n    }\n}\n",
    ),
    (
        b"Attributes {\n s {\n  time {\n    String _CoordinateAxisType \"Time\";\n    Float64 actual_range 1.17642e+9, 1.1812e+9;\n  }\n }\n  NC_GLOBAL {\n    Float64 Easternmost_Easting -120.4;\n  }\n}\n",
        b"Attributes {\n    s {\n        time {\n            String _CoordinateAxisType \"Time\";\n            Float64 actual_range 1.17642e+9, 1.1812e+9;\n        }\n    }\n    NC_GLOBAL {\n        Float64 Easternmost_Easting -120.4;\n    }\n}\n",
    ),
    (b"Attributes{}", b"Attributes {\n}\n"),
    (
        b"\r\n\tAttributes\n{ Byte{iNT16 Float32 x,\"}\",Byte;}a{}a{}} \n",
        b"Attributes {\n    Byte {\n        Int16 Float32 x, \"}\", Byte;\n    }\n    a {\n    }\n    a {\n    }\n}\n",
    ),
    (
        b"Attributes{a{Url u \"\\n\\\"\",=;}}",
        b"Attributes {\n    a {\n        Url u \"\\\\n\\\"\", =;\n    }\n}\n",
    ),
    (
        b"Attributes{a{byte b;STRING s\"\";uRL u\"a\",\"b\";}}",
        b"Attributes {\n    a {\n        Byte b;\n        String s \"\";\n        Url u \"a\", \"b\";\n    }\n}\n",
    ),
];

/// As this project prints them, as libdap and ERDDAP do, and each form of a token.
#[test]
fn attributes_are_read(rt: HostRuntime) -> Result<(), Fail> {
    expect_all(&rt, rt.alloc(), &READ)
}

/// Texts, and why they are refused.
const REFUSED: [(&[u8], &[u8]); 36] = [
    (b"attributes {", b"bad 0"),
    (b"Attribute {", b"bad 0"),
    (b" \"Attributes\"", b"bad 1"),
    (b"Attributes ;", b"bad 11"),
    (b"Attributes {;", b"bad 12"),
    (b"Attributes { Byte x;", b"bad 18"),
    (b"Attributes { x y ", b"bad 15"),
    (b"Attributes { \"x\"", b"bad 13"),
    (b"Attributes { x ;", b"bad 15"),
    (b"Attributes { x } ", b"bad 15"),
    (b"Attributes { x { Bytes y ", b"bad 23"),
    (b"Attributes { x { Byte;", b"bad 21"),
    (b"Attributes { x { Byte \"y\"", b"bad 22"),
    (b"Attributes { x { Byte y , ", b"bad 24"),
    (b"Attributes { x { Byte y 1 2 ", b"bad 26"),
    (b"Attributes { x { Byte y \"1\"\"2\"", b"bad 27"),
    (b"Attributes { x { Byte y 1, ;", b"bad 27"),
    (b"Attributes { x { Byte y 1, }", b"bad 27"),
    (b"Attributes { x { Byte y 1 }", b"bad 26"),
    (b"Attributes { x { Byte y {", b"bad 24"),
    (b"Attributes { x { } ;", b"bad 19"),
    (b"# made by a server\nAttributes {", b"bad 0"),
    (b"Attributes { # a ", b"bad 15"),
    (b"Attributes { x { Alias a b;", b"bad 23"),
    (b"Attributes { } ;", b"trailing 15"),
    (b"Attributes { } }", b"trailing 15"),
    (b"Attributes{}x", b"trailing 12"),
    (b"Attributes{}\n\"", b"trailing 13"),
    (b"", b"cut"),
    (b" Attribut", b"cut"),
    (b"wrong", b"cut"),
    (b"Attributes { x { Byte y", b"cut"),
    (b"Attributes { x { Byte y 1 2", b"cut"),
    (b"Attributes { x { Byte y \"1;}}", b"cut"),
    (b"Attributes { x { Byte y \"1\\", b"cut"),
    (b"Attributes { \t", b"cut"),
];

/// Each rule is broken once; comments and aliases are none of the grammar's.
#[test]
fn other_texts_are_refused(rt: HostRuntime) -> Result<(), Fail> {
    expect_all(&rt, rt.alloc(), &REFUSED)
}

#[test]
fn each_front_of_a_text_is_cut(rt: HostRuntime) -> Result<(), Fail> {
    let text = b"Attributes { v { String s \"a\\\"\", b; c { Url none; } } }";
    for end in 0..text.len() {
        expect_shown(&rt, rt.alloc(), &text[..end], b"cut")?;
    }
    assert!(rt; read(rt.alloc(), text.as_slice()).is_ok());
    Ok(())
}

/// Adds so many copies of a part.
fn put_copies(text: &mut Vec<u8>, part: &[u8], count: u32) -> Result<(), AllocError> {
    for _ in 0..count {
        text.extend_from_slice(part)?;
    }
    Ok(())
}

/// The front of a text: so many containers, each in the one before, and this inside.
fn nested(alloc: Global, depth: u32, inside: &[u8]) -> Result<Vec<u8>, AllocError> {
    let mut text = Vec::from_slice(alloc, b"Attributes{")?;
    put_copies(&mut text, b"a{", depth)?;
    text.extend_from_slice(inside)?;
    Ok(text)
}

#[test]
fn depth_is_limited(rt: HostRuntime) -> Result<(), Fail> {
    let deepest = nested(rt.alloc(), 16, b"Byte b;}}}}}}}}}}}}}}}}}")?;
    assert!(rt; read(rt.alloc(), &deepest).is_ok());
    let deeper = nested(rt.alloc(), 16, b"a{")?;
    expect_shown(&rt, rt.alloc(), &deeper, b"bad 43")?;
    let typed = nested(rt.alloc(), 16, b"Byte{")?;
    expect_shown(&rt, rt.alloc(), &typed, b"bad 47")
}

#[test]
fn length_is_limited(rt: HostRuntime) -> Result<(), Fail> {
    let mut spaces = vec![in rt.alloc(); b' '; 16_777_215]?;
    expect_shown(&rt, rt.alloc(), &spaces, b"cut")?;
    spaces.push(b' ')?;
    expect_shown(&rt, rt.alloc(), &spaces, b"bad 16777216")
}

/// An attribute of many values, many attributes and many containers.
fn long(alloc: Global) -> Result<Vec<u8>, AllocError> {
    let mut text = Vec::from_slice(alloc, b"Attributes {\n    v {\n        Byte b 0")?;
    put_copies(&mut text, b", \"1\"", 400)?;
    text.extend_from_slice(b";\n")?;
    put_copies(&mut text, b"        Url u;\n", 400)?;
    text.extend_from_slice(b"    }\n")?;
    put_copies(&mut text, b"    c {\n    }\n", 400)?;
    text.extend_from_slice(b"}\n")?;
    Ok(text)
}

#[test]
fn long_texts_are_read(rt: HostRuntime) -> Result<(), Fail> {
    let text = long(rt.alloc())?;
    expect_shown(&rt, rt.alloc(), &text, &text)
}
