use crate::tests::expecting::expect;
use dap_errors::{
    Cause, ErrorObject, ErrorRefusal, FileCause, Spot, code, message, print_error, read_error,
    status,
};
use std::alloc::{AllocError, Global};
use std::process::Abort;
use std::test::Fail;

fn put_object(alloc: Global, out: &mut Vec<u8>, error: &ErrorObject) -> Result<(), AllocError> {
    let code = error.code;
    out.extend_from_slice(format!(in alloc; "{code} ")?.as_bytes())?;
    out.extend_from_slice(error.message.bytes())
}

fn put_refusal(alloc: Global, out: &mut Vec<u8>, refusal: ErrorRefusal) -> Result<(), AllocError> {
    match refusal {
        ErrorRefusal::Bad { place } => {
            out.extend_from_slice(format!(in alloc; "bad {place}")?.as_bytes())
        }
        ErrorRefusal::Cut => out.extend_from_slice(b"cut"),
        ErrorRefusal::Memory => out.extend_from_slice(b"memory"),
    }
}

/// What a text is read as: code and message, the place at which it is bad, or that it is cut.
fn shown(alloc: Global, text: &[u8]) -> Result<Vec<u8>, AllocError> {
    let mut out = Vec::new(alloc);
    match read_error(alloc, text) {
        Ok(error) => put_object(alloc, &mut out, &error)?,
        Err(refusal) => put_refusal(alloc, &mut out, refusal)?,
    }
    Ok(out)
}

/// The message of a cause.
fn expect_message<R: Abort>(rt: &R, alloc: Global, cause: &Cause, text: &[u8]) -> Result<(), Fail> {
    expect(rt, message(alloc, cause)?.bytes(), text);
    Ok(())
}

#[test]
fn causes_have_their_codes(rt: HostRuntime) -> Result<(), Fail> {
    let cell = FileCause::BadCell { row: 1, column: 1 };
    let table: [(Cause, u32, u16, &[u8]); 14] = [
        (Cause::Syntax { place: 5 }, 1, 400, b"syntax at 5"),
        (
            Cause::UnknownName(Spot::Item(1)),
            2,
            400,
            b"unknown name in item 1",
        ),
        (
            Cause::BadSlab(Spot::Item(1024)),
            5,
            400,
            b"bad slab in item 1024",
        ),
        (
            Cause::TwoSlabs(Spot::Item(2)),
            6,
            400,
            b"two slabs in item 2",
        ),
        (
            Cause::TypeMismatch(Spot::Clause(1)),
            9,
            400,
            b"type mismatch in clause 1",
        ),
        (Cause::TooLarge { leaf: 0 }, 13, 400, b"too large: leaf 0"),
        (Cause::BadTarget, 14, 400, b"bad target"),
        (Cause::NoFile, 15, 404, b"no such file"),
        (Cause::BadMethod, 16, 405, b"bad method"),
        (Cause::HeadTooLong, 18, 431, b"head too long"),
        (
            Cause::Damaged(FileCause::NotCdf),
            19,
            500,
            b"damaged file: not netCDF classic",
        ),
        (
            Cause::Damaged(cell),
            19,
            500,
            b"damaged file: bad cell in row 1 column 1",
        ),
        (Cause::ReadFailed, 20, 500, b"read failed"),
        (Cause::OutOfMemory, 21, 503, b"out of memory"),
    ];
    for (cause, number, http, text) in table {
        expect(&rt, code(&cause), number);
        expect(&rt, status(&cause), http);
        expect_message(&rt, rt.alloc(), &cause, text)?;
    }
    Ok(())
}

#[test]
fn objects_are_printed(rt: HostRuntime) -> Result<(), Fail> {
    let printed = print_error(rt.alloc(), 1, b"syntax at 5")?;
    expect(
        &rt,
        printed.bytes(),
        b"Error {\n    code = 1;\n    message = \"syntax at 5\";\n};\n",
    );
    expect(&rt, printed.bytes().len(), 54);
    Ok(())
}

#[test]
fn a_message_is_escaped(rt: HostRuntime) -> Result<(), Fail> {
    let printed = print_error(rt.alloc(), 4294967295, b"a\"\\\n")?;
    expect(
        &rt,
        printed.bytes(),
        b"Error {\n    code = 4294967295;\n    message = \"a\\\"\\\\\n\";\n};\n",
    );
    Ok(())
}

/// The text is read so.
fn expect_shown<R: Abort>(rt: &R, alloc: Global, text: &[u8], form: &[u8]) -> Result<(), Fail> {
    expect(rt, shown(alloc, text)?.as_slice(), form);
    Ok(())
}

/// The texts are read so.
fn expect_all<R: Abort>(rt: &R, alloc: Global, rows: &[(&[u8], &[u8])]) -> Result<(), Fail> {
    for (text, form) in rows {
        expect_shown(rt, alloc, text, form)?;
    }
    Ok(())
}

/// Texts, and what they are read as.
const OBJECTS: [(&[u8], &[u8]); 34] = [
    (
        b"Error { code = 1; message = \"syntax at 5\"; };",
        b"1 syntax at 5",
    ),
    (b"Error { code = -3; message = \"a\\\"b\"; }", b"-3 a\"b"),
    (
        b"\r\n\teRROR{x=y;CODE=000000007;y=\"z\";mEssage=\"a\\\\\\n\";}\n;\r\n",
        b"7 a\\\\n",
    ),
    (b"Error{code=-999999999;message=\"\";}", b"-999999999 "),
    (b"Error { code = 1; };", b"bad 18"),
    (b"Error { message = \"x\"; }", b"bad 23"),
    (b"Error { code = 1; code = 2; message = \"x\"; }", b"bad 18"),
    (b"Error{message=\"\";Message=\"\";", b"bad 17"),
    (b"Error { code = 1234567890; ", b"bad 15"),
    (b"Error { code = \"1\"; ", b"bad 15"),
    (b"Error { code = -; ", b"bad 15"),
    (b"Error { code = +1;", b"bad 15"),
    (b"Error { code = 1x;", b"bad 15"),
    (b"Error { message = x; ", b"bad 18"),
    (b"Error { code 1;", b"bad 13"),
    (b"Error { code = 1 message ", b"bad 17"),
    (b"Error { ; }", b"bad 8"),
    (b"Error { \"code\"", b"bad 8"),
    (b"Error { a = };", b"bad 12"),
    (b"Error ;", b"bad 6"),
    (b"Errors {", b"bad 0"),
    (b" \"Error\"", b"bad 1"),
    (b"{", b"bad 0"),
    (b"Error{code=1;message=\"\";};;", b"bad 26"),
    (b"Error{code=1;message=\"\";}x", b"bad 25"),
    (b"Error{code=1;message=\"\";} ; x", b"bad 28"),
    (b"", b"cut"),
    (b" Erro", b"cut"),
    (b"Error", b"cut"),
    (b"Error { code = 1x", b"cut"),
    (b"Error { code = 1 message", b"cut"),
    (b"Error { code = 1; message = \"x", b"cut"),
    (b"Error { code = 1; message = \"x\\", b"cut"),
    (b"Error { code = 1; message = \"x\"; ", b"cut"),
];

#[test]
fn objects_are_read(rt: HostRuntime) -> Result<(), Fail> {
    expect_all(&rt, rt.alloc(), &OBJECTS)
}

/// No text has more than 65,536 bytes.
#[test]
fn objects_have_a_limit(rt: HostRuntime) -> Result<(), Fail> {
    let mut spaces = vec![in rt.alloc(); b' '; 65535]?;
    expect_shown(&rt, rt.alloc(), &spaces, b"cut")?;
    spaces.push(b' ')?;
    expect_shown(&rt, rt.alloc(), &spaces, b"bad 65536")
}
