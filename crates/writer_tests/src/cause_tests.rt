use crate::testing::{body, saved, words};
use netcdf_writer::{Stored, Why};
use std::alloc::Global;
use std::test::Fail;
use xdr_decode::{Bad, BadField};

/// Whether a body cannot be saved for this member and this reason, with nothing put.
fn is_refused(
    alloc: Global,
    text: &[u8],
    values: &[u32],
    number: u32,
    cause: Why,
) -> Result<bool, Fail> {
    let values = words(alloc, values)?;
    let (stored, out) = saved(alloc, &body(alloc, text, &values)?)?;
    match stored {
        Stored::Unsavable { member, why } => Ok(
            member == number && why == cause && out.bytes().is_empty(),
        ),
        _ => Ok(false),
    }
}

/// The first cause of a member, of each kind, behind one member that can be stored.
#[test]
fn each_cause_alone(rt: HostRuntime) -> Result<(), Fail> {
    let alloc = rt.alloc();
    let cases: [(&[u8], &[u32], u32, Why); 22] = [
        (
            b"Dataset { Byte b; Structure { Byte c; } s; } f;",
            &[1, 2],
            2,
            Why::Kind,
        ),
        (
            b"Dataset { Byte b; Sequence { Byte c; } s; } f;",
            &[1, 0xa5000000],
            2,
            Why::Kind,
        ),
        (b"Dataset { Byte b; String s; } f;", &[1, 0], 2, Why::Kind),
        (b"Dataset { Url s[x = 1]; } f;", &[1, 0], 1, Why::Kind),
        (
            b"Dataset { Byte b; Int32 v[2]; } f;",
            &[1, 2, 2, 1, 2],
            2,
            Why::NoName,
        ),
        (
            b"Dataset { Int32 v[x = 1][1]; } f;",
            &[1, 1, 1],
            1,
            Why::NoName,
        ),
        (b"Dataset { Byte b%2; } f;", &[1], 1, Why::BadName),
        (b"Dataset { Byte b%41; } f;", &[1], 1, Why::BadName),
        (b"Dataset { Byte b%2e; } f;", &[1], 1, Why::BadName),
        (b"Dataset { Byte b.c; } f;", &[1], 1, Why::BadName),
        (
            b"Dataset { Int32 v[x.y = 1]; } f;",
            &[1, 1, 1],
            1,
            Why::BadName,
        ),
        (
            b"Dataset { Grid { Array: Int32 a[x = 1]; Maps: Int32 x[x = 1]; } g; } f;",
            &[1, 1, 1, 1, 1, 1],
            1,
            Why::BadGrid,
        ),
        (
            b"Dataset { Grid { Array: Int32 g[x = 1]; Maps: Int32 y[x = 1]; } g; } f;",
            &[1, 1, 1, 1, 1, 1],
            1,
            Why::BadGrid,
        ),
        (
            b"Dataset { Grid { Array: Int32 g[x = 1]; Maps: Int32 x[y = 1]; } g; } f;",
            &[1, 1, 1, 1, 1, 1],
            1,
            Why::BadGrid,
        ),
        (
            b"Dataset { Grid { Array: Int32 g[x = 1]; Maps: Int32 x[x = 1]; } g; Int32 x; } f;",
            &[1, 1, 1, 1, 1, 1, 1],
            1,
            Why::Clash,
        ),
        (
            b"Dataset { Grid { Array: Int32 g[x = 1]; Maps: Int32 x[x = 1]; } g; Int32 x[x = 1]; } f;",
            &[1, 1, 1, 1, 1, 1, 1, 1, 2],
            1,
            Why::Clash,
        ),
        (
            b"Dataset { Grid { Array: Int32 g[x = 1]; Maps: Int32 x[x = 1]; } g; Grid { Array: Int32 h[x = 1]; Maps: Int16 x[x = 1]; } h; } f;",
            &[1, 1, 1, 1, 1, 1, 1, 1, 1, 1, 1, 1],
            4,
            Why::Clash,
        ),
        (
            b"Dataset { Byte b; Int32 v[x = 1]; Int32 w[x = 2]; } f;",
            &[1, 1, 1, 1, 2, 2, 1, 2],
            3,
            Why::Clash,
        ),
        (
            b"Dataset { Int32 v[x = 1][x = 2]; } f;",
            &[2, 2, 1, 2],
            1,
            Why::Clash,
        ),
        (
            b"Dataset { Int32 v[x = 1][y = 0]; } f;",
            &[0, 0],
            1,
            Why::Zero,
        ),
        (
            b"Dataset { Int32 v[x = 0]; Int32 w[y = 0]; } f;",
            &[0, 0, 0, 0],
            2,
            Why::Zero,
        ),
        (
            b"Dataset { Byte v[t = 0][x = 1073741820]; Int32 w[t = 0][y = 1]; Byte z[t = 0]; } f;",
            &[0, 0, 0, 0, 0, 0],
            3,
            Why::Zero,
        ),
    ];
    for (text, values, number, why) in cases {
        assert!(rt; is_refused(alloc, text, values, number, why)?);
    }
    Ok(())
}

/// Of two causes of one member the first is told.
#[test]
fn each_pair_of_causes(rt: HostRuntime) -> Result<(), Fail> {
    let alloc = rt.alloc();
    let cases: [(&[u8], &[u32], Why); 15] = [
        (b"Dataset { String v[1]; } f;", &[1, 0], Why::Kind),
        (b"Dataset { String v.w[x = 1]; } f;", &[1, 0], Why::Kind),
        (
            b"Dataset { Grid { Array: String a[x = 1]; Maps: Int32 x[x = 1]; } g; } f;",
            &[1, 0, 1, 1, 1],
            Why::Kind,
        ),
        (b"Dataset { String v[x = 0][x = 1]; } f;", &[0], Why::Kind),
        (b"Dataset { String v[x = 1][y = 0]; } f;", &[0], Why::Kind),
        (b"Dataset { Int32 v.w[1]; } f;", &[1, 1, 1], Why::NoName),
        (b"Dataset { Int32 v[x = 0][0]; } f;", &[0, 0], Why::NoName),
        (
            b"Dataset { Int32 v[1][x = 1][x = 2]; } f;",
            &[2, 2, 1, 2],
            Why::NoName,
        ),
        (
            b"Dataset { Grid { Array: Int32 a[1]; Maps: Int32 x[x = 1]; } g; } f;",
            &[1, 1, 1, 1, 1, 1],
            Why::NoName,
        ),
        (
            b"Dataset { Grid { Array: Int32 a[x.y = 1]; Maps: Int32 x[x = 1]; } g; } f;",
            &[1, 1, 1, 1, 1, 1],
            Why::BadName,
        ),
        (
            b"Dataset { Int32 v.w[x = 1][x = 2]; } f;",
            &[2, 2, 1, 2],
            Why::BadName,
        ),
        (
            b"Dataset { Int32 v.w[x = 1][y = 0]; } f;",
            &[0, 0],
            Why::BadName,
        ),
        (
            b"Dataset { Grid { Array: Int32 a[x = 1]; Maps: Int32 x[x = 1]; } g; Int32 x; } f;",
            &[1, 1, 1, 1, 1, 1, 1],
            Why::BadGrid,
        ),
        (
            b"Dataset { Grid { Array: Int32 g[x = 1][y = 0]; Maps: Int32 x[x = 1]; Int32 z[y = 0]; } g; } f;",
            &[0, 0, 1, 1, 1, 0, 0],
            Why::BadGrid,
        ),
        (
            b"Dataset { Int32 v[x = 1][y = 0][x = 2]; } f;",
            &[0, 0],
            Why::Clash,
        ),
    ];
    for (text, values, why) in cases {
        assert!(rt; is_refused(alloc, text, values, 1, why)?);
    }
    Ok(())
}

/// A body without its last byte.
fn cut(body: &[u8]) -> &[u8] {
    &body[..body.len().saturating_sub(1)]
}

/// A Sequence cannot be saved; a body that is cut is no data response.
#[test]
fn what_is_no_file(rt: HostRuntime) -> Result<(), Fail> {
    let alloc = rt.alloc();
    let text =
        b"Dataset {\n    Sequence {\n        String station;\n        Int32 depth;\n    } buoys;\n} buoys.csv;\n";
    let values = words(
        alloc,
        &[
            0x5a000000, 2, 0x41310000, 5, 0x5a000000, 3, 0x42323200, 0xfffffff9, 0xa5000000,
        ],
    )?;
    let whole = body(alloc, text, &values)?;
    assert!(rt;
        is_refused(
            alloc,
            text,
            &[
                0x5a000000, 2, 0x41310000, 5, 0x5a000000, 3, 0x42323200, 0xfffffff9, 0xa5000000
            ],
            1,
            Why::Kind
        )?
    );
    assert!(rt; whole.len() == 138);
    let (stored, out) = saved(alloc, cut(whole.as_slice()))?;
    assert!(rt;
        matches!(
            &stored,
            Stored::BadReply(BadField {
                kind: Bad::Cut,
                place: 137
            })
        )
    );
    assert!(rt; out.bytes().is_empty());
    let (stored, _) = saved(alloc, b"Error { code = 7; message = \"x\"; };")?;
    assert!(rt;
        matches!(
            &stored,
            Stored::ServerError {
                code: 7,
                message: _
            }
        )
    );
    Ok(())
}
