use xdr_decode::Bad;

/// A text and values, and what is wrong with the values, counted from their first byte.
pub struct Case {
    pub text: &'static [u8],
    pub values: &'static [u8],
    pub wrong: Option<(Bad, u64)>,
}

/// The table `A1,5`, `B22,-7`.
pub const TABLE: &[u8] =
    b"Dataset {\n    Sequence {\n        String station;\n        Int32 depth;\n    } buoys;\n} buoys.csv;\n";

pub const TABLE_VALUES: &[u8] =
    b"Z\0\0\0\0\0\0\x02A1\0\0\0\0\0\x05Z\0\0\0\0\0\0\x03B22\0\xff\xff\xff\xf9\xa5\0\0\0";

pub const TABLE_SHOWN: &[u8] =
    b"buoys[0].station = \"A1\"\nbuoys[0].depth = 5\nbuoys[1].station = \"B22\"\nbuoys[1].depth = -7\n";

/// Each kind of variable, and each type.
pub const MIXED: &[u8] =
    b"Dataset { Structure { Int16 i; Structure { } e; Grid { Array: Int32 a[x = 2][y = 3]; Maps: Float64 x[x = 2]; Byte y[y = 3]; } g; } s; String t; Url u[2]; Sequence { UInt16 n; } q; Float32 f; UInt32 w; Byte b; Byte none[0]; } d;\n";

pub const MIXED_VALUES: &[u8] =
    b"\xff\xff\xff\xfe\0\0\0\x06\0\0\0\x06\0\0\0\x01\0\0\0\x02\0\0\0\x03\0\0\0\x04\0\0\0\x05\xff\xff\xff\xff\0\0\0\x02\0\0\0\x02?\xf0\0\0\0\0\0\0\0\0\0\0\0\0\0\0\0\0\0\x03\0\0\0\x03\x01\x80\xff\0\0\0\0\x03a\"\x01\0\0\0\0\x02\0\0\0\0\0\0\0\x04\\wxyZ\0\0\0\0\0\xff\xff\xa5\0\0\0@ \0\0\xff\xff\xff\xff\xff\xff\xff\x80\0\0\0\0\0\0\0\0";

pub const CASES: [Case; 27] = [
    Case {
        text: TABLE,
        values: TABLE_VALUES,
        wrong: None,
    },
    Case {
        text: TABLE,
        values: b"Z\0\0\0\0\0\0\x02A1\0\0\0\0\0\x05Z\0\0\0\0\0\0\x03B22\0\xff\xff\xff\xf9\xa5\0\0",
        wrong: Some((Bad::Cut, 35)),
    },
    Case {
        text: TABLE,
        values: b"Z\0\0\0\0\0\0\x02A1\0\0\0\0\0\x05[\0\0\0\0\0\0\x03B22\0\xff\xff\xff\xf9\xa5\0\0\0",
        wrong: Some((Bad::WrongMark, 16)),
    },
    Case {
        text: TABLE,
        values: b"",
        wrong: Some((Bad::Cut, 0)),
    },
    Case {
        text: b"Dataset {\n    Sequence {\n        String station;\n        Int32 depth;\n    } head;\n} head.csv;\n",
        values: b"\xa5\0\0\0",
        wrong: None,
    },
    Case {
        text: b"Dataset {\n    Int32 v[y = 2][x = 3];\n} v.nc;\n",
        values: b"\0\0\0\x06\0\0\0\x06\0\0\0\x01\0\0\0\x02\0\0\0\x03\0\0\0\x09\0\0\0\n\0\0\0\x0b",
        wrong: None,
    },
    Case {
        text: b"Dataset {\n    Grid {\n      Array:\n        Int16 g[lat = 1][lon = 2];\n      Maps:\n        Int32 lat[lat = 1];\n        Int32 lon[lon = 2];\n    } g;\n} g.nc;\n",
        values: b"\0\0\0\x02\0\0\0\x02\0\0\x7f\xff\0\0\0\x03\0\0\0\x01\0\0\0\x01\0\0\0\n\0\0\0\x02\0\0\0\x02\0\0\0\x02\0\0\0\x03",
        wrong: None,
    },
    Case {
        text: b"Dataset {\n    Byte b[n = 5];\n} b.nc;\n",
        values: b"\0\0\0\x05\0\0\0\x05\x01\x02\xff\0\x07\0\0\0",
        wrong: None,
    },
    Case {
        text: b"Dataset {\n    String c[k = 2];\n} c.nc;\n",
        values: b"\0\0\0\x02\0\0\0\x02ab\0\0\0\0\0\x04wxyz",
        wrong: None,
    },
    Case {
        text: b"Dataset {\n    Int16 s[t = 0];\n} e.nc;\n",
        values: b"\0\0\0\0\0\0\0\0",
        wrong: None,
    },
    Case {
        text: b"Dataset { Structure { } s; } d;\n",
        values: b"",
        wrong: None,
    },
    Case {
        text: MIXED,
        values: MIXED_VALUES,
        wrong: None,
    },
    Case {
        text: b"Dataset {\n    Byte q;\n} f;\n",
        values: b"\xff\xff\xff\x80",
        wrong: None,
    },
    Case {
        text: b"Dataset {\n    Byte q;\n} f;\n",
        values: b"\0\0\0\xff",
        wrong: None,
    },
    Case {
        text: b"Dataset {\n    Byte q;\n} f;\n",
        values: b"\0\0\x01\0",
        wrong: Some((Bad::BadWord, 0)),
    },
    Case {
        text: b"Dataset {\n    Byte q;\n} f;\n",
        values: b"\xff\xff\xff\x7f",
        wrong: Some((Bad::BadWord, 0)),
    },
    Case {
        text: b"Dataset {\n    Int16 q;\n} f;\n",
        values: b"\xff\xff\x80\0",
        wrong: None,
    },
    Case {
        text: b"Dataset {\n    Int16 q;\n} f;\n",
        values: b"\xff\xff\x7f\xff",
        wrong: Some((Bad::BadWord, 0)),
    },
    Case {
        text: b"Dataset {\n    Int16 q;\n} f;\n",
        values: b"\0\0\x80\0",
        wrong: Some((Bad::BadWord, 0)),
    },
    Case {
        text: b"Dataset {\n    UInt16 q;\n} f;\n",
        values: b"\0\x01\0\0",
        wrong: Some((Bad::BadWord, 0)),
    },
    Case {
        text: b"Dataset {\n    String q;\n} f;\n",
        values: b"\0\0\0\x02ab\0\x01",
        wrong: Some((Bad::BadPadding, 6)),
    },
    Case {
        text: b"Dataset {\n    String q;\n} f;\n",
        values: b"\x7f\xff\xff\xffab",
        wrong: Some((Bad::Cut, 6)),
    },
    Case {
        text: b"Dataset {\n    String q;\n} f;\n",
        values: b"\x80\0\0\0",
        wrong: Some((Bad::BadCount, 0)),
    },
    Case {
        text: b"Dataset {\n    Int32 q[2];\n} f;\n",
        values: b"\0\0\0\x02\0\0\0\x03",
        wrong: Some((Bad::BadCount, 4)),
    },
    Case {
        text: b"Dataset {\n    Byte q[2147483647];\n} f;\n",
        values: b"\x7f\xff\xff\xff\x7f\xff\xff\xff\x01\x02",
        wrong: Some((Bad::Cut, 10)),
    },
    Case {
        text: b"Dataset {\n    Byte q[1];\n} f;\n",
        values: b"\0\0\0\x01\0\0\0\x01\x01\0\0\x01",
        wrong: Some((Bad::BadPadding, 9)),
    },
    Case {
        text: b"Dataset { Structure { Structure { Structure { Structure { Structure { Structure { Structure { Structure { Structure { Structure { Structure { Structure { Structure { Structure { Structure { Int32 n; } o; } n; } m; } l; } k; } j; } i; } h; } g; } f; } e; } d; } c; } b; } a; } z;\n",
        values: b"\0\0\0\x07",
        wrong: None,
    },
];
