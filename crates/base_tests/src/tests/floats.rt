//! Texts of floats, words that are floats and the order of two. The expected digits of Float64 are those of
//! Python's `repr`, those of Float32 were worked out by whole numbers without end.

use crate::tests::expecting::expect;
use float_text::{FloatText, Floats, Reading, order32, order64, read32, read64};
use std::cmp::Ordering;
use std::process::Abort;
use std::test::Fail;

/// Limits of the format and of the layout.
static ROWS32: [(u32, &[u8]); 18] = [
    (0x00000000, b"0.0"),
    (0x3f800000, b"1.0"),
    (0xc2c80000, b"-100.0"),
    (0x4b800000, b"16777216.0"),
    (0x4e9932c0, b"1285120000.0"),
    (0x5368d4a5, b"1000000000000.0"),
    (0x551184e7, b"1e13"),
    (0x551184e8, b"1.0000001e13"),
    (0x3727c5ac, b"0.00001"),
    (0x358637bd, b"0.000001"),
    (0x358637be, b"0.0000010000001"),
    (0x3584e024, b"9.9e-7"),
    (0x00000001, b"1e-45"),
    (0x007fffff, b"1.1754942e-38"),
    (0x00800000, b"1.1754944e-38"),
    (0x7f7fffff, b"3.4028235e38"),
    (0xff800000, b"-inf"),
    (0xffc00001, b"NaN"),
];

/// Random bits, powers of two and numbers of the field.
static PATTERNS32: [(u32, &[u8]); 58] = [
    (0x31e05214, b"6.5285892e-9"),
    (0xc15c3a7b, b"-13.764277"),
    (0x2b925e4e, b"1.0400099e-12"),
    (0xd4a70a1d, b"-5739433700000.0"),
    (0xcf9ad3f9, b"-5195166000.0"),
    (0x3f39af56, b"0.72533166"),
    (0x66b47a0a, b"4.261386e23"),
    (0x6d3f7c23, b"3.7038568e27"),
    (0x94d5828f, b"-2.1559e-26"),
    (0xa7d9397d, b"-6.029193e-15"),
    (0x5e3bc91f, b"3.3828452e18"),
    (0xb189fa2d, b"-4.0156665e-9"),
    (0xd27f7d2c, b"-274329170000.0"),
    (0x42af3f2a, b"87.62337"),
    (0x0dbeb094, b"1.1752164e-30"),
    (0x46449750, b"12581.828"),
    (0x139afe74, b"3.9125976e-27"),
    (0x15e5590e, b"9.263287e-26"),
    (0x2cc99214, b"5.7289815e-12"),
    (0xe469fb6c, b"-1.7264833e22"),
    (0x95c88c68, b"-8.100088e-26"),
    (0x73759505, b"1.9457019e31"),
    (0xb2a468cf, b"-1.9139774e-8"),
    (0x385550d4, b"0.000050858434"),
    (0x943b8c46, b"-9.468751e-27"),
    (0x233c11f6, b"1.0195304e-17"),
    (0xa14237ac, b"-6.580344e-19"),
    (0xf64f8dfd, b"-1.0524271e33"),
    (0xee7dcd59, b"-1.9636989e28"),
    (0x6dd2a93d, b"8.149556e27"),
    (0x65a8fc2b, b"9.975116e22"),
    (0xc6e3c7e4, b"-29155.945"),
    (0x44e0a4ed, b"1797.1539"),
    (0x6f9963a8, b"9.494337e28"),
    (0x2d69f53c, b"1.32989696e-11"),
    (0xa19e452b, b"-1.0724805e-18"),
    (0x6d460236, b"3.830044e27"),
    (0x2284dd29, b"3.6012834e-18"),
    (0x9dcd53db, b"-5.4349753e-21"),
    (0xd76c3b71, b"-2.5974004e14"),
    (0x00800000, b"1.1754944e-38"),
    (0x01000000, b"2.3509887e-38"),
    (0x0b800000, b"4.9303807e-32"),
    (0x0c000000, b"9.8607613e-32"),
    (0x0c800000, b"1.9721523e-31"),
    (0x32000000, b"7.450581e-9"),
    (0x3f800000, b"1.0"),
    (0x40000000, b"2.0"),
    (0x4b000000, b"8388608.0"),
    (0x64000000, b"9.444733e21"),
    (0x7f000000, b"1.7014118e38"),
    (0x4121999a, b"10.1"),
    (0xc2030000, b"-32.75"),
    (0x447d5000, b"1013.25"),
    (0x3a83126f, b"0.001"),
    (0x47f12065, b"123456.79"),
    (0x41000000, b"8.0"),
    (0x4b800000, b"16777216.0"),
];

static ROWS64: [(u64, &[u8]); 18] = [
    (0x8000000000000000, b"-0.0"),
    (0x3fb999999999999a, b"0.1"),
    (0xc071126666666666, b"-273.15"),
    (0x437b69b4ba630f35, b"1.2345678901234568e17"),
    (0x43118b54f22aeb00, b"1234567890123456.0"),
    (0x4341c37937e07fff, b"9999999999999998.0"),
    (0x4341c37937e08000, b"1e16"),
    (0x3f1a36e2eb1c432d, b"0.0001"),
    (0x3ee4f8b588e368f1, b"0.00001"),
    (0x3ee4c305a3adef92, b"9.9e-6"),
    (0x4310000000000001, b"1125899906842624.2"),
    (0x4310000000000003, b"1125899906842624.8"),
    (0x3d70000000000000, b"9.094947017729282e-13"),
    (0x44b52d02c7e14af6, b"1e23"),
    (0x0000000000000002, b"1e-323"),
    (0x0010000000000000, b"2.2250738585072014e-308"),
    (0x7fefffffffffffff, b"1.7976931348623157e308"),
    (0x7ff8000000000000, b"NaN"),
];

static PATTERNS64: [(u64, &[u8]); 64] = [
    (0x677a0668d61a36ff, b"2.8988693038306397e190"),
    (0xa137fd0fdbb9b4cc, b"-1.1725345906779655e-148"),
    (0x46d68fe18b4ad08b, b"1.8304497641643093e33"),
    (0xe0f579c53f512bea, b"-1.1794088139509717e159"),
    (0x08df974aa290b5a2, b"6.123320281710342e-266"),
    (0x7187d50af93feff9, b"7.75944554985732e238"),
    (0x93076741794a5b02, b"-5.303847506242477e-217"),
    (0x501800011051578f, b"6.947530052908929e77"),
    (0x4bcc33f7451b15e1, b"1.3830706930284072e57"),
    (0x13ac7021799bfdc3, b"6.599519344759195e-214"),
    (0xe34a6de5e9ca6d5d, b"-1.9948629058077096e170"),
    (0x2a2894a3294ac9fd, b"1.3396898559501467e-105"),
    (0x0d978f4ad45d6c7f, b"3.4504355813522433e-243"),
    (0x1a92f40cbe4891ff, b"1.141899526139085e-180"),
    (0xb7609f2aac7d2eae, b"-5.962758554411358e-42"),
    (0x4b4fcd098c3f5bd3, b"6.0918473410823506e54"),
    (0x88dacb130d0e462b, b"-5.193371510562664e-266"),
    (0xae2d7a87d39a1877, b"-2.9637299135457765e-86"),
    (0x1d3624ca779f57ab, b"5.867497317886058e-168"),
    (0x9a3560ce3315723a, b"-2.012485139878909e-182"),
    (0xa29fd807ea3c11c7, b"-6.528417316844663e-142"),
    (0xa361bcdd70dd62df, b"-2.979000831467782e-138"),
    (0xf516f859ff93067d, b"-1.0778036686033318e256"),
    (0xf5ee12fcd548c910, b"-1.1560055838586659e260"),
    (0x86d1e1ab47b5c8a2, b"-8.069904733422199e-276"),
    (0xab29e7a4564ae6c6, b"-9.252787015240534e-101"),
    (0xccd5e6b45f73964e, b"-1.4077542023269592e62"),
    (0xb1a9b11f653ff305, b"-1.8612597461921072e-69"),
    (0xfbcc77f91cd4f26f, b"-2.1674678445127627e288"),
    (0x3e388aaa384d9c28, b"5.714050459226294e-9"),
    (0x76ca0230fbaca105, b"1.6379570925173192e264"),
    (0x78724c09714d1eed, b"1.546594418769214e272"),
    (0xa5cab0851da39da2, b"-1.2321193537756872e-126"),
    (0x38b260328ad7f803, b"1.38243937634847e-35"),
    (0x7911f40576ae435d, b"1.553953881634128e275"),
    (0xe73bd9f9486481d1, b"-1.9389439755195229e189"),
    (0x47bec86622ee433b, b"4.091737081853025e37"),
    (0x053d648401420b05, b"1.9766176879068678e-283"),
    (0xc1a69c9a895f1acb, b"-189680964.6857513"),
    (0x3a9a8932e28413da, b"2.1435555720592748e-26"),
    (0x0000000000000001, b"5e-324"),
    (0x0010000000000000, b"2.2250738585072014e-308"),
    (0x0020000000000000, b"4.450147717014403e-308"),
    (0x0340000000000000, b"5.010420900022432e-293"),
    (0x0350000000000000, b"1.0020841800044864e-292"),
    (0x0360000000000000, b"2.004168360008973e-292"),
    (0x1f40000000000000, b"3.641767935156351e-158"),
    (0x3cb0000000000000, b"2.220446049250313e-16"),
    (0x3fe0000000000000, b"0.5"),
    (0x3ff0000000000000, b"1.0"),
    (0x4000000000000000, b"2.0"),
    (0x5dc0000000000000, b"3.9021856878949903e143"),
    (0x7d00000000000000, b"1.2773377981022207e294"),
    (0x7fe0000000000000, b"8.98846567431158e307"),
    (0x4024333333333333, b"10.1"),
    (0xc040600000000000, b"-32.75"),
    (0x408faa0000000000, b"1013.25"),
    (0x3f50624dd2f1a9fc, b"0.001"),
    (0x40fe240c9fbe76c9, b"123456.789"),
    (0x4480f0cf064dd592, b"1e22"),
    (0x444b1ae4d6e2ef50, b"1e21"),
    (0x437b69b4ba630f35, b"1.2345678901234568e17"),
    (0x3f0a36e2eb1c432d, b"0.00005"),
    (0x4321c37937e08000, b"2500000000000000.0"),
];

fn expect_text32<R: Abort>(rt: &R, bits: u32, text: &[u8]) {
    expect(rt, FloatText::of32(Floats::Decimals, bits).bytes(), text);
}

fn expect_text64<R: Abort>(rt: &R, bits: u64, text: &[u8]) {
    expect(rt, FloatText::of64(Floats::Decimals, bits).bytes(), text);
}

#[test]
fn texts_of_float32(rt: HostRuntime) -> Result<(), Fail> {
    for (bits, text) in ROWS32 {
        expect_text32(&rt, bits, text);
    }
    for (bits, text) in PATTERNS32 {
        expect_text32(&rt, bits, text);
    }
    Ok(())
}

#[test]
fn texts_of_float64(rt: HostRuntime) -> Result<(), Fail> {
    for (bits, text) in ROWS64 {
        expect_text64(&rt, bits, text);
    }
    for (bits, text) in PATTERNS64 {
        expect_text64(&rt, bits, text);
    }
    Ok(())
}

#[test]
fn texts_of_bits(rt: HostRuntime) -> Result<(), Fail> {
    let text = FloatText::of32(Floats::Bits, 0xffc0_0001);
    expect(&rt, text.bytes(), b"0xffc00001");
    let text = FloatText::of64(Floats::Bits, 0x0010_0000_0000_00af);
    expect(&rt, text.bytes(), b"0x00100000000000af");
    Ok(())
}

/// A word, and what it is as a Float32 and as a Float64.
static WORDS: [(&[u8], Reading<u32>, Reading<u64>); 44] = [
    (
        b"+1.5",
        Reading::Bits(0x3fc00000),
        Reading::Bits(0x3ff8000000000000),
    ),
    (
        b"-0",
        Reading::Bits(0x80000000),
        Reading::Bits(0x8000000000000000),
    ),
    (
        b".5",
        Reading::Bits(0x3f000000),
        Reading::Bits(0x3fe0000000000000),
    ),
    (
        b"5.",
        Reading::Bits(0x40a00000),
        Reading::Bits(0x4014000000000000),
    ),
    (
        b"5.e-1",
        Reading::Bits(0x3f000000),
        Reading::Bits(0x3fe0000000000000),
    ),
    (
        b"1e00000000000000000000000001",
        Reading::Bits(0x41200000),
        Reading::Bits(0x4024000000000000),
    ),
    (
        b"0e999999999999",
        Reading::Bits(0x00000000),
        Reading::Bits(0x0000000000000000),
    ),
    (b"0x3f800000", Reading::Bits(0x3f800000), Reading::NoFloat),
    (b"0x3F800000", Reading::Bits(0x3f800000), Reading::NoFloat),
    (
        b"0x3ff0000000000000",
        Reading::NoFloat,
        Reading::Bits(0x3ff0000000000000),
    ),
    (b"0X3f800000", Reading::NoFloat, Reading::NoFloat),
    (b"0x1p3", Reading::NoFloat, Reading::NoFloat),
    (b".", Reading::NoFloat, Reading::NoFloat),
    (b"e5", Reading::NoFloat, Reading::NoFloat),
    (b"-", Reading::NoFloat, Reading::NoFloat),
    (b"1e", Reading::NoFloat, Reading::NoFloat),
    (b"1e+", Reading::NoFloat, Reading::NoFloat),
    (b"1d3", Reading::NoFloat, Reading::NoFloat),
    (b"1f", Reading::NoFloat, Reading::NoFloat),
    (b"1_0", Reading::NoFloat, Reading::NoFloat),
    (b"1,5", Reading::NoFloat, Reading::NoFloat),
    (b"NA", Reading::NoFloat, Reading::NoFloat),
    (b"infin", Reading::NoFloat, Reading::NoFloat),
    (b"nan(1)", Reading::NoFloat, Reading::NoFloat),
    (b"", Reading::NoFloat, Reading::NoFloat),
    (b" 1", Reading::NoFloat, Reading::NoFloat),
    (b"1 ", Reading::NoFloat, Reading::NoFloat),
    (
        b"+iNf",
        Reading::Bits(0x7f800000),
        Reading::Bits(0x7ff0000000000000),
    ),
    (
        b"-Infinity",
        Reading::Bits(0xff800000),
        Reading::Bits(0xfff0000000000000),
    ),
    (
        b"nan",
        Reading::Bits(0x7fc00000),
        Reading::Bits(0x7ff8000000000000),
    ),
    (
        b"-NaN",
        Reading::Bits(0x7fc00000),
        Reading::Bits(0x7ff8000000000000),
    ),
    (
        b"1.000000059604644775390625",
        Reading::Bits(0x3f800000),
        Reading::Bits(0x3ff0000010000000),
    ),
    (
        b"1.00000005960464477539062500000001",
        Reading::Bits(0x3f800001),
        Reading::Bits(0x3ff0000010000000),
    ),
    (
        b"16777217",
        Reading::Bits(0x4b800000),
        Reading::Bits(0x4170000010000000),
    ),
    (
        b"16777219",
        Reading::Bits(0x4b800002),
        Reading::Bits(0x4170000030000000),
    ),
    (
        b"9007199254740993",
        Reading::Bits(0x5a000000),
        Reading::Bits(0x4340000000000000),
    ),
    (
        b"3.4028235677973365e38",
        Reading::Bits(0x7f7fffff),
        Reading::Bits(0x47effffff0000000),
    ),
    (
        b"1e39",
        Reading::TooLarge,
        Reading::Bits(0x48078287f49c4a1d),
    ),
    (
        b"1.7976931348623158e308",
        Reading::TooLarge,
        Reading::Bits(0x7fefffffffffffff),
    ),
    (
        b"1.7976931348623159e308",
        Reading::TooLarge,
        Reading::TooLarge,
    ),
    (b"1e400", Reading::TooLarge, Reading::TooLarge),
    (
        b"7.006492321624085e-46",
        Reading::Bits(0x00000000),
        Reading::Bits(0x3690000000000000),
    ),
    (
        b"7.006492321624086e-46",
        Reading::Bits(0x00000001),
        Reading::Bits(0x3690000000000000),
    ),
    (
        b"-1e-400",
        Reading::Bits(0x80000000),
        Reading::Bits(0x8000000000000000),
    ),
];

fn expect_readings<R: Abort>(rt: &R, word: &[u8], as32: Reading<u32>, as64: Reading<u64>) {
    expect(rt, read32(Floats::Decimals, word), as32);
    expect(rt, read64(Floats::Decimals, word), as64);
}

#[test]
fn words_are_floats(rt: HostRuntime) -> Result<(), Fail> {
    for (word, as32, as64) in WORDS {
        expect_readings(&rt, word, as32, as64);
    }
    Ok(())
}

fn expect_bits<R: Abort>(rt: &R, word: &[u8], as32: Reading<u32>, as64: Reading<u64>) {
    expect(rt, read32(Floats::Bits, word), as32);
    expect(rt, read64(Floats::Bits, word), as64);
}

#[test]
fn words_are_bits_alone(rt: HostRuntime) -> Result<(), Fail> {
    expect_bits(
        &rt,
        b"0x3F800000",
        Reading::Bits(0x3f80_0000),
        Reading::NoFloat,
    );
    let one = Reading::Bits(0x3ff0_0000_0000_0000);
    expect_bits(&rt, b"0x3ff0000000000000", Reading::NoFloat, one);
    expect_bits(&rt, b"1.5", Reading::NoFloat, Reading::NoFloat);
    expect_bits(&rt, b"nan", Reading::NoFloat, Reading::NoFloat);
    expect_bits(&rt, b"1e400", Reading::NoFloat, Reading::NoFloat);
    Ok(())
}

/// The bits of two Float32, and their order.
static ORDERS: [(u32, u32, Option<Ordering>); 8] = [
    (0x8000_0000, 0x0000_0000, Some(Ordering::Equal)),
    (0xbf80_0000, 0x3f80_0000, Some(Ordering::Less)),
    (0xc000_0000, 0xbf80_0000, Some(Ordering::Less)),
    (0x0000_0001, 0x8000_0000, Some(Ordering::Greater)),
    (0x7f80_0000, 0x7f7f_ffff, Some(Ordering::Greater)),
    (0xff80_0000, 0xff7f_ffff, Some(Ordering::Less)),
    (0x7fc0_0000, 0x7fc0_0000, None),
    (0x3f80_0000, 0xff80_0001, None),
];

#[test]
fn floats_stand_as_their_numbers(rt: HostRuntime) -> Result<(), Fail> {
    for (a, b, order) in ORDERS {
        expect(&rt, order32(a, b), order);
    }
    expect(
        &rt,
        order64(0x8000_0000_0000_0000, 0),
        Some(Ordering::Equal),
    );
    expect(&rt, order64(0xfff0_0000_0000_0000, 1), Some(Ordering::Less));
    expect(&rt, order64(0x7ff0_0000_0000_0001, 1), None);
    Ok(())
}
