/// The way in which floats are written and read.
#[derive(Clone, Copy, Debug, PartialEq, Eq)]
pub enum Floats {
    /// `0x` and the hexadecimal digits of the bits alone.
    Bits,
    /// Decimals, infinities and `NaN`; words of the bits are still read.
    Decimals,
}
