//! The decimal text of a float. `ryu` gives the digits; the sign and the payload of a NaN are in no text.

ghost use Rattle.std.specs.Prelude.{◌≡◌, ◌≤◌, length};
ghost use Rattle.std.specs.Float.{binary32, binary64};
ghost use Rattle.float_text.specs.Text.{IsDecimalText};

use crate::order::{is_nan32, is_nan64};
use arrayvec::ArrayVec;
use ryu::Buffer;

/// A copy of at most 25 bytes.
fn kept(bytes: &[u8]) -> ArrayVec<u8, 25>
    requires { length bytes.now ≤ 25 }
    ensures { result.items ≡ bytes.now }
{
    let mut text: ArrayVec<u8, 25> = ArrayVec::new();
    match text.try_extend_from_slice(bytes) {
        Ok(()) => text,
        Err(_) => unreachable!(),
    }
}

/// The text of a Float32 in decimals.
pub(crate) fn decimal32(bits: u32) -> ArrayVec<u8, 25>
    ensures { IsDecimalText binary32 bits result.items }
{
    if is_nan32(bits) {
        return kept(b"NaN");
    }
    let mut buffer = Buffer::new();
    kept(buffer.format(f32::from_bits(bits)).as_bytes())
}

/// The text of a Float64 in decimals.
pub(crate) fn decimal64(bits: u64) -> ArrayVec<u8, 25>
    ensures { IsDecimalText binary64 bits result.items }
{
    if is_nan64(bits) {
        return kept(b"NaN");
    }
    let mut buffer = Buffer::new();
    kept(buffer.format(f64::from_bits(bits)).as_bytes())
}
