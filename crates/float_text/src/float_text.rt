ghost use Rattle.std.specs.Prelude.{◌≡◌, ℕ, ◌≤◌, List, length};
ghost use Rattle.std.specs.Float.{binary32, binary64};
ghost use Rattle.float_text.specs.Text.{IsTextOf};

use crate::decimal::{decimal32, decimal64};
use crate::floats::Floats;
use crate::hexadecimal::hexadecimal;
use arrayvec::ArrayVec;
use std::marker::Model;

/// The text of a float: ASCII, at most 25 bytes, kept in place. Contracts see its bytes.
#[derive(Debug, Drop)]
pub struct FloatText {
    text: ArrayVec<u8, 25>,
}

impl Model for FloatText {
    ghost Value = { List ℕ };

    ghost view = { λ t. t.text.items };
}

impl FloatText {
    /// The text of the Float32 with these bits: with `Bits` `0x` and 8 lower-case hexadecimal
    /// digits; with `Decimals` a decimal that reads back to them, `inf`, `-inf` or `NaN` (IEEE 754,
    /// 5.12; the layout is this project's).
    #[tactic(auto, unfolding(crate::specs::Text::IsTextOf))]
    pub fn of32(floats: Floats, bits: u32) -> FloatText
        ensures { IsTextOf binary32 floats bits result }
    {
        match floats {
            Floats::Bits => FloatText {
                text: hexadecimal(8, u64::from(bits)),
            },
            Floats::Decimals => FloatText {
                text: decimal32(bits),
            },
        }
    }

    /// The text of the Float64 with these bits: with `Bits` `0x` and 16 lower-case hexadecimal
    /// digits; with `Decimals` a decimal that reads back to them, `inf`, `-inf` or `NaN` (IEEE 754,
    /// 5.12; the layout is this project's).
    #[tactic(auto, unfolding(crate::specs::Text::IsTextOf))]
    pub fn of64(floats: Floats, bits: u64) -> FloatText
        ensures { IsTextOf binary64 floats bits result }
    {
        match floats {
            Floats::Bits => FloatText {
                text: hexadecimal(16, bits),
            },
            Floats::Decimals => FloatText {
                text: decimal64(bits),
            },
        }
    }

    /// The bytes, in order.
    pub fn bytes(&self) -> &[u8]
        ensures value { result.now ≡ self.now }
        ensures few { length result.now ≤ 25 }
    {
        self.text.as_slice()
    }
}
