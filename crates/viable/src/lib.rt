//! What the parsers of DAP 2.0's texts share: a text in, the place of what was read out. A language
//! is a relation between texts and what they spell, and `specs/Prefix` says where a text first goes
//! wrong, for any language. Below it stand runs of bytes, quoted texts and numbers as digits, with
//! their readers.
#![tactic(auto)]

mod numeral;
mod quoted;

pub use numeral::{
    all_digits, all_hex_digits, hex_digit, hex_value_of, magnitude, number, number_within,
    value_of, wide_value_of,
};
pub use quoted::{pieces_end, push_escaped, unescaped};
