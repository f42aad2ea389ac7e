//! What is held of the front of a DDS.

ghost use Rattle.std.specs.Prelude.{◌≤◌};
ghost use Rattle.dap_types.specs.Limits.{most_text};

use crate::parser::Parser;
use dap_types::{Dataset, limits};

/// A text has no more bytes than these.
pub const LIMIT: usize = limits::MOST_TEXT;

/// What is held of a text that goes on.
#[derive(Drop)]
pub struct Front {
    /// The number of its bytes.
    pub length: usize,
    /// The place of its last word, where that is not whole.
    pub began: usize,
    /// The bytes of that word.
    pub word: Vec<u8>,
    pub parser: Parser,
    ghost within: { (length ≤ most_text) × (began ≤ most_text) },
}

/// What a piece of a text holds.
#[derive(Drop)]
pub enum Found {
    /// Neither a bad token nor the end of the dataset.
    Nothing,
    /// The bad token, at this place of the text.
    Bad(usize),
    /// The end of the dataset, behind so many bytes of the piece.
    Done(usize, Dataset),
}
