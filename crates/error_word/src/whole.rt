//! The first word of a body that stands in memory.

ghost use Rattle.std.specs.Prelude.{◌≡◌, ◌≤◌, length};
ghost use Rattle.error_word.specs.Saying as saying;

use crate::bytes::is_white;
use crate::first_word::{FirstWord, Found};

/// Whether the first word is `Error`, in any case.
pub fn says_error(bytes: &[u8]) -> bool
    ensures { result ≡ saying.says_error bytes.now }
{
    match FirstWord::new().read(bytes) {
        Found::Error => true,
        Found::Open(_) => false,
        Found::Other => false,
    }
}

/// The place at which the first word begins, behind white space.
pub fn begins_at(bytes: &[u8]) -> usize
    ensures value { result ≡ saying.begins_at bytes.now }
    ensures within { result ≤ length bytes.now }
{
    bytes.iter().take_while(|byte| is_white(**byte)).count()
}
