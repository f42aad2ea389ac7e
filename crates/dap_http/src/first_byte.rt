//! Where a byte stands first.

ghost use Rattle.std.specs.Prelude.{◌≡◌, ◌≤◌, ◌==◌, length};
ghost use Rattle.std.specs.List.{position_or_len};

use memchr::memchr;

/// The first place of a byte, or the number of bytes where it is none of them.
pub fn place_of(bytes: &[u8], wanted: u8) -> usize
    ensures within { result ≤ length bytes.now }
    ensures place { result ≡ position_or_len (λ b. b == wanted) bytes.now }
{
    match memchr(wanted, bytes) {
        Some(place) => place,
        None => bytes.len(),
    }
}
