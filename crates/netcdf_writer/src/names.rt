//! The names of a file, out of those of variables.

ghost use Rattle.std.specs.Prelude.{◌≡◌, ◌<◌, ◌≤◌, length, IfOk, IfSome, None, Some, true, if◌then◌else◌};
ghost use Rattle.dap_types.specs.Names.{is_kept_byte};
ghost use Rattle.netcdf_writer.specs.Names.{digit_of, escaped, is_digit, is_file_name, plain, undone};
ghost use Rattle.netcdf_writer.specs.inner.Undoing.{first_byte};

use dap_types::{Memory, limits};

fn is_kept(byte: u8) -> bool
    ensures { result ≡ is_kept_byte byte }
{
    byte.is_ascii_alphanumeric()
        || byte == b'_'
        || byte == b'-'
        || byte == b'+'
        || byte == b'*'
        || byte == b'/'
}

fn is_digit(byte: u8) -> bool
    ensures { result ≡ is_digit byte }
{
    (byte >= b'0' && byte <= b'9') || (byte >= b'A' && byte <= b'F')
}

fn digit_of(byte: u8) -> u8
    requires { is_digit byte ≡ true }
    ensures few { result < 16 }
    ensures digit { result ≡ digit_of byte }
{
    if byte < b'A' { byte - b'0' } else { byte - 55 }
}

/// The byte that stands for itself.
fn plain(byte: u8) -> Option<u8>
    ensures { result ≡ plain byte }
{
    if is_kept(byte) { Some(byte) } else { None }
}

/// The byte of two digits behind a `%`.
fn escaped(high: u8, low: u8) -> Option<u8>
    ensures { result ≡ escaped high low }
{
    if !is_digit(high) || !is_digit(low) {
        return None;
    }
    let byte = digit_of(high) * 16 + digit_of(low);
    if is_kept(byte) { None } else { Some(byte) }
}

/// The byte whose escape stands first, and how many bytes that has.
fn first_byte(name: &[u8]) -> Option<(u8, usize)>
    requires { 0 < length name.now }
    ensures first { result ≡ first_byte name.now }
    ensures some { IfSome result (λ p. 0 < p.1) }
    ensures within { IfSome result (λ p. p.1 ≤ length name.now) }
{
    if name[0] == b'%' && name.len() >= 3 {
        return match escaped(name[1], name[2]) {
            Some(byte) => Some((byte, 3)),
            None => None,
        };
    }
    match plain(name[0]) {
        Some(byte) => Some((byte, 1)),
        None => None,
    }
}

/// Undoes the escapes of a name: its bytes in a file stand in the room then. False says that it is
/// the escape of no bytes.
pub fn undo(room: &mut Vec<u8>, name: &[u8]) -> Result<bool, Memory>
    ensures { IfOk result (λ is_undone. undone name.now ≡ (if is_undone then Some room.new.items else None)) }
{
    room.clear();
    let mut at = 0;
    while at < name.len() {
        let Some((byte, count)) = first_byte(&name[at..]) else {
            return Ok(false);
        };
        room.push(byte)?;
        at += count;
    }
    Ok(true)
}

/// Whether a variable's name is that of one of 1 to 256 bytes in a file.
#[tactic(auto, unfolding(crate::specs::Names::is_file_name))]
pub fn is_file_name(room: &mut Vec<u8>, name: &[u8]) -> Result<bool, Memory>
    ensures { IfOk result (λ is. is ≡ is_file_name name.now) }
{
    if !undo(room, name)? {
        return Ok(false);
    }
    Ok(!room.is_empty() && room.len() as u64 <= limits::MOST_NAME)
}
