//! Quoted texts: bytes between two double quotes, where a backslash takes the next byte with it.

ghost use Rattle.std.specs.Prelude.{◌≡◌, ℕ, ◌+◌, ◌<◌, ◌≤◌, ◌∷◌, ◌++◌, List, length, IfOk, OnOk};
ghost use Rattle.viable.specs.Quoted.{Piece, ArePieces, Stops, unescaped_from, unescape, escape, escaped_piece, piece_bytes};

use std::alloc::{AllocError, Global};

/// Where the pieces of a quoted text end that begin at a place: at the quote that ends it, or, where
/// there is none, at the end of the text or at a backslash that ends the text.
pub fn pieces_end(text: &[u8], from: usize) -> usize
    requires { from ≤ length text.now }
    ensures within { (from ≤ result) × (result ≤ length text.now) }
    ensures pieces { (pieces : List Piece) × ArePieces text.now from result pieces }
    ensures stops { Stops text.now result }
{
    let mut at = from;
    while at < text.len() && text[at] != b'"' {
        if text[at] != b'\\' {
            at += 1;
        } else if at + 1 < text.len() {
            at += 2;
        } else {
            return at;
        }
    }
    at
}

/// Pushes what the next byte stands for, and says whether it is a backslash that takes the byte
/// behind it. `pending` says so of the byte before.
fn push_next(value: &mut Vec<u8>, pending: bool, byte: u8) -> Result<bool, AllocError>
    ensures { IfOk result (λ next. (rest : List ℕ) → value.new.items ++ unescaped_from next rest ≡ value.old.items ++ unescaped_from pending (byte ∷ rest)) }
{
    if !pending && byte == b'\\' {
        return Ok(true);
    }
    if pending && byte != b'"' && byte != b'\\' {
        value.push(b'\\')?;
    }
    value.push(byte)?;
    Ok(false)
}

/// What the bytes between the quotes stand for. Fails where memory is wanted.
pub fn unescaped(alloc: Global, bytes: &[u8]) -> Result<Vec<u8>, AllocError>
    ensures { IfOk result (λ value. value.items ≡ unescape bytes.now) }
{
    let mut value = Vec::with_capacity(alloc, bytes.len())?;
    let mut pending = false;
    for byte in bytes {
        pending = push_next(&mut value, pending, *byte)?;
    }
    if pending {
        value.push(b'\\')?;
    }
    Ok(value)
}

/// Pushes a byte of a text between quotes, behind a backslash where it needs one.
fn push_escaped_byte(out: &mut Vec<u8>, byte: u8) -> Result<(), AllocError>
    ensures { OnOk result (out.new.items ≡ out.old.items ++ piece_bytes (escaped_piece byte)) }
{
    if byte == b'"' || byte == b'\\' {
        out.push(b'\\')?;
    }
    out.push(byte)?;
    Ok(())
}

/// Pushes the bytes between quotes that stand for a text. Fails where memory is wanted.
#[tactic(auto, unfolding(crate::specs::Quoted::escape))]
pub fn push_escaped(out: &mut Vec<u8>, text: &[u8]) -> Result<(), AllocError>
    ensures { OnOk result (out.new.items ≡ out.old.items ++ escape text.now) }
{
    for byte in text {
        push_escaped_byte(out, *byte)?;
    }
    Ok(())
}
