//! One value out of bytes that stand in memory.

ghost use Rattle.std.specs.Prelude.{◌≡◌, ◌≢◌, ℕ, ◌+◌, ◌<◌, ◌++◌, ◌∷◌, [], List as Items, length, IfOk, IfErr, MatchBool};
ghost use Rattle.dap_types.specs.declared.declarations.BaseType.TheVariants.{Byte};
ghost use Rattle.dap_types.specs.declared.declarations.Column.{Column as ColumnValue};
ghost use Rattle.dap_types.specs.declared.values.Value.TheVariants.{Whole, Text as Characters, Bits32, Bits64};
ghost use Rattle.dap_model.specs.Fits.{IsOf};
ghost use Rattle.dap_model.specs.Xdr.{Field, mark as field_of_mark, packed as field_of_byte, padding, text, value_fields};
ghost use Rattle.reply_faults.specs.declared.bad.Bad.TheVariants.{Cut};
ghost use Rattle.xdr_decode.specs.declared.values.Stop.TheVariants.{Wrong, Memory};
ghost use Rattle.xdr_decode.specs.inner.Asked.{Asks, Is};
ghost use Rattle.xdr_decode.specs.inner.Taken.{IsTaken, Spelt, Stops, element_fields, element_want};
ghost use Rattle.xdr_fields.specs.Wants.{Want, a_byte, a_padding, a_text, a_value, rows};

use crate::Bad;
use crate::field::{Ask, Token, judge};
use crate::place::fill;
use dap_types::{BaseType, Bytes, Memory, Value};
use std::alloc::Global;

/// Why nothing was read.
#[derive(Clone, Copy)]
pub enum Stop {
    /// What is wrong first, and how many bytes stand from there on.
    Wrong(Bad, usize),
    /// No memory was left.
    Memory,
}

impl From<Memory> for Stop {
    ghost from_gives = { λ _ e. e ≡ Memory };

    fn from(_: Memory) -> Self {
        Stop::Memory
    }
}

/// So many bytes, and what stands behind them.
fn split(bytes: &[u8], width: usize) -> Result<(&[u8], &[u8]), Stop>
    ensures parts { IfOk result (λ r. bytes.now ≡ r.0.now ++ r.1.now) }
    ensures wide { IfOk result (λ r. length r.0.now ≡ width) }
    ensures short { IfErr result (λ e. (e ≡ Wrong Cut 0) × (length bytes.now < width)) }
{
    if bytes.len() < width {
        return Err(Stop::Wrong(Bad::Cut, 0));
    }
    Ok(bytes.split_at(width))
}

/// The field that is asked for, and what stands behind it.
pub fn field(ask: Ask, bytes: &[u8]) -> Result<(Token, &[u8]), Stop>
    ensures read { (w : Want) → Asks ask w → IfOk result (λ r. IsTaken w r.0 bytes.now r.1.now) }
    ensures stop { (w : Want) → Asks ask w → IfErr result (Stops (w ∷ []) bytes.now) }
{
    let (own, rest) = split(bytes, ask.width())?;
    match judge(ask, own) {
        Ok(token) => Ok((token, rest)),
        Err(kind) => Err(Stop::Wrong(kind, bytes.len())),
    }
}

/// The bytes of a string of a known length, and what stands behind its padding (RFC 4506, string).
fn string(alloc: Global, size: u32, bytes: &[u8]) -> Result<(Bytes, &[u8]), Stop>
    ensures long { IfOk result (λ r. length r.0 ≡ size) }
    ensures read { IfOk result (λ r. Spelt (text r.0 ∷ padding size ∷ []) bytes.now r.1.now) }
    ensures stop { IfErr result (Stops (a_text size ∷ a_padding size ∷ []) bytes.now) }
{
    let (own, rest) = split(bytes, size as usize)?;
    let (_, behind) = field(Ask::Padding(fill(size)), rest)?;
    Ok((Bytes::new(alloc, own)?, behind))
}

/// A value of a type, and what stands behind it.
pub fn value(alloc: Global, base: BaseType, bytes: &[u8]) -> Result<(Value, &[u8]), Stop>
    ensures fits { IfOk result (λ r. IsOf base r.0) }
    ensures read { IfOk result (λ r. Spelt (value_fields base r.0) bytes.now r.1.now) }
    ensures stop { (path : Items ℕ) → IfErr result (Stops (a_value path base ∷ []) bytes.now) }
{
    let (token, rest) = field(Ask::Value(base), bytes)?;
    match token {
        Token::Whole(whole) => Ok((Value::Whole(whole), rest)),
        Token::Bits32(bits) => Ok((Value::Bits32(bits), rest)),
        Token::Bits64(bits) => Ok((Value::Bits64(bits), rest)),
        Token::Size(size) => {
            let (text, behind) = string(alloc, size, rest)?;
            Ok((Value::Text(text), behind))
        }
        _ => unreachable!(),
    }
}

/// A packed byte, and what stands behind it.
fn packed(bytes: &[u8]) -> Result<(Value, &[u8]), Stop>
    ensures fits { IfOk result (λ r. IsOf Byte r.0) }
    ensures read { IfOk result (λ r. Spelt (field_of_byte r.0 ∷ []) bytes.now r.1.now) }
    ensures stop { (path : Items ℕ) → IfErr result (Stops (a_byte path ∷ []) bytes.now) }
{
    let (token, rest) = field(Ask::Packed, bytes)?;
    match token {
        Token::Whole(whole) => Ok((Value::Whole(whole), rest)),
        _ => unreachable!(),
    }
}

/// An element of an array, and what stands behind it.
pub fn element(alloc: Global, base: BaseType, bytes: &[u8]) -> Result<(Value, &[u8]), Stop>
    ensures fits { IfOk result (λ r. IsOf base r.0) }
    ensures read { IfOk result (λ r. Spelt (element_fields base r.0) bytes.now r.1.now) }
    ensures stop { (path : Items ℕ) → IfErr result (Stops (element_want base path ∷ []) bytes.now) }
{
    match base {
        BaseType::Byte => packed(bytes),
        _ => value(alloc, base, bytes),
    }
}

/// Whether the mark of a row comes, and not that of the end (DAP 2.0, Sequence), and what stands behind
/// it.
pub fn is_row(bytes: &[u8]) -> Result<(bool, &[u8]), Stop>
    ensures shorter { IfOk result (λ r. length r.1.now + 4 ≡ length bytes.now) }
    ensures read { IfOk result (λ r. MatchBool r.0
        (Spelt (field_of_mark 0x5a ∷ []) bytes.now r.1.now)
        (Spelt (field_of_mark 0xa5 ∷ []) bytes.now r.1.now)) }
    ensures stop { (above name : Items ℕ) (columns : Items ColumnValue) (row : ℕ) →
        IfErr result (Stops (rows above name columns row ∷ []) bytes.now) }
{
    let (token, rest) = field(Ask::Mark, bytes)?;
    match token {
        Token::Row => Ok((true, rest)),
        Token::End => Ok((false, rest)),
        _ => unreachable!(),
    }
}
