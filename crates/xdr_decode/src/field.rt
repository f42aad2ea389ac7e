ghost use Rattle.std.specs.Prelude.{◌≡◌, ◌≢◌, ◌<◌, ◌^◌, ◌∷◌, [], ℕ, List, Option, Some, None, length, replicate, IfOk, IfErr, MatchBool};
ghost use Rattle.std.specs.Int.{to_be_bytes, w64};
ghost use Rattle.dap_model.specs.Xdr.{fill, word};
ghost use Rattle.dap_types.specs.declared.declarations.BaseType.TheVariants.{Float64};
ghost use Rattle.dap_types.specs.declared.declarations.BaseType.{BaseType};
ghost use Rattle.xdr_fields.specs.Wants.{IsTextType, Want};
ghost use Rattle.xdr_fields.proofs.Decided.{IsWholeType};
ghost use Rattle.xdr_fields.specs.inner.Words.{whole_in};
ghost use Rattle.xdr_decode.specs.inner.Asked.{Asks, IsFaulty, IsGood, width_of};

use crate::Bad;
use dap_types::BaseType;

/// What the next field has to be.
#[derive(Clone, Copy)]
pub enum Ask {
    /// The number of elements of an array, or 2^32 where there are more.
    Count(u64),
    /// A number, or the length of a string.
    Value(BaseType),
    /// A packed byte.
    Packed,
    /// So many zero bytes behind packed bytes, and behind a string.
    Filler(usize),
    Padding(usize),
    /// The mark of a row, or of the end of a Sequence.
    Mark,
}

/// A field that was read.
#[derive(Clone, Copy)]
pub enum Token {
    Count,
    Whole(i64),
    Bits32(u32),
    Bits64(u64),
    /// The length of a string.
    Size(u32),
    Zeros,
    Row,
    End,
}

impl Ask {
    /// How many bytes the field has.
    pub fn width(self) -> usize
        ensures { result ≡ width_of self }
    {
        match self {
            Ask::Value(BaseType::Float64) => 8,
            Ask::Packed => 1,
            Ask::Filler(count) | Ask::Padding(count) => count,
            _ => 4,
        }
    }
}

/// The whole number of a type that stands in a word (RFC 4506, integer and unsigned integer).
pub fn whole(base: BaseType, word: u32) -> Option<i64>
    ensures { result ≡ whole_in base word }
{
    match base {
        BaseType::Byte => {
            if word < 256 {
                Some(i64::from(word))
            } else if word >= 0xffff_ff80 {
                Some(i64::from(word - 0xffff_ff00))
            } else {
                None
            }
        }
        BaseType::Int16 => {
            if word < 32768 || word >= 0xffff_8000 {
                Some(i64::from(word.cast_signed()))
            } else {
                None
            }
        }
        BaseType::UInt16 => {
            if word < 65536 {
                Some(i64::from(word))
            } else {
                None
            }
        }
        BaseType::Int32 => Some(i64::from(word.cast_signed())),
        BaseType::UInt32 => Some(i64::from(word)),
        _ => None,
    }
}

/// The word that four bytes are (RFC 4506, unsigned integer).
pub fn word_of(own: &[u8]) -> u32
    requires { length own.now ≡ 4 }
    ensures bytes { own.now ≡ word result }
{
    u32::from_be_bytes([own[0], own[1], own[2], own[3]])
}

/// The double word that eight bytes are.
fn double_of(own: &[u8]) -> u64
    requires { length own.now ≡ 8 }
    ensures bytes { own.now ≡ to_be_bytes w64 result }
{
    u64::from_be_bytes([
        own[0], own[1], own[2], own[3], own[4], own[5], own[6], own[7],
    ])
}

fn is_zeros(bytes: &[u8]) -> bool
    ensures { MatchBool result (bytes.now ≡ replicate (length bytes.now) 0)
        (bytes.now ≢ replicate (length bytes.now) 0) }
{
    bytes.iter().all(|byte| *byte == 0)
}

/// The number of elements of an array.
fn count(wanted: u64, bits: u32) -> Result<Token, Bad>
    ensures good { (want : Want) → Asks (Ask.Count wanted) want → IfOk result (IsGood want (word bits)) }
    ensures bad { (want : Want) → Asks (Ask.Count wanted) want → IfErr result (IsFaulty want (word bits)) }
{
    if u64::from(bits) == wanted {
        Ok(Token::Count)
    } else {
        Err(Bad::BadCount)
    }
}

/// The length of a string.
fn size(bits: u32) -> Result<Token, Bad>
    ensures good { (want : Want) (base : BaseType) → IsTextType base → Asks (Ask.Value base) want → IfOk result (IsGood want (word bits)) }
    ensures bad { (want : Want) (base : BaseType) → IsTextType base → Asks (Ask.Value base) want → IfErr result (IsFaulty want (word bits)) }
{
    if bits > 0x7fff_ffff {
        Err(Bad::BadCount)
    } else {
        Ok(Token::Size(bits))
    }
}

/// A whole number of a type.
fn number(base: BaseType, bits: u32) -> Result<Token, Bad>
    ensures good { (want : Want) → IsWholeType base → Asks (Ask.Value base) want → IfOk result (IsGood want (word bits)) }
    ensures bad { (want : Want) → IsWholeType base → Asks (Ask.Value base) want → IfErr result (IsFaulty want (word bits)) }
{
    match whole(base, bits) {
        Some(whole) => Ok(Token::Whole(whole)),
        None => Err(Bad::BadWord),
    }
}

/// The value of a type in a word: a number, or the length of a string.
fn value(base: BaseType, bits: u32) -> Result<Token, Bad>
    ensures good { (want : Want) → base ≢ Float64 → Asks (Ask.Value base) want → IfOk result (IsGood want (word bits)) }
    ensures bad { (want : Want) → base ≢ Float64 → Asks (Ask.Value base) want → IfErr result (IsFaulty want (word bits)) }
{
    match base {
        BaseType::Text => size(bits),
        BaseType::Url => size(bits),
        BaseType::Float32 => Ok(Token::Bits32(bits)),
        BaseType::Byte => number(base, bits),
        BaseType::Int16 => number(base, bits),
        BaseType::UInt16 => number(base, bits),
        BaseType::Int32 => number(base, bits),
        BaseType::UInt32 => number(base, bits),
        BaseType::Float64 => Err(Bad::BadWord),
    }
}

/// The mark of a row, or of the end of a Sequence (DAP 2.0, Sequence).
fn mark(bits: u32) -> Result<Token, Bad>
    ensures good { (want : Want) → Asks Ask.Mark want → IfOk result (IsGood want (word bits)) }
    ensures bad { (want : Want) → Asks Ask.Mark want → IfErr result (IsFaulty want (word bits)) }
{
    if bits == 0x5a00_0000 {
        return Ok(Token::Row);
    }
    if bits == 0xa500_0000 {
        return Ok(Token::End);
    }
    Err(Bad::WrongMark)
}

/// Zero bytes up to a multiple of four, behind packed bytes.
fn filler(count: usize, own: &[u8]) -> Result<Token, Bad>
    requires { length own.now ≡ count }
    ensures token { IfOk result (λ token. token ≡ Token.Zeros) }
    ensures good { (want : Want) → Asks (Ask.Filler count) want → IfOk result (IsGood want own.now) }
    ensures bad { (want : Want) → Asks (Ask.Filler count) want → IfErr result (IsFaulty want own.now) }
{
    if is_zeros(own) {
        Ok(Token::Zeros)
    } else {
        Err(Bad::BadPadding)
    }
}

/// The same behind the bytes of a string.
fn padding(count: usize, own: &[u8]) -> Result<Token, Bad>
    requires { length own.now ≡ count }
    ensures token { IfOk result (λ token. token ≡ Token.Zeros) }
    ensures good { (want : Want) → Asks (Ask.Padding count) want → IfOk result (IsGood want own.now) }
    ensures bad { (want : Want) → Asks (Ask.Padding count) want → IfErr result (IsFaulty want own.now) }
{
    if is_zeros(own) {
        Ok(Token::Zeros)
    } else {
        Err(Bad::BadPadding)
    }
}

/// The only byte.
fn only(own: &[u8]) -> u8
    requires { length own.now ≡ 1 }
    ensures { own.now ≡ result ∷ [] }
{
    own[0]
}

/// A packed byte.
fn packed(byte: u8) -> Token
    ensures good { (want : Want) (own : List ℕ) → own ≡ byte ∷ [] → Asks Ask.Packed want → IsGood want own result }
{
    Token::Whole(i64::from(byte))
}

/// A double.
fn double(bits: u64) -> Token
    ensures good { (want : Want) (own : List ℕ) → own ≡ to_be_bytes w64 bits → Asks (Ask.Value Float64) want → IsGood want own result }
{
    Token::Bits64(bits)
}

/// Judges the bytes of a field.
pub fn judge(ask: Ask, own: &[u8]) -> Result<Token, Bad>
    requires { length own.now ≡ width_of ask }
    ensures empty { width_of ask ≡ 0 → IfOk result (λ token. token ≡ Token.Zeros) }
    ensures good { (want : Want) → Asks ask want → IfOk result (IsGood want own.now) }
    ensures bad { (want : Want) → Asks ask want → IfErr result (IsFaulty want own.now) }
{
    match ask {
        Ask::Count(wanted) => count(wanted, word_of(own)),
        Ask::Value(BaseType::Float64) => Ok(double(double_of(own))),
        Ask::Value(base) => value(base, word_of(own)),
        Ask::Packed => Ok(packed(only(own))),
        Ask::Filler(count) => filler(count, own),
        Ask::Padding(count) => padding(count, own),
        Ask::Mark => mark(word_of(own)),
    }
}
