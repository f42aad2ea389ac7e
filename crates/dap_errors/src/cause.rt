ghost use Rattle.std.specs.Prelude.{◌≡◌, IfOk};
ghost use Rattle.dap_errors.specs.Causes.{error_code, http_status, message_text};

use crate::{FileCause, Spot};
use dap_types::{Bytes, Memory};
use std::alloc::Global;
use std::fmt;

/// Why a request is refused. Its code, message and HTTP status are this project's own.
#[derive(Clone, Copy, Debug, PartialEq, Eq)]
pub enum Cause {
    /// The constraint's bytes before this place begin a constraint, and with the next one none.
    Syntax { place: u64 },
    /// No variable has this path.
    UnknownName(Spot),
    /// Slabs stand behind what is neither an array nor a Grid.
    NotArray(Spot),
    /// The number of slabs is not that of the dimensions.
    SlabCount(Spot),
    /// A slab with stride 0, or one that picks no index or one past the end.
    BadSlab(Spot),
    /// An earlier item picked other indexes of the same array.
    TwoSlabs(Spot),
    /// More than 1,024 items, clauses, or values of a clause, this project's limit.
    TooMany(Spot),
    /// A clause on what is no column of a Sequence.
    NotColumn(Spot),
    /// A number is compared with a text, or a text with a number.
    TypeMismatch(Spot),
    /// A column of floats is compared.
    FloatCompared(Spot),
    /// A server function, a regular expression, or a constant of another kind.
    Unsupported(Spot),
    /// A number of more than 128 bits.
    BigNumber(Spot),
    /// An array of more elements than a count can tell; 0 where the text of the DDS is too long.
    TooLarge { leaf: u32 },
    /// The request's target names no file and kind.
    BadTarget,
    /// There is no such file.
    NoFile,
    /// The request's method is neither GET nor HEAD.
    BadMethod,
    /// The request has no head by RFC 9112.
    BadRequest,
    /// The request's head does not end within 16,384 bytes, this project's limit.
    HeadTooLong,
    /// The file has no dataset.
    Damaged(FileCause),
    /// The file could not be read.
    ReadFailed,
    /// Memory was wanted.
    OutOfMemory,
    /// What another server answered is bad at this place.
    UpstreamBad { place: u64 },
    /// The connection to another server failed.
    UpstreamFault,
    /// What another server answered is longer than what is handed on, this project's limit.
    UpstreamLarge,
}

impl fmt::Display for Cause {
    ghost use Rattle.std.specs.Prelude.{Some};
    ghost use Rattle.dap_errors.specs.Causes.{message_text};

    ghost output = { λ cause. Some (message_text cause) };

    fn fmt<W: fmt::Write>(&self, f: &mut fmt::Formatter<W>) -> fmt::Result {
        match self {
            Cause::Syntax { place } => write!(f, "syntax at {place}"),
            Cause::UnknownName(spot) => write!(f, "unknown name in {spot}"),
            Cause::NotArray(spot) => write!(f, "not an array in {spot}"),
            Cause::SlabCount(spot) => write!(f, "slab count in {spot}"),
            Cause::BadSlab(spot) => write!(f, "bad slab in {spot}"),
            Cause::TwoSlabs(spot) => write!(f, "two slabs in {spot}"),
            Cause::TooMany(spot) => write!(f, "too many in {spot}"),
            Cause::NotColumn(spot) => write!(f, "not a column in {spot}"),
            Cause::TypeMismatch(spot) => write!(f, "type mismatch in {spot}"),
            Cause::FloatCompared(spot) => write!(f, "float compared in {spot}"),
            Cause::Unsupported(spot) => write!(f, "unsupported in {spot}"),
            Cause::BigNumber(spot) => write!(f, "big number in {spot}"),
            Cause::TooLarge { leaf } => write!(f, "too large: leaf {leaf}"),
            Cause::BadTarget => f.write_str("bad target"),
            Cause::NoFile => f.write_str("no such file"),
            Cause::BadMethod => f.write_str("bad method"),
            Cause::BadRequest => f.write_str("bad request"),
            Cause::HeadTooLong => f.write_str("head too long"),
            Cause::Damaged(cause) => write!(f, "damaged file: {cause}"),
            Cause::ReadFailed => f.write_str("read failed"),
            Cause::OutOfMemory => f.write_str("out of memory"),
            Cause::UpstreamBad { place } => write!(f, "bad upstream reply at {place}"),
            Cause::UpstreamFault => f.write_str("upstream fault"),
            Cause::UpstreamLarge => f.write_str("upstream reply too large"),
        }
    }
}

/// The code of an Error object with this cause, 1 to 24.
pub fn code(cause: &Cause) -> u32
    ensures { result ≡ error_code cause.now }
{
    match cause {
        Cause::Syntax { .. } => 1,
        Cause::UnknownName(_) => 2,
        Cause::NotArray(_) => 3,
        Cause::SlabCount(_) => 4,
        Cause::BadSlab(_) => 5,
        Cause::TwoSlabs(_) => 6,
        Cause::TooMany(_) => 7,
        Cause::NotColumn(_) => 8,
        Cause::TypeMismatch(_) => 9,
        Cause::FloatCompared(_) => 10,
        Cause::Unsupported(_) => 11,
        Cause::BigNumber(_) => 12,
        Cause::TooLarge { .. } => 13,
        Cause::BadTarget => 14,
        Cause::NoFile => 15,
        Cause::BadMethod => 16,
        Cause::BadRequest => 17,
        Cause::HeadTooLong => 18,
        Cause::Damaged(_) => 19,
        Cause::ReadFailed => 20,
        Cause::OutOfMemory => 21,
        Cause::UpstreamBad { .. } => 22,
        Cause::UpstreamFault => 23,
        Cause::UpstreamLarge => 24,
    }
}

/// The HTTP status of a reply with this cause (RFC 9110, status codes).
pub fn status(cause: &Cause) -> u16
    ensures { result ≡ http_status cause.now }
{
    match cause {
        Cause::NoFile => 404,
        Cause::BadMethod => 405,
        Cause::HeadTooLong => 431,
        Cause::Damaged(_) | Cause::ReadFailed => 500,
        Cause::UpstreamBad { .. } | Cause::UpstreamFault | Cause::UpstreamLarge => 502,
        Cause::OutOfMemory => 503,
        _ => 400,
    }
}

/// The message of an Error object with this cause. Fails where memory is wanted.
pub fn message(alloc: Global, cause: &Cause) -> Result<Bytes, Memory>
    ensures { IfOk result (λ message. message ≡ message_text cause.now) }
{
    Ok(Bytes::from_vec(cause.to_string(alloc)?.into_bytes()))
}
