ghost use Rattle.std.specs.Prelude.{◌≡◌, ℕ, ◌+◌, ◌^◌, ◌<◌, ◌≤◌, ◌⊎◌, ◌&&◌, Bool, true, false, not, None, nat_lt, if◌then◌else◌, min, List, [], ◌∷◌, ◌++◌, length, Result, Ok, Err, IfOk, IfErr, IfNone, IfSome, MatchResult, IsErrAnd};
ghost use Rattle.dap_types.specs.Limits.{most_header};
ghost use Rattle.netcdf_source.specs.Header.{contents_of, magic, HasNoMagic, IsHeader, IsFirst, IsCut};
ghost use Rattle.netcdf_source.specs.inner.Answering.{version_of_byte, version_of, version_in, refusal_of, verdict, Answers, AnswersFront};
ghost use Rattle.netcdf_source.specs.inner.Reading.{Gives, contents_at};
ghost use Rattle.netcdf_source.specs.inner.Sound.{IsSound};

use crate::attributes::attributes;
use crate::dimensions::dimensions;
use crate::extents::{past_end, record_size};
use crate::failure::{Failure, Stop};
use crate::header::Contents;
use crate::variables::variables;
use crate::version::Version;
use crate::words::records;
use crate::{Header, HeaderRefusal};
use dap_types::limits;
use std::alloc::Global;

/// The most bytes of a header.
const HEADER_MAX: u64 = limits::MOST_HEADER as u64;

/// The version of its byte.
fn version_of_byte(byte: u8) -> Option<Version>
    ensures { result ≡ version_of_byte byte }
{
    match byte {
        1 => Some(Version::One),
        2 => Some(Version::Two),
        5 => Some(Version::Five),
        _ => None,
    }
}

/// The version, where these are the four bytes of a magic.
fn version_of(a: u8, b: u8, c: u8, version: u8) -> Option<Version>
    ensures { result ≡ version_of a b c version }
{
    if a == b'C' && b == b'D' && c == b'F' {
        version_of_byte(version)
    } else {
        None
    }
}

/// The version of a header that begins with a magic.
fn magic_version(front: &[u8]) -> Option<Version>
    ensures { result ≡ version_in front.now }
{
    match front {
        [a, b, c, version, ..] => version_of(*a, *b, *c, *version),
        _ => None,
    }
}

/// The version, and what stands behind it.
fn split_magic(front: &[u8]) -> Option<(Version, &[u8])>
    ensures found { IfSome result (λ x. front.now ≡ magic x.0 ++ x.1.now) }
    ensures none { IfNone result (HasNoMagic front.now) }
{
    let version = magic_version(front)?;
    Some((version, &front[4..]))
}

/// All that stands behind the magic.
#[tactic(auto, unfolding(crate::specs::inner::Reading::contents_at))]
fn fields(alloc: Global, version: Version, body: &[u8]) -> Result<(Contents, &[u8]), Stop>
    ensures { Gives (λ x. (x.0, x.1.now)) result (contents_at version body.now) }
{
    let width = version.number_width();
    let (records, rest) = records(width, body)?;
    let (dimensions, rest) = dimensions(alloc, width, rest)?;
    let (attributes, rest) = attributes(alloc, version, rest)?;
    let (variables, rest) = variables(alloc, version, dimensions.items(), rest)?;
    Ok((
        Contents {
            records,
            dimensions,
            attributes,
            variables,
        },
        rest,
    ))
}

/// What is answered where reading stopped, in the first `whole` bytes of a file of that length.
#[tactic(auto, unfolding(crate::specs::inner::Answering::refusal_of))]
fn refusal(failure: Failure, whole: u64, file_len: u64) -> HeaderRefusal
    ensures { result ≡ refusal_of failure whole file_len }
{
    match failure {
        Failure::Cut if file_len > HEADER_MAX => HeaderRefusal::HeaderTooLong,
        Failure::Cut => HeaderRefusal::HeaderCut,
        Failure::Streaming => HeaderRefusal::Streaming,
        Failure::Bad(left) => HeaderRefusal::BadField {
            place: whole.saturating_sub(left as u64),
        },
    }
}

/// The header behind a magic.
fn judge(
    alloc: Global,
    version: Version,
    body: &[u8],
    whole: u64,
    file_len: u64,
) -> Result<Header, HeaderRefusal>
    requires body { length body.now ≤ most_header }
    requires file_len { file_len < 2 ^ 63 }
    ensures verdict { Answers result (verdict version body.now whole file_len) }
    ensures length { IfOk result (λ h. h.length ≡ file_len) }
{
    match fields(alloc, version, body) {
        Err(Stop::Memory) => Err(HeaderRefusal::Memory),
        Err(Stop::Failed(failure)) => Err(refusal(failure, whole, file_len)),
        Ok((contents, _)) => {
            let step = record_size(contents.dimensions.items(), contents.variables.items());
            match past_end(&contents, step, file_len) {
                Some(var) => Err(HeaderRefusal::PastEnd { var }),
                None => Ok(Header::new(alloc, contents, step, file_len)?),
            }
        }
    }
}

/// The header of a netCDF classic file of `file_len` bytes that begins with `front`.
///
/// Each refusal is the first thing that fails from the front (netCDF classic format; the limits are
/// this project's): `NotCdf`, `Streaming`, `BadField` with the field's place, `HeaderCut` or
/// `HeaderTooLong` where a field does not end within `front`, and then `PastEnd` with the number of
/// the variable. `Memory` where memory was wanted.
pub fn read_header(alloc: Global, front: &[u8], file_len: u64) -> Result<Header, HeaderRefusal>
    requires front { length front.now ≡ min file_len most_header }
    requires file_len { file_len < 2 ^ 63 }
    // What is read is a header.
    ensures header { IfOk result (λ h. IsHeader (contents_of h) front.now file_len) }
    ensures length { IfOk result (λ h. h.length ≡ file_len) }
    // What is refused fails first in that way.
    ensures first_cause { IfErr result (λ e. (e ≡ HeaderRefusal.Memory) ⊎ IsFirst e front.now file_len) }
    // Each header is read, unless memory was wanted.
    ensures only_header { (c : Contents) → IsHeader c front.now file_len → MatchResult result (λ h. contents_of h ≡ c) (λ e. e ≡ HeaderRefusal.Memory) }
    // What fails first is the answer, unless memory was wanted.
    ensures only_cause { (first : HeaderRefusal) → IsFirst first front.now file_len → IsErrAnd result (λ e. (e ≡ HeaderRefusal.Memory) ⊎ (e ≡ first)) }
{
    let Some((version, body)) = split_magic(front) else {
        return Err(HeaderRefusal::NotCdf);
    };
    judge(alloc, version, body, front.len() as u64, file_len)
}

/// Whether these first bytes of a file are all that a header is read from.
fn is_whole(front: &[u8], file_len: u64) -> bool
    requires { length front.now ≤ min file_len most_header }
    ensures whole { result ≡ true → length front.now ≡ min file_len most_header }
    ensures short { result ≡ false → length front.now < min file_len most_header }
{
    front.len() as u64 == file_len.min(HEADER_MAX)
}

/// The answer to a front without a magic: one that is shorter than a magic wants more.
fn without_magic(is_whole: bool, front: &[u8]) -> Result<Option<Header>, HeaderRefusal>
    ensures { result ≡ (if not is_whole && nat_lt (length front.now) 4 then Ok None else Err HeaderRefusal.NotCdf) }
{
    if !is_whole && front.len() < 4 {
        Ok(None)
    } else {
        Err(HeaderRefusal::NotCdf)
    }
}

/// The answer to a shorter front: a header that is cut, or too long, wants more.
fn front_answer(
    is_whole: bool,
    read: Result<Header, HeaderRefusal>,
) -> Result<Option<Header>, HeaderRefusal>
    ensures { AnswersFront is_whole result read }
{
    match read {
        Ok(header) => Ok(Some(header)),
        Err(HeaderRefusal::HeaderCut) if !is_whole => Ok(None),
        Err(HeaderRefusal::HeaderTooLong) if !is_whole => Ok(None),
        Err(refusal) => Err(refusal),
    }
}

/// What the first bytes of a netCDF classic file of `file_len` bytes tell of its header, be they all
/// that `read_header` wants, the first `min(file_len, 1048576)`, or fewer.
///
/// A header, or a refusal other than `Memory`, is what `read_header` answers to the bytes that it
/// wants. `None` where `front` is shorter than these and stops within the magic or within a field,
/// and nothing before that fails: read more and call again.
pub fn read_front(
    alloc: Global,
    front: &[u8],
    file_len: u64,
) -> Result<Option<Header>, HeaderRefusal>
    requires front { length front.now ≤ min file_len most_header }
    requires file_len { file_len < 2 ^ 63 }
    // What is read is the header of whatever begins with these bytes.
    ensures header { IfOk result (λ found. IfSome found (λ h. (more : List ℕ) → IsHeader (contents_of h) (front.now ++ more) file_len)) }
    ensures length { IfOk result (λ found. IfSome found (λ h. h.length ≡ file_len)) }
    // More is wanted where these bytes are not all, and stop within a field.
    ensures more { IfOk result (λ found. IfNone found ((length front.now < min file_len most_header) × IsCut front.now)) }
    // What is refused fails first in all that begins with these bytes and is as long as it may be.
    ensures first_cause { IfErr result (λ e. (e ≡ HeaderRefusal.Memory) ⊎ ((more : List ℕ) → length (front.now ++ more) ≡ min file_len most_header → IsFirst e (front.now ++ more) file_len)) }
    // Where these bytes are not all and stop within a field more is wanted, unless memory was.
    ensures only_more { length front.now < min file_len most_header → IsCut front.now → MatchResult result (λ found. IfSome found (λ h. ⊥)) (λ e. e ≡ HeaderRefusal.Memory) }
{
    let is_whole = is_whole(front, file_len);
    let Some((version, body)) = split_magic(front) else {
        return without_magic(is_whole, front);
    };
    let read = judge(alloc, version, body, front.len() as u64, file_len);
    front_answer(is_whole, read)
}
