ghost use Rattle.std.specs.Prelude.{◌≡◌, ◌≤◌, ◌&&◌, ◌||◌, length, map, nat_le, nat_lt, not, true, All, codes, IsTrue};
ghost use Rattle.std.specs.List.{list_any};
ghost use Rattle.httparse.specs.Spans.{IsHeaderWithin, header_bytes};
ghost use Rattle.dap_http.specs.Fields.{values_of};
ghost use Rattle.dap_http.specs.Replies.{coding_by, is_length, length_of};
ghost use Rattle.dap_http.specs.inner.ReplyJudging.{IsReplyJudged, as_sum, differs, is_otherwise};

use crate::Coding;
use crate::fields::{first_value, some_differs, some_is_otherwise};
use httparse::spans::{EMPTY_HEADER_SPAN, HeaderSpan, parse_response};
use httparse::{Error, Status};
use reply_faults::Bad;
use viable::{all_digits, value_of};

/// What the bytes of a reply begin with.
#[derive(Clone, Copy)]
pub enum ReplyJudged {
    /// A head of status 100 to 199, of so many bytes.
    Interim(usize),
    /// A final head of so many bytes, and how the body's length is told or what is wrong.
    Final(Result<Coding, Bad>, usize),
    /// No head yet.
    Partial,
    /// No head, whatever follows.
    Bad,
}

/// Says what the bytes begin with.
pub fn judge_reply(bytes: &[u8]) -> ReplyJudged
    ensures { IsReplyJudged bytes.now result }
{
    let mut headers = [EMPTY_HEADER_SPAN; 128];
    match parse_response(bytes, &mut headers) {
        Ok(Status::Complete(head)) => {
            if is_interim(head.code) {
                return ReplyJudged::Interim(head.len);
            }
            ReplyJudged::Final(coding_of(bytes, &headers[..head.headers]), head.len)
        }
        Ok(Status::Partial) => ReplyJudged::Partial,
        Err(Error::TooManyHeaders) => ReplyJudged::Bad,
        Err(_) => ReplyJudged::Bad,
    }
}

/// How the body's length is told by these fields, or what is wrong.
fn coding_of(bytes: &[u8], fields: &[HeaderSpan]) -> Result<Coding, Bad>
    requires { All (IsHeaderWithin (length bytes.now)) fields.now }
    ensures { as_sum result ≡ coding_by (map (header_bytes bytes.now) fields.now) }
{
    if is_coded(bytes, fields) {
        return Err(Bad::Coded);
    }
    if is_there(bytes, fields, b"Transfer-Encoding") {
        return Ok(Coding::Chunked);
    }
    length_of(bytes, fields)
}

/// Whether the body is coded otherwise than in chunks.
fn is_coded(bytes: &[u8], fields: &[HeaderSpan]) -> bool
    requires { All (IsHeaderWithin (length bytes.now)) fields.now }
    ensures { result ≡ (list_any (is_otherwise (codes "Transfer-Encoding") (codes "chunked")) (map (header_bytes bytes.now) fields.now)
        || list_any (is_otherwise (codes "Content-Encoding") (codes "identity")) (map (header_bytes bytes.now) fields.now)) }
{
    some_is_otherwise(bytes, fields, b"Transfer-Encoding", b"chunked")
        || some_is_otherwise(bytes, fields, b"Content-Encoding", b"identity")
}

fn is_there(bytes: &[u8], fields: &[HeaderSpan], name: &[u8]) -> bool
    requires { All (IsHeaderWithin (length bytes.now)) fields.now }
    ensures { result ≡ list_any (λ v. true) (values_of name.now (map (header_bytes bytes.now) fields.now)) }
{
    match first_value(bytes, fields, name) {
        Some(_) => true,
        None => false,
    }
}

/// The length that the Content-Length fields give, or that they give none.
fn length_of(bytes: &[u8], fields: &[HeaderSpan]) -> Result<Coding, Bad>
    requires { All (IsHeaderWithin (length bytes.now)) fields.now }
    ensures { as_sum result ≡ length_of (values_of (codes "Content-Length") (map (header_bytes bytes.now) fields.now)) }
{
    match first_value(bytes, fields, b"Content-Length") {
        Some(value) => {
            if is_one_length(bytes, fields, value) {
                return Ok(Coding::Length(value_of(value)));
            }
            Err(Bad::BadHead)
        }
        None => Ok(Coding::ToEnd),
    }
}

/// Whether each Content-Length field has this value, which is a length.
fn is_one_length(bytes: &[u8], fields: &[HeaderSpan], value: &[u8]) -> bool
    requires { All (IsHeaderWithin (length bytes.now)) fields.now }
    ensures { result ≡ (is_length value.now && not (list_any (differs (codes "Content-Length") value.now) (map (header_bytes bytes.now) fields.now))) }
{
    is_length(value) && !some_differs(bytes, fields, b"Content-Length", value)
}

fn is_interim(code: u16) -> bool
    ensures { result ≡ (nat_le 100 code && nat_lt code 200) }
{
    code >= 100 && code < 200
}

fn is_length(value: &[u8]) -> bool
    ensures { result ≡ is_length value.now }
{
    !value.is_empty() && value.len() <= 18 && all_digits(value)
}
