ghost use Rattle.std.specs.Prelude.{◌≡◌, ◌≤◌, length, map, All, IfOk};
ghost use Rattle.httparse.specs.Grammar.{IsToken};
ghost use Rattle.httparse.specs.Spans.{IsHeaderWithin, IsWithin, header_bytes, span_bytes};
ghost use Rattle.dap_http.specs.Requests.{ends_by};
ghost use Rattle.dap_http.specs.inner.Judging.{IsJudged};

use crate::Head;
use crate::fields::ends_by;
use dap_types::{Bytes, Memory};
use http::Method;
use http::method::MethodError;
use httparse::spans::{EMPTY_HEADER_SPAN, HeaderSpan, RequestSpans, parse_request};
use httparse::{Error, Status};
use std::alloc::Global;

/// What the bytes of a buffer begin with.
#[derive(Debug, Drop)]
pub enum Judged {
    /// A head of so many bytes.
    Whole(Head, usize),
    /// No head yet.
    Partial,
    /// No head, whatever follows.
    Bad,
    /// A head for which memory is wanted; whether its method is HEAD.
    Memory(bool),
}

/// Says what the bytes begin with.
pub fn judge(alloc: Global, bytes: &[u8]) -> Judged
    ensures { IsJudged bytes.now result }
{
    let mut headers = [EMPTY_HEADER_SPAN; 64];
    match parse_request(bytes, &mut headers) {
        Ok(Status::Complete(spans)) => {
            match told(alloc, bytes, &headers[..spans.headers], &spans) {
                Ok(head) => Judged::Whole(head, spans.len),
                Err(Memory) => Judged::Memory(spans.method.of(bytes) == b"HEAD".as_slice()),
            }
        }
        Ok(Status::Partial) => Judged::Partial,
        Err(Error::TooManyHeaders) => Judged::Bad,
        Err(_) => Judged::Bad,
    }
}

/// The head whose parts these spans cover.
fn told(
    alloc: Global,
    bytes: &[u8],
    fields: &[HeaderSpan],
    spans: &RequestSpans,
) -> Result<Head, Memory>
    requires method { IsWithin (length bytes.now) spans.now.method }
    requires token { IsToken (span_bytes bytes.now spans.now.method) }
    requires path { IsWithin (length bytes.now) spans.now.path }
    requires fields { All (IsHeaderWithin (length bytes.now)) fields.now }
    ensures method { IfOk result (λ h. h.method ≡ span_bytes bytes.now spans.now.method) }
    ensures target { IfOk result (λ h. h.target ≡ span_bytes bytes.now spans.now.path) }
    ensures minor { IfOk result (λ h. h.minor ≡ spans.now.version) }
    ensures ends { IfOk result (λ h. h.ends ≡ ends_by spans.now.version (span_bytes bytes.now spans.now.method) (map (header_bytes bytes.now) fields.now)) }
{
    let named = spans.method.of(bytes);
    let method = method_of(alloc, named)?;
    let ends = ends_by(spans.version, named, bytes, fields);
    let target = Bytes::new(alloc, spans.path.of(bytes))?;
    Ok(Head {
        method,
        target,
        minor: spans.version,
        ends,
    })
}

/// The method of this name.
fn method_of(alloc: Global, name: &[u8]) -> Result<Method, Memory>
    requires { IsToken name.now }
    ensures { IfOk result (λ m. m ≡ name.now) }
{
    match Method::from_bytes(alloc, name) {
        Ok(method) => Ok(method),
        Err(MethodError::OutOfMemory) => Err(Memory),
        Err(MethodError::Invalid) => unreachable!(),
    }
}
