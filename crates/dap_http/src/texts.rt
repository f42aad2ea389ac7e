ghost use Rattle.std.specs.Prelude.{◌≡◌, ◌++◌, IfOk, OnOk, decimal};
ghost use Rattle.dap_http.specs.Texts.{IsReplyStatus, allow_line, close_line, content_type, description_lines, head_text, length_line, host_lines, memory_text, request_line, request_text, status_line, version};

use crate::escapes::query_text;
use crate::{Kind, Url};
use dap_types::{Bytes, Memory};
use http::StatusCode;
use std::alloc::Global;

/// The head of a reply (RFC 9112, section 4), for one of the statuses that this server gives. Fails
/// where memory is wanted.
#[tactic(auto, unfolding(crate::specs::Texts::head_text))]
pub fn reply_head(
    alloc: Global,
    status: u16,
    description: &[u8],
    len: Option<u64>,
    chunked: bool,
    close: bool,
) -> Result<Bytes, Memory>
    requires { IsReplyStatus status }
    ensures { IfOk result (λ b. b ≡ head_text status description.now len chunked close) }
{
    let mut out = Vec::new(alloc);
    let line = status_line(alloc, status)?;
    let described = description_lines(alloc, description)?;
    put(&mut out, line.as_slice())?;
    put(&mut out, b"XDODS-Server: dap2/1.0\r\nXDAP: 2.0\r\n")?;
    put_allow(&mut out, status)?;
    put(&mut out, described.as_slice())?;
    put_length(&mut out, len, chunked)?;
    put_close(&mut out, close)?;
    put(&mut out, b"\r\n")?;
    Ok(Bytes::from_vec(out))
}

/// The version text.
#[tactic(auto, unfolding(crate::specs::Texts::version))]
pub fn version_text() -> &'static [u8]
    ensures { result.now ≡ version }
{
    b"Core version: DAP/2.0\nServer version: dap2/1.0\n"
}

fn put(out: &mut Vec<u8>, bytes: &[u8]) -> Result<(), Memory>
    ensures { OnOk result (out.new.items ≡ out.old.items ++ bytes.now) }
{
    out.extend_from_slice(bytes)?;
    Ok(())
}

fn put_number(out: &mut Vec<u8>, number: u64) -> Result<(), Memory>
    ensures { OnOk result (out.new.items ≡ out.old.items ++ decimal number) }
{
    let mut buffer = itoa::Buffer::new();
    put(out, buffer.format(number).as_bytes())
}

fn status_line(alloc: Global, status: u16) -> Result<Vec<u8>, Memory>
    requires { IsReplyStatus status }
    ensures { IfOk result (λ v. v.items ≡ status_line status) }
{
    let mut out = Vec::new(alloc);
    let code = match StatusCode::from_u16(status) {
        Ok(code) => code,
        Err(_) => unreachable!(),
    };
    out.extend_from_slice(b"HTTP/1.1 ")?;
    out.extend_from_slice(code.as_str().as_bytes())?;
    out.extend_from_slice(b" ")?;
    let phrase = match code.canonical_reason() {
        Some(phrase) => phrase,
        None => "",
    };
    out.extend_from_slice(phrase.as_bytes())?;
    out.extend_from_slice(b"\r\n")?;
    Ok(out)
}

fn put_allow(out: &mut Vec<u8>, status: u16) -> Result<(), Memory>
    ensures { OnOk result (out.new.items ≡ out.old.items ++ allow_line status) }
{
    if status == 405 {
        return put(out, b"Allow: GET, HEAD\r\n");
    }
    Ok(())
}

fn content_type(description: &[u8]) -> &'static [u8]
    ensures { result.now ≡ content_type description.now }
{
    if description == b"dods_data".as_slice() {
        b"application/octet-stream"
    } else {
        b"text/plain"
    }
}

fn description_lines(alloc: Global, description: &[u8]) -> Result<Vec<u8>, Memory>
    ensures { IfOk result (λ v. v.items ≡ description_lines description.now) }
{
    let kind = content_type(description);
    let mut out = Vec::new(alloc);
    out.extend_from_slice(b"Content-Description: ")?;
    out.extend_from_slice(description)?;
    out.extend_from_slice(b"\r\nContent-Type: ")?;
    out.extend_from_slice(kind)?;
    out.extend_from_slice(b"\r\n")?;
    Ok(out)
}

fn put_length(out: &mut Vec<u8>, len: Option<u64>, chunked: bool) -> Result<(), Memory>
    ensures { OnOk result (out.new.items ≡ out.old.items ++ length_line len chunked) }
{
    match len {
        Some(number) => {
            put(out, b"Content-Length: ")?;
            put_number(out, number)?;
            put(out, b"\r\n")
        }
        None => {
            if chunked {
                return put(out, b"Transfer-Encoding: chunked\r\n");
            }
            Ok(())
        }
    }
}

fn put_close(out: &mut Vec<u8>, close: bool) -> Result<(), Memory>
    ensures { OnOk result (out.new.items ≡ out.old.items ++ close_line close) }
{
    if close {
        return put(out, b"Connection: close\r\n");
    }
    Ok(())
}

/// The whole reply for a want of memory, or its head alone. It takes no memory.
pub fn memory_reply(head: bool) -> &'static [u8]
    ensures { result.now ≡ memory_text head }
{
    if head {
        return b"HTTP/1.1 503 Service Unavailable\r\nXDODS-Server: dap2/1.0\r\nXDAP: 2.0\r\nContent-Description: dods_error\r\nContent-Type: text/plain\r\nContent-Length: 57\r\nConnection: close\r\n\r\n";
    }
    b"HTTP/1.1 503 Service Unavailable\r\nXDODS-Server: dap2/1.0\r\nXDAP: 2.0\r\nContent-Description: dods_error\r\nContent-Type: text/plain\r\nContent-Length: 57\r\nConnection: close\r\n\r\nError {\n    code = 21;\n    message = \"out of memory\";\n};\n"
}

/// The head of a request. Fails where memory is wanted.
#[tactic(auto, unfolding(crate::specs::Texts::request_text))]
pub fn request_bytes(
    alloc: Global,
    url: &Url,
    kind: Kind,
    ce: &[u8],
    close: bool,
) -> Result<Bytes, Memory>
    ensures { IfOk result (λ b. b ≡ request_text url.now.host url.now.port url.now.path kind ce.now close) }
{
    let line = request_line(alloc, url.path.bytes(), kind, ce)?;
    let lines = host_lines(alloc, url.host.bytes(), url.port)?;
    let mut out = Vec::new(alloc);
    put(&mut out, line.as_slice())?;
    put(&mut out, lines.as_slice())?;
    put_close(&mut out, close)?;
    put(&mut out, b"\r\n")?;
    Ok(Bytes::from_vec(out))
}

fn request_line(alloc: Global, path: &[u8], kind: Kind, ce: &[u8]) -> Result<Vec<u8>, Memory>
    ensures { IfOk result (λ v. v.items ≡ request_line path.now kind ce.now) }
{
    let query = query_text(alloc, ce)?;
    let mut out = Vec::new(alloc);
    put(&mut out, b"GET ")?;
    put(&mut out, path)?;
    put(&mut out, kind.suffix())?;
    put(&mut out, query.as_slice())?;
    put(&mut out, b" HTTP/1.1\r\n")?;
    Ok(out)
}

fn host_lines(alloc: Global, host: &[u8], port: u16) -> Result<Vec<u8>, Memory>
    ensures { IfOk result (λ v. v.items ≡ host_lines host.now port) }
{
    let mut out = Vec::new(alloc);
    put(&mut out, b"Host: ")?;
    put(&mut out, host)?;
    put(&mut out, b":")?;
    put_number(&mut out, u64::from(port))?;
    put(
        &mut out,
        b"\r\nUser-Agent: dap2/1.0\r\nAccept-Encoding: identity\r\n",
    )?;
    Ok(out)
}
