use crate::tests::expecting::expect;
use dap_http::{Kind, Url, memory_reply, reply_head, request_bytes, version_text};
use std::test::Fail;

#[test]
fn heads_are_sent_as_they_are_laid_out(rt: HostRuntime) -> Result<(), Fail> {
    let alloc = rt.alloc();
    let data = reply_head(alloc, 200, Kind::Dods.description(), None, true, true)?;
    expect(
        &rt,
        data.bytes(),
        b"HTTP/1.1 200 OK\r\nXDODS-Server: dap2/1.0\r\nXDAP: 2.0\r\nContent-Description: dods_data\r\nContent-Type: application/octet-stream\r\nTransfer-Encoding: chunked\r\nConnection: close\r\n\r\n",
    );
    let old = reply_head(alloc, 200, Kind::Dods.description(), None, false, false)?;
    expect(
        &rt,
        old.bytes(),
        b"HTTP/1.1 200 OK\r\nXDODS-Server: dap2/1.0\r\nXDAP: 2.0\r\nContent-Description: dods_data\r\nContent-Type: application/octet-stream\r\n\r\n",
    );
    Ok(())
}

#[test]
fn heads_with_a_length_are_sent_so(rt: HostRuntime) -> Result<(), Fail> {
    let alloc = rt.alloc();
    let refused = reply_head(alloc, 405, b"dods_error", Some(52), false, true)?;
    expect(
        &rt,
        refused.bytes(),
        b"HTTP/1.1 405 Method Not Allowed\r\nXDODS-Server: dap2/1.0\r\nXDAP: 2.0\r\nAllow: GET, HEAD\r\nContent-Description: dods_error\r\nContent-Type: text/plain\r\nContent-Length: 52\r\nConnection: close\r\n\r\n",
    );
    let text = reply_head(alloc, 200, Kind::Ver.description(), Some(47), false, false)?;
    expect(
        &rt,
        text.bytes(),
        b"HTTP/1.1 200 OK\r\nXDODS-Server: dap2/1.0\r\nXDAP: 2.0\r\nContent-Description: dods_version\r\nContent-Type: text/plain\r\nContent-Length: 47\r\n\r\n",
    );
    Ok(())
}

#[test]
fn kinds_have_their_words_and_are_chunked_or_not(rt: HostRuntime) {
    expect(&rt, Kind::Dds.description(), b"dods_dds");
    expect(&rt, Kind::Das.description(), b"dods_das");
    assert!(rt; Kind::Dods.is_chunked(1) && !Kind::Dods.is_chunked(0) && !Kind::Das.is_chunked(1));
}

#[test]
fn the_texts_that_take_no_memory(rt: HostRuntime) -> Result<(), Fail> {
    expect(
        &rt,
        version_text(),
        b"Core version: DAP/2.0\nServer version: dap2/1.0\n",
    );
    let head =
        b"HTTP/1.1 503 Service Unavailable\r\nXDODS-Server: dap2/1.0\r\nXDAP: 2.0\r\nContent-Description: dods_error\r\nContent-Type: text/plain\r\nContent-Length: 57\r\nConnection: close\r\n\r\n".as_slice();
    let object = b"Error {\n    code = 21;\n    message = \"out of memory\";\n};\n".as_slice();
    expect(&rt, object.len(), 57);
    expect(&rt, memory_reply(true), head);
    assert!(rt; memory_reply(false).starts_with(head));
    assert!(rt; memory_reply(false).ends_with(object));
    expect(&rt, memory_reply(false).len(), head.len() + 57);
    Ok(())
}

#[test]
fn requests_are_sent_as_they_are_laid_out(rt: HostRuntime) -> Result<(), Fail> {
    let alloc = rt.alloc();
    let url = Url::read(alloc, "http://h:8080/v.nc")?;
    let plain = request_bytes(alloc, &url, Kind::Das, b"", true)?;
    expect(
        &rt,
        plain.bytes(),
        b"GET /v.nc.das HTTP/1.1\r\nHost: h:8080\r\nUser-Agent: dap2/1.0\r\nAccept-Encoding: identity\r\nConnection: close\r\n\r\n",
    );
    Ok(())
}

#[test]
fn constraints_are_sent_escaped(rt: HostRuntime) -> Result<(), Fail> {
    let alloc = rt.alloc();
    let url = Url::read(alloc, "http://h:8080/v.nc")?;
    let constrained = request_bytes(
        alloc,
        &url,
        Kind::Dods,
        b"a.b[0:1],c&d=\"x%~/_-\"\xff",
        false,
    )?;
    expect(
        &rt,
        constrained.bytes(),
        b"GET /v.nc.dods?a.b%5B0:1%5D,c&d=%22x%25~/_-%22%FF HTTP/1.1\r\nHost: h:8080\r\nUser-Agent: dap2/1.0\r\nAccept-Encoding: identity\r\n\r\n",
    );
    Ok(())
}
