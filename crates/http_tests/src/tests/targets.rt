use crate::tests::expecting::expect;
use dap_http::{Kind, Target, TargetRefusal, Url, UrlRefusal};
use std::alloc::{AllocError, Global};
use std::test::Fail;

type Asked<'t> = Option<(&'t str, Kind, &'t [u8])>;

fn is_target(read: &Target, name: &str, kind: Kind, query: &[u8]) -> bool {
    read.name.as_str() == name && read.kind == kind && read.query.bytes() == query
}

/// Whether a target is read as this, or refused.
fn reads(alloc: Global, target: &[u8], wanted: Asked<'_>) -> bool {
    match (Target::read(alloc, target), wanted) {
        (Ok(read), Some((name, kind, query))) => is_target(&read, name, kind, query),
        (Err(refusal), None) => refusal == TargetRefusal::BadTarget,
        _ => false,
    }
}

fn is_read(alloc: Global, target: &[u8]) -> bool {
    Target::read(alloc, target).is_ok()
}

const NONE: &[u8] = b"";

const TARGETS: [(&[u8], Asked<'static>); 26] = [
    (
        b"/a/b.nc.dds?x%5B0%5d",
        Some(("a/b.nc", Kind::Dds, b"x[0]")),
    ),
    (b"http://h/v.nc.das", Some(("v.nc", Kind::Das, NONE))),
    (b"http://h:80/v.nc.das?", Some(("v.nc", Kind::Das, NONE))),
    (b"v.nc.ver", Some(("v.nc", Kind::Ver, NONE))),
    (b"/v.nc.dods?a?b", Some(("v.nc", Kind::Dods, b"a?b"))),
    (b"/v.nc.dods?a+b%2Bc", Some(("v.nc", Kind::Dods, b"a+b+c"))),
    (
        b"/v.nc.dods?%252E%zz%",
        Some(("v.nc", Kind::Dods, b"%2E%zz%")),
    ),
    (b"/v%2Enc%2edds", Some(("v.nc", Kind::Dds, NONE))),
    (b"/v.nc%3f.dds", None),
    (b"/_-+/A.9.csv.das", Some(("_-+/A.9.csv", Kind::Das, NONE))),
    (NONE, None),
    (b"/", None),
    (b"http://h", None),
    (b"http://", None),
    (b"HTTP://h/v.nc.dds", None),
    (b"/.dds", None),
    (b"/v.nc", None),
    (b"/v.nc.DDS", None),
    (b"/v.nc.dds/", None),
    (b"//v.nc.dds", None),
    (b"/a//b.nc.dds", None),
    (b"/a/.b.nc.dds", None),
    (b"/.v.nc.dds", None),
    (b"/%2e%2e/v.nc.dds", None),
    (b"/v%00.nc.dds", None),
    (b"/v\xc3\xa9.nc.dds", None),
];

#[test]
fn targets_are_read_in_six_steps(rt: HostRuntime) -> Result<(), Fail> {
    for (target, wanted) in TARGETS {
        assert!(rt; reads(rt.alloc(), target, wanted));
    }
    Ok(())
}

/// A target with a name of so many bytes and a query of so many.
fn long(alloc: Global, name: usize, query: usize) -> Result<Vec<u8>, AllocError> {
    let mut target = Vec::new(alloc);
    for _ in 0..name {
        target.push(b'n')?;
    }
    target.extend_from_slice(b".dds?")?;
    for _ in 0..query {
        target.push(b'q')?;
    }
    Ok(target)
}

#[test]
fn names_and_targets_have_limits(rt: HostRuntime) -> Result<(), Fail> {
    let rows = [
        (1, 0, true),
        (255, 0, true),
        (256, 0, false),
        (1, 16_378, true),
        (1, 16_379, false),
    ];
    for (name, query, fits) in rows {
        let target = long(rt.alloc(), name, query)?;
        expect(&rt, is_read(rt.alloc(), target.as_slice()), fits);
    }
    Ok(())
}

type Parts<'t> = Option<(&'t [u8], u16, &'t [u8])>;

fn has_parts(url: &Url, host: &[u8], port: u16, path: &[u8]) -> bool {
    url.host.bytes() == host && url.port == port && url.path.bytes() == path
}

/// Whether a URL is read as this, or refused.
fn is_url(alloc: Global, text: &str, wanted: Parts<'_>) -> bool {
    match (Url::read(alloc, text), wanted) {
        (Ok(url), Some((host, port, path))) => has_parts(&url, host, port, path),
        (Err(refusal), None) => refusal == UrlRefusal::BadUrl,
        _ => false,
    }
}

fn url_is_read(alloc: Global, text: &str) -> bool {
    Url::read(alloc, text).is_ok()
}

const URLS: [(&str, Parts<'static>); 20] = [
    ("http://h/p", Some((b"h", 80, b"/p"))),
    ("http://h:1/p", Some((b"h", 1, b"/p"))),
    (
        "http://a-b.C9:65535/p/q.nc",
        Some((b"a-b.C9", 65_535, b"/p/q.nc")),
    ),
    ("http://h:00080/p", Some((b"h", 80, b"/p"))),
    ("http://h//", Some((b"h", 80, b"//"))),
    ("http://h/a:b", Some((b"h", 80, b"/a:b"))),
    ("http://h:0/p", None),
    ("http://h:65536/p", None),
    ("http://h:000080/p", None),
    ("http://h:/p", None),
    ("http://h:8a/p", None),
    ("http://h:80", None),
    ("http://h", None),
    ("http://h/", None),
    ("http:///p", None),
    ("http://h_/p", None),
    ("http://h/p q", None),
    ("http://h/p?q", None),
    ("http://h/p#q", None),
    ("https://h/p", None),
];

#[test]
fn urls_have_a_host_a_port_and_a_path(rt: HostRuntime) -> Result<(), Fail> {
    for (text, wanted) in URLS {
        assert!(rt; is_url(rt.alloc(), text, wanted));
    }
    Ok(())
}

/// A URL whose host has so many bytes.
fn hosted(alloc: Global, host: usize) -> Result<String, AllocError> {
    let mut text = String::from_str(alloc, "http://")?;
    for _ in 0..host {
        text.push('h')?;
    }
    text.push_str("/p")?;
    Ok(text)
}

#[test]
fn hosts_have_limits(rt: HostRuntime) -> Result<(), Fail> {
    for (host, fits) in [(1, true), (255, true), (256, false)] {
        let text = hosted(rt.alloc(), host)?;
        expect(&rt, url_is_read(rt.alloc(), text.as_str()), fits);
    }
    Ok(())
}
