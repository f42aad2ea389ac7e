ghost use Rattle.std.specs.Prelude.{◌≡◌, ◌≤◌, ◌∷◌, [], List, ℕ, length, reverse, All, codes, map, MatchOption};
ghost use Rattle.std.specs.List.{list_any};
ghost use Rattle.dap_http.specs.Fields.{is_named, values_of};
ghost use Rattle.dap_http.specs.inner.ReplyJudging.{differs, is_otherwise};
ghost use Rattle.std.specs.Str.{str_eq_ignore_ascii_case};
ghost use Rattle.httparse.specs.Grammar.{skip_ows, trim_ows};
ghost use Rattle.httparse.specs.Spans.{IsHeaderWithin, header_bytes};
ghost use Rattle.dap_http.specs.Requests.{ends_by, field_ends, is_other, names_close};

use httparse::is_space_or_tab;
use httparse::spans::HeaderSpan;

/// Whether the two are the same without regard to case.
pub fn is_same(a: &[u8], b: &[u8]) -> bool
    ensures { result ≡ str_eq_ignore_ascii_case a.now b.now }
{
    a.eq_ignore_ascii_case(b)
}

fn trim_start(mut s: &[u8]) -> &[u8]
    ensures { result.now ≡ skip_ows s.now }
{
    while let [first, rest @ ..] = s
        && is_space_or_tab(*first)
    {
        s = rest;
    }
    s
}

fn trim_end(mut s: &[u8]) -> &[u8]
    ensures { result.now ≡ reverse (skip_ows (reverse s.now)) }
{
    while let [rest @ .., last] = s
        && is_space_or_tab(*last)
    {
        s = rest;
    }
    s
}

#[tactic(auto, unfolding(httparse::specs::Grammar::trim_ows))]
fn trim(s: &[u8]) -> &[u8]
    ensures { result.now ≡ trim_ows s.now }
{
    trim_end(trim_start(s))
}

fn is_close(part: &[u8]) -> bool
    ensures { result ≡ str_eq_ignore_ascii_case (trim_ows part.now) (codes "close") }
{
    is_same(trim(part), b"close")
}

/// Whether the value of a Connection field names `close`.
fn names_close(value: &[u8]) -> bool
    ensures { result ≡ names_close value.now }
{
    value.split(|b| *b == b',').any(|part| is_close(part))
}

/// Whether a field ends its connection.
fn field_ends(bytes: &[u8], field: &HeaderSpan) -> bool
    requires { IsHeaderWithin (length bytes.now) field.now }
    ensures { result ≡ field_ends (header_bytes bytes.now field.now) }
{
    let name = field.name.of(bytes);
    let value = field.value.of(bytes);
    is_same(name, b"Transfer-Encoding")
        || is_same(name, b"Content-Length") && !(value == b"0".as_slice())
        || is_same(name, b"Connection") && names_close(value)
}

fn some_ends(bytes: &[u8], fields: &[HeaderSpan]) -> bool
    requires { All (IsHeaderWithin (length bytes.now)) fields.now }
    ensures { result ≡ list_any field_ends (map (header_bytes bytes.now) fields.now) }
{
    for field in fields {
        if field_ends(bytes, field) {
            return true;
        }
    }
    false
}

fn is_other(method: &[u8]) -> bool
    ensures { result ≡ is_other method.now }
{
    !(method == b"GET".as_slice() || method == b"HEAD".as_slice())
}

/// Whether a head of this version, method and these fields ends its connection by itself.
pub fn ends_by(minor: u8, method: &[u8], bytes: &[u8], fields: &[HeaderSpan]) -> bool
    requires { All (IsHeaderWithin (length bytes.now)) fields.now }
    ensures { result ≡ ends_by minor method.now (map (header_bytes bytes.now) fields.now) }
{
    minor == 0 || is_other(method) || some_ends(bytes, fields)
}

fn is_named(bytes: &[u8], field: &HeaderSpan, name: &[u8]) -> bool
    requires { IsHeaderWithin (length bytes.now) field.now }
    ensures { result ≡ is_named name.now (header_bytes bytes.now field.now) }
{
    is_same(field.name.of(bytes), name)
}

fn is_otherwise(bytes: &[u8], field: &HeaderSpan, name: &[u8], plain: &[u8]) -> bool
    requires { IsHeaderWithin (length bytes.now) field.now }
    ensures { result ≡ is_otherwise name.now plain.now (header_bytes bytes.now field.now) }
{
    is_named(bytes, field, name) && !is_same(field.value.of(bytes), plain)
}

fn differs(bytes: &[u8], field: &HeaderSpan, name: &[u8], value: &[u8]) -> bool
    requires { IsHeaderWithin (length bytes.now) field.now }
    ensures { result ≡ differs name.now value.now (header_bytes bytes.now field.now) }
{
    is_named(bytes, field, name) && !(field.value.of(bytes) == value)
}

/// Whether a field of this name has another value, without regard to case.
pub fn some_is_otherwise(bytes: &[u8], fields: &[HeaderSpan], name: &[u8], plain: &[u8]) -> bool
    requires { All (IsHeaderWithin (length bytes.now)) fields.now }
    ensures { result ≡ list_any (is_otherwise name.now plain.now) (map (header_bytes bytes.now) fields.now) }
{
    for field in fields {
        if is_otherwise(bytes, field, name, plain) {
            return true;
        }
    }
    false
}

/// Whether a field of this name has another value.
pub fn some_differs(bytes: &[u8], fields: &[HeaderSpan], name: &[u8], value: &[u8]) -> bool
    requires { All (IsHeaderWithin (length bytes.now)) fields.now }
    ensures { result ≡ list_any (differs name.now value.now) (map (header_bytes bytes.now) fields.now) }
{
    for field in fields {
        if differs(bytes, field, name, value) {
            return true;
        }
    }
    false
}

/// The value of the first field of this name.
pub fn first_value<'b>(bytes: &'b [u8], fields: &[HeaderSpan], name: &[u8]) -> Option<&'b [u8]>
    requires { All (IsHeaderWithin (length bytes.now)) fields.now }
    ensures { MatchOption result (values_of name.now (map (header_bytes bytes.now) fields.now) ≡ [])
        (λ v. (others : List (List ℕ)) × (values_of name.now (map (header_bytes bytes.now) fields.now) ≡ v.now ∷ others)) }
{
    for field in fields {
        if is_named(bytes, field, name) {
            return Some(field.value.of(bytes));
        }
    }
    None
}
