ghost use Rattle.std.specs.Prelude.{◌≡◌, ◌≤◌, Some, None, IfOk, IsSome, IsTrue, MatchOption, length, drop};
ghost use Rattle.std.specs.List.{before_first, list_all};
ghost use Rattle.std.specs.Char.{is_ascii_digit};

use crate::Target;
use crate::first_byte::place_of;
use dap_types::{Bytes, Memory, limits};
use std::alloc::Global;
use viable::{all_digits, value_of};

/// A URL without its kind (RFC 9110, section 4.2.1).
#[derive(Debug, Drop)]
pub struct Url {
    pub host: Bytes,
    pub port: u16,
    pub path: Bytes,
}

/// Why a URL is refused.
#[derive(Clone, Copy, Debug, PartialEq, Eq)]
pub enum UrlRefusal {
    BadUrl,
    Memory,
}

impl From<Memory> for UrlRefusal {
    ghost use Rattle.dap_http.specs.declared.url.UrlRefusal.TheVariants as refusal;

    ghost from_gives = { λ m r. r ≡ refusal.Memory };

    fn from(_: Memory) -> Self {
        UrlRefusal::Memory
    }
}

impl Url {
    ghost use Rattle.target_names.specs.Names.{is_slash};
    ghost use Rattle.dap_http.specs.Urls.{from_colon, hosted, is_colon, is_host, is_host_byte, is_path, is_path_byte, is_port, is_short, numbered, port_in, port_of, routed, url_of};

    /// Reads a URL in the steps of `specs/Urls`.
    #[tactic(auto, unfolding(crate::specs::Urls::url_of))]
    pub fn read(alloc: Global, text: &str) -> Result<Url, UrlRefusal>
        ensures ok { IfOk result (λ u. url_of text.now ≡ Some (record { host = u.host; port = u.port; path = u.path })) }
        ensures bad { result ≡ Err UrlRefusal.BadUrl → url_of text.now ≡ None }
        ensures memory { result ≡ Err UrlRefusal.Memory → IsSome (url_of text.now) }
    {
        let bytes = text.as_bytes();
        if !bytes.starts_with(b"http://") {
            return Err(UrlRefusal::BadUrl);
        }
        let rest = &bytes[7..];
        match Target::from_slash(rest) {
            Some(path) => Url::routed(alloc, Url::before_slash(rest), path),
            None => Err(UrlRefusal::BadUrl),
        }
    }

    fn routed(alloc: Global, authority: &[u8], path: &[u8]) -> Result<Url, UrlRefusal>
        ensures ok { IfOk result (λ u. routed authority.now (Some path.now) ≡ Some (record { host = u.host; port = u.port; path = u.path })) }
        ensures bad { result ≡ Err UrlRefusal.BadUrl → routed authority.now (Some path.now) ≡ None }
        ensures memory { result ≡ Err UrlRefusal.Memory → IsSome (routed authority.now (Some path.now)) }
    {
        if !Url::is_path(path) {
            return Err(UrlRefusal::BadUrl);
        }
        match Url::port_in(Url::from_colon(authority)) {
            Some(port) => Url::hosted(alloc, Url::before_colon(authority), port, path),
            None => Err(UrlRefusal::BadUrl),
        }
    }

    fn hosted(alloc: Global, host: &[u8], port: u16, path: &[u8]) -> Result<Url, UrlRefusal>
        ensures ok { IfOk result (λ u. hosted host.now (Some port) path.now ≡ Some (record { host = u.host; port = u.port; path = u.path })) }
        ensures bad { result ≡ Err UrlRefusal.BadUrl → hosted host.now (Some port) path.now ≡ None }
        ensures memory { result ≡ Err UrlRefusal.Memory → IsSome (hosted host.now (Some port) path.now) }
    {
        if !Url::is_host(host) {
            return Err(UrlRefusal::BadUrl);
        }
        Ok(Url {
            host: Bytes::new(alloc, host)?,
            port,
            path: Bytes::new(alloc, path)?,
        })
    }

    fn before_slash(bytes: &[u8]) -> &[u8]
        ensures { result.now ≡ before_first is_slash bytes.now }
    {
        &bytes[..place_of(bytes, b'/')]
    }

    fn before_colon(bytes: &[u8]) -> &[u8]
        ensures { result.now ≡ before_first is_colon bytes.now }
    {
        &bytes[..place_of(bytes, b':')]
    }

    fn from_colon(bytes: &[u8]) -> &[u8]
        ensures { result.now ≡ from_colon bytes.now }
    {
        &bytes[place_of(bytes, b':')..]
    }

    fn port_in(tail: &[u8]) -> Option<u16>
        ensures { MatchOption result (port_in tail.now ≡ None) (λ p. port_in tail.now ≡ Some p) }
    {
        match tail {
            [] => Some(80),
            [_, digits @ ..] => Url::port_of(digits),
        }
    }

    fn port_of(digits: &[u8]) -> Option<u16>
        ensures { MatchOption result (port_of digits.now ≡ None) (λ p. port_of digits.now ≡ Some p) }
    {
        if !Url::is_short(digits) {
            return None;
        }
        Url::numbered(value_of(digits))
    }

    fn numbered(number: u64) -> Option<u16>
        ensures { MatchOption result (numbered number ≡ None) (λ p. numbered number ≡ Some p) }
    {
        if number > 0 && number <= limits::MOST_PORT {
            return Some(number as u16);
        }
        None
    }

    fn is_short(digits: &[u8]) -> bool
        ensures value { result ≡ is_short digits.now }
        ensures digits { IsTrue result → IsTrue (list_all is_ascii_digit digits.now) }
        ensures few { IsTrue result → length digits.now ≤ 5 }
    {
        !digits.is_empty() && digits.len() <= 5 && all_digits(digits)
    }

    /// Whether a word is a host: 1 to 255 letters, digits, `-` and `.` (RFC 1123, section 2.1).
    pub fn is_host(host: &[u8]) -> bool
        ensures { result ≡ is_host host.now }
    {
        !host.is_empty() && host.len() <= limits::MOST_HOST && Url::are_host_bytes(host)
    }

    fn are_host_bytes(bytes: &[u8]) -> bool
        ensures { result ≡ list_all is_host_byte bytes.now }
    {
        bytes.iter().all(|b| Url::is_host_byte(*b))
    }

    fn is_host_byte(b: u8) -> bool
        ensures { result ≡ is_host_byte b }
    {
        b.is_ascii_alphanumeric() || b == b'-' || b == b'.'
    }

    fn is_path(path: &[u8]) -> bool
        ensures { result ≡ is_path path.now }
    {
        path.len() > 1 && Url::are_path_bytes(path)
    }

    fn are_path_bytes(bytes: &[u8]) -> bool
        ensures { result ≡ list_all is_path_byte bytes.now }
    {
        bytes.iter().all(|b| Url::is_path_byte(*b))
    }

    fn is_path_byte(b: u8) -> bool
        ensures { result ≡ is_path_byte b }
    {
        b >= 33 && b <= 126 && !(b == b'?' || b == b'#')
    }
}
