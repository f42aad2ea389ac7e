//! The host that a link goes to, as text.

ghost use Rattle.std.specs.Prelude.{◌≡◌, IsTrue};
ghost use Rattle.dap_http.specs.Urls.{is_host};
ghost use Rattle.dap_client.specs.Fetched.{IsUrl};

use dap_http::Url;
use std::str;

/// A host as text.
pub fn host_text(host: &[u8]) -> &str
    requires { IsTrue (is_host host.now) }
    ensures { result.now ≡ host.now }
{
    match str::from_utf8(host) {
        Ok(text) => text,
        Err(_) => unreachable!(),
    }
}

/// The host of a URL.
pub fn host_of(url: &Url) -> &str
    requires { IsUrl url.now }
    ensures { result.now ≡ url.now.host }
{
    host_text(url.host.bytes())
}
