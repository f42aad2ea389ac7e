ghost use Rattle.std.specs.Prelude.{◌≡◌, IfOk, string_bytes};
ghost use Rattle.dap_http.specs.Texts.{escaped, query_text};

use dap_types::Memory;
use percent_encoding::{AsciiSet, NON_ALPHANUMERIC, ascii_set, percent_encode};
use std::alloc::Global;

/// The bytes of a constraint that a request escapes (RFC 3986, section 2.1).
const ESCAPED: AsciiSet = ascii_set!(
    NON_ALPHANUMERIC
        .remove(b'-')
        .remove(b'_')
        .remove(b'.')
        .remove(b'~')
        .remove(b',')
        .remove(b'&')
        .remove(b'=')
        .remove(b':')
        .remove(b'/')
);

fn escaped(alloc: Global, bytes: &[u8]) -> Result<String, Memory>
    ensures { IfOk result (λ s. string_bytes s ≡ escaped bytes.now) }
{
    let mut out = String::new(alloc);
    percent_encode(bytes, ESCAPED).append_to(&mut out)?;
    Ok(out)
}

/// `?` and the constraint, where it is not empty.
pub fn query_text(alloc: Global, ce: &[u8]) -> Result<Vec<u8>, Memory>
    ensures { IfOk result (λ v. v.items ≡ query_text ce.now) }
{
    let mut out = Vec::new(alloc);
    if let [_, ..] = ce {
        let text = escaped(alloc, ce)?;
        out.push(b'?')?;
        out.extend_from_slice(text.as_bytes())?;
    }
    Ok(out)
}
