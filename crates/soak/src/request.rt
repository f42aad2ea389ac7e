//! The request for a part of each variable of the file.

ghost use Rattle.std.specs.Prelude.{◌≡◌, ◌≤◌, ◌-◌, IfOk, codes};
ghost use Rattle.soak.specs.Asked.{constraint_text, request};

use dap_http::{Kind, Url, UrlRefusal, request_bytes};
use dap_types::{Bytes, Memory};
use std::alloc::Global;

/// The constraint, whose last record is the file's.
fn constraint(alloc: Global, records: u32) -> Result<Vec<u8>, Memory>
    requires some { 1 ≤ records }
    ensures { IfOk result (λ v. v.items ≡ constraint_text records) }
{
    let mut digits = itoa::Buffer::new();
    let last = digits.format(records - 1).as_bytes();
    let mut text = Vec::new(alloc);
    text.extend_from_slice(b"s[0:2:")?;
    text.extend_from_slice(last)?;
    text.extend_from_slice(b"][0:31][1:3:31],i[0:")?;
    text.extend_from_slice(last)?;
    text.extend_from_slice(b"][31:31][0:31]")?;
    Ok(text)
}

/// The URL of the file.
fn url(alloc: Global) -> Result<Url, Memory>
    ensures { IfOk result (λ u. (u.host ≡ codes "localhost") × (u.port ≡ 80) × (u.path ≡ codes "/soak.nc")) }
{
    match Url::read(alloc, "http://localhost/soak.nc") {
        Ok(url) => Ok(url),
        Err(UrlRefusal::BadUrl) => unreachable!(),
        Err(UrlRefusal::Memory) => Err(Memory),
    }
}

/// The bytes of the request, which asks that the connection be closed behind the reply.
pub fn soak_request(alloc: Global, records: u32) -> Result<Bytes, Memory>
    requires some { 1 ≤ records }
    ensures { IfOk result (λ b. b ≡ request records) }
{
    let constraint = constraint(alloc, records)?;
    request_bytes(alloc, &url(alloc)?, Kind::Dods, constraint.as_slice(), true)
}
