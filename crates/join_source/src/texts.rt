//! What stands around the elements of a leaf (RFC 4506; DAP 2.0, arrays).

ghost use Rattle.std.specs.Prelude.{◌≡◌, ◌≤◌, ◌++◌, IfOk, OnOk};
ghost use Rattle.dap_model.specs.Xdr.{word};
ghost use Rattle.xdr_encode.specs.Leaves.{counts_of, filler_of, zeros_before};

use dap_types::{BaseType, Bytes, Memory};
use std::alloc::Global;
use xdr_encode::zeros_before;

/// The count of an array: once before texts, and else twice.
#[tactic(auto, unfolding(xdr_encode::specs::Leaves::counts_of))]
pub fn counts(alloc: Global, base: BaseType, count: u32) -> Result<Bytes, Memory>
    ensures { IfOk result (λ text. text ≡ counts_of base count) }
{
    match base {
        BaseType::Text | BaseType::Url => once(alloc, count),
        _ => twice(alloc, count),
    }
}

fn once(alloc: Global, count: u32) -> Result<Bytes, Memory>
    ensures { IfOk result (λ text. text ≡ word count) }
{
    Bytes::new(alloc, &count.to_be_bytes())
}

fn twice(alloc: Global, count: u32) -> Result<Bytes, Memory>
    ensures { IfOk result (λ text. text ≡ word count ++ word count) }
{
    let mut text = Vec::with_capacity(alloc, 8)?;
    text.extend_from_slice(&count.to_be_bytes())?;
    text.extend_from_slice(&count.to_be_bytes())?;
    Ok(Bytes::from_vec(text))
}

/// The zero bytes behind so many elements of an array.
pub fn filler(alloc: Global, base: BaseType, count: u32) -> Result<Bytes, Memory>
    ensures { IfOk result (λ text. text ≡ filler_of base count) }
{
    Bytes::new(alloc, xdr_encode::filler(base, count))
}

/// The zero bytes before the byte of a scalar Byte.
pub fn before_scalar(alloc: Global, base: BaseType) -> Result<Bytes, Memory>
    ensures { IfOk result (λ text. text ≡ zeros_before base) }
{
    Bytes::new(alloc, zeros_before(base))
}
