//! Arrays in the bytes of a response (DAP 2.0, arrays).

ghost use Rattle.std.specs.Prelude.{◌≡◌, ◌++◌, ℕ, List, length};
ghost use Rattle.dap_model.specs.Fits.{values_in};
ghost use Rattle.dap_model.specs.Xdr.{bytes_of};
ghost use Rattle.dap_types.specs.Model.{Tree};
ghost use Rattle.xdr_decode.specs.inner.Taken.{elements_fields};
ghost use Rattle.xdr_values.specs.Walked.{StandsArray};
ghost use Rattle.xdr_encode.specs.Leaves.{counts_of, filler_of};

use crate::elements::behind;
use crate::scalars::{fill, split};
use dap_types::{ArrayDecl, BaseType};
use xdr_decode::elements;

/// How many bytes the counts before the elements have: one count before strings, and else two.
#[tactic(auto, unfolding(xdr_encode::specs::Leaves::counts_of))]
fn counts_width(base: BaseType) -> usize
    ensures { (n : ℕ) → result ≡ length (counts_of base n) }
{
    match base {
        BaseType::Text | BaseType::Url => 4,
        _ => 8,
    }
}

/// What stands behind the elements of an array: the zero bytes behind packed bytes are passed over.
#[tactic(auto, unfolding(xdr_encode::specs::Leaves::filler_of))]
fn behind_filler(base: BaseType, count: u64, bytes: &[u8]) -> &[u8]
    ensures { (rest : List ℕ) → bytes.now ≡ filler_of base count ++ rest → result.now ≡ rest }
{
    match base {
        BaseType::Byte => split(bytes, fill((count % 4) as usize)).1,
        _ => bytes,
    }
}

/// The elements of an array where they stand, in their own bytes, and what stands behind the array.
pub fn elements_of<'a>(decl: &ArrayDecl, bytes: &'a [u8]) -> (&'a [u8], &'a [u8])
    ensures own { (t : Tree) (rest : List ℕ) → StandsArray decl.now t bytes.now rest → result.0.now ≡ bytes_of (elements_fields decl.now.base (values_in t)) }
    ensures rest { (t : Tree) (rest : List ℕ) → StandsArray decl.now t bytes.now rest → result.1.now ≡ rest }
{
    let count = elements(decl.dims.items());
    let (_, first) = split(bytes, counts_width(decl.base));
    let rest = behind(decl.base, count, first);
    let (own, _) = split(first, first.len().saturating_sub(rest.len()));
    (own, behind_filler(decl.base, count, rest))
}

/// What stands behind an array.
pub fn behind_array<'a>(decl: &ArrayDecl, bytes: &'a [u8]) -> &'a [u8]
    ensures { (t : Tree) (rest : List ℕ) → StandsArray decl.now t bytes.now rest → result.now ≡ rest }
{
    elements_of(decl, bytes).1
}
