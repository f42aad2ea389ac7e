ghost use Rattle.std.specs.Prelude.{◌≡◌, ℕ, List, [], map, IfOk, slice_get};
ghost use Rattle.std.specs.List.{list_all};
ghost use Rattle.std.specs.Option.{option_map_or};
ghost use Rattle.dap_types.specs.Names.{is_kept_byte, file_id};

use crate::Dimension;
use dap_types::{Id, List, Memory};
use std::alloc::Global;

/// Whether a byte of a name stays as it is.
fn is_kept(byte: u8) -> bool
    ensures { result ≡ is_kept_byte byte }
{
    matches!(byte, b'a'..=b'z' | b'A'..=b'Z' | b'0'..=b'9' | b'_' | b'-' | b'+' | b'*' | b'/')
}

/// Whether each byte of a name stays as it is. It looks at all of them, many at a time.
#[inline(never)]
fn are_kept(name: &[u8]) -> bool
    ensures { result ≡ list_all is_kept_byte name.now }
{
    let mut kept = true;
    for byte in name {
        kept &= is_kept(*byte);
    }
    kept
}

/// The name of a variable that a file names so. Where no byte is escaped, as in most names, it is
/// copied whole.
#[inline]
#[tactic(auto, using(crate::proofs::EscapedNames::kept_names))]
pub fn file_id(alloc: Global, name: &Id) -> Result<Id, Memory>
    ensures { IfOk result (λ id. id ≡ file_id name.now) }
{
    if are_kept(name.bytes()) {
        name.try_clone()
    } else {
        Id::of_file(alloc, name.bytes())
    }
}

/// The same of a name where it stands in a header.
#[tactic(auto, using(crate::proofs::EscapedNames::kept_names))]
pub fn stored_id(alloc: Global, name: &[u8]) -> Result<Id, Memory>
    ensures { IfOk result (λ id. id ≡ file_id name.now) }
{
    if are_kept(name) {
        Id::raw(alloc, name)
    } else {
        Id::of_file(alloc, name)
    }
}

/// The names of some dimensions as those of variables, in order.
pub fn dimension_ids(alloc: Global, dimensions: &[Dimension]) -> Result<List<Id>, Memory>
    ensures { IfOk result (λ ids. ids ≡ map (λ d. file_id d.name) dimensions.now) }
{
    let mut ids = List::with_capacity(alloc, dimensions.len())?;
    for dimension in dimensions {
        ids.push(file_id(alloc, &dimension.name)?)?;
    }
    Ok(ids)
}

/// A copy of the name of dimension number `id`.
pub fn dimension_id(alloc: Global, ids: &[Id], id: u64) -> Result<Id, Memory>
    ensures { IfOk result (λ name. name ≡ option_map_or (λ i. i) (slice_get ids.now id) []) }
{
    match ids.get(id as usize) {
        Some(name) => name.try_clone(),
        None => Id::raw(alloc, &[]),
    }
}
