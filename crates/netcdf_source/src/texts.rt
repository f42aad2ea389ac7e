ghost use Rattle.std.specs.Prelude.{◌≡◌, ℕ, ◌<◌, Bool, List};
ghost use Rattle.netcdf_source.specs.Mapping.{is_char, has_single_bytes, has_texts, element_dimensions, element_size, is_offered};
ghost use Rattle.netcdf_source.specs.Parts.{lengths, length_at};

use crate::dimensions::length_of;
use crate::header::Contents;
use crate::sizes::are_small;
use crate::{Dimension, ExternalType, Variable};
use dap_types::limits;

/// The most bytes of a text that is offered.
const TEXT_MAX: u64 = limits::MOST_PIECE as u64;

/// Whether the values of a variable are chars.
pub fn is_char(variable: &Variable) -> bool
    ensures { result ≡ is_char variable.now }
{
    matches!(variable.external_type, ExternalType::Char)
}

/// Whether the texts over these dimensions have one byte each.
fn has_single_bytes(dimensions: &[Dimension], ids: &[u64]) -> bool
    ensures { result ≡ has_single_bytes (lengths dimensions.now ids.now) }
{
    match ids {
        [] => true,
        [id] => length_of(dimensions, *id) == 0,
        _ => false,
    }
}

/// Whether the last dimension of a variable is that of the bytes of its texts.
#[tactic(auto, unfolding(crate::specs::Mapping::has_texts))]
fn has_texts(contents: &Contents, variable: &Variable) -> bool
    ensures { result ≡ has_texts contents.now variable.now }
{
    is_char(variable) && !has_single_bytes(contents.dimensions.items(), variable.dimensions.items())
}

/// The dimensions of a variable's elements.
#[tactic(auto, unfolding(crate::specs::Mapping::element_dimensions))]
pub fn element_dimensions<'a>(contents: &Contents, variable: &'a Variable) -> &'a [u64]
    ensures { result.now ≡ element_dimensions contents.now variable.now }
{
    let ids = variable.dimensions.items();
    if has_texts(contents, variable) {
        &ids[..ids.len().saturating_sub(1)]
    } else {
        ids
    }
}

/// The bytes of a variable's element.
#[tactic(auto, unfolding(crate::specs::Mapping::element_size))]
pub fn element_size(contents: &Contents, variable: &Variable) -> u64
    ensures { result ≡ element_size contents.now variable.now }
{
    if !has_texts(contents, variable) {
        return u64::from(variable.external_type.size());
    }
    let ids = variable.dimensions.items();
    let last = ids.get(ids.len().saturating_sub(1)).map_or(0, |id| *id);
    length_of(contents.dimensions.items(), last)
}

/// Whether a variable is offered: DAP 2.0 has its type, its sizes are those of an array, and its texts
/// are not too long.
#[tactic(auto, unfolding(crate::specs::Mapping::is_offered))]
pub fn is_offered(contents: &Contents, variable: &Variable) -> bool
    ensures { result ≡ is_offered contents.now variable.now }
{
    !variable.external_type.is_long()
        && are_small(contents, variable.dimensions.items())
        && element_size(contents, variable) <= TEXT_MAX
}
