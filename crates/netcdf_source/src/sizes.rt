ghost use Rattle.std.specs.Prelude.{◌≡◌, ℕ, ◌≤◌, Bool, true, nat_le};
ghost use Rattle.std.specs.List.{list_all};
ghost use Rattle.netcdf_source.specs.Mapping.{size_at, are_small};

use crate::dimensions::length_of;
use crate::header::Contents;
use dap_types::limits;

/// The largest size of an array's dimension.
const SIZE_MAX: u64 = limits::MOST_ELEMENTS;

/// The number of indexes of a dimension: as many as records for the record dimension.
pub fn size_at(contents: &Contents, id: u64) -> u64
    ensures { result ≡ size_at contents.now id }
{
    let length = length_of(contents.dimensions.items(), id);
    if length == 0 {
        contents.records
    } else {
        length
    }
}

/// Whether the sizes of these dimensions are those of an array.
#[tactic(auto, unfolding(crate::specs::Mapping::are_small))]
pub fn are_small(contents: &Contents, ids: &[u64]) -> bool
    ensures { result ≡ are_small contents.now ids.now }
{
    for id in ids {
        if size_at(contents, *id) > SIZE_MAX {
            return false;
        }
    }
    true
}
