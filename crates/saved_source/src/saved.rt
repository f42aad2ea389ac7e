ghost use Rattle.std.specs.Prelude.{◌≡◌, ◌≢◌, ◌≤◌, ◌⊎◌, ℕ, List, length, IfOk, IfErr, MatchResult};
ghost use Rattle.dap_types.specs.Model.{Tree};
ghost use Rattle.dap_types.specs.Model as model;
ghost use Rattle.dap_types.specs.View.{dataset_view};
ghost use Rattle.dap_types.specs.WellFormed.{IsWellFormed};
ghost use Rattle.saved_source.specs.Refusals.{IsRefusal};
ghost use Rattle.das_text.specs.View.{attributes_view};
ghost use Rattle.saved_source.specs.Responses.{Holds, IsSaved, dataset_in, saved_attributes, values_of};

use crate::containers::empty_containers;
use crate::names::check_names;
use crate::refusal::SavedRefusal;
use crate::renamed::saved_dataset;
use crate::verdict::checked;
use dap_types::{Bytes, Dataset, Memory, limits};
use das_text::Attributes;
use std::alloc::Global;

/// The most bytes of a saved response.
const MOST: usize = limits::MOST_SAVED;

/// A data response that was saved: the dataset of the response, the bytes of its file, and the name
/// of its file. Contracts see the dataset that it is served as by `dataset_in`, and its values by `Holds`.
#[derive(Debug, Drop)]
pub struct Saved {
    pub(crate) response: Dataset,
    /// The whole file, and the place of the first byte of the values.
    pub(crate) bytes: Bytes,
    pub(crate) values_at: usize,
    pub(crate) file_name: Bytes,
}

/// The response in the bytes of a file, which it keeps. It says what `read_saved` does, and takes memory
/// for the dataset and the file's name alone.
pub fn hold_saved(alloc: Global, bytes: Bytes, file_name: &[u8]) -> Result<Saved, SavedRefusal>
    ensures saved { IfOk result (λ s. (ts : List Tree) × IsSaved bytes file_name.now (dataset_in s) ts × Holds s ts) }
    ensures well_formed { IfOk result (λ s. IsWellFormed (dataset_in s)) }
    ensures refused { IfErr result (IsRefusal bytes file_name.now) }
{
    let whole = bytes.bytes();
    if whole.len() > MOST {
        return Err(SavedRefusal::TooLong);
    }
    let checked = checked(alloc, whole)?;
    check_names(alloc, file_name, &checked.dataset)?;
    let name = Bytes::new(alloc, file_name)?;
    Ok(Saved {
        response: checked.dataset,
        bytes,
        values_at: checked.values_at,
        file_name: name,
    })
}

/// The response in a copy of these bytes, of which there are not too many.
fn read(alloc: Global, bytes: &[u8], file_name: &[u8]) -> Result<Saved, SavedRefusal>
    ensures saved { IfOk result (λ s. (ts : List Tree) × IsSaved bytes.now file_name.now (dataset_in s) ts × Holds s ts) }
    ensures well_formed { IfOk result (λ s. IsWellFormed (dataset_in s)) }
    ensures refused { IfErr result (IsRefusal bytes.now file_name.now) }
{
    if bytes.len() > MOST {
        return Err(SavedRefusal::TooLong);
    }
    let copy = Bytes::new(alloc, bytes)?;
    hold_saved(alloc, copy, file_name)
}

/// Reads a file that holds a data response (DAP 2.0, DODS). `TooLong` comes where it has more than
/// 67,108,864 bytes, else `BadBody` with the place of what is wrong first where it is no data response,
/// else `RepeatedName` with the first member that has, as constraints spell names, that of an earlier
/// one of its level. `Memory` comes where memory is wanted, and in place of any other answer.
pub fn read_saved(alloc: Global, bytes: &[u8], file_name: &[u8]) -> Result<Saved, SavedRefusal>
    ensures saved { IfOk result (λ s. (ts : List Tree) × IsSaved bytes.now file_name.now (dataset_in s) ts × Holds s ts) }
    ensures well_formed { IfOk result (λ s. IsWellFormed (dataset_in s)) }
    ensures refused { IfErr result (IsRefusal bytes.now file_name.now) }

    // Each of these is answered, unless memory is wanted.
    ensures read { (d : model.Dataset) (ts : List Tree) → IsSaved bytes.now file_name.now d ts → MatchResult result (λ s. (dataset_in s ≡ d) × Holds s ts) (λ refusal. refusal ≡ SavedRefusal.Memory) }
    ensures first { (why : SavedRefusal) → why ≢ SavedRefusal.Memory → IsRefusal bytes.now file_name.now why → MatchResult result (λ _. ⊥) (λ refusal. (refusal ≡ why) ⊎ (refusal ≡ SavedRefusal.Memory)) }
{
    read(alloc, bytes, file_name)
}

impl Saved {
    /// The bytes of its values.
    pub(crate) fn values(&self) -> &[u8]
        ensures { result.now ≡ values_of self.now }
    {
        let bytes = self.bytes.bytes();
        &bytes[self.values_at.min(bytes.len())..]
    }

    /// The dataset that the file is served as: that of its response, under the names that constraints
    /// spell and the name of the file. Fails where memory is wanted.
    #[tactic(auto, unfolding(crate::specs::Responses::dataset_in))]
    pub fn dataset(&self, alloc: Global) -> Result<Dataset, Memory>
        ensures { IfOk result (λ d. dataset_view d ≡ dataset_in self.now) }
    {
        saved_dataset(alloc, self.file_name.bytes(), &self.response)
    }

    /// Its attributes: for each variable a container without entries (DAP 2.0, DAS). Fails where memory
    /// is wanted.
    #[tactic(auto, unfolding(crate::specs::Responses::dataset_in))]
    pub fn attributes(&self, alloc: Global) -> Result<Attributes, Memory>
        ensures { IfOk result (λ a. attributes_view a ≡ saved_attributes (dataset_in self.now)) }
    {
        empty_containers(alloc, self.response.members.items())
    }
}
