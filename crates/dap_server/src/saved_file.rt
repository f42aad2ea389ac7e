ghost use Rattle.std.specs.Prelude.{IsTrue, is_none};
ghost use Rattle.dap_types.specs.WellFormed.{fault};
ghost use Rattle.saved_source.specs.Responses.{dataset_in};

use dap_types::{Dataset, Memory};
use saved_source::Saved;
use std::alloc::Global;

/// A saved data response that was read from its file.
#[derive(Drop)]
pub struct SavedFile {
    pub saved: Saved,
    ghost faultless: { IsTrue (is_none (fault (dataset_in saved))) },
}

impl SavedFile {
    ghost use Rattle.std.specs.Prelude.{◌≡◌, IfOk};
    ghost use Rattle.dap_types.specs.View.{dataset_view};
    ghost use Rattle.dap_types.specs.WellFormed.{IsWellFormed};
    ghost use Rattle.saved_source.specs.Responses.{dataset_in};

    /// The dataset that it is served as. Fails where memory is wanted.
    pub fn dataset(&self, alloc: Global) -> Result<Dataset, Memory>
        ensures dataset { IfOk result (λ d. dataset_view d ≡ dataset_in self.now.saved) }
        ensures well_formed { IfOk result (λ d. IsWellFormed (dataset_view d)) }
    {
        let dataset = self.saved.dataset(alloc)?;
        Ok(dataset)
    }
}
