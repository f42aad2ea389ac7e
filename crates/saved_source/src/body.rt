ghost use Rattle.std.specs.Prelude.{◌<◌, ◌+◌, ◌^◌};
ghost use Rattle.dap_types.specs.Model.{count_all};
ghost use Rattle.dap_types.specs.View.{members_view};

use crate::saved::Saved;
use dap_types::Bytes;
use grid_projection::Marks;
use sequence_select::Tests;

/// The data response for what a constraint leaves of a saved one. Contracts see the text that it sends by
/// `Sends`.
#[derive(Drop)]
pub struct SavedBody {
    /// The DDS and the line `Data:`.
    pub(crate) head: Bytes,
    pub(crate) saved: Saved,
    pub(crate) marks: Marks,
    pub(crate) tests: Tests,
    ghost few: { 1 + count_all (members_view saved.response.members) < 2 ^ 32 },
}
