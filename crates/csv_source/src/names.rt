ghost use Rattle.std.specs.Prelude.{◌≡◌, IfOk, codes};
ghost use Rattle.csv_source.specs.Names.{sequence_name, without_suffix};

use dap_types::{Id, Memory};
use file_names::last_segment;
use std::alloc::Global;

/// The name of the Sequence of a table: as the dataset's, without `.csv` and with every `.` escaped.
pub(crate) fn sequence_id(alloc: Global, file_name: &[u8]) -> Result<Id, Memory>
    ensures { IfOk result (λ id. id ≡ sequence_name file_name.now) }
{
    Id::of_file(alloc, without_csv(last_segment(file_name)))
}

fn without_csv(name: &[u8]) -> &[u8]
    ensures { result.now ≡ without_suffix (codes ".csv") name.now }
{
    match name.strip_suffix(b".csv") {
        Some(front) => front,
        None => name,
    }
}
