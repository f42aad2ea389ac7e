//! Whether the names of a response differ where constraints spell them.

ghost use Rattle.std.specs.Prelude.{◌≡◌, None, OnOk, IfErr};
ghost use Rattle.dap_types.specs.View.{dataset_view};
ghost use Rattle.dap_types.specs.WellFormed.{IsWellFormed};
ghost use Rattle.saved_source.specs.Responses.{first_repeated, saved_dataset as dataset_of};
ghost use Rattle.saved_source.specs.inner.Repeating.{Tells};

use crate::refusal::SavedRefusal;
use crate::renamed::saved_dataset;
use dap_types::{Dataset, Unfit, check};
use std::alloc::Global;

/// Whether the members of each level have different names. Nothing else can be wrong with them.
pub fn check_names(alloc: Global, file_name: &[u8], response: &Dataset) -> Result<(), SavedRefusal>
    requires { IsWellFormed (dataset_view response.now) }
    ensures differ { OnOk result (first_repeated (dataset_of file_name.now (dataset_view response.now)) ≡ None) }
    ensures well_formed { OnOk result (IsWellFormed (dataset_of file_name.now (dataset_view response.now))) }
    ensures first { IfErr result (Tells (first_repeated (dataset_of file_name.now (dataset_view response.now)))) }
{
    let dataset = saved_dataset(alloc, file_name, response)?;
    match check(alloc, &dataset) {
        Ok(()) => Ok(()),
        Err(Unfit::Repeated { member }) => Err(SavedRefusal::RepeatedName { member }),
        Err(Unfit::Memory) => Err(SavedRefusal::Memory),
        Err(Unfit::TooDeep { member: _ }) => unreachable!(),
        Err(Unfit::TooMany) => unreachable!(),
        Err(Unfit::BadGrid { member: _ }) => unreachable!(),
        Err(Unfit::BadSize { member: _ }) => unreachable!(),
    }
}
