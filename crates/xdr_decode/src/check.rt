//! The verdict on a body that stands in memory, of which no trees are made.

ghost use Rattle.std.specs.Prelude.{◌≡◌, ◌<◌, ◌≤◌, ◌+◌, ◌^◌, ℕ, List, length, IfOk, IfErr};
ghost use Rattle.dap_types.specs.Model.{Tree};
ghost use Rattle.dap_types.specs.View.{dataset_view};
ghost use Rattle.dap_types.specs.WellFormed.{IsWellFormed};
ghost use Rattle.dap_model.specs.Xdr.{Spells};
ghost use Rattle.xdr_decode.specs.Checking.{IsChecked, IsGoodAt, Tells};
ghost use Rattle.xdr_decode.specs.Verdict.{IsRefusal, IsVerdict, Verdict};
ghost use Rattle.xdr_decode.specs.inner.Deciding.{IsRefusalIn, IsValuesRefusal};

use crate::data_line::{LineStop, data_line};
use crate::decode::{dataset, refused};
use crate::{AllRefusal, Bad, BadField, Decoder, Pushed};
use dap_types::Dataset;
use std::alloc::Global;

/// The dataset of a body, and the place of the first byte of its values.
#[derive(Debug, Drop)]
pub struct Checked {
    pub dataset: Dataset,
    pub values_at: usize,
}

/// Judges the values of a dataset, with which a body of so many bytes ends.
fn check_values(dataset: Dataset, whole: usize, values: &[u8]) -> Result<Dataset, AllRefusal>
    requires within { length values.now ≤ whole }
    requires few { whole < 2 ^ 62 }
    requires well_formed { IsWellFormed (dataset_view dataset) }
    ensures dataset { IfOk result (λ d. dataset_view d ≡ dataset_view dataset) }
    ensures values { IfOk result (λ d. (ts : List Tree) × Spells (dataset_view dataset) ts values.now) }
    ensures refused { IfErr result (IsValuesRefusal (dataset_view dataset) whole values.now) }
{
    let start = (whole - values.len()) as u64;
    let mut decoder = Decoder::new(dataset, start);
    match decoder.judge(values) {
        Pushed::Done { used } => {
            if used < values.len() {
                return Err(refused(Bad::Trailing, start as usize + used));
            }
            Ok(decoder.into_dataset())
        }
        Pushed::More => Err(refused(Bad::Cut, whole)),
        Pushed::Refused(bad) => Err(AllRefusal::Refused(bad)),
        Pushed::WriteFault => unreachable!(),
    }
}

/// The verdict on a body, whatever its length.
fn check_front(alloc: Global, body: &[u8]) -> Result<Checked, AllRefusal>
    requires { length body.now < 1099511627776 }
    ensures good { IfOk result (λ c. (ts : List Tree) × IsGoodAt body.now c ts) }
    ensures refused { IfErr result (IsRefusalIn body.now) }
{
    let (dataset, used) = dataset(alloc, body)?;
    match data_line(&body[used..]) {
        Ok(values) => {
            let values_at = body.len() - values.len();
            let dataset = check_values(dataset, body.len(), values)?;
            Ok(Checked { dataset, values_at })
        }
        Err(LineStop::Cut) => Err(refused(Bad::Cut, body.len())),
        Err(LineStop::Differs(left)) => Err(refused(
            Bad::BadDataLine,
            body.len().saturating_sub(left),
        )),
    }
}

/// The same verdict as `decode_all` gives, on a body of fewer than 2^40 bytes, and where it is good its
/// dataset and where its values stand. No trees are made; memory is taken for the dataset alone.
pub fn check_all(alloc: Global, body: &[u8]) -> Result<Checked, AllRefusal>
    requires { length body.now < 1099511627776 }
    ensures good { IfOk result (λ c. (ts : List Tree) × IsChecked body.now c ts) }
    ensures refused { IfErr result (IsRefusal body.now) }
    ensures only { (v : Verdict) → IsVerdict body.now v → Tells result v }
{
    check_front(alloc, body)
}
