//! The verdict on a body that stands in memory.

ghost use Rattle.std.specs.Prelude.{◌≡◌, ◌≤◌, length, map, IfOk, IfErr, MatchBool};
ghost use Rattle.dap_types.specs.View.{dataset_view, tree_view};
ghost use Rattle.dap_model.specs.Body.{IsBody};
ghost use Rattle.dap_model.specs.Xdr.{Spells};
ghost use Rattle.dds_text.specs.Reading.{IsDone};
ghost use Rattle.xdr_decode.specs.Verdict.{Gives, IsGood, IsRefusal, IsVerdict, Verdict, budget, good_of};
ghost use Rattle.xdr_decode.specs.declared.filled.AllRefusal.TheVariants.{Refused};
ghost use Rattle.reply_faults.specs.declared.bad.Bad.TheVariants.{TooLong};
ghost use Rattle.xdr_decode.specs.inner.Deciding.{IsRefusalIn, IsValuesRefusal, RanOut};

use crate::data_line::{LineStop, data_line};
use crate::trees::members;
use crate::values::Stop;
use crate::{AllRefusal, Bad, BadField, Filled};
use dap_types::{Dataset, limits};
use dds_text::{DdsReader, DdsStep};
use std::alloc::Global;

/// A body has fewer bytes.
const BUDGET: usize = limits::BODY_LIMIT as usize;

/// This is wrong, at a place.
pub(crate) fn refused(kind: Bad, place: usize) -> AllRefusal
    ensures { result ≡ Refused (record { kind = kind; place = place }) }
{
    AllRefusal::Refused(BadField {
        kind,
        place: place as u64,
    })
}

/// The dataset whose text begins a body, and how many bytes the text has.
pub(crate) fn dataset(alloc: Global, body: &[u8]) -> Result<(Dataset, usize), AllRefusal>
    ensures within { IfOk result (λ r. r.1 ≤ length body.now) }
    ensures read { IfOk result (λ r. IsDone body.now r.1 (dataset_view r.0)) }
    ensures refused { IfErr result (IsRefusalIn body.now) }
{
    let mut reader = DdsReader::new(alloc, 0);
    match reader.push(body)? {
        DdsStep::More => Err(refused(Bad::Cut, body.len())),
        DdsStep::Bad { place } => Err(AllRefusal::Refused(BadField {
            kind: Bad::BadDds,
            place,
        })),
        DdsStep::Done { used } => match reader.dataset() {
            Some(dataset) => Ok((dataset, used)),
            None => unreachable!(),
        },
    }
}

/// A dataset and its values, with which a body of so many bytes ends.
fn fill(alloc: Global, dataset: Dataset, whole: usize, values: &[u8]) -> Result<Filled, AllRefusal>
    requires { length values.now ≤ whole }
    ensures dataset { IfOk result (λ f. dataset_view f.dataset ≡ dataset_view dataset) }
    ensures values { IfOk result (λ f. Spells (dataset_view f.dataset) (map tree_view f.values) values.now) }
    ensures refused { IfErr result (IsValuesRefusal (dataset_view dataset) whole values.now) }
{
    match members(alloc, dataset.members.items(), values) {
        Ok((trees, rest)) => {
            if rest.is_empty() {
                return Ok(Filled {
                    dataset,
                    values: trees,
                });
            }
            Err(refused(Bad::Trailing, whole.saturating_sub(rest.len())))
        }
        Err(Stop::Wrong(kind, left)) => Err(refused(kind, whole.saturating_sub(left))),
        Err(Stop::Memory) => Err(AllRefusal::Memory),
    }
}

/// The verdict on a body, whatever its length.
fn decode_front(alloc: Global, body: &[u8]) -> Result<Filled, AllRefusal>
    ensures good { IfOk result
        (λ f. IsGood body.now (dataset_view f.dataset) (map tree_view f.values)) }
    ensures refused { IfErr result (IsRefusalIn body.now) }
{
    let (dataset, used) = dataset(alloc, body)?;
    match data_line(&body[used..]) {
        Ok(values) => fill(alloc, dataset, body.len(), values),
        Err(LineStop::Cut) => Err(refused(Bad::Cut, body.len())),
        Err(LineStop::Differs(left)) => Err(refused(
            Bad::BadDataLine,
            body.len().saturating_sub(left),
        )),
    }
}

/// There are too many bytes.
#[tactic(auto, unfolding(crate::specs::Verdict::budget))]
fn too_long() -> AllRefusal
    ensures { result ≡ Refused (record { kind = TooLong; place = budget }) }
{
    AllRefusal::Refused(BadField {
        kind: Bad::TooLong,
        place: BUDGET as u64,
    })
}

/// Whether nothing is wrong but that the bytes end.
fn ran_out(answer: &Result<Filled, AllRefusal>) -> bool
    ensures { MatchBool result (RanOut answer.now) (¬ (RanOut answer.now)) }
{
    match answer {
        Ok(_) => true,
        Err(AllRefusal::Refused(bad)) => bad.kind == Bad::Cut,
        Err(_) => false,
    }
}

/// The verdict on a body.
fn decode_body(alloc: Global, body: &[u8]) -> Result<Filled, AllRefusal>
    ensures good { IfOk result (λ filled. IsVerdict body.now (good_of filled)) }
    ensures refused { IfErr result (IsRefusal body.now) }
{
    if body.len() < BUDGET {
        return decode_front(alloc, body);
    }
    let answer = decode_front(alloc, &body[..BUDGET]);
    if ran_out(&answer) {
        return Err(too_long());
    }
    answer
}

/// The dataset and the values of a body (DAP 2.0, DODS; RFC 4506): a DDS, the line `Data:`, and a
/// spelling of values of its dataset. `Refused` says what is wrong first, with its place; `Memory` comes
/// where memory is wanted, and in place of any other answer.
pub fn decode_all(alloc: Global, body: &[u8]) -> Result<Filled, AllRefusal>
    ensures body { IfOk result (λ filled.
        IsBody body.now (dataset_view filled.dataset) (map tree_view filled.values)) }
    ensures good { IfOk result (λ filled. IsVerdict body.now (good_of filled)) }
    ensures refused { IfErr result (IsRefusal body.now) }
    ensures only { (v : Verdict) → IsVerdict body.now v → Gives result v }
{
    decode_body(alloc, body)
}
