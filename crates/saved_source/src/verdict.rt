//! The verdict on a response, as the client of DAP 2.0 gives it.

ghost use Rattle.std.specs.Prelude.{◌≡◌, ◌≤◌, ℕ, List, true, false, length, IfOk, IfErr};
ghost use Rattle.dap_types.specs.Limits.{most_saved};
ghost use Rattle.dap_types.specs.Model.{Tree};
ghost use Rattle.error_word.specs.Saying as saying;
ghost use Rattle.xdr_decode.specs.Checking.{IsChecked};
ghost use Rattle.saved_source.specs.Refusals.{IsObjectAt, IsRefusal};
ghost use Rattle.saved_source.specs.declared.refusal.SavedRefusal.{SavedRefusal};

use crate::refusal::SavedRefusal;
use dap_errors::{ErrorRefusal, read_error};
use dap_types::Memory;
use error_word::{begins_at, says_error};
use std::alloc::Global;
use xdr_decode::{AllRefusal, BadField, Checked, check_all};

/// Where an Error object is told, which is no data response: a whole one at its first word, another
/// where it is bad or where it ends. Fails where memory is wanted.
fn object_place(alloc: Global, bytes: &[u8]) -> Result<u64, Memory>
    ensures { IfOk result (IsObjectAt bytes.now) }
{
    match read_error(alloc, bytes) {
        Ok(_) => Ok(begins_at(bytes) as u64),
        Err(ErrorRefusal::Bad { place }) => Ok(place),
        Err(ErrorRefusal::Cut) => Ok(bytes.len() as u64),
        Err(ErrorRefusal::Memory) => Err(Memory),
    }
}

/// The refusal of an Error object.
fn object_refused(alloc: Global, bytes: &[u8]) -> SavedRefusal
    requires few { length bytes.now ≤ most_saved }
    requires error { saying.says_error bytes.now ≡ true }
    ensures { (file_name : List ℕ) → IsRefusal bytes.now file_name result }
{
    match object_place(alloc, bytes) {
        Ok(place) => SavedRefusal::BadBody { place },
        Err(Memory) => SavedRefusal::Memory,
    }
}

/// The refusal of a response that is bad where the field is.
fn bad_body(bad: BadField) -> SavedRefusal
    ensures { result ≡ SavedRefusal.BadBody bad.place }
{
    SavedRefusal::BadBody { place: bad.place }
}

/// A response that is no Error object and good, or what is wrong with it first.
fn data_checked(alloc: Global, bytes: &[u8]) -> Result<Checked, SavedRefusal>
    requires few { length bytes.now ≤ most_saved }
    requires data { saying.says_error bytes.now ≡ false }
    ensures good { IfOk result (λ c. (ts : List Tree) × IsChecked bytes.now c ts) }
    ensures refused { IfErr result (λ e. (file_name : List ℕ) → IsRefusal bytes.now file_name e) }
{
    match check_all(alloc, bytes) {
        Ok(checked) => Ok(checked),
        Err(AllRefusal::Refused(bad)) => Err(bad_body(bad)),
        Err(AllRefusal::Memory) => Err(SavedRefusal::Memory),
    }
}

/// A response that is good, or what is wrong with it first.
pub fn checked(alloc: Global, bytes: &[u8]) -> Result<Checked, SavedRefusal>
    requires { length bytes.now ≤ most_saved }
    ensures good { IfOk result (λ c. (ts : List Tree) × IsChecked bytes.now c ts) }
    ensures refused { IfErr result (λ e. (file_name : List ℕ) → IsRefusal bytes.now file_name e) }
{
    if says_error(bytes) {
        return Err(object_refused(alloc, bytes));
    }
    data_checked(alloc, bytes)
}
