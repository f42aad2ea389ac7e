//! Texts by the form of the file of a name: a list of files, or another file.

ghost use Rattle.std.specs.Prelude.{◌≡◌, ◌≢◌, ◌+◌, ◌≤◌, ℕ, List, IfOk, IfErr, IsTrue, Ok, Err, None, Some, is_some};
ghost use Rattle.dap_outside.specs.Causes.{Rose};
ghost use Rattle.dap_server.specs.Costs.{IsAskedBefore, IsWithinBadLine, most_first};
ghost use Rattle.dap_server.specs.Files.{form_of, is_joined, joined};
ghost use Rattle.dap_server.specs.Prepared.{MayGiveWithin};
ghost use Rattle.dap_server.specs.Results.{result_text};
ghost use Rattle.dap_server.specs.inner.Opening.{StaysBut, WhereFault, WhereRefused};
ghost use Rattle.dap_server.specs.inner.Preparing.{MayGiveAs, asked_as};

use crate::answers_by_kind::{das_answer, dds_answer};
use crate::joined_answers_by_kind::{joined_das, joined_dds};
use crate::no_answer::Stop;
use crate::open::{FileForm, form_of};
use dap_http::Kind;
use dap_outside::Shelf;
use dap_types::Bytes;
use std::alloc::Global;

/// Whether a name is that of a list of files.
pub fn is_list(name: &str) -> bool
    ensures { result ≡ is_joined (form_of name.now) }
{
    match form_of(name) {
        Some(FileForm::Joined) => true,
        Some(FileForm::Netcdf) => false,
        Some(FileForm::Table) => false,
        Some(FileForm::Saved) => false,
        None => false,
    }
}

/// The DAS of the file of a name.
pub fn das_by_form<S: Shelf>(alloc: Global, shelf: &mut S, name: &str) -> Result<Bytes, Stop>
    ensures text { IfOk result (λ text. (query : List ℕ) → MayGiveAs (S.files shelf.old) Kind.Das name.now query (Ok (result_text Kind.Das text))) }
    ensures refused { IfErr result (WhereRefused (λ why. (query : List ℕ) → MayGiveAs (S.files shelf.old) Kind.Das name.now query (Err why))) }
    ensures why { IfErr result (WhereFault (IsTrue (is_some (form_of name.now)) × Rose (S.faults shelf.old) (S.faults shelf.new))) }
    ensures later { S.faults shelf.old ≤ S.faults shelf.new }
    ensures stays { StaysBut result (S.faults shelf.old) (S.faults shelf.new) }
    ensures files { S.files shelf.new ≡ S.files shelf.old }
    ensures asked { S.asked shelf.new ≤ S.asked shelf.old + most_first (S.files shelf.old) name.now }
    ensures asked_before { form_of name.now ≡ Some joined → IfErr result (WhereRefused (λ why. IsAskedBefore (S.files shelf.old) name.now why (S.asked shelf.old) (S.asked shelf.new))) }
    ensures before_bad { form_of name.now ≡ Some joined → IsWithinBadLine (S.files shelf.old) name.now (S.asked shelf.old) (S.asked shelf.new) }
    ensures list_text { form_of name.now ≡ Some joined → IfOk result (λ text. (query : List ℕ) → MayGiveWithin (S.files shelf.old) (asked_as Kind.Das name.now query) (S.asked shelf.old) (S.asked shelf.new) (Ok (result_text Kind.Das text))) }
    ensures list_refused { form_of name.now ≡ Some joined → IfErr result (WhereRefused (λ why. (query : List ℕ) → MayGiveWithin (S.files shelf.old) (asked_as Kind.Das name.now query) (S.asked shelf.old) (S.asked shelf.new) (Err why))) }
    ensures untouched { form_of name.now ≡ None → shelf.new ≡ shelf.old }
{
    if is_list(name) {
        return joined_das(alloc, shelf, name);
    }
    das_answer(alloc, shelf, name)
}

/// The DDS of what a query leaves of the file of a name.
pub fn dds_by_form<S: Shelf>(
    alloc: Global,
    shelf: &mut S,
    name: &str,
    query: &[u8],
) -> Result<Bytes, Stop>
    ensures text { IfOk result (λ text. MayGiveAs (S.files shelf.old) Kind.Dds name.now query.now (Ok (result_text Kind.Dds text))) }
    ensures refused { IfErr result (WhereRefused (λ why. MayGiveAs (S.files shelf.old) Kind.Dds name.now query.now (Err why))) }
    ensures why { IfErr result (WhereFault (IsTrue (is_some (form_of name.now)) × Rose (S.faults shelf.old) (S.faults shelf.new))) }
    ensures later { S.faults shelf.old ≤ S.faults shelf.new }
    ensures stays { StaysBut result (S.faults shelf.old) (S.faults shelf.new) }
    ensures files { S.files shelf.new ≡ S.files shelf.old }
    ensures asked { S.asked shelf.new ≤ S.asked shelf.old + most_first (S.files shelf.old) name.now }
    ensures asked_before { form_of name.now ≡ Some joined → IfErr result (WhereRefused (λ why. IsAskedBefore (S.files shelf.old) name.now why (S.asked shelf.old) (S.asked shelf.new))) }
    ensures before_bad { form_of name.now ≡ Some joined → IsWithinBadLine (S.files shelf.old) name.now (S.asked shelf.old) (S.asked shelf.new) }
    ensures list_text { form_of name.now ≡ Some joined → IfOk result (λ text. MayGiveWithin (S.files shelf.old) (asked_as Kind.Dds name.now query.now) (S.asked shelf.old) (S.asked shelf.new) (Ok (result_text Kind.Dds text))) }
    ensures list_refused { form_of name.now ≡ Some joined → IfErr result (WhereRefused (λ why. MayGiveWithin (S.files shelf.old) (asked_as Kind.Dds name.now query.now) (S.asked shelf.old) (S.asked shelf.new) (Err why))) }
    ensures untouched { form_of name.now ≡ None → shelf.new ≡ shelf.old }
{
    if is_list(name) {
        return joined_dds(alloc, shelf, name, query);
    }
    dds_answer(alloc, shelf, name, query)
}
