//! What a name and a query are answered with, kind by kind.

ghost use Rattle.std.specs.Prelude.{◌≡◌, ◌≢◌, ◌+◌, ◌≤◌, ℕ, List, IfOk, IfErr, IsSome, IsTrue, Ok, Err, None, Some, is_some};
ghost use Rattle.dap_http.specs.Texts.{version};
ghost use Rattle.dap_outside.specs.Causes.{Rose};
ghost use Rattle.xdr_encode.specs.Bodies.{FitsFile, HasNoFile, MayAsk, cost_in, text_in};
ghost use Rattle.dap_server.specs.Costs.{IsFormCost, IsFormCostAt, most_first};
ghost use Rattle.dap_server.specs.Files.{IsOneFile, form_of, is_read_first, joined, saved};
ghost use Rattle.dap_server.specs.Prepared.{IsOver};
ghost use Rattle.dap_server.specs.Results.{result_text};
ghost use Rattle.dap_server.specs.inner.Opening.{StaysBut, WhereFault, WhereRefused};
ghost use Rattle.dap_server.specs.inner.Preparing.{MayGiveAs, WhereOfFile, WhereOfSaved};
ghost use Rattle.saved_source.specs.Bodies.{Sends};

use crate::bodies::body_of;
use crate::data_body::DataBody;
use crate::no_answer::Stop;
use crate::open::open_named;
use crate::texts::{das_of, dds_of};
use dap_http::{Kind, version_text};
use dap_outside::Shelf;
use dap_types::Bytes;
use std::alloc::Global;
use std::thread::Threads;

/// The version text.
pub fn version_answer(alloc: Global) -> Result<Bytes, Stop>
    ensures text { IfOk result (λ text. text ≡ version) }
    ensures refused { IfErr result (WhereRefused (λ why. ⊥)) }
    ensures no_fault { IfErr result (WhereFault ⊥) }
{
    Ok(Bytes::new(alloc, version_text())?)
}

/// The DAS of the file of a name, which is no list of files.
pub fn das_answer<S: Shelf>(alloc: Global, shelf: &mut S, name: &str) -> Result<Bytes, Stop>
    requires no_list { form_of name.now ≢ Some joined }
    ensures text { IfOk result (λ text. (query : List ℕ) → MayGiveAs (S.files shelf.old) Kind.Das name.now query (Ok (result_text Kind.Das text))) }
    ensures refused { IfErr result (WhereRefused (λ why. (query : List ℕ) → MayGiveAs (S.files shelf.old) Kind.Das name.now query (Err why))) }
    ensures why { IfErr result (WhereFault (IsTrue (is_some (form_of name.now)) × Rose (S.faults shelf.old) (S.faults shelf.new))) }
    ensures later { S.faults shelf.old ≤ S.faults shelf.new }
    ensures stays { StaysBut result (S.faults shelf.old) (S.faults shelf.new) }
    ensures files { S.files shelf.new ≡ S.files shelf.old }
    ensures asked { S.asked shelf.new ≤ S.asked shelf.old + most_first (S.files shelf.old) name.now }
    ensures untouched { form_of name.now ≡ None → shelf.new ≡ shelf.old }
{
    let (opened, _file) = open_named(alloc, shelf, name)?;
    Ok(das_of(alloc, &opened)?)
}

/// The DDS of what a query leaves of the file of a name, which is no list of files.
pub fn dds_answer<S: Shelf>(
    alloc: Global,
    shelf: &mut S,
    name: &str,
    query: &[u8],
) -> Result<Bytes, Stop>
    requires no_list { form_of name.now ≢ Some joined }
    ensures text { IfOk result (λ text. MayGiveAs (S.files shelf.old) Kind.Dds name.now query.now (Ok (result_text Kind.Dds text))) }
    ensures refused { IfErr result (WhereRefused (λ why. MayGiveAs (S.files shelf.old) Kind.Dds name.now query.now (Err why))) }
    ensures why { IfErr result (WhereFault (IsTrue (is_some (form_of name.now)) × Rose (S.faults shelf.old) (S.faults shelf.new))) }
    ensures later { S.faults shelf.old ≤ S.faults shelf.new }
    ensures stays { StaysBut result (S.faults shelf.old) (S.faults shelf.new) }
    ensures files { S.files shelf.new ≡ S.files shelf.old }
    ensures asked { S.asked shelf.new ≤ S.asked shelf.old + most_first (S.files shelf.old) name.now }
    ensures untouched { form_of name.now ≡ None → shelf.new ≡ shelf.old }
{
    let (opened, _file) = open_named(alloc, shelf, name)?;
    dds_of(alloc, &opened, name, query)
}

/// The body for what a query leaves of the file of a name, which is no list of files, and that file.
pub fn dods_answer<R: Threads + Sync, S: Shelf>(
    rt: &R,
    alloc: Global,
    shelf: &mut S,
    name: &str,
    query: &[u8],
    workers: u32,
) -> Result<(DataBody, S::File), Stop>
    requires some { 1 ≤ workers }
    requires many { workers ≤ 64 }
    requires no_list { form_of name.now ≢ Some joined }
    ensures body { IfOk result (λ p. WhereOfFile p.0 (λ b. (bytes : List ℕ) → IsOver name.now (S.content shelf.new p.1) bytes →
        MayGiveAs (S.files shelf.old) Kind.Dods name.now query.now (Ok (result_text Kind.Dods (text_in b bytes))))) }
    ensures sends { IfOk result (λ p. WhereOfSaved p.0 (λ b. (text : List ℕ) × Sends b text × MayGiveAs (S.files shelf.old) Kind.Dods name.now query.now (Ok (result_text Kind.Dods text)))) }
    ensures of_saved { IfOk result (λ p. WhereOfSaved p.0 (λ b. form_of name.now ≡ Some saved)) }
    ensures accepted { IfOk result (λ p. (text : List ℕ) × MayGiveAs (S.files shelf.old) Kind.Dods name.now query.now (Ok (result_text Kind.Dods text))) }
    ensures of_file { IfOk result (λ p. WhereOfFile p.0 (λ b. IsOneFile (form_of name.now))) }
    ensures tells { IfOk result (λ p. IsSome (S.files shelf.old) → IsSome (S.content shelf.new p.1)) }
    ensures alone { IfOk result (λ p. WhereOfFile p.0 (λ b. IsTrue (is_read_first (form_of name.now)) → HasNoFile b)) }
    ensures fits { IfOk result (λ p. WhereOfFile p.0 (λ b. FitsFile b (S.size_of shelf.new p.1))) }
    ensures cost { IfOk result (λ p. WhereOfFile p.0 (λ b. (cost : ℕ) × IsFormCost (form_of name.now) (S.files shelf.old) name.now query.now cost × (cost_in b ≤ cost))) }
    ensures cost_at { IfOk result (λ p. WhereOfFile p.0 (λ b. (bytes : List ℕ) (put cost : ℕ) → S.content shelf.new p.1 ≡ Some bytes → MayAsk b bytes put cost →
        IsFormCostAt (form_of name.now) (S.files shelf.old) name.now query.now put cost)) }
    ensures refused { IfErr result (WhereRefused (λ why. MayGiveAs (S.files shelf.old) Kind.Dods name.now query.now (Err why))) }
    ensures why { IfErr result (WhereFault (IsTrue (is_some (form_of name.now)) × Rose (S.faults shelf.old) (S.faults shelf.new))) }
    ensures later { S.faults shelf.old ≤ S.faults shelf.new }
    ensures stays { StaysBut result (S.faults shelf.old) (S.faults shelf.new) }
    ensures files { S.files shelf.new ≡ S.files shelf.old }
    ensures asked { S.asked shelf.new ≤ S.asked shelf.old + most_first (S.files shelf.old) name.now }
    ensures untouched { form_of name.now ≡ None → shelf.new ≡ shelf.old }
{
    let (opened, file) = open_named(alloc, shelf, name)?;
    let body = body_of(rt, alloc, opened, name, query, workers)?;
    Ok((body, file))
}
