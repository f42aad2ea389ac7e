//! What the list of a name and a query are answered with, kind by kind.

ghost use Rattle.std.specs.Prelude.{◌≡◌, ◌+◌, ◌≤◌, ℕ, List, length, IfOk, IfErr, Ok, Err, Some};
ghost use Rattle.dap_outside.specs.Causes.{Rose};
ghost use Rattle.dap_server.specs.Costs.{IsAskedBefore, IsWithinBadLine, most_first, most_of_joined};
ghost use Rattle.dap_server.specs.Files.{form_of, joined};
ghost use Rattle.dap_server.specs.Prepared.{IsJoinedFor, MayGiveWithin};
ghost use Rattle.dap_server.specs.Results.{result_text};
ghost use Rattle.dap_server.specs.inner.Opening.{StaysBut, WhereFault, WhereRefused};
ghost use Rattle.dap_server.specs.inner.Preparing.{asked_as};

use crate::joined_texts::{join_body, joined_das_text, joined_dds_text};
use crate::no_answer::Stop;
use crate::open_joined::open_joined;
use dap_http::Kind;
use dap_outside::Shelf;
use dap_types::{Bytes, List};
use join_source::JoinBody;
use std::alloc::Global;

/// The DAS of the files that the list of a name joins.
pub fn joined_das<S: Shelf>(alloc: Global, shelf: &mut S, name: &str) -> Result<Bytes, Stop>
    requires form { form_of name.now ≡ Some joined }
    ensures text { IfOk result (λ text. (query : List ℕ) → MayGiveWithin (S.files shelf.old) (asked_as Kind.Das name.now query) (S.asked shelf.old) (S.asked shelf.new) (Ok (result_text Kind.Das text))) }
    ensures refused { IfErr result (WhereRefused (λ why. (query : List ℕ) → MayGiveWithin (S.files shelf.old) (asked_as Kind.Das name.now query) (S.asked shelf.old) (S.asked shelf.new) (Err why))) }
    ensures why { IfErr result (WhereFault (Rose (S.faults shelf.old) (S.faults shelf.new))) }
    ensures later { S.faults shelf.old ≤ S.faults shelf.new }
    ensures stays { StaysBut result (S.faults shelf.old) (S.faults shelf.new) }
    ensures files { S.files shelf.new ≡ S.files shelf.old }
    ensures asked { S.asked shelf.new ≤ S.asked shelf.old + most_first (S.files shelf.old) name.now }
    ensures asked_before { IfErr result (WhereRefused (λ why. IsAskedBefore (S.files shelf.old) name.now why (S.asked shelf.old) (S.asked shelf.new))) }
    ensures before_bad { IsWithinBadLine (S.files shelf.old) name.now (S.asked shelf.old) (S.asked shelf.new) }
{
    let (joined, _files) = open_joined(alloc, shelf, name)?;
    Ok(joined_das_text(alloc, &joined)?)
}

/// The DDS of what a query leaves of the files that the list of a name joins.
pub fn joined_dds<S: Shelf>(
    alloc: Global,
    shelf: &mut S,
    name: &str,
    query: &[u8],
) -> Result<Bytes, Stop>
    requires form { form_of name.now ≡ Some joined }
    ensures text { IfOk result (λ text. MayGiveWithin (S.files shelf.old) (asked_as Kind.Dds name.now query.now) (S.asked shelf.old) (S.asked shelf.new) (Ok (result_text Kind.Dds text))) }
    ensures refused { IfErr result (WhereRefused (λ why. MayGiveWithin (S.files shelf.old) (asked_as Kind.Dds name.now query.now) (S.asked shelf.old) (S.asked shelf.new) (Err why))) }
    ensures why { IfErr result (WhereFault (Rose (S.faults shelf.old) (S.faults shelf.new))) }
    ensures later { S.faults shelf.old ≤ S.faults shelf.new }
    ensures stays { StaysBut result (S.faults shelf.old) (S.faults shelf.new) }
    ensures files { S.files shelf.new ≡ S.files shelf.old }
    ensures asked { S.asked shelf.new ≤ S.asked shelf.old + most_first (S.files shelf.old) name.now }
    ensures asked_before { IfErr result (WhereRefused (λ why. IsAskedBefore (S.files shelf.old) name.now why (S.asked shelf.old) (S.asked shelf.new))) }
    ensures before_bad { IsWithinBadLine (S.files shelf.old) name.now (S.asked shelf.old) (S.asked shelf.new) }
{
    let (joined, _files) = open_joined(alloc, shelf, name)?;
    joined_dds_text(alloc, &joined, query)
}

/// The body for what a query leaves of the files that the list of a name joins, and these files.
pub fn joined_dods<S: Shelf>(
    alloc: Global,
    shelf: &mut S,
    name: &str,
    query: &[u8],
) -> Result<(JoinBody, List<S::File>), Stop>
    requires form { form_of name.now ≡ Some joined }
    ensures body { IfOk result (λ p. IsJoinedFor (S.files shelf.old) (S.content shelf.new) (S.size_of shelf.new) (asked_as Kind.Dods name.now query.now) p.0 p.1) }
    ensures refused { IfErr result (WhereRefused (λ why. MayGiveWithin (S.files shelf.old) (asked_as Kind.Dods name.now query.now) (S.asked shelf.old) (S.asked shelf.new) (Err why))) }
    ensures why { IfErr result (WhereFault (Rose (S.faults shelf.old) (S.faults shelf.new))) }
    ensures later { S.faults shelf.old ≤ S.faults shelf.new }
    ensures stays { StaysBut result (S.faults shelf.old) (S.faults shelf.new) }
    ensures files { S.files shelf.new ≡ S.files shelf.old }
    ensures asked { S.asked shelf.new ≤ S.asked shelf.old + most_first (S.files shelf.old) name.now }
    ensures asked_before { IfErr result (WhereRefused (λ why. IsAskedBefore (S.files shelf.old) name.now why (S.asked shelf.old) (S.asked shelf.new))) }
    ensures before_bad { IsWithinBadLine (S.files shelf.old) name.now (S.asked shelf.old) (S.asked shelf.new) }
    ensures of_list { IfOk result (λ p. (text : List ℕ) × MayGiveWithin (S.files shelf.old) (asked_as Kind.Dods name.now query.now) (S.asked shelf.old) (S.asked shelf.new) (Ok (result_text Kind.Dods text))) }
    ensures asked_lines { IfOk result (λ p. S.asked shelf.new ≤ S.asked shelf.old + most_of_joined (length p.1)) }
{
    let (joined, files) = open_joined(alloc, shelf, name)?;
    let body = join_body(alloc, &joined, query)?;
    Ok((body, files))
}
