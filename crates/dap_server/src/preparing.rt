//! The answer to a target.

ghost use Rattle.std.specs.Prelude.{◌≡◌, ◌≢◌, ◌+◌, ◌<◌, ◌≤◌, ℕ, List, Option, Some, None, IsSome, IsTrue, Result, Ok, Err, false, length};
ghost use Rattle.dap_http.specs.Targets.{asked_of};
ghost use Rattle.dap_errors.specs.declared.cause.Cause.{Cause};
ghost use Rattle.dap_outside.specs.Causes.{Rose};
ghost use Rattle.dap_outside.specs.Files.{IsBytes};
ghost use Rattle.xdr_encode.specs.Bodies.{FitsFile, HasNoFile, MayAsk, cost_in, text_in};
ghost use Rattle.dap_server.specs.Costs.{IsAskedBefore, IsCost, IsCostAt, IsWithinAList, IsWithinBadLine, asks_shelf, most_first, most_of_joined};
ghost use Rattle.dap_server.specs.Files.{IsOneFile, form_of, is_read_first, joined, saved};
ghost use Rattle.dap_server.specs.Prepared.{IsFor, IsJoinedFor, IsOver, MayGive, MayGiveWithin, MustGive, WhereBody, WhereJoined, WhereNoShelfFault, WhereOfList, WhereRefuse, WhereSaved, WhereShelfFault, WhereText};
ghost use Rattle.saved_source.specs.Bodies.{Sends};
ghost use Rattle.dap_server.specs.Results.{Text, result_text};
ghost use Rattle.dap_server.specs.inner.Preparing.{IsMade, asked_as, body_prepared, data_prepared, join_prepared, stopped, text_prepared};

use crate::answers_by_kind::{dods_answer, version_answer};
use crate::by_form::{das_by_form, dds_by_form, is_list};
use crate::data_body::DataBody;
use crate::joined_answers_by_kind::joined_dods;
use crate::no_answer::Stop;
use crate::prepared::Prepared;
use dap_http::{Kind, Target};
use dap_outside::Shelf;
use dap_types::{Bytes, List};
use join_source::JoinBody;
use std::alloc::Global;
use std::thread::Threads;

fn stopped<F: Drop>(stop: Stop) -> Prepared<F>
    ensures { result ≡ stopped stop }
{
    match stop {
        Stop::Refused(cause) => Prepared::Refuse(cause),
        Stop::ShelfFault => Prepared::ShelfFault,
        Stop::Memory => Prepared::Memory,
    }
}

/// The answer of a kind that is no data.
fn text_prepared<F: Drop>(kind: Kind, text: Result<Bytes, Stop>) -> Prepared<F>
    ensures { result ≡ text_prepared kind text }
{
    match text {
        Ok(text) => Prepared::Text { kind, text },
        Err(stop) => stopped(stop),
    }
}

/// The answer of a body. One that has its values wants no file.
fn data_prepared<F: Drop>(body: DataBody, file: F) -> Prepared<F>
    ensures { result ≡ data_prepared body file }
{
    match body {
        DataBody::OfFile(body) => Prepared::Body { body, file },
        DataBody::Saved(body) => Prepared::Saved { body },
    }
}

/// The answer that is data.
fn body_prepared<F: Drop>(body: Result<(DataBody, F), Stop>) -> Prepared<F>
    ensures { result ≡ body_prepared body }
{
    match body {
        Ok((body, file)) => data_prepared(body, file),
        Err(stop) => stopped(stop),
    }
}

/// The answer that is data of joined files.
fn join_prepared<F: Drop>(body: Result<(JoinBody, List<F>), Stop>) -> Prepared<F>
    ensures { result ≡ join_prepared body }
{
    match body {
        Ok((body, files)) => Prepared::Joined { body, files },
        Err(stop) => stopped(stop),
    }
}

/// The answer that is data, by the form of the file of a name.
fn data_answer<R: Threads + Sync, S: Shelf>(
    rt: &R,
    alloc: Global,
    shelf: &mut S,
    name: &str,
    query: &[u8],
    workers: u32,
) -> Prepared<S::File>
    requires some { 1 ≤ workers }
    requires many { workers ≤ 64 }
    ensures made { IsMade (S.files shelf.old) (S.content shelf.new) (S.size_of shelf.new) (asked_as Kind.Dods name.now query.now) (Rose (S.faults shelf.old) (S.faults shelf.new)) result }
    ensures later { S.faults shelf.old ≤ S.faults shelf.new }
    ensures kept { WhereNoShelfFault result (S.faults shelf.new ≡ S.faults shelf.old) }
    ensures files { S.files shelf.new ≡ S.files shelf.old }
    ensures asked { S.asked shelf.new ≤ S.asked shelf.old + most_first (S.files shelf.old) name.now }
    ensures asked_before { form_of name.now ≡ Some joined → WhereRefuse result (λ cause. IsAskedBefore (S.files shelf.old) name.now cause (S.asked shelf.old) (S.asked shelf.new)) }
    ensures before_bad { form_of name.now ≡ Some joined → IsWithinBadLine (S.files shelf.old) name.now (S.asked shelf.old) (S.asked shelf.new) }
    ensures asked_lines { WhereJoined result (λ body files. S.asked shelf.new ≤ S.asked shelf.old + most_of_joined (length files)) }
    ensures of_list { form_of name.now ≡ Some joined → WhereOfList result (MayGiveWithin (S.files shelf.old) (asked_as Kind.Dods name.now query.now) (S.asked shelf.old) (S.asked shelf.new)) }
    ensures untouched { form_of name.now ≡ None → shelf.new ≡ shelf.old }
{
    if is_list(name) {
        return join_prepared(joined_dods(alloc, shelf, name, query));
    }
    body_prepared(dods_answer(rt, alloc, shelf, name, query, workers))
}

/// Bytes are bytes, which is all that this says. It looks at none of them.
fn are_bytes(bytes: &[u8])
    ensures { IsBytes bytes.now }
{}

/// The answer to a target.
fn answer_of<R: Threads + Sync, S: Shelf>(
    rt: &R,
    alloc: Global,
    shelf: &mut S,
    target: &Target,
    workers: u32,
) -> Prepared<S::File>
    requires some { 1 ≤ workers }
    requires many { workers ≤ 64 }
    ensures made { IsMade (S.files shelf.old) (S.content shelf.new) (S.size_of shelf.new) (asked_of target.now) (Rose (S.faults shelf.old) (S.faults shelf.new)) result }
    ensures later { S.faults shelf.old ≤ S.faults shelf.new }
    ensures kept { WhereNoShelfFault result (S.faults shelf.new ≡ S.faults shelf.old) }
    ensures files { S.files shelf.new ≡ S.files shelf.old }
    ensures asked { S.asked shelf.new ≤ S.asked shelf.old + most_first (S.files shelf.old) target.now.name }
    ensures asked_before { form_of target.now.name ≡ Some joined → WhereRefuse result (λ cause. IsAskedBefore (S.files shelf.old) target.now.name cause (S.asked shelf.old) (S.asked shelf.new)) }
    ensures before_bad { form_of target.now.name ≡ Some joined → IsWithinBadLine (S.files shelf.old) target.now.name (S.asked shelf.old) (S.asked shelf.new) }
    ensures asked_lines { WhereJoined result (λ body files. S.asked shelf.new ≤ S.asked shelf.old + most_of_joined (length files)) }
    ensures of_list { form_of target.now.name ≡ Some joined → WhereOfList result (MayGiveWithin (S.files shelf.old) (asked_of target.now) (S.asked shelf.old) (S.asked shelf.new)) }
    ensures untouched { asks_shelf (asked_of target.now) ≡ false → shelf.new ≡ shelf.old }
{
    let name = target.name.as_str();
    let query = target.query.bytes();
    match target.kind {
        Kind::Ver => text_prepared(Kind::Ver, version_answer(alloc)),
        Kind::Das => text_prepared(Kind::Das, das_by_form(alloc, shelf, name)),
        Kind::Dds => text_prepared(Kind::Dds, dds_by_form(alloc, shelf, name, query)),
        Kind::Dods => data_answer(rt, alloc, shelf, name, query, workers),
    }
}

/// What a target asks of the files of a shelf: a text, or a data response that reads its file as it is
/// streamed, or the first cause for which there is none (`Results`). It takes all memory of the answer.
/// Of a netCDF file it reads the first 1,048,576 bytes at most, a table and a saved response whole, unless their size
/// says that they are too long, and of a list, which has 65,536 bytes at most, the files that it names in turn, each as
/// a netCDF file. The rows of a table are judged by so many workers, 1 to 64.
///
/// `ShelfFault` comes only where the shelf's count of faults rose, and only for a target that looks for a
/// file.
pub fn prepare<R: Threads + Sync, S: Shelf>(
    rt: &R,
    alloc: Global,
    shelf: &mut S,
    target: &Target,
    workers: u32,
) -> Prepared<S::File>
    requires some { 1 ≤ workers }
    requires many { workers ≤ 64 }
    ensures text { WhereText result (λ kind text. (kind ≢ Kind.Dods) × MayGive (S.files shelf.old) (asked_of target.now) (Ok (result_text kind text))) }

    // Over the bytes of its file the body is the data response; one whose values were read is it over any.
    ensures body { WhereBody result (λ body file. (bytes : List ℕ) → IsOver target.now.name (S.content shelf.new file) bytes →
        MayGive (S.files shelf.old) (asked_of target.now) (Ok (result_text Kind.Dods (text_in body bytes)))) }
    ensures accepted { WhereBody result (λ body file. (text : List ℕ) × MayGive (S.files shelf.old) (asked_of target.now) (Ok (result_text Kind.Dods text))) }
    ensures of_file { WhereBody result (λ body file. (target.now.kind ≡ Kind.Dods) × IsOneFile (form_of target.now.name)) }
    ensures tells { WhereBody result (λ body file. IsSome (S.files shelf.old) → IsSome (S.content shelf.new file)) }
    ensures alone { WhereBody result (λ body file. IsTrue (is_read_first (form_of target.now.name)) → HasNoFile body) }

    // It reads within its file, and no more than its marks cost.
    ensures fits { WhereBody result (λ body file. FitsFile body (S.size_of shelf.new file)) }
    ensures cost { WhereBody result (λ body file. (cost : ℕ) × IsCost (S.files shelf.old) (asked_of target.now) cost × (cost_in body ≤ cost)) }
    ensures cost_at { WhereBody result (λ body file. (bytes : List ℕ) (put cost : ℕ) → S.content shelf.new file ≡ Some bytes → MayAsk body bytes put cost →
        IsCostAt (S.files shelf.old) (asked_of target.now) put cost) }

    // The body of a saved response sends the data response. It has all its values.
    ensures sends { WhereSaved result (λ body. (text : List ℕ) × Sends body text × MayGive (S.files shelf.old) (asked_of target.now) (Ok (result_text Kind.Dods text))) }
    ensures of_saved { WhereSaved result (λ body. (target.now.kind ≡ Kind.Dods) × (form_of target.now.name ≡ Some saved)) }

    // The body of joined files reads these, and is the data response over their bytes.
    ensures joined { WhereJoined result (IsJoinedFor (S.files shelf.old) (S.content shelf.new) (S.size_of shelf.new) (asked_of target.now)) }

    ensures refused { WhereRefuse result (λ cause. MayGive (S.files shelf.old) (asked_of target.now) (Err cause)) }
    ensures shelf_fault { WhereShelfFault result (IsTrue (asks_shelf (asked_of target.now)) × Rose (S.faults shelf.old) (S.faults shelf.new)) }

    // Each of these comes wherever it stands, unless the shelf fails or memory is wanted.
    ensures only { (answer : Result Text Cause) → MustGive (S.files shelf.old) (asked_of target.now) answer → IsFor answer result }

    ensures later { S.faults shelf.old ≤ S.faults shelf.new }
    ensures kept { WhereNoShelfFault result (S.faults shelf.new ≡ S.faults shelf.old) }
    ensures files { S.files shelf.new ≡ S.files shelf.old }
    ensures asked { S.asked shelf.new ≤ S.asked shelf.old + most_first (S.files shelf.old) target.now.name }

    // Of a list no more than its bytes and the front of a file for each of its lines, whatever comes of it: for the
    // list that the shelf tells, or for one that it may have.
    ensures any_list { form_of target.now.name ≡ Some joined → IsWithinAList (S.files shelf.old) target.now.name (S.asked shelf.old) (S.asked shelf.new) }

    // Where there is an answer, for a list that the shelf may have with which this is the answer.
    ensures of_list { form_of target.now.name ≡ Some joined → WhereOfList result (MayGiveWithin (S.files shelf.old) (asked_of target.now) (S.asked shelf.old) (S.asked shelf.new)) }

    // Of joined files no more than their list and the front of each.
    ensures asked_lines { WhereJoined result (λ body files. S.asked shelf.new ≤ S.asked shelf.old + most_of_joined (length files)) }

    // Where a line of a list is told, its list and the front of each file up to that line.
    ensures asked_before { form_of target.now.name ≡ Some joined → WhereRefuse result (λ cause. IsAskedBefore (S.files shelf.old) target.now.name cause (S.asked shelf.old) (S.asked shelf.new)) }

    // And up to each line that names no file, or one without a header, whatever comes of it.
    ensures before_bad { form_of target.now.name ≡ Some joined → IsWithinBadLine (S.files shelf.old) target.now.name (S.asked shelf.old) (S.asked shelf.new) }

    ensures untouched { asks_shelf (asked_of target.now) ≡ false → shelf.new ≡ shelf.old }
{
    are_bytes(target.query.bytes());
    answer_of(rt, alloc, shelf, target, workers)
}
