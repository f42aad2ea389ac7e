//! The requests of a connection.

ghost use Rattle.std.specs.Prelude.{◌≡◌, ◌≢◌, ◌+◌, ◌<◌, ◌≤◌, ◌++◌, [], ℕ, List, Some, true, false, ◌||◌, ◌==◌};
ghost use Rattle.std.specs.Io.KnownBytes.{Appends, Consumes};
ghost use Rattle.dap_types.specs.Limits.{most_requests};
ghost use Rattle.dap_outside.specs.Causes.{Rose};
ghost use Rattle.dap_errors.specs.Causes.{http_status};
ghost use Rattle.httparse.specs.Grammar.{RequestHead};
ghost use Rattle.dap_http.specs.Reading.{kept_by};
ghost use Rattle.dap_http.specs.Requests.{FirstRequest};
ghost use Rattle.dap_server.specs.Connections.{Connection, ConnectionMayAsk, FailedBy, IsConnectionServed, IsPut, RoseFor, failures, leaves_open};
ghost use Rattle.dap_server.specs.Files.{Files};
ghost use Rattle.dap_server.specs.Whole.{AnswersAll};
ghost use Rattle.dap_server.specs.inner.Serving.{GoesOnFew, PutsLast, PutsRefusal, RoseNext, Serves, ServesFrom, next_of};

use crate::answer::answer;
use crate::reply_outcome::{Answered, Next};
use crate::served::{Ending, Served};
use dap_errors::{Cause, status};
use dap_http::{Head, HeadRead, HeadReader, error_reply, memory_reply};
use dap_outside::{Link, Shelf, Sink, put_all};
use dap_types::{Memory, limits};
use std::alloc::Global;
use std::thread::Threads;

/// The requests of a connection, at most.
const MOST: u32 = limits::MOST_REQUESTS;

/// Puts a reply that ends the connection, behind so many others, the last of which had that status.
fn put_last<O: Sink>(out: &mut O, bytes: &[u8], status: u16, answered: u32, before: u16) -> Served
    requires { answered < most_requests }
    ensures puts { PutsLast bytes.now status answered before (O.written out.old) (O.written out.new) result }
    ensures causes { RoseFor result.ending 0 0 (O.put_faults out.old) (O.put_faults out.new) }
    ensures later { O.put_faults out.old ≤ O.put_faults out.new }
    ensures beside { O.beside_writing out.new ≡ O.beside_writing out.old }
{
    match put_all(out, bytes) {
        Ok(()) => Served {
            replies: answered + 1,
            status,
            ending: Ending::Closed,
        },
        Err(_) => Served {
            replies: answered,
            status: before,
            ending: Ending::WriteFault,
        },
    }
}

/// Refuses bytes that are no request.
fn refuse<O: Sink>(alloc: Global, out: &mut O, cause: &Cause, answered: u32, before: u16) -> Served
    requires { answered < most_requests }
    ensures puts { PutsRefusal cause.now answered before (O.written out.old) (O.written out.new) result }
    ensures causes { RoseFor result.ending 0 0 (O.put_faults out.old) (O.put_faults out.new) }
    ensures later { O.put_faults out.old ≤ O.put_faults out.new }
    ensures beside { O.beside_writing out.new ≡ O.beside_writing out.old }
{
    match error_reply(alloc, cause, true, false) {
        Ok(text) => put_last(out, text.bytes(), status(cause), answered, before),
        Err(Memory) => put_last(out, memory_reply(false), 503, answered, before),
    }
}

/// Whether a head behind so many requests ends its connection.
fn ends_at(head: &Head, answered: u32) -> bool
    requires { answered < most_requests }
    ensures { result ≡ (head.now.ends || (answered + 1 == most_requests)) }
{
    head.ends || answered + 1 == MOST
}

/// What comes behind the reply to a request.
fn next_of(reply: Answered, answered: u32, before: u16) -> Next
    requires { answered < most_requests }
    ensures { result ≡ next_of answered before reply }
{
    match reply {
        Answered::Whole {
            status,
            last: false,
        } => Next::GoesOn { status },
        Answered::Whole { status, last: true } => Next::Ends(Served {
            replies: answered + 1,
            status,
            ending: Ending::Closed,
        }),
        Answered::Broken => Next::Ends(Served {
            replies: answered,
            status: before,
            ending: Ending::Broken,
        }),
        Answered::WriteFault => Next::Ends(Served {
            replies: answered,
            status: before,
            ending: Ending::WriteFault,
        }),
    }
}

/// Reads a request behind so many that were answered, the last of which with that status, and answers it.
fn serve_next<R: Threads + Sync, S: Shelf, L: Link>(
    rt: &R,
    alloc: Global,
    shelf: &mut S,
    link: &mut L,
    reader: &mut HeadReader,
    answered: u32,
    before: u16,
    workers: u32,
) -> Next
    requires few { answered < most_requests }
    requires some { 1 ≤ workers }
    requires many { workers ≤ 64 }
    ensures serves { Serves answered before (S.files shelf.old) (kept_by reader.old) (kept_by reader.new) (L.left link.old) (L.left link.new)
        (record { written = L.written link.old; faults = S.faults shelf.old; asked = S.asked shelf.old })
        (record { written = L.written link.new; faults = S.faults shelf.new; asked = S.asked shelf.new }) (L.ended link.new) result }
    ensures few { GoesOnFew answered result }
    ensures causes { RoseNext result (L.take_faults link.old) (L.take_faults link.new) (L.put_faults link.old) (L.put_faults link.new) }
    ensures shelf_later { S.faults shelf.old ≤ S.faults shelf.new }
    ensures takes_later { L.take_faults link.old ≤ L.take_faults link.new }
    ensures puts_later { L.put_faults link.old ≤ L.put_faults link.new }
    // With a whole request at hand nothing is taken.
    ensures at_hand { (head : RequestHead) (rest : List ℕ) → FirstRequest (kept_by reader.old) head rest →
        (L.left link.new ≡ L.left link.old) × (L.ended link.new ≡ L.ended link.old) × (L.take_faults link.new ≡ L.take_faults link.old) }
    ensures files { S.files shelf.new ≡ S.files shelf.old }
    ensures whole { L.whole link.new ≡ L.whole link.old }
{
    match reader.read(link) {
        HeadRead::Head(head) => {
            let ends = ends_at(&head, answered);
            next_of(
                answer(rt, alloc, shelf, link, &head, ends, workers),
                answered,
                before,
            )
        }
        HeadRead::Gone => Next::Ends(Served {
            replies: answered,
            status: before,
            ending: Ending::Gone,
        }),
        HeadRead::BadRequest => Next::Ends(refuse(
            alloc,
            link,
            &Cause::BadRequest,
            answered,
            before,
        )),
        HeadRead::HeadTooLong => Next::Ends(refuse(
            alloc,
            link,
            &Cause::HeadTooLong,
            answered,
            before,
        )),
        HeadRead::ReadFault => Next::Ends(Served {
            replies: answered,
            status: before,
            ending: Ending::ReadFault,
        }),
        HeadRead::Memory { head } => Next::Ends(put_last(
            link,
            memory_reply(head),
            503,
            answered,
            before,
        )),
    }
}

/// Answers the requests that a reader finds.
fn serve_requests<R: Threads + Sync, S: Shelf, L: Link>(
    rt: &R,
    alloc: Global,
    shelf: &mut S,
    link: &mut L,
    mut reader: HeadReader,
    workers: u32,
) -> Served
    requires none_kept { kept_by reader ≡ [] }
    requires some { 1 ≤ workers }
    requires many { workers ≤ 64 }
    ensures serves { ServesFrom 0 0 (S.files shelf.old) [] (L.left link.old) (L.left link.new)
        (record { written = L.written link.old; faults = S.faults shelf.old; asked = S.asked shelf.old })
        (record { written = L.written link.new; faults = S.faults shelf.new; asked = S.asked shelf.new }) (L.ended link.new) result }
    ensures causes { RoseFor result.ending (L.take_faults link.old) (L.take_faults link.new) (L.put_faults link.old) (L.put_faults link.new) }
    ensures later { (S.faults shelf.old ≤ S.faults shelf.new) × (L.take_faults link.old ≤ L.take_faults link.new) × (L.put_faults link.old ≤ L.put_faults link.new) }
    ensures files { S.files shelf.new ≡ S.files shelf.old }
    ensures whole { L.whole link.new ≡ L.whole link.old }
{
    let mut answered = 0;
    let mut before = 0;
    'requests: loop {
        match serve_next(
            rt,
            alloc,
            shelf,
            link,
            &mut reader,
            answered,
            before,
            workers,
        ) {
            Next::GoesOn { status } => {
                answered += 1;
                before = status;
            }
            Next::Ends(served) => return served,
        }
    }
}

/// Answers the requests of a connection one behind the other, also those that come at once, up to one
/// that ends it (RFC 9112, section 9.3), at most 1,000. Values are read from a file by so many workers, 1
/// to 64.
///
/// A failed read of a file before the head of a reply is answered with status 500; behind it the reply
/// breaks off. A want of memory is answered with status 503, which is whole and ends the connection.
pub fn serve_connection<R: Threads + Sync, S: Shelf, L: Link>(
    rt: &R,
    alloc: Global,
    shelf: &mut S,
    link: &mut L,
    workers: u32,
) -> Served
    requires some { 1 ≤ workers }
    requires many { workers ≤ 64 }

    // In every run: the first requests of what was taken are answered in order, each by its reply over
    // files that the shelf may have, or as a failed read or a want of memory; that is what the link gained,
    // but for values of files that the shelf does not tell; the connection ends as it is said; so often
    // failed the shelf, and never where no answer leaves it open; and no more was asked of it than those
    // answers may ask.
    ensures served { (c : Connection) × (taken : List ℕ)
        × Consumes (L.left link.old) (L.left link.new) taken
        × ((put : List ℕ) × Appends (L.written link.old) (L.written link.new) put × IsPut (S.files shelf.old) 1 c put)
        × IsConnectionServed (S.files shelf.old) taken (L.ended link.new) c result
        × FailedBy (failures c result.ending) (leaves_open c.turns result.ending c.behind) (S.faults shelf.old) (S.faults shelf.new)
        × ((n : ℕ) × ConnectionMayAsk (S.files shelf.old) c n × (S.asked shelf.new ≤ S.asked shelf.old + n)) }

    // Where the shelf tells its files and the link its input, no count of a fault rose and memory was
    // had, all requests of the input are answered.
    ensures no_fault { (files : Files) (input : List ℕ) → S.files shelf.old ≡ Some files → L.left link.old ≡ Some input
        → ¬ (Rose (S.faults shelf.old) (S.faults shelf.new)) → ¬ (Rose (L.take_faults link.old) (L.take_faults link.new)) → ¬ (Rose (L.put_faults link.old) (L.put_faults link.new))
        → result.status ≢ 503
        → (gained : List ℕ) × Appends (L.written link.old) (L.written link.new) gained × AnswersAll input files gained result }

    ensures causes { RoseFor result.ending (L.take_faults link.old) (L.take_faults link.new) (L.put_faults link.old) (L.put_faults link.new) }
    ensures later { (S.faults shelf.old ≤ S.faults shelf.new) × (L.take_faults link.old ≤ L.take_faults link.new) × (L.put_faults link.old ≤ L.put_faults link.new) }
    ensures files { S.files shelf.new ≡ S.files shelf.old }
    ensures whole { L.whole link.new ≡ L.whole link.old }
{
    match HeadReader::new(alloc) {
        Ok(reader) => serve_requests(rt, alloc, shelf, link, reader, workers),
        Err(Memory) => put_last(link, memory_reply(false), 503, 0, 0),
    }
}
