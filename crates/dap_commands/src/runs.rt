//! Runs of `answer`, `serve`, `show` and `fetch` as the headline speaks of them: what `run` says of each is what the
//! headline asks, and so the headline holds of it.

ghost use Rattle.std.specs.Prelude.{◌≡◌, ◌≢◌, ◌<◌, ℕ, All, List, IsTrue, Some, Err, length};
ghost use Rattle.std.specs.List.{list_all};
ghost use Rattle.std.specs.Io.KnownBytes.{Appends};
ghost use Rattle.constraint_parse.specs.declared.constraint.Constraint.{Constraint};
ghost use Rattle.dap_errors.specs.declared.cause.Cause.{Cause};
ghost use Rattle.dap_http.specs.Targets.{target_of};
ghost use Rattle.dap_http.specs.Urls.{UrlParts};
ghost use Rattle.dap_http.specs.declared.kind.Kind.TheVariants.{Dods};
ghost use Rattle.dap_outside.specs.Causes.{Rose};
ghost use Rattle.dap_server.specs.Files.{Files, Stored};
ghost use Rattle.dap_server.specs.Results.{Opens, error_object};
ghost use Rattle.dap_types.specs.Limits.{body_limit};
ghost use Rattle.viable.specs.Prefix.{is_byte};
ghost use Rattle.both_ends.specs.Ends.{IsGoodResult};
ghost use Rattle.dap_commands.specs.Answer.{status_of_cause};
ghost use Rattle.dap_commands.specs.ClientHalf.{FetchesData, IsResponse, Response, Shows, text_of};
ghost use Rattle.dap_commands.specs.Laws.{IsGoodVisit, IsWholeGoodVisit};
ghost use Rattle.dap_commands.specs.Serve.{Serves, Visit};
ghost use Rattle.dap_commands.specs.ServerHalf.{Asks, IsAccepted, IsFirstCause, Says, served_body};
ghost use Rattle.dap_commands.specs.Words.{AreAnswer, AreFetch, AreServe, IsShow};
ghost use Rattle.dap_client.specs.Fetched.{link_state};

use crate::status::Status;
use crate::top::run;
use dap_outside::{Dial, Door, Shelf, Sink, Source};
use dap_types::Name;
use std::alloc::Global;
use std::thread::Threads;

/// `answer TARGET [WORKERS]`, 1 to 64 workers, over a shelf that tells its files.
pub fn run_answer<R: Threads + Sync, S: Shelf, I: Source, O: Sink, E: Sink, D: Door, C: Dial>(
    rt: &R,
    alloc: Global,
    words: &[Name],
    shelf: &mut S,
    input: &mut I,
    out: &mut O,
    err: &mut E,
    door: &mut D,
    dial: &mut C,
) -> Status
    ensures says { (target : List ℕ) (workers : ℕ) (files : Files) → AreAnswer words.now target workers → S.files shelf.old ≡ Some files →
        Says target files (record {
          puts = record {
            out = O.written out.old;
            out_then = O.written out.new;
            out_faults = O.put_faults out.old;
            out_faults_then = O.put_faults out.new;
            err = E.written err.old;
            err_then = E.written err.new;
            err_faults = E.put_faults err.old;
            err_faults_then = E.put_faults err.new;
          };
          shelf_faults = S.faults shelf.old;
          shelf_faults_then = S.faults shelf.new;
        }) result }

    // Where no count of a fault rose and memory was had: the served body where the constraint is accepted, and the
    // Error object of the first cause where it is not.
    ensures accepted { (target query : List ℕ) (workers : ℕ) (files : Files) (s : Stored) (c : Constraint) → AreAnswer words.now target workers → S.files shelf.old ≡ Some files
        → Asks target query files s → IsAccepted query s c → ¬ (Rose (S.faults shelf.old) (S.faults shelf.new)) → ¬ (Rose (O.put_faults out.old) (O.put_faults out.new)) → result ≢ Status.Memory
        → (result ≡ Status.Complete) × Appends (O.written out.old) (O.written out.new) (served_body s c) }
    ensures refused { (target query : List ℕ) (workers : ℕ) (files : Files) (s : Stored) (why : Cause) → AreAnswer words.now target workers → S.files shelf.old ≡ Some files
        → Asks target query files s → IsFirstCause query s why → ¬ (Rose (S.faults shelf.old) (S.faults shelf.new)) → ¬ (Rose (O.put_faults out.old) (O.put_faults out.new)) → result ≢ Status.Memory
        → (result ≡ status_of_cause why) × Appends (O.written out.old) (O.written out.new) (error_object why) }

    // Where the file of the target's name has no dataset, the Error object of the cause of that.
    ensures damaged { (target name query : List ℕ) (workers : ℕ) (files : Files) (why : Cause) → AreAnswer words.now target workers → S.files shelf.old ≡ Some files
        → target_of target ≡ Some (record { name = name; kind = Dods; query = query }) → IsTrue (list_all is_byte query) → Opens files name (Err why)
        → ¬ (Rose (S.faults shelf.old) (S.faults shelf.new)) → ¬ (Rose (O.put_faults out.old) (O.put_faults out.new)) → result ≢ Status.Memory
        → (result ≡ status_of_cause why) × Appends (O.written out.old) (O.written out.new) (error_object why) }

    // And wherever it is complete for values, what was put is a good data response for who reads it, if it has fewer
    // than 2^40 bytes.
    ensures good { (target name query : List ℕ) (workers : ℕ) (files : Files) → AreAnswer words.now target workers → S.files shelf.old ≡ Some files
        → target_of target ≡ Some (record { name = name; kind = Dods; query = query }) → result ≡ Status.Complete
        → (text : List ℕ) × Appends (O.written out.old) (O.written out.new) text × (length text < body_limit → IsGoodResult target files text) }
{
    run(rt, alloc, words, shelf, input, out, err, door, dial)
}

/// `serve PORT WORKERS REQUESTS`, over a shelf that tells its files.
pub fn run_serve<R: Threads + Sync, S: Shelf, I: Source, O: Sink, E: Sink, D: Door, C: Dial>(
    rt: &R,
    alloc: Global,
    words: &[Name],
    shelf: &mut S,
    input: &mut I,
    out: &mut O,
    err: &mut E,
    door: &mut D,
    dial: &mut C,
) -> Status
    // Each link that came in gained the replies to its requests, and each reply that answers GET with a data response is
    // good where it stands; where no count rose and memory was had, they are the replies to all its requests.
    ensures visits { (port workers requests : ℕ) (files : Files) → AreServe words.now port workers requests → S.files shelf.old ≡ Some files → (visits : List (Visit D.Wire))
        × Serves (Some files) (link_state D.Wire.Source D.Wire.Sink) requests
        (record { back = D.back door.old; faults = S.faults shelf.old; asked = S.asked shelf.old; written = O.written out.old })
        (record { back = D.back door.new; faults = S.faults shelf.new; asked = S.asked shelf.new; written = O.written out.new }) visits result
        × All (IsGoodVisit files (link_state D.Wire.Source D.Wire.Sink)) visits
        × (¬ (Rose (S.faults shelf.old) (S.faults shelf.new)) → All (IsWholeGoodVisit files (link_state D.Wire.Source D.Wire.Sink)) visits) }
{
    run(rt, alloc, words, shelf, input, out, err, door, dial)
}

/// `show`.
pub fn run_show<R: Threads + Sync, S: Shelf, I: Source, O: Sink, E: Sink, D: Door, C: Dial>(
    rt: &R,
    alloc: Global,
    words: &[Name],
    shelf: &mut S,
    input: &mut I,
    out: &mut O,
    err: &mut E,
    door: &mut D,
    dial: &mut C,
) -> Status
    ensures says { IsShow words.now → Shows (record {
      left = I.left input.old;
      left_then = I.left input.new;
      is_ended_then = I.ended input.new;
      take_faults = I.take_faults input.old;
      take_faults_then = I.take_faults input.new;
      puts = record {
        out = O.written out.old;
        out_then = O.written out.new;
        out_faults = O.put_faults out.old;
        out_faults_then = O.put_faults out.new;
        err = E.written err.old;
        err_then = E.written err.new;
        err_faults = E.put_faults err.old;
        err_faults_then = E.put_faults err.new;
      };
    }) result }

    // Where no count of a fault rose and memory was had, a data response is shown.
    ensures shown { (r : Response) → IsShow words.now → I.left input.old ≡ Some r.bytes → IsResponse r
        → ¬ (Rose (I.take_faults input.old) (I.take_faults input.new)) → ¬ (Rose (O.put_faults out.old) (O.put_faults out.new)) → result ≢ Status.Memory
        → (result ≡ Status.Complete) × Appends (O.written out.old) (O.written out.new) (text_of r) }

    // And nothing else is called complete.
    ensures alone { (bytes : List ℕ) → IsShow words.now → I.left input.old ≡ Some bytes → result ≡ Status.Complete
        → (r : Response) × (r.bytes ≡ bytes) × IsResponse r × Appends (O.written out.old) (O.written out.new) (text_of r) }
{
    run(rt, alloc, words, shelf, input, out, err, door, dial)
}

/// `fetch URL dods CE [CE ..]`.
pub fn run_fetch<R: Threads + Sync, S: Shelf, I: Source, O: Sink, E: Sink, D: Door, C: Dial>(
    rt: &R,
    alloc: Global,
    words: &[Name],
    shelf: &mut S,
    input: &mut I,
    out: &mut O,
    err: &mut E,
    door: &mut D,
    dial: &mut C,
) -> Status
    ensures says { (u : UrlParts) (ces : List (List ℕ)) → AreFetch words.now u Dods ces →
        FetchesData (record {
          state = link_state C.Wire.Source C.Wire.Sink;
          url = u;
          constraints = ces;
          dial = record { back = C.back dial.old; faults = C.faults dial.old };
          dial_then = record { back = C.back dial.new; faults = C.faults dial.new };
          puts = record {
            out = O.written out.old;
            out_then = O.written out.new;
            out_faults = O.put_faults out.old;
            out_faults_then = O.put_faults out.new;
            err = E.written err.old;
            err_then = E.written err.new;
            err_faults = E.put_faults err.old;
            err_faults_then = E.put_faults err.new;
          };
        }) result }
{
    run(rt, alloc, words, shelf, input, out, err, door, dial)
}
