ghost use Rattle.std.specs.Prelude.{◌≡◌, ◌≢◌, ◌+◌, ◌≤◌, ◌↔◌, ℕ, List, [], IfSome, IsSome, IsTrue, Some, false, length, Result};
ghost use Rattle.std.specs.Io.KnownBytes.{Appends, IsAtEnd};
ghost use Rattle.dap_client.specs.Fetched.{link_state};
ghost use Rattle.dap_client.specs.Shows.{Takes};
ghost use Rattle.dap_client.specs.Verdict.{Verdict, IsVerdict, dods_form};
ghost use Rattle.dap_errors.specs.declared.cause.Cause.{Cause};
ghost use Rattle.dap_outside.specs.Causes.{Rose};
ghost use Rattle.dap_outside.specs.Streams.{AppendsFront};
ghost use Rattle.dap_server.specs.Results.{Text};
ghost use Rattle.dap_types.specs.Limits.{body_limit};
ghost use Rattle.dap_http.specs.Urls.{UrlParts};
ghost use Rattle.netcdf_writer.specs.Fetching.{SavesUrl};
ghost use Rattle.netcdf_writer.specs.Saving.{Saves};
ghost use Rattle.dap_http.specs.declared.kind.Kind.{Kind};
ghost use Rattle.dap_commands.specs.Answer as answers;
ghost use Rattle.dap_commands.specs.Answer.{AnswerSays, HasNoText, MayAskFor, MayHaveAsked, MustResult, looks_up, most_before};
ghost use Rattle.dap_commands.specs.Fetch.{FetchSays};
ghost use Rattle.dap_commands.specs.Lines.{IsSaid, line_of};
ghost use Rattle.dap_commands.specs.Relay.{RelayedLink, Relays};
ghost use Rattle.dap_commands.specs.Save.{SaveSays};
ghost use Rattle.dap_commands.specs.Show.{ShowSays, status_of_verdict};
ghost use Rattle.dap_commands.specs.Soak.{SoakSays};
ghost use Rattle.dap_commands.specs.Serve.{Serves, VerSays, Visit};
ghost use Rattle.dap_commands.specs.Words.{AreAnswer, AreFetch, AreRelay, AreSaveUrl, AreServe, AreSoak, IsCommand, IsFetch, IsRelay, IsSave, IsSaveUrl, IsServe, IsShow, IsSoak, IsVer};

use crate::answer::answer;
use crate::command::{Command, command_of};
use crate::fetch::fetch;
use crate::lines::say_line;
use crate::relaying::relay;
use crate::save::{save_fetched, save_input};
use crate::serving::serve;
use crate::show::show_input;
use crate::soaking::soak_lines;
use crate::status::Status;
use crate::version::ver;
use dap_outside::{Dial, Door, Shelf, Sink, Source};
use dap_types::Name;
use std::alloc::Global;
use std::thread::Threads;

/// Does all that the program does with the words after its name. `answer TARGET [WORKERS]` puts what a
/// target asks of the shelf's files to `out`, or the Error object for the first cause for which there is
/// no such text; `show` reads a data response from `input` and shows it on `out`; `serve PORT WORKERS
/// REQUESTS` serves so many links that come in at the door, and puts a line for each to `out`; `fetch URL
/// KIND CE [CE ..]` asks for what a URL gives for each constraint over a link of the dial, and shows the
/// replies on `out`; `soak START SIZE` generates a file of so many records, serves a part of it and reads the
/// reply, both in memory, and puts the lines of what came; `relay HOST UPPORT PORT ROOM REQUESTS` answers so many
/// links that come in at the door out of a cache or by what the server at the host and its port replies over a
/// link of the dial, and puts a line for each; `save` reads a data response from `input`, and `save URL CE` asks for
/// that of a URL over a link of the dial, and each puts it to `out` as a netCDF classic file; `ver` puts the version
/// text. For each status but `Complete` a line goes to `err`.
pub fn run<R: Threads + Sync, S: Shelf, I: Source, O: Sink, E: Sink, D: Door, C: Dial>(
    rt: &R,
    alloc: Global,
    words: &[Name],
    shelf: &mut S,
    input: &mut I,
    out: &mut O,
    err: &mut E,
    door: &mut D,
    dial: &mut C,
) -> Status
    // What each status of `answer` says of the target's result, of the output and of the line on `err`.
    ensures answer { (target : List ℕ) (workers : ℕ) → AreAnswer words.now target workers →
        AnswerSays (S.files shelf.old) target (Appends (O.written out.old) (O.written out.new)) (AppendsFront (O.written out.old) (O.written out.new))
        (λ line. IsSaid line (E.put_faults err.old) (E.put_faults err.new) (E.written err.old) (E.written err.new)) result }

    // Over a shelf that tells its files, each of these comes wherever its result stands, no count of a fault
    // rose and memory was had.
    ensures answered { (target : List ℕ) (workers : ℕ) → AreAnswer words.now target workers → (r : Result Text Cause) → MustResult (S.files shelf.old) target r
        → ¬ (Rose (S.faults shelf.old) (S.faults shelf.new)) → ¬ (Rose (O.put_faults out.old) (O.put_faults out.new))
        → result ≢ Status.Memory → result ≡ answers.status_of_result r }

    // What is asked of the shelf for a target; where no text of it is put, and where the output failed.
    ensures answer_asks { (target : List ℕ) (workers : ℕ) → AreAnswer words.now target workers → (most : ℕ) × MayAskFor (S.files shelf.old) target most × (S.asked shelf.new ≤ S.asked shelf.old + most) }
    ensures answer_asks_first { (target : List ℕ) (workers : ℕ) → AreAnswer words.now target workers → HasNoText result → S.asked shelf.new ≤ S.asked shelf.old + most_before (S.files shelf.old) target }
    ensures answer_asked { (target : List ℕ) (workers : ℕ) → AreAnswer words.now target workers → IsSome (S.files shelf.old) → result ≡ Status.WriteFault →
        MayHaveAsked (S.files shelf.old) target (O.written out.old) (O.written out.new) (S.asked shelf.old) (S.asked shelf.new) }
    ensures answer_untouched { (target : List ℕ) (workers : ℕ) → AreAnswer words.now target workers → looks_up target ≡ false → shelf.new ≡ shelf.old }
    ensures answer_read_fault { (target : List ℕ) (workers : ℕ) → AreAnswer words.now target workers → result ≡ Status.ReadFault → Rose (S.faults shelf.old) (S.faults shelf.new) }
    ensures files { S.files shelf.new ≡ S.files shelf.old }

    // The links that came in at the port of `serve`, each served by itself over its whole input, and a line
    // for each; the shelf failed at least as often as they say, and no more was asked of it than they may ask.
    ensures serve { (port workers requests : ℕ) → AreServe words.now port workers requests → (visits : List (Visit D.Wire))
        × Serves (S.files shelf.old) (link_state D.Wire.Source D.Wire.Sink) requests
        (record { back = D.back door.old; faults = S.faults shelf.old; asked = S.asked shelf.old; written = O.written out.old })
        (record { back = D.back door.new; faults = S.faults shelf.new; asked = S.asked shelf.new; written = O.written out.new }) visits result
        × (visits ≢ [] → D.listens_at door.new ≡ Some port) }

    // The links that came in at the port of `relay`, each answered out of the cache or by what the other server replied,
    // and a line for each; where equal requests got equal replies there, as it would be without the cache. Memory is
    // wanted before the door listens alone.
    ensures relay { (host : List ℕ) (upport port room requests : ℕ) → AreRelay words.now host upport port room requests → (relays : List (RelayedLink D.Wire C.Wire C))
        × Relays (record { door_link = link_state D.Wire.Source D.Wire.Sink; dial_link = link_state C.Wire.Source C.Wire.Sink; dial = λ d. record { back = C.back d; faults = C.faults d }; host = host; port = upport; room = room }) requests
        (record { back = D.back door.old; dial = dial.old; written = O.written out.old })
        (record { back = D.back door.new; dial = dial.new; written = O.written out.new }) relays result
        × (relays ≢ [] → D.listens_at door.new ≡ Some port) }
    ensures relay_memory { IsRelay words.now → result ≡ Status.Memory → (door.new ≡ door.old) × (dial.new ≡ dial.old) × (out.new ≡ out.old) }
    ensures relay_shelf { IsRelay words.now → shelf.new ≡ shelf.old }

    ensures link_fault { ¬ (IsFetch words.now) → ¬ (IsSaveUrl words.now) → result ≡ Status.LinkFault → Rose (D.faults door.old) (D.faults door.new) }
    ensures ver { IsVer words.now → VerSays (Appends (O.written out.old) (O.written out.new)) (AppendsFront (O.written out.old) (O.written out.new)) result }
    ensures ver_shelf { IsVer words.now → shelf.new ≡ shelf.old }
    ensures soak { (start records : ℕ) → AreSoak words.now start records → SoakSays start records (Appends (O.written out.old) (O.written out.new)) (AppendsFront (O.written out.old) (O.written out.new)) result }
    ensures soak_shelf { IsSoak words.now → shelf.new ≡ shelf.old }
    ensures door { ¬ (IsServe words.now) → ¬ (IsRelay words.now) → door.new ≡ door.old }

    // What each status of `show` says of the bytes that came in, of the output and of the line on `err`; and the
    // verdict on what a source that tells has left is told, where no count rose and memory was had.
    ensures show { IsShow words.now → ShowSays (I.left input.old) (I.left input.new) (IsTrue (I.ended input.new)) (IsAtEnd (I.left input.new)) (O.written out.old) (O.written out.new)
        (λ line. IsSaid line (E.put_faults err.old) (E.put_faults err.new) (E.written err.old) (E.written err.new)) result }
    ensures shows { IsShow words.now → (body : List ℕ) (v : Verdict) → I.left input.old ≡ Some body → IsVerdict dods_form body v
        → ¬ (Rose (I.take_faults input.old) (I.take_faults input.new)) → ¬ (Rose (O.put_faults out.old) (O.put_faults out.new))
        → result ≢ Status.Memory → result ≡ status_of_verdict v }

    // However `show` ends, no more bytes are taken than the first that no data response has.
    ensures most { IsShow words.now → Takes (I.left input.old) (I.left input.new) (λ taken. length taken ≤ body_limit) }

    ensures read_fault { IsShow words.now → result ≡ Status.ReadFault → Rose (I.take_faults input.old) (I.take_faults input.new) }
    ensures shelf { IsShow words.now → shelf.new ≡ shelf.old }

    // What each status of `fetch` says of the replies of the link that the dial gave and got back, of the output
    // and of the line on `err`.
    ensures fetch { (u : UrlParts) (kind : Kind) (ces : List (List ℕ)) → AreFetch words.now u kind ces →
        FetchSays (link_state C.Wire.Source C.Wire.Sink) u kind ces
        (record { back = C.back dial.old; faults = C.faults dial.old }) (record { back = C.back dial.new; faults = C.faults dial.new })
        (record { written = O.written out.old; faults = O.put_faults out.old }) (record { written = O.written out.new; faults = O.put_faults out.new })
        (λ line. IsSaid line (E.put_faults err.old) (E.put_faults err.new) (E.written err.old) (E.written err.new)) result }
    ensures fetch_link { IsFetch words.now → result ≡ Status.LinkFault → Rose (C.faults dial.old) (C.faults dial.new) }
    ensures fetch_shelf { IsFetch words.now → shelf.new ≡ shelf.old }

    // What each status of `save` says of the bytes that came in, or of the reply of the link that the dial gave and got back, of
    // the output and of the line on `err`.
    ensures save { IsSave words.now → SaveSays (Saves (I.left input.old) (I.left input.new) (IsTrue (I.ended input.new)) (O.written out.old) (O.written out.new))
        (λ line. IsSaid line (E.put_faults err.old) (E.put_faults err.new) (E.written err.old) (E.written err.new)) result }
    ensures save_read { IsSave words.now → result ≡ Status.ReadFault → Rose (I.take_faults input.old) (I.take_faults input.new) }
    ensures save_shelf { IsSave words.now → shelf.new ≡ shelf.old }
    ensures save_url { (u : UrlParts) (ce : List ℕ) → AreSaveUrl words.now u ce →
        SaveSays (SavesUrl (link_state C.Wire.Source C.Wire.Sink) u ce
        (record { back = C.back dial.old; faults = C.faults dial.old }) (record { back = C.back dial.new; faults = C.faults dial.new })
        (record { written = O.written out.old; faults = O.put_faults out.old }) (record { written = O.written out.new; faults = O.put_faults out.new }))
        (λ line. IsSaid line (E.put_faults err.old) (E.put_faults err.new) (E.written err.old) (E.written err.new)) result }
    ensures save_link { IsSaveUrl words.now → result ≡ Status.LinkFault → Rose (C.faults dial.old) (C.faults dial.new) }
    ensures save_url_shelf { IsSaveUrl words.now → shelf.new ≡ shelf.old }
    ensures dial { ¬ (IsFetch words.now) → ¬ (IsRelay words.now) → ¬ (IsSaveUrl words.now) → dial.new ≡ dial.old }

    ensures words { (result ≡ Status.Words) ↔ (¬ (IsCommand words.now)) }
    ensures no_command { ¬ (IsCommand words.now) → (shelf.new ≡ shelf.old) × (out.new ≡ out.old) }
    ensures write_fault { ¬ (IsFetch words.now) → ¬ (IsSaveUrl words.now) → result ≡ Status.WriteFault → Rose (O.put_faults out.old) (O.put_faults out.new) }

    // The count of an object rises for its own fault alone.
    ensures out_kept { result ≢ Status.WriteFault → O.put_faults out.new ≡ O.put_faults out.old }
    ensures input_kept { result ≢ Status.ReadFault → I.take_faults input.new ≡ I.take_faults input.old }
    ensures answer_kept { (target : List ℕ) (workers : ℕ) → AreAnswer words.now target workers → result ≢ Status.ReadFault → S.faults shelf.new ≡ S.faults shelf.old }
    ensures door_kept { result ≢ Status.LinkFault → D.faults door.new ≡ D.faults door.old }
    ensures dial_kept { ¬ (IsRelay words.now) → result ≢ Status.LinkFault → C.faults dial.new ≡ C.faults dial.old }

    ensures input { ¬ (IsShow words.now) → ¬ (IsSave words.now) → input.new ≡ input.old }
    ensures whole { I.whole input.new ≡ I.whole input.old }
    ensures beside_input { I.beside_reading input.new ≡ I.beside_reading input.old }
    ensures beside_out { O.beside_writing out.new ≡ O.beside_writing out.old }
    ensures said { IfSome (line_of result) (λ line. IsSaid line (E.put_faults err.old) (E.put_faults err.new) (E.written err.old) (E.written err.new)) }
    ensures silent { result ≡ Status.Complete → err.new ≡ err.old }
    ensures beside_err { E.beside_writing err.new ≡ E.beside_writing err.old }
{
    match command_of(words) {
        Command::Answer(target, workers) => {
            let status = answer(rt, alloc, target, workers, shelf, out, err);
            say_line(err, status);
            status
        }
        Command::Show => {
            let status = show_input(alloc, input, out, err);
            say_line(err, status);
            status
        }
        Command::Serve {
            port,
            workers,
            requests,
        } => {
            let status = serve(rt, alloc, port, workers, requests, shelf, out, door);
            say_line(err, status);
            status
        }
        Command::Ver => {
            let status = ver(out);
            say_line(err, status);
            status
        }
        Command::Soak { start, records } => {
            let status = soak_lines(rt, alloc, start, records, out);
            say_line(err, status);
            status
        }
        Command::Fetch { url, kind, ces } => {
            let status = fetch(alloc, url, kind, ces, out, err, dial);
            say_line(err, status);
            status
        }
        Command::Relay {
            host,
            upport,
            port,
            room,
            requests,
        } => {
            let status = relay(
                alloc,
                host.as_bytes(),
                upport,
                port,
                room,
                requests,
                out,
                door,
                dial,
            );
            say_line(err, status);
            status
        }
        Command::Save => {
            let status = save_input(alloc, input, out, err);
            say_line(err, status);
            status
        }
        Command::SaveUrl { url, ce } => {
            let status = save_fetched(alloc, url, ce, out, err, dial);
            say_line(err, status);
            status
        }
        Command::Other => {
            say_line(err, Status::Words);
            Status::Words
        }
    }
}
