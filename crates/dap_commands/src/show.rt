ghost use Rattle.std.specs.Prelude.{◌≡◌, ◌≢◌, ◌≤◌, ℕ, List, Some, IsTrue, length};
ghost use Rattle.std.specs.Io.KnownBytes.{IsAtEnd};
ghost use Rattle.dap_client.specs.Shows.{Takes};
ghost use Rattle.dap_client.specs.Verdict.{Verdict, IsVerdict, dods_form};
ghost use Rattle.dap_outside.specs.Causes.{Rose};
ghost use Rattle.dap_types.specs.Limits.{body_limit};
ghost use Rattle.dap_commands.specs.Lines.{IsSaid};
ghost use Rattle.dap_commands.specs.Show.{IsFor, ShowSays};

use crate::lines::{say_bad_reply, say_server_error};
use crate::status::Status;
use dap_client::{Outcome, show};
use dap_outside::{Sink, Source};
use std::alloc::Global;

/// Shows the data response that comes in. What is wrong with it, and an Error object in its place, goes to
/// `err`.
pub fn show_input<I: Source, O: Sink, E: Sink>(
    alloc: Global,
    input: &mut I,
    out: &mut O,
    err: &mut E,
) -> Status
    ensures says { ShowSays (I.left input.old) (I.left input.new) (IsTrue (I.ended input.new)) (IsAtEnd (I.left input.new)) (O.written out.old) (O.written out.new)
        (λ line. IsSaid line (E.put_faults err.old) (E.put_faults err.new) (E.written err.old) (E.written err.new)) result }
    ensures verdict { (body : List ℕ) (v : Verdict) → I.left input.old ≡ Some body → IsVerdict dods_form body v → IsFor v result }
    ensures most { Takes (I.left input.old) (I.left input.new) (λ taken. length taken ≤ body_limit) }
    ensures read_fault { result ≡ Status.ReadFault → Rose (I.take_faults input.old) (I.take_faults input.new) }
    ensures input_kept { result ≢ Status.ReadFault → I.take_faults input.new ≡ I.take_faults input.old }
    ensures write_fault { result ≡ Status.WriteFault → Rose (O.put_faults out.old) (O.put_faults out.new) }
    ensures out_kept { result ≢ Status.WriteFault → O.put_faults out.new ≡ O.put_faults out.old }
    ensures words { result ≢ Status.Words }
    ensures whole { I.whole input.new ≡ I.whole input.old }
    ensures beside_reading { I.beside_reading input.new ≡ I.beside_reading input.old }
    ensures beside_writing { O.beside_writing out.new ≡ O.beside_writing out.old }
    ensures quiet { result ≢ Status.BadReply → result ≢ Status.ServerError → err.new ≡ err.old }
    ensures beside_err { E.beside_writing err.new ≡ E.beside_writing err.old }
{
    match show(alloc, input, out) {
        Outcome::Complete { bytes: _ } => Status::Complete,
        Outcome::BadReply(bad) => {
            say_bad_reply(err, bad);
            Status::BadReply
        }
        Outcome::ServerError { code, message } => {
            let mut digits = itoa::Buffer::new();
            say_server_error(err, digits.format(code).as_bytes(), message.bytes());
            Status::ServerError
        }
        Outcome::ReadFault => Status::ReadFault,
        Outcome::WriteFault => Status::WriteFault,
        Outcome::Memory => Status::Memory,
        Outcome::LinkFault => unreachable!(),
    }
}
