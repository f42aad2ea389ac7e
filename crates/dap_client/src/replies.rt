//! Replies that follow one another on a connection (RFC 9112, section 9.3).

ghost use Rattle.std.specs.Prelude.{◌≡◌, ◌≢◌, ◌≤◌, ◌++◌, ℕ, List, [], None, Some, IfOk};
ghost use Rattle.std.specs.Io.KnownBytes.{Appends, Consumes};
ghost use Rattle.dap_outside.specs.Causes.{Rose};
ghost use Rattle.dap_http.specs.Delivered.{HasCoding};
ghost use Rattle.dap_http.specs.declared.coding.Coding.{Coding as CodingValue};
ghost use Rattle.dap_http.specs.declared.kind.Kind.TheVariants.{Ver};
ghost use Rattle.dap_client.specs.Answered.{Tells};
ghost use Rattle.dap_client.specs.Following.{IsStoppedBy, outcome_at, pending};
ghost use Rattle.dap_client.specs.Outcomes.{Answers};
ghost use Rattle.dap_client.specs.Replies.{IsReplyVerdict, StopsInTime, form_of};
ghost use Rattle.dap_client.specs.Verdict.{Verdict};

use crate::Outcome;
use crate::reply::read_one;
use dap_http::{Kind, ReplyReader};
use dap_outside::{Sink, Source};
use dap_types::Memory;
use std::alloc::Global;
use xdr_decode::BadField;

/// Why no more replies are read.
#[derive(Clone, Copy, Debug)]
pub enum Stop {
    BadReply(BadField),
    ReadFault,
    WriteFault,
    Memory,
}

/// Reads replies one after the other; each begins where the framing before it ended.
#[derive(Drop)]
pub struct Replies {
    alloc: Global,
    heads: ReplyReader,
    stopped: Option<Stop>,
}

/// Whether no more replies are read after an outcome, and why.
fn stop_of(outcome: &Outcome) -> Option<Stop>
    ensures { IsStoppedBy outcome.now result }
{
    match outcome {
        Outcome::Complete { .. } => None,
        Outcome::ServerError { .. } => None,
        Outcome::BadReply(field) => Some(Stop::BadReply(*field)),
        Outcome::ReadFault => Some(Stop::ReadFault),
        Outcome::WriteFault => Some(Stop::WriteFault),
        Outcome::LinkFault => None,
        Outcome::Memory => Some(Stop::Memory),
    }
}

/// The outcome that it was.
fn again(stop: Stop) -> Outcome
    ensures { result ≡ outcome_at stop }
{
    match stop {
        Stop::BadReply(field) => Outcome::BadReply(field),
        Stop::ReadFault => Outcome::ReadFault,
        Stop::WriteFault => Outcome::WriteFault,
        Stop::Memory => Outcome::Memory,
    }
}

impl Replies {
    /// Nothing was read. Fails where memory is wanted.
    pub fn new(alloc: Global) -> Result<Replies, Memory>
        ensures pending { IfOk result (λ r. pending r ≡ []) }
        ensures open { IfOk result (λ r. r.stopped ≡ None) }
    {
        Ok(Replies {
            alloc,
            heads: ReplyReader::new(alloc)?,
            stopped: None,
        })
    }

    /// Reads the next reply as `read_reply` does, from the bytes behind the framing of the one before.
    /// After an outcome other than `Complete` and `ServerError` it answers the same again, and neither
    /// takes nor puts a byte.
    pub fn next<I: Source, O: Sink>(&mut self, source: &mut I, kind: Kind, out: &mut O) -> Outcome
        requires { kind ≢ Ver }
        ensures tells { self.old.stopped ≡ None → (taken : List ℕ) × (text : List ℕ) × Consumes (I.left source.old) (I.left source.new) taken
            × Appends (O.written out.old) (O.written out.new) text × Tells (form_of kind) (pending self.old ++ taken) (I.ended source.new) (pending self.new) text result
            × StopsInTime (form_of kind) (pending self.old ++ taken) }
        // Whatever the verdict on the reply is, it is told, but for a fault or want of memory.
        ensures only { self.old.stopped ≡ None → (left behind : List ℕ) (coding : CodingValue) (n : ℕ) (v : Verdict) → I.left source.old ≡ Some left →
            HasCoding (pending self.old ++ left) coding behind → IsReplyVerdict (form_of kind) (pending self.old ++ left) n v → Answers n v result }
        ensures again { (stop : Stop) → self.old.stopped ≡ Some stop → (result ≡ outcome_at stop) × (source.new ≡ source.old) × (out.new ≡ out.old) }
        ensures stops { IsStoppedBy result self.new.stopped }
        ensures read_fault { self.old.stopped ≡ None → result ≡ Outcome.ReadFault → Rose (I.take_faults source.old) (I.take_faults source.new) }
        ensures write_fault { self.old.stopped ≡ None → result ≡ Outcome.WriteFault → Rose (O.put_faults out.old) (O.put_faults out.new) }
        ensures later_reading { I.take_faults source.old ≤ I.take_faults source.new }
        ensures later_writing { O.put_faults out.old ≤ O.put_faults out.new }
        ensures kept_reading { ¬ (result ≡ Outcome.ReadFault) → I.take_faults source.new ≡ I.take_faults source.old }
        ensures kept_writing { ¬ (result ≡ Outcome.WriteFault) → O.put_faults out.new ≡ O.put_faults out.old }
        ensures whole { I.whole source.new ≡ I.whole source.old }
        ensures beside_reading { I.beside_reading source.new ≡ I.beside_reading source.old }
        ensures beside_writing { O.beside_writing out.new ≡ O.beside_writing out.old }
    {
        if let Some(stop) = self.stopped {
            return again(stop);
        }
        let outcome = read_one(self.alloc, &mut self.heads, source, kind, out);
        self.stopped = stop_of(&outcome);
        outcome
    }
}
