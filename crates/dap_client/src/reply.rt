//! A reply over HTTP (RFC 9112), read to its outcome.

ghost use Rattle.std.specs.Prelude.{◌≡◌, ◌≢◌, ◌≤◌, ◌<◌, ◌^◌, ◌++◌, ◌+◌, ℕ, List, [], Some, IsTrue, length};
ghost use Rattle.std.specs.Io.KnownBytes.{Appends, Consumes};
ghost use Rattle.dap_types.specs.Limits.{most_piece};
ghost use Rattle.dap_outside.specs.Causes.{Rose};
ghost use Rattle.dap_http.specs.Delivered.{HasCoding};
ghost use Rattle.dap_http.specs.Following.{Follows, IsInTime, body_coding};
ghost use Rattle.dap_http.specs.Reading.{rest_of};
ghost use Rattle.dap_http.specs.declared.coding.Coding.{Coding as CodingValue};
ghost use Rattle.dap_http.specs.declared.kind.Kind.TheVariants.{Ver};
ghost use Rattle.dap_client.specs.After.{BodyStandsAfter, form_in};
ghost use Rattle.dap_client.specs.Answered.{Tells};
ghost use Rattle.dap_client.specs.Outcomes.{Answers};
ghost use Rattle.dap_client.specs.Replies.{IsReplyVerdict, StopsInTime, form_of};
ghost use Rattle.dap_client.specs.Shows.{Takes};
ghost use Rattle.dap_client.specs.Verdict.{Verdict};
ghost use Rattle.dap_client.specs.inner.Behind.{IsToldBehind, StopsBehind, TellsBehind};

use crate::Outcome;
use crate::body::Body;
use dap_http::{Arrived, BodyParts, Coding, Kind, ReplyRead, ReplyReader};
use dap_outside::{Sink, Source};
use std::alloc::Global;

/// Reads the body behind the heads, part by part.
fn read_parts<I: Source, O: Sink>(
    parts: &mut BodyParts,
    reader: Body,
    source: &mut I,
    out: &mut O,
) -> Outcome
    requires new { reader.taken ≡ 0 }
    requires stands { BodyStandsAfter reader [] [] }
    requires follows { (bytes : List ℕ) × Follows parts.old bytes [] }
    ensures tells { (taken : List ℕ) × (text : List ℕ) × Consumes (I.left source.old) (I.left source.new) taken × Appends (O.written out.old) (O.written out.new) text
        × ((bytes : List ℕ) → Follows parts.old bytes [] → IsInTime (body_coding parts.old) bytes [] →
        TellsBehind (form_in reader) (body_coding parts.old) (bytes ++ taken) (I.ended source.new) parts.new text result × StopsBehind (form_in reader) (body_coding parts.old) (bytes ++ taken)) }
    ensures read_fault { result ≡ Outcome.ReadFault → Rose (I.take_faults source.old) (I.take_faults source.new) }
    ensures write_fault { result ≡ Outcome.WriteFault → Rose (O.put_faults out.old) (O.put_faults out.new) }
    ensures later_reading { I.take_faults source.old ≤ I.take_faults source.new }
    ensures later_writing { O.put_faults out.old ≤ O.put_faults out.new }
    ensures kept_reading { ¬ (result ≡ Outcome.ReadFault) → I.take_faults source.new ≡ I.take_faults source.old }
    ensures kept_writing { ¬ (result ≡ Outcome.WriteFault) → O.put_faults out.new ≡ O.put_faults out.old }
    ensures stays { IsTrue (I.ended source.old) → IsTrue (I.ended source.new) }
    ensures whole { I.whole source.new ≡ I.whole source.old }
    ensures beside_reading { I.beside_reading source.new ≡ I.beside_reading source.old }
    ensures beside_writing { O.beside_writing out.new ≡ O.beside_writing out.old }
{
    let mut reader = reader;
    loop {
        match parts.next(source) {
            Arrived::Part => {
                let part = reader.looked_at(parts.part());
                if let Some(outcome) = reader.push(part, out) {
                    return outcome;
                }
            }
            Arrived::End => return reader.finish(out),
            Arrived::Refused(wrong) => return reader.break_off(wrong),
            Arrived::ReadFault => return reader.leave(),
        }
    }
}

/// Reads one reply: its heads, the first bytes of which may have been taken before, and its body. What
/// was taken behind it is kept.
pub fn read_one<I: Source, O: Sink>(
    alloc: Global,
    heads: &mut ReplyReader,
    source: &mut I,
    kind: Kind,
    out: &mut O,
) -> Outcome
    requires { kind ≢ Ver }
    ensures tells { (taken : List ℕ) × (text : List ℕ) × Consumes (I.left source.old) (I.left source.new) taken × Appends (O.written out.old) (O.written out.new) text
        × Tells (form_of kind) (rest_of heads.old ++ taken) (I.ended source.new) (rest_of heads.new) text result × StopsInTime (form_of kind) (rest_of heads.old ++ taken) }
    ensures read_fault { result ≡ Outcome.ReadFault → Rose (I.take_faults source.old) (I.take_faults source.new) }
    ensures write_fault { result ≡ Outcome.WriteFault → Rose (O.put_faults out.old) (O.put_faults out.new) }
    ensures later_reading { I.take_faults source.old ≤ I.take_faults source.new }
    ensures later_writing { O.put_faults out.old ≤ O.put_faults out.new }
    ensures kept_reading { ¬ (result ≡ Outcome.ReadFault) → I.take_faults source.new ≡ I.take_faults source.old }
    ensures kept_writing { ¬ (result ≡ Outcome.WriteFault) → O.put_faults out.new ≡ O.put_faults out.old }
    ensures stays { IsTrue (I.ended source.old) → IsTrue (I.ended source.new) }
    ensures whole { I.whole source.new ≡ I.whole source.old }
    ensures beside_reading { I.beside_reading source.new ≡ I.beside_reading source.old }
    ensures beside_writing { O.beside_writing out.new ≡ O.beside_writing out.old }
{
    match heads.read(source) {
        ReplyRead::Final(coding) => read_body(alloc, coding, heads, source, kind, out),
        ReplyRead::Refused(wrong) => Body::new(alloc, kind).break_off(wrong),
        ReplyRead::ReadFault => Body::new(alloc, kind).leave(),
        ReplyRead::Memory => unreachable!(),
    }
}

/// Reads the body of a reply, whose first bytes were taken with its heads.
fn read_body<I: Source, O: Sink>(
    alloc: Global,
    coding: Coding,
    heads: &mut ReplyReader,
    source: &mut I,
    kind: Kind,
    out: &mut O,
) -> Outcome
    requires { kind ≢ Ver }
    ensures tells { (taken : List ℕ) × (text : List ℕ) × Consumes (I.left source.old) (I.left source.new) taken × Appends (O.written out.old) (O.written out.new) text
        × IsToldBehind (form_of kind) coding (rest_of heads.old ++ taken) (I.ended source.new) (rest_of heads.new) text result × StopsBehind (form_of kind) coding (rest_of heads.old ++ taken) }
    ensures read_fault { result ≡ Outcome.ReadFault → Rose (I.take_faults source.old) (I.take_faults source.new) }
    ensures write_fault { result ≡ Outcome.WriteFault → Rose (O.put_faults out.old) (O.put_faults out.new) }
    ensures later_reading { I.take_faults source.old ≤ I.take_faults source.new }
    ensures later_writing { O.put_faults out.old ≤ O.put_faults out.new }
    ensures kept_reading { ¬ (result ≡ Outcome.ReadFault) → I.take_faults source.new ≡ I.take_faults source.old }
    ensures kept_writing { ¬ (result ≡ Outcome.WriteFault) → O.put_faults out.new ≡ O.put_faults out.old }
    ensures stays { IsTrue (I.ended source.old) → IsTrue (I.ended source.new) }
    ensures whole { I.whole source.new ≡ I.whole source.old }
    ensures beside_reading { I.beside_reading source.new ≡ I.beside_reading source.old }
    ensures beside_writing { O.beside_writing out.new ≡ O.beside_writing out.old }
{
    let Ok(mut parts) = BodyParts::new(alloc, coding, heads.rest()) else {
        return Outcome::Memory;
    };
    let outcome = read_parts(&mut parts, Body::new(alloc, kind), source, out);
    replace(heads, parts.rest());
    outcome
}

/// Keeps these bytes in place of the rest.
fn replace(heads: &mut ReplyReader, bytes: &[u8])
    requires { length bytes.now ≤ most_piece }
    ensures { rest_of heads.new ≡ bytes.now }
{
    let count = heads.rest().len();
    heads.skip(count);
    heads.keep(bytes);
}

/// Reads an HTTP reply to a request of this kind (RFC 9112; DAP 2.0), and shows its body: a data response
/// as `show` does; of a DDS and a DAS the text printed again, once the body has ended. A body whose first
/// word is `Error` is an Error object, whatever the status: nothing is put of it, and `ServerError` has
/// its code and message. `BadReply` says what is wrong first: with the heads, with the bytes of the body
/// that came, else with the framing. `ReadFault` and `WriteFault` come only where the count of the source,
/// of the sink, rose; with any other answer the count is what it was. `Memory` comes where memory is wanted, and not once a byte was put.
pub fn read_reply<I: Source, O: Sink>(
    alloc: Global,
    source: &mut I,
    kind: Kind,
    out: &mut O,
) -> Outcome
    requires { kind ≢ Ver }
    ensures tells { (taken : List ℕ) × (text : List ℕ) × (rest : List ℕ) × Consumes (I.left source.old) (I.left source.new) taken × Appends (O.written out.old) (O.written out.new) text
        × Tells (form_of kind) taken (I.ended source.new) rest text result }
    // Whatever the verdict on the reply is, it is told, but for a fault or want of memory.
    ensures only { (reply behind : List ℕ) (coding : CodingValue) (n : ℕ) (v : Verdict) → I.left source.old ≡ Some reply → HasCoding reply coding behind →
        IsReplyVerdict (form_of kind) reply n v → Answers n v result }
    // However it ends, no more is taken than a piece behind what settles the reply, nor of a body than is looked at.
    ensures most { Takes (I.left source.old) (I.left source.new) (StopsInTime (form_of kind)) }

    ensures read_fault { result ≡ Outcome.ReadFault → Rose (I.take_faults source.old) (I.take_faults source.new) }
    ensures write_fault { result ≡ Outcome.WriteFault → Rose (O.put_faults out.old) (O.put_faults out.new) }
    ensures later_reading { I.take_faults source.old ≤ I.take_faults source.new }
    ensures later_writing { O.put_faults out.old ≤ O.put_faults out.new }
    ensures kept_reading { ¬ (result ≡ Outcome.ReadFault) → I.take_faults source.new ≡ I.take_faults source.old }
    ensures kept_writing { ¬ (result ≡ Outcome.WriteFault) → O.put_faults out.new ≡ O.put_faults out.old }
    ensures whole { I.whole source.new ≡ I.whole source.old }
    ensures beside_reading { I.beside_reading source.new ≡ I.beside_reading source.old }
    ensures beside_writing { O.beside_writing out.new ≡ O.beside_writing out.old }
{
    let Ok(mut heads) = ReplyReader::new(alloc) else {
        return Outcome::Memory;
    };
    read_one(alloc, &mut heads, source, kind, out)
}
