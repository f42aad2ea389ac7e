//! A reply over HTTP (RFC 9112) whose body is read into memory.

ghost use Rattle.std.specs.Prelude.{◌≡◌, ◌≢◌, ◌≤◌, ◌++◌, ℕ, List, [], Some, true, length};
ghost use Rattle.std.specs.Io.KnownBytes.{Consumes};
ghost use Rattle.dap_types.specs.Limits.{most_piece};
ghost use Rattle.dap_outside.specs.Causes.{Rose};
ghost use Rattle.dap_http.specs.Delivered.{BreaksOff, Delivers, HasCoding};
ghost use Rattle.dap_http.specs.Following.{Follows, IsInTime, body_coding};
ghost use Rattle.dap_http.specs.Reading.{rest_of};
ghost use Rattle.dap_http.specs.declared.coding.Coding.{Coding as CodingValue};
ghost use Rattle.dap_http.specs.declared.kind.Kind.TheVariants.{Ver};
ghost use Rattle.dap_client.specs.Held.{IsLong, IsTold, Says, told_of};
ghost use Rattle.dap_client.specs.Replies.{BringsFirst, StopsInTime, first_of, form_of};
ghost use Rattle.dap_client.specs.Shows.{Takes};
ghost use Rattle.dap_client.specs.Verdict.{Form, Verdict, IsVerdict};
ghost use Rattle.dap_client.specs.inner.Behind.{StopsBehind};
ghost use Rattle.dap_client.specs.inner.Holding.{IsHolding, SaysBehind};
ghost use Rattle.reply_faults.specs.declared.bad.BadField.{BadField as BadFieldValue};

use crate::body_outcome::BodyOutcome;
use crate::holding::Holding;
use dap_http::{Arrived, BodyParts, Coding, Kind, ReplyRead, ReplyReader};
use dap_outside::Source;
use std::alloc::Global;

/// Reads the body behind the heads, part by part.
fn read_parts<I: Source>(
    alloc: Global,
    parts: &mut BodyParts,
    holding: Holding,
    source: &mut I,
) -> BodyOutcome
    requires holds { (form : Form) × (limit : ℕ) × IsHolding form limit [] holding }
    requires follows { (bytes : List ℕ) × Follows parts.old bytes [] }
    ensures says { (taken : List ℕ) × Consumes (I.left source.old) (I.left source.new) taken
        × ((form : Form) (limit : ℕ) (bytes : List ℕ) → IsHolding form limit [] holding → Follows parts.old bytes [] →
        SaysBehind form limit (body_coding parts.old) (bytes ++ taken) (I.ended source.new) result)
        × ((form : Form) (limit : ℕ) (bytes : List ℕ) → IsHolding form limit [] holding → Follows parts.old bytes [] → IsInTime (body_coding parts.old) bytes [] →
        StopsBehind form (body_coding parts.old) (bytes ++ taken)) }
    ensures read_fault { result ≡ BodyOutcome.ReadFault → Rose (I.take_faults source.old) (I.take_faults source.new) }
    ensures later { I.take_faults source.old ≤ I.take_faults source.new }
    ensures kept { ¬ (result ≡ BodyOutcome.ReadFault) → I.take_faults source.new ≡ I.take_faults source.old }
    ensures whole { I.whole source.new ≡ I.whole source.old }
    ensures beside { I.beside_reading source.new ≡ I.beside_reading source.old }
{
    let mut holding = holding;
    loop {
        match parts.next(source) {
            Arrived::Part => match holding.take(alloc, parts.part()) {
                Ok(on) => holding = on,
                Err(outcome) => return outcome,
            },
            Arrived::End => return holding.finish(),
            Arrived::Refused(wrong) => return holding.break_off(wrong),
            Arrived::ReadFault => return BodyOutcome::ReadFault,
        }
    }
}

/// Reads the body of a reply, whose first bytes were taken with its heads.
fn read_behind<I: Source>(
    alloc: Global,
    coding: Coding,
    first: &[u8],
    source: &mut I,
    kind: Kind,
    limit: u32,
) -> BodyOutcome
    requires kind { kind ≢ Ver }
    requires few { length first.now ≤ most_piece }
    ensures says { (taken : List ℕ) × Consumes (I.left source.old) (I.left source.new) taken
        × SaysBehind (form_of kind) limit coding (first.now ++ taken) (I.ended source.new) result × StopsBehind (form_of kind) coding (first.now ++ taken) }
    ensures read_fault { result ≡ BodyOutcome.ReadFault → Rose (I.take_faults source.old) (I.take_faults source.new) }
    ensures later { I.take_faults source.old ≤ I.take_faults source.new }
    ensures kept { ¬ (result ≡ BodyOutcome.ReadFault) → I.take_faults source.new ≡ I.take_faults source.old }
    ensures whole { I.whole source.new ≡ I.whole source.old }
    ensures beside { I.beside_reading source.new ≡ I.beside_reading source.old }
{
    let Ok(mut parts) = BodyParts::new(alloc, coding, first) else {
        return BodyOutcome::Memory;
    };
    read_parts(alloc, &mut parts, Holding::new(alloc, kind, limit), source)
}

/// Reads one reply: its heads, the first bytes of which may have been taken before, and its body.
fn read_held<I: Source>(
    alloc: Global,
    heads: &mut ReplyReader,
    source: &mut I,
    kind: Kind,
    limit: u32,
) -> BodyOutcome
    requires { kind ≢ Ver }
    ensures says { (taken : List ℕ) × Consumes (I.left source.old) (I.left source.new) taken
        × Says (form_of kind) limit (rest_of heads.old ++ taken) (I.ended source.new) result × StopsInTime (form_of kind) (rest_of heads.old ++ taken) }
    ensures read_fault { result ≡ BodyOutcome.ReadFault → Rose (I.take_faults source.old) (I.take_faults source.new) }
    ensures later { I.take_faults source.old ≤ I.take_faults source.new }
    ensures kept { ¬ (result ≡ BodyOutcome.ReadFault) → I.take_faults source.new ≡ I.take_faults source.old }
    ensures whole { I.whole source.new ≡ I.whole source.old }
    ensures beside { I.beside_reading source.new ≡ I.beside_reading source.old }
{
    match heads.read(source) {
        ReplyRead::Final(coding) => read_behind(alloc, coding, heads.rest(), source, kind, limit),
        ReplyRead::Refused(wrong) => Holding::new(alloc, kind, limit).break_off(wrong),
        ReplyRead::ReadFault => BodyOutcome::ReadFault,
        ReplyRead::Memory => unreachable!(),
    }
}

/// Reads an HTTP reply to a request of this kind (RFC 9112; DAP 2.0) into memory. `Good` and `ServerError`
/// hold the bytes of its body, whose verdict is that of `read_reply`; `Bad` says what is wrong first.
/// `TooLarge` comes exactly where there are more bytes of a body than the limit, and the first of them
/// alone, as many as the limit, are good, an Error object, or cut. `ReadFault` comes only where the count of
/// the source rose, and `Memory` where memory is wanted.
pub fn read_body<I: Source>(alloc: Global, source: &mut I, kind: Kind, limit: u32) -> BodyOutcome
    requires { kind ≢ Ver }
    // What is told is so of the bytes that were taken, whatever follows them.
    ensures says { (taken : List ℕ) × Consumes (I.left source.old) (I.left source.new) taken × Says (form_of kind) limit taken (I.ended source.new) result }

    // A body that is too large, and each verdict on another, is told, but for a fault or want of memory.
    ensures too_large { (reply body : List ℕ) → I.left source.old ≡ Some reply → BringsFirst reply body → IsLong (form_of kind) limit body → IsTold BodyOutcome.TooLarge result }
    ensures whole_body { (reply body rest : List ℕ) (v : Verdict) → I.left source.old ≡ Some reply → Delivers reply true body rest → IsVerdict (form_of kind) body v
        → ¬ (IsLong (form_of kind) limit body) → IsTold (told_of body v) result }
    ensures broken_body { (reply behind body : List ℕ) (coding : CodingValue) (wrong : BadFieldValue) (v : Verdict) → I.left source.old ≡ Some reply → HasCoding reply coding behind
        → BreaksOff reply true body wrong → IsVerdict (form_of kind) body v → ¬ (IsLong (form_of kind) limit body) → IsTold (told_of body (first_of v wrong)) result }

    // However it ends, no more is taken than a piece behind what settles the reply, nor of a body than is looked at.
    ensures most { Takes (I.left source.old) (I.left source.new) (StopsInTime (form_of kind)) }

    ensures read_fault { result ≡ BodyOutcome.ReadFault → Rose (I.take_faults source.old) (I.take_faults source.new) }
    ensures later { I.take_faults source.old ≤ I.take_faults source.new }
    ensures kept { ¬ (result ≡ BodyOutcome.ReadFault) → I.take_faults source.new ≡ I.take_faults source.old }
    ensures whole { I.whole source.new ≡ I.whole source.old }
    ensures beside { I.beside_reading source.new ≡ I.beside_reading source.old }
{
    let Ok(mut heads) = ReplyReader::new(alloc) else {
        return BodyOutcome::Memory;
    };
    read_held(alloc, &mut heads, source, kind, limit)
}
