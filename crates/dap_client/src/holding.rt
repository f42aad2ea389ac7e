//! A body that is read into memory, up to a limit, and judged as it comes (DAP 2.0).

ghost use Rattle.std.specs.Prelude.{◌≡◌, ◌≢◌, ◌+◌, ◌^◌, ◌≤◌, ◌<◌, ℕ, List, [], ◌++◌, length, IfErr, IfOk};
ghost use Rattle.dap_types.specs.Limits.{most_piece};
ghost use Rattle.dap_http.specs.declared.kind.Kind.TheVariants.{Ver};
ghost use Rattle.dap_client.specs.After.{form_in};
ghost use Rattle.dap_client.specs.Replies.{form_of};
ghost use Rattle.dap_client.specs.Verdict.{Form};
ghost use Rattle.dap_client.specs.inner.Holding.{HasNoFault, Holds, IsAfter, IsEnding, IsFull, IsGoing, IsHolding, IsJudged, IsTaken, SaysBroken, SaysWhole, ending_of, going_of, held_as_error, held_as_good, whole_of};

use crate::body::Body;
use crate::body_outcome::BodyOutcome;
use crate::nowhere::Nowhere;
use crate::outcome::Outcome;
use dap_http::Kind;
use dap_types::{Bytes, limits};
use std::alloc::Global;
use xdr_decode::{Bad, BadField};

/// How many bytes are judged at once.
const PIECE: usize = limits::MOST_PIECE;

/// What is held of a body.
#[derive(Drop)]
pub enum Held {
    /// All that came.
    All(Vec<u8>),
    /// Nothing: there is more of it than is held, and the first bytes of it are bad.
    Longer,
}

/// A reader of a body, what is held of it, and how many bytes may be.
#[derive(Drop)]
pub struct Holding {
    pub(crate) reader: Body,
    pub(crate) held: Held,
    pub(crate) limit: u32,
}

/// The outcome for a reader that reads no more.
fn stopped(outcome: Outcome) -> BodyOutcome
    requires { IsEnding outcome }
    ensures { result ≡ ending_of outcome }
{
    match outcome {
        Outcome::BadReply(field) => BodyOutcome::Bad(field),
        Outcome::Memory => BodyOutcome::Memory,
        Outcome::Complete { .. } => unreachable!(),
        Outcome::ServerError { .. } => unreachable!(),
        Outcome::ReadFault => unreachable!(),
        Outcome::WriteFault => unreachable!(),
        Outcome::LinkFault => unreachable!(),
    }
}

/// Judges one more piece.
fn judge(reader: Body, piece: &[u8]) -> Result<Body, BodyOutcome>
    requires stands { (bytes : List ℕ) × IsAfter reader bytes }
    requires within { reader.taken + length piece.now ≤ 2 ^ 40 }
    requires few { length piece.now ≤ most_piece }
    ensures judged { (bytes : List ℕ) → IsAfter reader bytes → IsJudged (form_in reader) (bytes ++ piece.now) result }
    ensures kind { IfOk result (λ r. r.kind ≡ reader.kind) }
{
    let mut reader = reader;
    match reader.judge(piece) {
        None => Ok(reader),
        Some(outcome) => Err(stopped(outcome)),
    }
}

/// Judges bytes from the front of a body again.
fn judge_again(alloc: Global, kind: Kind, bytes: &[u8]) -> Result<Body, BodyOutcome>
    requires kind { kind ≢ Ver }
    requires few { length bytes.now < 2 ^ 32 }
    ensures judged { IsJudged (form_of kind) bytes.now result }
    ensures kind { IfOk result (λ r. r.kind ≡ kind) }
{
    let mut reader = Body::new(alloc, kind);
    let mut at = 0;
    while at < bytes.len() {
        let to = at + PIECE.min(bytes.len() - at);
        reader = judge(reader, &bytes[at..to])?;
        at = to;
    }
    Ok(reader)
}

/// Whether the outcome for bytes that end says that nothing else is wrong with them.
fn goes_on(outcome: Outcome) -> Result<bool, BodyOutcome>
    requires { HasNoFault outcome }
    ensures { result ≡ going_of outcome }
{
    match outcome {
        Outcome::Complete { .. } => Ok(true),
        Outcome::ServerError { .. } => Ok(true),
        Outcome::BadReply(field) => Ok(field.kind == Bad::Cut),
        Outcome::Memory => Err(BodyOutcome::Memory),
        Outcome::ReadFault => unreachable!(),
        Outcome::WriteFault => unreachable!(),
        Outcome::LinkFault => unreachable!(),
    }
}

/// Whether nothing else is wrong with a body that ends here than that it ends.
fn is_going(reader: Body) -> Result<bool, BodyOutcome>
    requires { (bytes : List ℕ) × IsAfter reader bytes }
    ensures { (bytes : List ℕ) → IsAfter reader bytes → IsGoing (form_in reader) bytes result }
{
    goes_on(reader.finish(&mut Nowhere))
}

/// Appends a piece to what is held.
fn with(kept: Vec<u8>, piece: &[u8]) -> Result<Vec<u8>, BodyOutcome>
    ensures ok { IfOk result (λ v. v.items ≡ kept.items ++ piece.now) }
    ensures err { IfErr result (λ e. e ≡ BodyOutcome.Memory) }
{
    let mut kept = kept;
    match kept.extend_from_slice(piece) {
        Ok(()) => Ok(kept),
        Err(_) => Err(BodyOutcome::Memory),
    }
}

/// Goes on with a body of which nothing is held.
fn read_on(reader: Body, limit: u32, part: &[u8]) -> Result<Holding, BodyOutcome>
    requires kind { reader.kind ≢ Ver }
    requires stands { (body : List ℕ) × IsAfter reader body }
    requires few { length part.now ≤ most_piece }
    ensures { (body : List ℕ) → IsAfter reader body → IsFull (form_in reader) limit body → limit < length body + length part.now → IsTaken (form_in reader) limit (body ++ part.now) result }
{
    let looked_at = reader.looked_at(part);
    let reader = judge(reader, looked_at)?;
    Ok(Holding {
        reader,
        held: Held::Longer,
        limit,
    })
}

/// Reads a part behind which there is more than may be held: its bytes up to the limit, and the others.
fn overflow(
    alloc: Global,
    reader: Body,
    kept: Vec<u8>,
    limit: u32,
    front: &[u8],
    behind: &[u8],
) -> Result<Holding, BodyOutcome>
    requires kind { reader.kind ≢ Ver }
    requires stands { IsAfter reader kept.items }
    requires full { length kept.items + length front.now ≡ limit }
    requires some { 0 < length behind.now }
    requires few { length front.now + length behind.now ≤ most_piece }
    ensures { IsTaken (form_in reader) limit (kept.items ++ (front.now ++ behind.now)) result }
{
    let kind = reader.kind;
    let judged = judge(reader, front)?;
    let full = with(kept, front)?;
    let going = is_going(judged)?;
    if going {
        return Err(BodyOutcome::TooLarge);
    }
    let again = judge_again(alloc, kind, full.as_slice())?;
    read_on(again, limit, behind)
}

/// Reads a part of a body that is held.
fn take_into(
    alloc: Global,
    reader: Body,
    kept: Vec<u8>,
    limit: u32,
    part: &[u8],
) -> Result<Holding, BodyOutcome>
    requires kind { reader.kind ≢ Ver }
    requires stands { IsAfter reader kept.items }
    requires short { length kept.items ≤ limit }
    requires few { length part.now ≤ most_piece }
    ensures { IsTaken (form_in reader) limit (kept.items ++ part.now) result }
{
    let room = limit as usize - kept.len();
    if part.len() > room {
        let front = &part[..room];
        let behind = &part[room..];
        return overflow(alloc, reader, kept, limit, front, behind);
    }
    let judged = judge(reader, part)?;
    let longer = with(kept, part)?;
    Ok(Holding {
        reader: judged,
        held: Held::All(longer),
        limit,
    })
}

impl Holding {
    /// Of a body of this kind, before any byte.
    pub fn new(alloc: Global, kind: Kind, limit: u32) -> Holding
        requires { kind ≢ Ver }
        ensures { IsHolding (form_of kind) limit [] result }
    {
        Holding {
            reader: Body::new(alloc, kind),
            held: Held::All(Vec::new(alloc)),
            limit,
        }
    }

    /// Reads the next part.
    pub fn take(self, alloc: Global, part: &[u8]) -> Result<Holding, BodyOutcome>
        requires holds { Holds self }
        requires few { length part.now ≤ most_piece }
        ensures { (form : Form) (limit : ℕ) (body : List ℕ) → IsHolding form limit body self → IsTaken form limit (body ++ part.now) result }
    {
        let Holding {
            reader,
            held,
            limit,
        } = self;
        match held {
            Held::All(kept) => take_into(alloc, reader, kept, limit, part),
            Held::Longer => read_on(reader, limit, part),
        }
    }

    /// The outcome for a body that ends here.
    pub fn finish(self) -> BodyOutcome
        requires { Holds self }
        ensures says { (form : Form) (limit : ℕ) (body : List ℕ) → IsHolding form limit body self → SaysWhole form limit body result }
        ensures no_fault { result ≡ BodyOutcome.ReadFault → ⊥ }
    {
        let Holding { reader, held, .. } = self;
        whole(held, reader.finish(&mut Nowhere))
    }

    /// The outcome for a body that breaks off here for that reason.
    pub fn break_off(self, wrong: BadField) -> BodyOutcome
        requires { Holds self }
        ensures says { (form : Form) (limit : ℕ) (body : List ℕ) → IsHolding form limit body self → SaysBroken form limit body wrong result }
        ensures no_fault { result ≡ BodyOutcome.ReadFault → ⊥ }
    {
        stopped(self.reader.break_off(wrong))
    }
}

/// The outcome for a body that has ended, of which this is held.
fn whole(held: Held, outcome: Outcome) -> BodyOutcome
    requires { HasNoFault outcome }
    ensures { result ≡ whole_of held outcome }
{
    match outcome {
        Outcome::Complete { .. } => good(held),
        Outcome::ServerError { .. } => server_error(held),
        Outcome::BadReply(field) => BodyOutcome::Bad(field),
        Outcome::Memory => BodyOutcome::Memory,
        Outcome::ReadFault => unreachable!(),
        Outcome::WriteFault => unreachable!(),
        Outcome::LinkFault => unreachable!(),
    }
}

/// A good body, of which all is held. It is not said of one that is longer: the first bytes of it are bad.
fn good(held: Held) -> BodyOutcome
    ensures { result ≡ held_as_good held }
{
    match held {
        Held::All(kept) => BodyOutcome::Good(Bytes::from_vec(kept)),
        Held::Longer => BodyOutcome::Memory,
    }
}

/// The same of an Error object.
fn server_error(held: Held) -> BodyOutcome
    ensures { result ≡ held_as_error held }
{
    match held {
        Held::All(kept) => BodyOutcome::ServerError(Bytes::from_vec(kept)),
        Held::Longer => BodyOutcome::Memory,
    }
}
