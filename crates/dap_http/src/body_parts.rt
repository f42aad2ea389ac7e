ghost use Rattle.std.specs.Prelude.{◌≡◌, ◌≢◌, ◌≤◌, ◌<◌, ◌+◌, ◌++◌, ℕ, List, [], Option, Some, None, IfOk, OnErr, IsTrue, false, length, take};
ghost use Rattle.std.specs.Io.KnownBytes.{Consumes, IsAtEnd};
ghost use Rattle.dap_outside.specs.Causes.{HasCause, Rose};
ghost use Rattle.dap_types.specs.Limits.{body_limit, most_piece};

use crate::Coding;
use crate::unframer::{Unframed, Unframer};
use dap_outside::{Failed, Source};
use dap_types::{Memory, limits};
use reply_faults::BadField;
use std::alloc::Global;

/// How many bytes are taken at once.
const ROOM: usize = limits::MOST_PIECE;

/// A body has fewer bytes.
const LIMIT: u64 = limits::BODY_LIMIT;

/// What comes next of the body of a reply.
#[derive(Clone, Copy, Debug)]
pub enum Arrived {
    /// Some bytes of it, which `part` lends.
    Part,
    /// Its end.
    End,
    /// Its framing is bad, or the source has ended before it.
    Refused(BadField),
    ReadFault,
}

/// Reads the body of a reply from a source, part by part, without its framing.
#[derive(Drop)]
pub struct BodyParts {
    unframer: Unframer,
    room: Vec<u8>,
    from: usize,
    to: usize,
    end: usize,
    ghost size: { length room.items ≡ most_piece },
    ghost filled: { end ≤ most_piece },
    ghost within: { to ≤ end },
    ghost lent: { from ≤ to },
}

impl BodyParts {
    ghost use Rattle.dap_http.specs.After.{UnframerStandsAfter, lent_by};
    ghost use Rattle.dap_http.specs.Codings.{Goes};
    ghost use Rattle.dap_http.specs.Delivered.{IsWholeBody};
    ghost use Rattle.dap_http.specs.Following.{Arrives, Follows, IsInTime, IsShort, body_coding, part_of, waiting};
    ghost use Rattle.dap_http.specs.inner.Parting.{IsUsedUp, TakesPiece, Turns, Unframes, taken_by};

    /// A reader of a body of that coding, whose first bytes were taken together with the head. Fails
    /// where memory is wanted.
    pub fn new(alloc: Global, coding: Coding, first: &[u8]) -> Result<BodyParts, Memory>
        requires { length first.now ≤ most_piece }
        ensures follows { IfOk result (λ p. Follows p first.now []) }
        ensures in_time { IfOk result (λ _. IsInTime coding first.now []) }
        ensures coding { IfOk result (λ p. body_coding p ≡ coding) }
    {
        Ok(BodyParts {
            unframer: Unframer::new(coding),
            room: room_with(alloc, ROOM, first)?,
            from: 0,
            to: 0,
            end: first.len(),
        })
    }

    /// Reads up to the next bytes of the body, its end, a fault of its framing, or one of the source. It
    /// takes a piece of at most 65,536 bytes only while the bytes before it decide nothing, and never
    /// more than 2^40 bytes of the body.
    pub fn next<I: Source>(&mut self, source: &mut I) -> Arrived
        requires { IsShort self.old }
        ensures arrives { (taken : List ℕ) × Consumes (I.left source.old) (I.left source.new) taken
            × ((bytes body : List ℕ) → Follows self.old bytes body →
            Arrives self.new (bytes ++ taken) body (I.ended source.new) result)
            × ((bytes body : List ℕ) → Follows self.old bytes body → IsInTime (body_coding self.old) bytes body →
            IsInTime (body_coding self.old) (bytes ++ taken) body) }
        // Nothing is taken where the end of the body has come already.
        ensures ended { (bytes body rest : List ℕ) → Follows self.old bytes body → IsWholeBody (body_coding self.old) bytes false body rest →
            (result ≡ Arrived.End) × (source.new ≡ source.old) }
        ensures coding { body_coding self.new ≡ body_coding self.old }
        ensures fault { result ≡ Arrived.ReadFault → Rose (I.take_faults source.old) (I.take_faults source.new) }
        ensures kept { result ≢ Arrived.ReadFault → I.take_faults source.new ≡ I.take_faults source.old }
        ensures later { I.take_faults source.old ≤ I.take_faults source.new }
        ensures stays { IsTrue (I.ended source.old) → IsTrue (I.ended source.new) }
        ensures whole { I.whole source.new ≡ I.whole source.old }
        ensures beside { I.beside_reading source.new ≡ I.beside_reading source.old }
    {
        loop {
            if let Some(arrived) = self.turn(source) {
                return arrived;
            }
        }
    }

    /// The bytes of the body that came last.
    pub fn part(&self) -> &[u8]
        ensures { result.now ≡ part_of self.now }
    {
        &self.room[self.from..self.to]
    }

    /// The bytes that were taken and are not used: behind the end of a body, those of what follows it.
    pub fn rest(&self) -> &[u8]
        ensures { result.now ≡ waiting self.now }
    {
        &self.room[self.to..self.end]
    }

    /// Unframes the bytes that wait, and takes more where they tell nothing.
    fn turn<I: Source>(&mut self, source: &mut I) -> Option<Arrived>
        requires { IsShort self.old }
        ensures turns { (taken : List ℕ) × Consumes (I.left source.old) (I.left source.new) taken
            × ((bytes body : List ℕ) → Follows self.old bytes body →
            Turns self.new (bytes ++ taken) body (I.ended source.new) result × TakesPiece (body_coding self.old) bytes body taken) }
        ensures ended { (bytes body rest : List ℕ) → Follows self.old bytes body → IsWholeBody (body_coding self.old) bytes false body rest →
            (result ≡ Some Arrived.End) × (source.new ≡ source.old) }
        ensures more { result ≡ None → taken_by self.old < taken_by self.new }
        ensures coding { body_coding self.new ≡ body_coding self.old }
        ensures fault { result ≡ Some Arrived.ReadFault → Rose (I.take_faults source.old) (I.take_faults source.new) }
        ensures kept { result ≢ Some Arrived.ReadFault → I.take_faults source.new ≡ I.take_faults source.old }
        ensures later { I.take_faults source.old ≤ I.take_faults source.new }
        ensures stays { IsTrue (I.ended source.old) → IsTrue (I.ended source.new) }
        ensures whole { I.whole source.new ≡ I.whole source.old }
        ensures beside { I.beside_reading source.new ≡ I.beside_reading source.old }
    {
        match self.unframe() {
            Some(arrived) => Some(arrived),
            None => self.go_on(source),
        }
    }

    /// Unframes the bytes that wait, up to bytes of the body, its end or a fault.
    fn unframe(&mut self) -> Option<Arrived>
        requires { IsShort self.old }
        ensures unframes { (bytes body : List ℕ) → Follows self.old bytes body → Unframes self.new bytes body result }
        ensures ended { (bytes body rest : List ℕ) → Follows self.old bytes body → IsWholeBody (body_coding self.old) bytes false body rest → result ≡ Some Arrived.End }
        ensures no_fault { (result ≡ Some Arrived.ReadFault) → ⊥ }
        ensures none { result ≡ None → taken_by self.new ≡ taken_by self.old }
        ensures used { result ≡ None → self.new.to ≡ self.new.end }
        ensures coding { body_coding self.new ≡ body_coding self.old }
    {
        match self.unframer.next(&self.room[self.to..self.end]) {
            Unframed::Part { bytes, used } => {
                self.from = self.to + (used - bytes.len());
                self.to += used;
                Some(Arrived::Part)
            }
            Unframed::More => {
                self.to = self.end;
                None
            }
            Unframed::End { used } => {
                self.to += used;
                Some(Arrived::End)
            }
            Unframed::Refused(bad) => Some(Arrived::Refused(bad)),
        }
    }

    /// Takes more bytes where none wait, as many as the body may still have.
    fn go_on<I: Source>(&mut self, source: &mut I) -> Option<Arrived>
        requires none { self.old.to ≡ self.old.end }
        requires short { lent_by self.old.unframer < body_limit }
        ensures turns { (taken : List ℕ) × Consumes (I.left source.old) (I.left source.new) taken
            × ((bytes body : List ℕ) → IsUsedUp self.old bytes body →
            Turns self.new (bytes ++ taken) body (I.ended source.new) result × TakesPiece (body_coding self.old) bytes body taken) }
        ensures more { result ≡ None → taken_by self.old < taken_by self.new }
        ensures coding { body_coding self.new ≡ body_coding self.old }
        ensures fault { result ≡ Some Arrived.ReadFault → Rose (I.take_faults source.old) (I.take_faults source.new) }
        ensures kept { result ≢ Some Arrived.ReadFault → I.take_faults source.new ≡ I.take_faults source.old }
        ensures later { I.take_faults source.old ≤ I.take_faults source.new }
        ensures stays { IsTrue (I.ended source.old) → IsTrue (I.ended source.new) }
        ensures whole { I.whole source.new ≡ I.whole source.old }
        ensures beside { I.beside_reading source.new ≡ I.beside_reading source.old }
    {
        let most = piece_length(self.unframer.lent());
        match fill(&mut self.room, source, most) {
            Ok(0) => match self.unframer.finish() {
                Ok(()) => Some(Arrived::End),
                Err(bad) => Some(Arrived::Refused(bad)),
            },
            Ok(count) => {
                self.from = 0;
                self.to = 0;
                self.end = count;
                None
            }
            Err(_) => Some(Arrived::ReadFault),
        }
    }
}

/// Room for so many bytes, with these at its front.
fn room_with(alloc: Global, size: usize, first: &[u8]) -> Result<Vec<u8>, Memory>
    requires { length first.now ≤ size }
    ensures size { IfOk result (λ v. length v.items ≡ size) }
    ensures front { IfOk result (λ v. take (length first.now) v.items ≡ first.now) }
{
    let mut room = Vec::with_capacity(alloc, size)?;
    room.extend_from_slice(first)?;
    room.resize(size, 0u8)?;
    Ok(room)
}

/// How many bytes are taken at once, where so many came of a body.
fn piece_length(lent: u64) -> usize
    requires { lent < body_limit }
    ensures some { 0 < result }
    ensures most { result ≤ most_piece }
    ensures left { lent + result ≤ body_limit }
{
    let left = LIMIT - lent;
    if left < ROOM as u64 {
        return left as usize;
    }
    ROOM
}

/// Takes some bytes into the room, at most so many, and answers how many; 0 says that nothing is left.
fn fill<I: Source>(room: &mut Vec<u8>, source: &mut I, most: usize) -> Result<usize, Failed>
    requires size { length room.old.items ≡ most_piece }
    requires some { 0 < most }
    requires within { most ≤ most_piece }
    ensures size { length room.new.items ≡ most_piece }
    ensures most { IfOk result (λ n. n ≤ most) }
    ensures bytes { IfOk result (λ n. Consumes (I.left source.old) (I.left source.new) (take n room.new.items)) }
    ensures end { IfOk result (λ n. n ≡ 0 → IsTrue (I.ended source.new) × IsAtEnd (I.left source.new)) }
    ensures err { OnErr result (I.left source.new ≡ I.left source.old) }
    ensures stays { IsTrue (I.ended source.old) → IsTrue (I.ended source.new) }
    ensures cause { HasCause (I.take_faults source.old) (I.take_faults source.new) result }
    ensures whole { I.whole source.new ≡ I.whole source.old }
    ensures beside { I.beside_reading source.new ≡ I.beside_reading source.old }
{
    fill_front(room.as_mut_slice(), source, most)
}

/// Takes some bytes into the front of a slice.
fn fill_front<I: Source>(room: &mut [u8], source: &mut I, most: usize) -> Result<usize, Failed>
    requires some { 0 < most }
    requires within { most ≤ length room.old }
    ensures size { length room.new ≡ length room.old }
    ensures most { IfOk result (λ n. n ≤ most) }
    ensures bytes { IfOk result (λ n. Consumes (I.left source.old) (I.left source.new) (take n room.new)) }
    ensures end { IfOk result (λ n. n ≡ 0 → IsTrue (I.ended source.new) × IsAtEnd (I.left source.new)) }
    ensures err { OnErr result (I.left source.new ≡ I.left source.old) }
    ensures stays { IsTrue (I.ended source.old) → IsTrue (I.ended source.new) }
    ensures cause { HasCause (I.take_faults source.old) (I.take_faults source.new) result }
    ensures whole { I.whole source.new ≡ I.whole source.old }
    ensures beside { I.beside_reading source.new ≡ I.beside_reading source.old }
{
    source.take(&mut room[..most])
}
