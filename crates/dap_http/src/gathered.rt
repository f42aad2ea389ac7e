ghost use Rattle.std.specs.Prelude.{◌≡◌, ◌+◌, ◌-◌, ◌≤◌, ◌<◌, ◌++◌, ℕ, List, IsTrue, true, drop, length, take, vec_capacity};
ghost use Rattle.std.specs.Prelude.{OnOk, OnErr, IfOk};
ghost use Rattle.std.specs.Io.KnownBytes.{Appends};
ghost use Rattle.dap_types.specs.Limits.{most_piece};
ghost use Rattle.dap_outside.specs.Causes.{HasCause};
ghost use Rattle.dap_http.specs.inner.UnderWay.{InFrames, body_of, end_of, frames_of, front_before, gained_of, has_room, head_of};

use crate::intake::keep;
use crate::last_chunk::ended;
use dap_outside::{Failed, Sink, put_all};
use dap_types::{Memory, limits};
use http_server::Log;
use std::alloc::Global;

/// The bytes of a piece of a body, at most.
const PIECE: usize = limits::MOST_PIECE;
/// Room for a chunk's head, and for the ends of the last one and of the body.
const AROUND: usize = 14;

/// A framed body on its way: the frames that were put whole, for contracts alone, and the one that is being
/// gathered or put. The first has in front what goes out before the body.
#[derive(Drop)]
pub struct Gathered {
    chunked: bool,
    frame: Vec<u8>,
    from: usize,
    sent: usize,
    whole: Log<Vec<u8>, usize>,
    ghost under_way: { ∥ InFrames chunked (front_before chunked (frames_of whole.items) frame.items from) frame.items from sent (body_of (frames_of whole.items) frame.items from) (gained_of (frames_of whole.items) frame.items sent) ∥₁ },
    ghost gathers: { IsTrue (has_room chunked from (length frame.items)) },
    ghost headed: { from ≤ length frame.items },
    ghost behind: { length (head_of chunked) ≤ from },
    ghost within: { sent ≤ length frame.items },
    ghost room: { from + 65543 ≤ vec_capacity frame },
}

impl Gathered {
    ghost use Rattle.std.specs.Prelude.{[], false};
    ghost use Rattle.dap_http.specs.Frames.{IsProperFront, framed};
    ghost use Rattle.dap_http.specs.Framings.{EndsEarly};
    ghost use Rattle.dap_http.specs.inner.Putting.{body_in, front_in, gained_by};

    /// A body of no bytes yet behind others, which were not put yet. Fails where memory is wanted.
    #[tactic(auto, using(crate::proofs::Gathering::begun_so, crate::proofs::Gathering::no_body, crate::proofs::Gathering::nothing_gained))]
    pub fn new(alloc: Global, chunked: bool, front: &[u8]) -> Result<Gathered, Memory>
        ensures chunked { IfOk result (λ g. g.chunked ≡ chunked) }
        ensures front { IfOk result (λ g. front_in g ≡ front.now) }
        ensures body { IfOk result (λ g. body_in g ≡ []) }
        ensures gained { IfOk result (λ g. gained_by g ≡ []) }
    {
        let frame = begun(alloc, chunked, front)?;
        let from = frame.len();
        Ok(Gathered {
            chunked,
            frame,
            from,
            sent: 0,
            whole: Log::new(),
        })
    }

    /// Whether the frame is whole.
    fn is_whole(&self) -> bool
        ensures whole { result ≡ true → self.now.from + most_piece ≤ length self.now.frame.items }
        ensures open { result ≡ false → length self.now.frame.items < self.now.from + most_piece }
    {
        self.frame.len() - self.from >= PIECE
    }

    /// Takes body bytes from the front, at least one, and answers how many. A whole frame is put before more
    /// is taken; where that fails it goes on from there next time.
    pub fn accept<O: Sink>(&mut self, out: &mut O, bytes: &[u8]) -> Result<usize, Failed>
        requires { 0 < length bytes.now }
        ensures some { IfOk result (λ n. (0 < n) × (n ≤ length bytes.now)) }
        ensures body { IfOk result (λ n. body_in self.new ≡ body_in self.old ++ take n bytes.now) }
        ensures err { OnErr result (body_in self.new ≡ body_in self.old) }
        ensures gains { (x : List ℕ) × (gained_by self.new ≡ gained_by self.old ++ x) × Appends (O.written out.old) (O.written out.new) x }
        ensures same { (self.new.chunked ≡ self.old.chunked) × (front_in self.new ≡ front_in self.old) }
        ensures cause { HasCause (O.put_faults out.old) (O.put_faults out.new) result }
        ensures beside { O.beside_writing out.new ≡ O.beside_writing out.old }
    {
        if self.is_whole() {
            self.flush(out)?;
        }
        Ok(self.gather(bytes))
    }

    /// Puts what is left of the body.
    pub fn end<O: Sink>(self, out: &mut O) -> Result<(), Failed>
        ensures ok { OnOk result ((x : List ℕ) × Appends (O.written out.old) (O.written out.new) x
            × (gained_by self ++ x ≡ front_in self ++ framed self.chunked (body_in self))) }
        ensures err { OnErr result ((x : List ℕ) × Appends (O.written out.old) (O.written out.new) x
            × IsProperFront (gained_by self ++ x) (front_in self ++ framed self.chunked (body_in self))) }
        ensures cause { HasCause (O.put_faults out.old) (O.put_faults out.new) result }
        ensures beside { O.beside_writing out.new ≡ O.beside_writing out.old }
    {
        let mut last = self;
        if last.is_whole() {
            last.flush(out)?;
            return last.close(out);
        }
        last.close(out)
    }

    /// Puts what was gathered of a frame that is not whole, and the end of the body.
    fn close<O: Sink>(self, out: &mut O) -> Result<(), Failed>
        requires open { length self.frame.items < self.from + most_piece }
        ensures ok { OnOk result ((x : List ℕ) × Appends (O.written out.old) (O.written out.new) x
            × (gained_by self ++ x ≡ front_in self ++ framed self.chunked (body_in self))) }
        ensures err { OnErr result ((x : List ℕ) × Appends (O.written out.old) (O.written out.new) x
            × IsProperFront (gained_by self ++ x) (front_in self ++ framed self.chunked (body_in self))) }
        ensures cause { HasCause (O.put_faults out.old) (O.put_faults out.new) result }
        ensures beside { O.beside_writing out.new ≡ O.beside_writing out.old }
    {
        let Gathered {
            chunked,
            frame,
            from,
            sent: _,
            whole: _,
        } = self;
        let mut last = frame;
        let at = ended(chunked, &mut last, from);
        put_all(out, &last[at..])
    }

    /// Puts what goes out before the body, where it was not put, and of the body what may go out without its
    /// rest.
    pub fn break_off<O: Sink>(&self, out: &mut O) -> Result<(), Failed>
        ensures ok { OnOk result ((x : List ℕ) × Appends (O.written out.old) (O.written out.new) x
            × EndsEarly (gained_by self.now ++ x) (front_in self.now) self.now.chunked (body_in self.now)) }
        ensures err { OnErr result ((x : List ℕ) × Appends (O.written out.old) (O.written out.new) x
            × ((more : List ℕ) → IsProperFront (gained_by self.now ++ x) (front_in self.now ++ framed self.now.chunked (body_in self.now ++ more)))) }
        ensures cause { HasCause (O.put_faults out.old) (O.put_faults out.new) result }
        ensures beside { O.beside_writing out.new ≡ O.beside_writing out.old }
    {
        let end = self.ready();
        put_all(out, &self.frame[self.sent..end])
    }

    /// Where what may go out of the frame without the rest of the body ends.
    fn ready(&self) -> usize
        ensures sent { self.now.sent ≤ result }
        ensures inside { result ≤ length self.now.frame.items }
        ensures breaks { EndsEarly (gained_by self.now ++ take (result - self.now.sent) (drop self.now.sent self.now.frame.items)) (front_in self.now) self.now.chunked (body_in self.now) }
    {
        if !self.chunked {
            return self.frame.len();
        }
        if self.is_whole() {
            return self.frame.len();
        }
        self.from - 7
    }

    /// Puts the rest of a whole frame, and begins the next.
    fn flush<O: Sink>(&mut self, out: &mut O) -> Result<(), Failed>
        requires whole { self.old.from + most_piece ≤ length self.old.frame.items }
        ensures begins { OnOk result (length self.new.frame.items < self.new.from + most_piece) }
        ensures left { OnErr result ((self.new.from + most_piece ≤ length self.new.frame.items) × (self.new.sent < length self.new.frame.items)) }
        ensures body { body_in self.new ≡ body_in self.old }
        ensures gains { (x : List ℕ) × (gained_by self.new ≡ gained_by self.old ++ x) × Appends (O.written out.old) (O.written out.new) x }
        ensures same { (self.new.chunked ≡ self.old.chunked) × (front_in self.new ≡ front_in self.old) }
        ensures cause { HasCause (O.put_faults out.old) (O.put_faults out.new) result }
        ensures beside { O.beside_writing out.new ≡ O.beside_writing out.old }
    {
        while self.sent < self.frame.len() {
            self.put_part(out)?;
        }
        self.begin();
        Ok(())
    }

    /// Puts some bytes of a whole frame.
    fn put_part<O: Sink>(&mut self, out: &mut O) -> Result<(), Failed>
        requires whole { self.old.from + most_piece ≤ length self.old.frame.items }
        requires left { self.old.sent < length self.old.frame.items }
        ensures body { body_in self.new ≡ body_in self.old }
        ensures same { (self.new.chunked ≡ self.old.chunked) × (front_in self.new ≡ front_in self.old) }
        ensures gains { (x : List ℕ) × (gained_by self.new ≡ gained_by self.old ++ x) × Appends (O.written out.old) (O.written out.new) x }
        ensures cause { HasCause (O.put_faults out.old) (O.put_faults out.new) result }
        ensures beside { O.beside_writing out.new ≡ O.beside_writing out.old }
        ensures frame { self.new.frame ≡ self.old.frame }
        ensures from { self.new.from ≡ self.old.from }
        ensures sent { OnOk result (self.old.sent < self.new.sent) }
        ensures unsent { OnErr result (self.new.sent ≡ self.old.sent) }
    {
        let count = out.put(&self.frame[self.sent..])?;
        self.sent += count;
        Ok(())
    }

    /// Begins a frame behind one that was put.
    fn begin(&mut self)
        requires whole { self.old.from + most_piece ≤ length self.old.frame.items }
        requires put { length self.old.frame.items ≤ self.old.sent }
        ensures begins { length self.new.frame.items < self.new.from + most_piece }
        ensures body { body_in self.new ≡ body_in self.old }
        ensures gained { gained_by self.new ≡ gained_by self.old }
        ensures same { (self.new.chunked ≡ self.old.chunked) × (front_in self.new ≡ front_in self.old) }
    {
        self.whole = self.whole.and(&self.frame, &self.from);
        self.frame.clear();
        let head = head(self.chunked);
        keep(&mut self.frame, head);
        self.from = head.len();
        self.sent = 0;
    }

    /// Gathers body bytes into a frame, as many as there is room for, and ends it where it is full.
    fn gather(&mut self, bytes: &[u8]) -> usize
        requires some { 0 < length bytes.now }
        requires open { length self.old.frame.items < self.old.from + most_piece }
        ensures some { (0 < result) × (result ≤ length bytes.now) }
        ensures body { body_in self.new ≡ body_in self.old ++ take result bytes.now }
        ensures gained { gained_by self.new ≡ gained_by self.old }
        ensures same { (self.new.chunked ≡ self.old.chunked) × (front_in self.new ≡ front_in self.old) }
    {
        let count = bytes.len().min(PIECE - (self.frame.len() - self.from));
        keep(&mut self.frame, &bytes[..count]);
        if self.frame.len() - self.from == PIECE {
            keep(&mut self.frame, line_end(self.chunked));
        }
        count
    }
}

/// What stands before a whole piece of a body (RFC 9112, section 7.1).
fn head(chunked: bool) -> &'static [u8]
    ensures { result.now ≡ head_of chunked }
{
    if chunked { b"10000\r\n" } else { b"" }
}

/// What stands behind a piece of a body.
fn line_end(chunked: bool) -> &'static [u8]
    ensures { result.now ≡ end_of chunked }
{
    if chunked { b"\r\n" } else { b"" }
}

/// What goes out before the body, and the head of a chunk of the largest size, with room for a piece and ends.
fn begun(alloc: Global, chunked: bool, front: &[u8]) -> Result<Vec<u8>, Memory>
    ensures head { IfOk result (λ v. v.items ≡ front.now ++ head_of chunked) }
    ensures room { IfOk result (λ v. length v.items + 65543 ≤ vec_capacity v) }
{
    let mut frame = Vec::with_capacity(alloc, front.len() + PIECE + AROUND)?;
    frame.extend_from_slice(front)?;
    frame.extend_from_slice(head(chunked))?;
    Ok(frame)
}
