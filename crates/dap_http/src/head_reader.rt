ghost use Rattle.std.specs.Prelude.{◌≡◌, ◌≢◌, ◌≤◌, ◌<◌, ◌++◌, ℕ, List, [], Some, None, IfOk, IsTrue, length, vec_capacity};
ghost use Rattle.std.specs.Io.KnownBytes.{Consumes};
ghost use Rattle.httparse.specs.Grammar.{RequestHead};
ghost use Rattle.dap_outside.specs.Causes.{Rose};

use crate::head_judge::{Judged, judge};
use crate::intake::{skip, take_line};
use dap_outside::Source;
use dap_types::{Bytes, Memory, limits};
use http::Method;
use std::alloc::Global;

/// The head of a request (RFC 9112, section 3).
#[derive(Debug, Drop)]
pub struct Head {
    pub method: Method,
    pub target: Bytes,
    /// 0 or 1, of HTTP/1.0 or HTTP/1.1.
    pub minor: u8,
    /// Whether it ends its connection by itself.
    pub ends: bool,
}

/// What a reader of heads answers.
#[derive(Debug, Drop)]
pub enum HeadRead {
    Head(Head),
    Gone,
    BadRequest,
    HeadTooLong,
    ReadFault,
    /// Memory was wanted for a head that came whole; whether its method is HEAD.
    Memory { head: bool },
}

/// The bytes of the longest head.
pub const LONGEST: usize = limits::MOST_REQUEST_HEAD;

/// Reads the heads of a connection, one behind the other, and keeps the bytes that it took beyond
/// them.
#[derive(Drop)]
pub struct HeadReader {
    kept: Vec<u8>,
    alloc: Global,
    ghost few: { length kept.items ≤ 16384 },
    ghost room: { 16384 ≤ vec_capacity kept },
}

impl HeadReader {
    ghost use Rattle.dap_http.specs.Requests.{FirstRequest};
    ghost use Rattle.dap_http.specs.Reading.{Gives, IsFound, kept_by};
    ghost use Rattle.dap_http.specs.inner.Judging.{Finds, IsJudged, Turns};
    ghost use Rattle.dap_http.specs.declared.head_judge.Judged.TheVariants.{Partial};

    /// A reader that has read nothing. Fails where memory is wanted.
    pub fn new(alloc: Global) -> Result<HeadReader, Memory>
        ensures { IfOk result (λ r. kept_by r ≡ []) }
    {
        Ok(HeadReader {
            kept: Vec::with_capacity(alloc, LONGEST)?,
            alloc,
        })
    }

    /// Reads the next head. Its bytes are those that it kept and those that it takes now. Where it gives
    /// no head it keeps them all, and a further `read` goes on with them.
    pub fn read<I: Source>(&mut self, source: &mut I) -> HeadRead
        ensures reads { (taken : List ℕ) × Consumes (I.left source.old) (I.left source.new) taken
            × Gives (kept_by self.old ++ taken) (kept_by self.new) (I.ended source.new) result }
        // The first request of the input is found, unless a fault or want of memory comes in its place.
        ensures found { (left rest : List ℕ) (head : RequestHead) → I.left source.old ≡ Some left →
            FirstRequest (kept_by self.old ++ left) head rest → IsFound result }
        // With a whole request in hand nothing is taken.
        ensures at_hand { (rest : List ℕ) (head : RequestHead) → FirstRequest (kept_by self.old) head rest → source.new ≡ source.old }
        ensures fault { result ≡ HeadRead.ReadFault → Rose (I.take_faults source.old) (I.take_faults source.new) }
        ensures kept { result ≢ HeadRead.ReadFault → I.take_faults source.new ≡ I.take_faults source.old }
        ensures later { I.take_faults source.old ≤ I.take_faults source.new }
        ensures stays { IsTrue (I.ended source.old) → IsTrue (I.ended source.new) }
        ensures whole { I.whole source.new ≡ I.whole source.old }
        ensures beside { I.beside_reading source.new ≡ I.beside_reading source.old }
    {
        loop {
            if let Some(read) = self.turn(source) {
                return read;
            }
        }
    }

    /// Judges the bytes that are kept, and takes more where they hold no head yet.
    fn turn<I: Source>(&mut self, source: &mut I) -> Option<HeadRead>
        ensures reads { (taken : List ℕ) × Consumes (I.left source.old) (I.left source.new) taken
            × Turns (kept_by self.old ++ taken) (kept_by self.new) (I.ended source.new) result }
        ensures found { (left rest : List ℕ) (head : RequestHead) → I.left source.old ≡ Some left →
            FirstRequest (kept_by self.old ++ left) head rest → Finds result }
        ensures at_hand { (rest : List ℕ) (head : RequestHead) → FirstRequest (kept_by self.old) head rest → (source.new ≡ source.old) × (result ≢ None) }
        ensures more { result ≡ None → length (kept_by self.old) < length (kept_by self.new) }
        ensures fault { result ≡ Some HeadRead.ReadFault → Rose (I.take_faults source.old) (I.take_faults source.new) }
        ensures kept { result ≢ Some HeadRead.ReadFault → I.take_faults source.new ≡ I.take_faults source.old }
        ensures later { I.take_faults source.old ≤ I.take_faults source.new }
        ensures stays { IsTrue (I.ended source.old) → IsTrue (I.ended source.new) }
        ensures whole { I.whole source.new ≡ I.whole source.old }
        ensures beside { I.beside_reading source.new ≡ I.beside_reading source.old }
    {
        match judge(self.alloc, self.kept.as_slice()) {
            Judged::Whole(head, len) => {
                skip(&mut self.kept, len);
                Some(HeadRead::Head(head))
            }
            Judged::Partial => self.go_on(source),
            Judged::Bad => Some(HeadRead::BadRequest),
            Judged::Memory(head) => Some(HeadRead::Memory { head }),
        }
    }

    /// Takes more bytes, up to a line feed, behind such as hold no head yet.
    fn go_on<I: Source>(&mut self, source: &mut I) -> Option<HeadRead>
        requires { IsJudged (kept_by self.old) Partial }
        ensures reads { (taken : List ℕ) × Consumes (I.left source.old) (I.left source.new) taken
            × Turns (kept_by self.old ++ taken) (kept_by self.new) (I.ended source.new) result }
        ensures found { (left rest : List ℕ) (head : RequestHead) → I.left source.old ≡ Some left →
            FirstRequest (kept_by self.old ++ left) head rest → Finds result }
        ensures more { result ≡ None → length (kept_by self.old) < length (kept_by self.new) }
        ensures fault { result ≡ Some HeadRead.ReadFault → Rose (I.take_faults source.old) (I.take_faults source.new) }
        ensures kept { result ≢ Some HeadRead.ReadFault → I.take_faults source.new ≡ I.take_faults source.old }
        ensures later { I.take_faults source.old ≤ I.take_faults source.new }
        ensures stays { IsTrue (I.ended source.old) → IsTrue (I.ended source.new) }
        ensures whole { I.whole source.new ≡ I.whole source.old }
        ensures beside { I.beside_reading source.new ≡ I.beside_reading source.old }
    {
        if self.kept.len() >= LONGEST {
            return Some(HeadRead::HeadTooLong);
        }
        match take_line(&mut self.kept, source, LONGEST) {
            Ok(0) => Some(HeadRead::Gone),
            Ok(_) => None,
            Err(_) => Some(HeadRead::ReadFault),
        }
    }
}
