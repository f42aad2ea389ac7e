ghost use Rattle.std.specs.Prelude.{◌≡◌, ◌≢◌, ◌≤◌, ◌<◌, ◌+◌, ◌++◌, ℕ, List, [], Some, IfOk, IsTrue, length, drop, vec_capacity};
ghost use Rattle.std.specs.Io.KnownBytes.{Consumes};
ghost use Rattle.httparse.specs.Grammar.{ResponseHead};
ghost use Rattle.dap_outside.specs.Causes.{Rose};
ghost use Rattle.dap_types.specs.Limits.{most_reply_heads};

use crate::Coding;
use crate::intake::{behind, keep, skip, take_line};
use crate::reply_judge::{ReplyJudged, judge_reply};
use dap_outside::Source;
use dap_types::{Memory, limits};
use reply_faults::{Bad, BadField};
use std::alloc::Global;

/// What a reader of a reply's heads answers.
#[derive(Debug, Drop)]
pub enum ReplyRead {
    /// The coding of the body behind the final head.
    Final(Coding),
    Refused(BadField),
    ReadFault,
    Memory,
}

/// What a turn of the reader comes to.
enum Step {
    Done(ReplyRead),
    /// Heads of status 100 to 199 stand up to this place.
    On(usize),
}

/// The bytes of the longest heads.
const LONGEST: usize = limits::MOST_REPLY_HEADS;

/// Reads the heads of a reply, and keeps the bytes that it took beyond them.
#[derive(Drop)]
pub struct ReplyReader {
    kept: Vec<u8>,
    ghost few: { length kept.items ≤ most_reply_heads },
    ghost room: { most_reply_heads ≤ vec_capacity kept },
}

impl ReplyReader {
    ghost use Rattle.dap_http.specs.Replies.{HasFinal};
    ghost use Rattle.dap_http.specs.Reading.{Answers, AnswersFinalHead, rest_of};
    ghost use Rattle.dap_http.specs.inner.ReplyJudging.{IsPast, IsReadOf, IsReplyJudged, Settles, Steps};
    ghost use Rattle.dap_http.specs.declared.reply_judge.ReplyJudged.TheVariants.{Partial};
    ghost use Rattle.dap_http.specs.declared.reply_reader.Step.TheVariants.{Done, On};

    /// A reader that has read nothing. Fails where memory is wanted.
    pub fn new(alloc: Global) -> Result<ReplyReader, Memory>
        ensures { IfOk result (λ r. rest_of r ≡ []) }
    {
        Ok(ReplyReader {
            kept: Vec::with_capacity(alloc, LONGEST)?,
        })
    }

    /// Reads the heads up to the final one. Their bytes are those that it kept and those that it
    /// takes now, 65,536 at most with what comes behind the heads. It takes no memory, and never
    /// answers that memory is wanted.
    pub fn read<I: Source>(&mut self, source: &mut I) -> ReplyRead
        ensures reads { (taken : List ℕ) × Consumes (I.left source.old) (I.left source.new) taken
            × Answers (rest_of self.old ++ taken) (rest_of self.new) (I.ended source.new) result
            × (length (rest_of self.old ++ taken) ≤ most_reply_heads) }
        ensures found { (left rest : List ℕ) (head : ResponseHead) → I.left source.old ≡ Some left →
            HasFinal (rest_of self.old ++ left) head rest → AnswersFinalHead (rest_of self.old ++ left) head rest result }
        ensures never { result ≢ ReplyRead.Memory }
        ensures fault { result ≡ ReplyRead.ReadFault → Rose (I.take_faults source.old) (I.take_faults source.new) }
        ensures kept { result ≢ ReplyRead.ReadFault → I.take_faults source.new ≡ I.take_faults source.old }
        ensures later { I.take_faults source.old ≤ I.take_faults source.new }
        ensures stays { IsTrue (I.ended source.old) → IsTrue (I.ended source.new) }
        ensures whole { I.whole source.new ≡ I.whole source.old }
        ensures beside { I.beside_reading source.new ≡ I.beside_reading source.old }
    {
        let mut at = 0;
        loop {
            match self.turn(source, at) {
                Step::Done(read) => return read,
                Step::On(next) => at = next,
            }
        }
    }

    /// Judges the bytes behind heads of status 100 to 199, and takes more where they hold no head yet.
    fn turn<I: Source>(&mut self, source: &mut I, at: usize) -> Step
        requires { IsPast (rest_of self.old) at }
        ensures reads { (taken : List ℕ) × Consumes (I.left source.old) (I.left source.new) taken
            × Steps (rest_of self.old ++ taken) (rest_of self.new) (I.ended source.new) at result
            × (length (rest_of self.old ++ taken) ≤ most_reply_heads) }
        ensures found { (left rest : List ℕ) (head : ResponseHead) → I.left source.old ≡ Some left →
            HasFinal (rest_of self.old ++ left) head rest → Settles (rest_of self.old ++ left) head rest result }
        ensures more { (next : ℕ) → result ≡ On next → at + length (rest_of self.old) < next + length (rest_of self.new) }
        ensures never { result ≢ Done ReplyRead.Memory }
        ensures fault { result ≡ Done ReplyRead.ReadFault → Rose (I.take_faults source.old) (I.take_faults source.new) }
        ensures kept { result ≢ Done ReplyRead.ReadFault → I.take_faults source.new ≡ I.take_faults source.old }
        ensures later { I.take_faults source.old ≤ I.take_faults source.new }
        ensures stays { IsTrue (I.ended source.old) → IsTrue (I.ended source.new) }
        ensures whole { I.whole source.new ≡ I.whole source.old }
        ensures beside { I.beside_reading source.new ≡ I.beside_reading source.old }
    {
        match judge_reply(behind(self.kept.as_slice(), at)) {
            ReplyJudged::Interim(len) => Step::On(at + len),
            ReplyJudged::Final(coding, len) => {
                skip(&mut self.kept, at + len);
                Step::Done(ReplyReader::final_read(coding))
            }
            ReplyJudged::Partial => self.go_on(source, at),
            ReplyJudged::Bad => Step::Done(refused(Bad::BadHead)),
        }
    }

    /// Takes more bytes, up to a line feed, behind such as hold no head yet.
    fn go_on<I: Source>(&mut self, source: &mut I, at: usize) -> Step
        requires past { IsPast (rest_of self.old) at }
        requires none { IsReplyJudged (drop at (rest_of self.old)) Partial }
        ensures reads { (taken : List ℕ) × Consumes (I.left source.old) (I.left source.new) taken
            × Steps (rest_of self.old ++ taken) (rest_of self.new) (I.ended source.new) at result
            × (length (rest_of self.old ++ taken) ≤ most_reply_heads) }
        ensures found { (left rest : List ℕ) (head : ResponseHead) → I.left source.old ≡ Some left →
            HasFinal (rest_of self.old ++ left) head rest → Settles (rest_of self.old ++ left) head rest result }
        ensures more { (next : ℕ) → result ≡ On next → at + length (rest_of self.old) < next + length (rest_of self.new) }
        ensures never { result ≢ Done ReplyRead.Memory }
        ensures fault { result ≡ Done ReplyRead.ReadFault → Rose (I.take_faults source.old) (I.take_faults source.new) }
        ensures kept { result ≢ Done ReplyRead.ReadFault → I.take_faults source.new ≡ I.take_faults source.old }
        ensures later { I.take_faults source.old ≤ I.take_faults source.new }
        ensures stays { IsTrue (I.ended source.old) → IsTrue (I.ended source.new) }
        ensures whole { I.whole source.new ≡ I.whole source.old }
        ensures beside { I.beside_reading source.new ≡ I.beside_reading source.old }
    {
        if self.kept.len() >= LONGEST {
            return Step::Done(refused(Bad::HeadTooLong));
        }
        match take_line(&mut self.kept, source, LONGEST) {
            Ok(0) => Step::Done(refused(Bad::Cut)),
            Ok(_) => Step::On(at),
            Err(_) => Step::Done(ReplyRead::ReadFault),
        }
    }

    fn final_read(coding: Result<Coding, Bad>) -> ReplyRead
        ensures { IsReadOf coding result }
    {
        match coding {
            Ok(coding) => ReplyRead::Final(coding),
            Err(kind) => refused(kind),
        }
    }

    /// The bytes that were taken behind the last head.
    pub fn rest(&self) -> &[u8]
        ensures { result.now ≡ rest_of self.now }
    {
        self.kept.as_slice()
    }

    /// Drops bytes from the front of the rest, as those of a body that were used.
    pub fn skip(&mut self, count: usize)
        requires { count ≤ length (rest_of self.old) }
        ensures { rest_of self.new ≡ drop count (rest_of self.old) }
    {
        skip(&mut self.kept, count);
    }

    /// Puts bytes behind the rest that were taken from the source beyond the end of a body. There is
    /// room for 65,536 bytes in all.
    pub fn keep(&mut self, bytes: &[u8])
        requires { length (rest_of self.old) + length bytes.now ≤ most_reply_heads }
        ensures { rest_of self.new ≡ rest_of self.old ++ bytes.now }
    {
        keep(&mut self.kept, bytes);
    }
}

fn refused(kind: Bad) -> ReplyRead
    ensures { result ≡ ReplyRead.Refused (record { kind = kind; place = 0 }) }
{
    ReplyRead::Refused(BadField { kind, place: 0 })
}
