//! The reader of a body of each kind in pieces of any length (DAP 2.0).

ghost use Rattle.std.specs.Prelude.{◌≡◌, ◌≢◌, ◌+◌, ◌-◌, ◌^◌, ◌≤◌, ◌<◌, ℕ, List, [], ◌++◌, length, take, Some, None};
ghost use Rattle.dap_types.specs.Limits.{most_piece};
ghost use Rattle.dap_outside.specs.Causes.{Rose};
ghost use Rattle.dap_http.specs.declared.kind.Kind.TheVariants.{Ver};

use crate::Outcome;
use crate::part::{Part, first_part};
use crate::stage::BUDGET;
use crate::text_stage::TextStage;
use dap_http::Kind;
use dap_outside::Sink;
use std::alloc::Global;
use std::mem;
use xdr_decode::BadField;

/// A reader of a body of some kind, or of an Error object in its place, in pieces of any length. Of a
/// data response it puts the DDS once its `Data:` line was read, and a line for each element as it
/// comes, and takes no memory once a byte was put.
#[derive(Drop)]
pub struct Body {
    alloc: Global,
    pub(crate) kind: Kind,
    part: Part,
    /// How many bytes it was given.
    pub(crate) taken: u64,
    ghost within: { taken ≤ 2 ^ 40 },
}

impl Body {
    ghost use Rattle.dap_client.specs.After.{IsBrokenOff, IsFinished, IsPushed, Stands, BodyStandsAfter, form_in};
    ghost use Rattle.dap_client.specs.Answered.{ShowsStopped};
    ghost use Rattle.dap_client.specs.Shows.{Gains};

    /// A reader of a body of this kind that has had no bytes.
    pub fn new(alloc: Global, kind: Kind) -> Body
        requires { kind ≢ Ver }
        ensures stands { BodyStandsAfter result [] [] }
        ensures kind { result.kind ≡ kind }
        ensures taken { result.taken ≡ 0 }
    {
        Body {
            alloc,
            kind,
            part: first_part(alloc, kind),
            taken: 0,
        }
    }

    /// Of a piece that comes next, the bytes that are looked at.
    pub fn looked_at<'p>(&self, piece: &'p [u8]) -> &'p [u8]
        ensures { result.now ≡ take (2 ^ 40 - self.now.taken) piece.now }
    {
        let left = BUDGET - self.taken;
        if piece.len() as u64 <= left {
            return piece;
        }
        &piece[..left as usize]
    }

    /// Reads one more piece. None where the body goes on; else the outcome, for whatever follows, and
    /// nothing more is read.
    pub fn push<O: Sink>(&mut self, piece: &[u8], out: &mut O) -> Option<Outcome>
        requires stands { Stands self.old }
        requires within { self.old.taken + length piece.now ≤ 2 ^ 40 }
        requires few { length piece.now ≤ most_piece }
        ensures pushed { (bytes put : List ℕ) → BodyStandsAfter self.old bytes put → Gains (O.written out.old) (O.written out.new)
            (λ text. IsPushed self.new (form_in self.old) bytes (bytes ++ piece.now) (put ++ text) result) }
        ensures kind { self.new.kind ≡ self.old.kind }
        ensures taken { self.new.taken ≡ self.old.taken + length piece.now }
        ensures open { result ≡ None → self.new.taken < 2 ^ 40 }
        ensures fault { result ≡ Some Outcome.WriteFault → Rose (O.put_faults out.old) (O.put_faults out.new) }
        ensures later { O.put_faults out.old ≤ O.put_faults out.new }
        ensures kept { ¬ (result ≡ Some Outcome.WriteFault) → O.put_faults out.new ≡ O.put_faults out.old }
        ensures beside { O.beside_writing out.new ≡ O.beside_writing out.old }
    {
        let part = mem::replace(&mut self.part, Part::Text(TextStage::Spent));
        let read = part.read(self.alloc, self.taken, piece, out);
        self.taken += piece.len() as u64;
        match read {
            Ok(part) => {
                self.part = part;
                None
            }
            Err(outcome) => Some(outcome),
        }
    }

    /// Reads one more piece as `push` does, and puts nothing.
    pub fn judge(&mut self, piece: &[u8]) -> Option<Outcome>
        requires stands { Stands self.old }
        requires within { self.old.taken + length piece.now ≤ 2 ^ 40 }
        requires few { length piece.now ≤ most_piece }
        ensures pushed { (bytes put : List ℕ) → BodyStandsAfter self.old bytes put → Gains None None
            (λ text. IsPushed self.new (form_in self.old) bytes (bytes ++ piece.now) (put ++ text) result) }
        ensures kind { self.new.kind ≡ self.old.kind }
        ensures taken { self.new.taken ≡ self.old.taken + length piece.now }
        ensures open { result ≡ None → self.new.taken < 2 ^ 40 }
        ensures fault { ¬ (result ≡ Some Outcome.WriteFault) }
    {
        let part = mem::replace(&mut self.part, Part::Text(TextStage::Spent));
        let read = part.judge(self.alloc, self.taken, piece);
        self.taken += piece.len() as u64;
        match read {
            Ok(part) => {
                self.part = part;
                None
            }
            Err(outcome) => Some(outcome),
        }
    }

    /// The outcome for a body that ends here. Of a DDS and a DAS the text is put, printed again.
    pub fn finish<O: Sink>(self, out: &mut O) -> Outcome
        requires { Stands self }
        ensures finished { (bytes put : List ℕ) → BodyStandsAfter self bytes put → Gains (O.written out.old) (O.written out.new)
            (λ text. IsFinished (form_in self) bytes (put ++ text) result) }
        ensures fault { result ≡ Outcome.WriteFault → Rose (O.put_faults out.old) (O.put_faults out.new) }
        ensures later { O.put_faults out.old ≤ O.put_faults out.new }
        ensures kept { ¬ (result ≡ Outcome.WriteFault) → O.put_faults out.new ≡ O.put_faults out.old }
        ensures beside { O.beside_writing out.new ≡ O.beside_writing out.old }
    {
        let Body {
            alloc,
            kind: _,
            part,
            taken,
        } = self;
        part.finish(alloc, taken, out)
    }

    /// The outcome for a body that breaks off here for that reason: what is wrong with its bytes, where
    /// that is more than that they end, goes first.
    pub fn break_off(self, wrong: BadField) -> Outcome
        requires { Stands self }
        ensures { (bytes put : List ℕ) → BodyStandsAfter self bytes put → IsBrokenOff (form_in self) bytes put wrong result }
    {
        let Body {
            alloc,
            kind: _,
            part,
            taken,
        } = self;
        part.break_off(alloc, taken, wrong)
    }

    /// Lets the reader go where no more could be read.
    pub fn leave(self) -> Outcome
        ensures fault { result ≡ Outcome.ReadFault }
        ensures shows { (bytes put : List ℕ) → BodyStandsAfter self bytes put → ShowsStopped (form_in self) bytes put }
    {
        Outcome::ReadFault
    }
}
