//! The reader of a DDS that comes in pieces.

ghost use Rattle.std.specs.Prelude.{◌≡◌, ◌≤◌, ◌^◌, take};

use crate::front::{Found, Front, LIMIT};
use crate::parser::Parser;
use dap_types::{Dataset, Memory};
use std::alloc::Global;

/// What a reader says of the bytes so far.
#[derive(Clone, Copy, Debug, PartialEq, Eq)]
pub enum DdsStep {
    /// They are the front of a DDS.
    More,
    /// A DDS ends behind so many bytes of the last piece.
    Done { used: usize },
    /// Here stands the first bad token: the first whole one with which the bytes begin no DDS (DAP 2.0,
    /// DDS), or with which a rule of this project is broken: on names that differ, maps that fit their
    /// array, depth, dimensions or the number of members. Or the text is too long, and this is
    /// 16,777,216 bytes behind its start.
    Bad { place: u64 },
}

/// What a reader has come to.
#[derive(Drop)]
pub enum Verdict {
    Open,
    Done(Dataset),
    Bad(u64),
    /// Memory was wanted.
    Spent,
}

/// A reader of a DDS in pieces of any length.
pub struct DdsReader {
    start: u64,
    front: Front,
    verdict: Verdict,
    ghost fits: { start ≤ 2 ^ 62 },
}

impl Drop for DdsReader {
    fn drop(self) {
        let DdsReader {
            start: _,
            front,
            verdict,
        } = self;
        drop(front);
        drop(verdict);
    }
}

/// As many bytes of the piece as there is room for.
fn clipped(piece: &[u8], room: usize) -> &[u8]
    ensures { result.now ≡ take room piece.now }
{
    if piece.len() > room {
        &piece[..room]
    } else {
        piece
    }
}

impl Verdict {
    ghost use Rattle.dds_text.specs.After.{dataset_in};

    fn dataset(self) -> Option<Dataset>
        ensures { result ≡ dataset_in self }
    {
        match self {
            Verdict::Done(dataset) => Some(dataset),
            Verdict::Open | Verdict::Bad(_) | Verdict::Spent => None,
        }
    }
}

impl DdsReader {
    ghost use Rattle.std.specs.Prelude.{ℕ, ◌+◌, ◌<◌, List, [], ◌++◌, length, IfOk, IfSome, IsNone, OnErr, MatchOption, IsErr};
    ghost use Rattle.dap_types.specs.Model.{Dataset as DatasetValue};
    ghost use Rattle.dap_types.specs.View.{dataset_view};
    ghost use Rattle.dap_types.specs.WellFormed.{IsWellFormed};
    ghost use Rattle.dds_text.specs.After.{Answers, IsClipped, IsSpent, DdsStandsAfter, StaysBad, WhereBad, WhereDone, WhereMore, start_of, used_of};
    ghost use Rattle.dds_text.specs.declared.reader.Verdict.TheVariants.{Open};
    ghost use Rattle.dds_text.specs.Reading.{IsBadText, IsDone, IsUnfinished, limit};
    ghost use Rattle.dds_text.specs.inner.Standing.{IsFound, IsPlaced};

    /// A reader that has read nothing. Places count from `start`.
    pub fn new(alloc: Global, start: u64) -> DdsReader
        requires { start ≤ 2 ^ 62 }
        ensures stands { DdsStandsAfter result [] }
        ensures start { start_of result ≡ start }
    {
        DdsReader {
            start,
            front: Front::new(alloc),
            verdict: Verdict::Open,
        }
    }

    /// The text is bad at this place of it.
    #[tactic(auto, using(crate::proofs::Pushed::pushed), unfolding(crate::specs::After::DdsStandsAfter))]
    fn refuse(&mut self, place: usize) -> DdsStep
        requires { place ≤ LIMIT }
        ensures start { start_of self.new ≡ start_of self.old }
        ensures answers { (bytes piece : List ℕ) → StaysBad (bytes ++ piece) place →
            Answers (start_of self.old) self.new bytes piece result }
    {
        let place = self.start + place as u64;
        self.verdict = Verdict::Bad(place);
        DdsStep::Bad { place }
    }

    /// Says what was found in a piece, or in the front of it for which there is room.
    #[tactic(auto, using(crate::proofs::Pushed::pushed), unfolding(crate::specs::After::DdsStandsAfter))]
    fn answer(&mut self, found: Found) -> DdsStep
        requires { IsPlaced found }
        ensures start { start_of self.new ≡ start_of self.old }
        ensures answers { (bytes clip rest : List ℕ) → self.old.verdict ≡ Open → IsFound self.old.front bytes clip found → IsClipped bytes clip rest →
            Answers (start_of self.old) self.new bytes (clip ++ rest) result }
    {
        match found {
            Found::Nothing => {
                if self.front.length == LIMIT {
                    return self.refuse(LIMIT);
                }
                DdsStep::More
            }
            Found::Bad(place) => self.refuse(place),
            Found::Done(used, dataset) => {
                self.verdict = Verdict::Done(dataset);
                DdsStep::Done { used }
            }
        }
    }

    /// Reads a piece of a text that goes on.
    fn go_on(&mut self, piece: &[u8]) -> Result<DdsStep, Memory>
        ensures start { start_of self.new ≡ start_of self.old }
        ensures spends { OnErr result (IsSpent self.new) }
        ensures answers { (bytes : List ℕ) → self.old.verdict ≡ Open → DdsStandsAfter self.old bytes →
            IfOk result (Answers (start_of self.old) self.new bytes piece.now) }
    {
        let room = LIMIT - self.front.length;
        match self.front.read(clipped(piece, room)) {
            Ok(found) => Ok(self.answer(found)),
            Err(memory) => {
                self.verdict = Verdict::Spent;
                Err(memory)
            }
        }
    }

    fn advance(&mut self, piece: &[u8]) -> Result<DdsStep, Memory>
        ensures start { start_of self.new ≡ start_of self.old }
        ensures spends { OnErr result (IsSpent self.new) }
        ensures spent { IsSpent self.old → IsErr result }
        ensures answers { (bytes : List ℕ) → DdsStandsAfter self.old bytes →
            IfOk result (Answers (start_of self.old) self.new bytes piece.now) }
        ensures again { (bytes : List ℕ) (dataset : DatasetValue) → DdsStandsAfter self.old bytes → IsDone bytes (length bytes) dataset →
            IfOk result (λ step. step ≡ DdsStep.Done 0) }
        ensures still { (bytes : List ℕ) (place : ℕ) → DdsStandsAfter self.old bytes → IsBadText bytes place →
            IfOk result (λ step. step ≡ DdsStep.Bad (start_of self.old + place)) }
    {
        match &self.verdict {
            Verdict::Open => self.go_on(piece),
            Verdict::Done(_) => Ok(DdsStep::Done { used: 0 }),
            Verdict::Bad(place) => Ok(DdsStep::Bad { place: *place }),
            Verdict::Spent => Err(Memory),
        }
    }

    /// Reads one more piece. Behind the end of a DDS, and behind a bad token, it uses no further
    /// bytes and says the same again. Fails where memory is wanted, and ever after.
    pub fn push(&mut self, piece: &[u8]) -> Result<DdsStep, Memory>
        // Of whatever bytes it stands after, each answer says what they are with the piece.
        ensures done { (bytes : List ℕ) → DdsStandsAfter self.old bytes → IfOk result (WhereDone (λ used.
            (used ≤ length piece.now) × ((dataset : DatasetValue) × IsDone (bytes ++ piece.now) (length bytes + used) dataset))) }
        ensures bad { (bytes : List ℕ) → DdsStandsAfter self.old bytes → IfOk result (WhereBad (λ place.
            (p : ℕ) × (place ≡ start_of self.old + p) × IsBadText (bytes ++ piece.now) p)) }
        ensures more { (bytes : List ℕ) → DdsStandsAfter self.old bytes →
            IfOk result (WhereMore (IsUnfinished (bytes ++ piece.now))) }

        // Whatever they are is said, unless memory is wanted.
        ensures ended { (bytes : List ℕ) (n : ℕ) (dataset : DatasetValue) → DdsStandsAfter self.old bytes → IsDone (bytes ++ piece.now) n dataset →
            IfOk result (λ step. (used : ℕ) × (step ≡ DdsStep.Done used) × (length bytes + used ≡ n)) }
        ensures refused { (bytes : List ℕ) (place : ℕ) → DdsStandsAfter self.old bytes → IsBadText (bytes ++ piece.now) place →
            IfOk result (λ step. step ≡ DdsStep.Bad (start_of self.old + place)) }
        ensures unfinished { (bytes : List ℕ) → DdsStandsAfter self.old bytes → IsUnfinished (bytes ++ piece.now) →
            IfOk result (λ step. step ≡ DdsStep.More) }

        // It stands after the used bytes then. Behind an end and a bad token the answer stays.
        ensures stands { (bytes : List ℕ) → DdsStandsAfter self.old bytes →
            IfOk result (λ step. DdsStandsAfter self.new (bytes ++ used_of step piece.now)) }
        ensures again { (bytes : List ℕ) (dataset : DatasetValue) → DdsStandsAfter self.old bytes → IsDone bytes (length bytes) dataset →
            IfOk result (λ step. step ≡ DdsStep.Done 0) }
        ensures still { (bytes : List ℕ) (place : ℕ) → DdsStandsAfter self.old bytes → IsBadText bytes place →
            IfOk result (λ step. step ≡ DdsStep.Bad (start_of self.old + place)) }
        ensures start { start_of self.new ≡ start_of self.old }

        // Behind want of memory it is spent.
        ensures spends { OnErr result (IsSpent self.new) }
        ensures spent { IsSpent self.old → IsErr result }
    {
        self.advance(piece)
    }

    /// The dataset, where a DDS has ended.
    pub fn dataset(self) -> Option<Dataset>
        ensures dataset { (bytes : List ℕ) → DdsStandsAfter self bytes → MatchOption result
            ((n : ℕ) (dataset : DatasetValue) → ¬ (IsDone bytes n dataset)) (λ dataset. IsDone bytes (length bytes) (dataset_view dataset)) }
        ensures well_formed { (bytes : List ℕ) → DdsStandsAfter self bytes → IfSome result (λ dataset. IsWellFormed (dataset_view dataset)) }
        ensures spent { IsSpent self → IsNone result }
    {
        let DdsReader {
            start: _,
            front,
            verdict,
        } = self;
        drop(front);
        verdict.dataset()
    }
}
