//! A decoder that reads and puts nothing: it says what `push` says, and passes over the numbers of an
//! array at once.

ghost use Rattle.std.specs.Prelude.{◌≡◌, ℕ, None, ◌+◌, ◌-◌, ◌*◌, ◌^◌, ◌<◌, ◌≤◌, List, [], ◌∷◌, ◌++◌, length, take, All, Ok, IfSome, IfNone};
ghost use Rattle.dap_model.specs.Laws.{IsNumber};
ghost use Rattle.dap_model.specs.Received.{IsBadField, IsOpen, Fault};
ghost use Rattle.xdr_fields.specs.Wants.{Want};
ghost use Rattle.xdr_decode.specs.After.{DecoderStandsAfter, EndsBehind, HasFailed, HasFailedBehind, IsFirstBad, Reads, WhereDone, WhereFault, WhereMore, WhereRefused, UnlessFault, dataset_of, place_of, start_of, used_of};
ghost use Rattle.xdr_decode.specs.Shown.{ShowsFront};
ghost use Rattle.xdr_decode.specs.Verdict.{kind_of};
ghost use Rattle.xdr_decode.specs.inner.Asked.{Asks, width_of};
ghost use Rattle.xdr_decode.specs.inner.Places.{wants_left};
ghost use Rattle.xdr_decode.specs.inner.Pushing.{IsAnswer, IsPushed};
ghost use Rattle.xdr_decode.specs.inner.Runs.{AreElements, HasElements, Looks, Sees};
ghost use Rattle.xdr_decode.specs.inner.Turning.{Falls, MayBeEmpty, Stays, weight};

use crate::BadField;
use crate::decoder::{Decoder, Pushed, State, state_behind};
use crate::field::{Ask, judge};
use crate::next_field::{Turn, collect};
use crate::numbers::{element_width, good_numbers};
use crate::place::{Next, Text};
use dap_types::BaseType;

impl Decoder {
    /// Reads one more piece as `push` does, and puts nothing of it: it says what `push` says where the
    /// sink does not fail, and takes no memory. All numbers of an array that stand whole in the piece are
    /// passed over at once. A decoder may push and judge in turns.
    pub fn judge(&mut self, piece: &[u8]) -> Pushed
        requires { place_of self.old + length piece.now ≤ 2 ^ 63 - 1 }
        // Of whatever bytes it stands after, each answer says what they are with the piece.
        ensures done { (bytes put : List ℕ) → DecoderStandsAfter self.old bytes put → WhereDone (λ used.
            (used ≤ length piece.now) × EndsBehind (dataset_of self.old) (bytes ++ piece.now) (length bytes + used)) result }
        ensures refused { (bytes put : List ℕ) → DecoderStandsAfter self.old bytes put →
            WhereRefused (IsFirstBad (dataset_of self.old) (start_of self.old) (bytes ++ piece.now)) result }
        ensures more { (bytes put : List ℕ) → DecoderStandsAfter self.old bytes put →
            WhereMore (IsOpen (dataset_of self.old) (bytes ++ piece.now)) result }

        // Whatever they are is said.
        ensures ended { (bytes put : List ℕ) (n : ℕ) → DecoderStandsAfter self.old bytes put → EndsBehind (dataset_of self.old) (bytes ++ piece.now) n →
            (used : ℕ) × (result ≡ Pushed.Done used) × (length bytes + used ≡ n) }
        ensures bad { (bytes put : List ℕ) (fault : Fault) (place : ℕ) → DecoderStandsAfter self.old bytes put → IsBadField (dataset_of self.old) (bytes ++ piece.now) fault place →
            result ≡ Pushed.Refused (record { kind = kind_of fault; place = start_of self.old + place }) }
        ensures unfinished { (bytes put : List ℕ) → DecoderStandsAfter self.old bytes put → IsOpen (dataset_of self.old) (bytes ++ piece.now) →
            result ≡ Pushed.More }

        // It stands after the used bytes then, as if it had put what may be shown of them.
        ensures stands { (bytes put : List ℕ) → DecoderStandsAfter self.old bytes put → (text : List ℕ) ×
            DecoderStandsAfter self.new (bytes ++ used_of result piece.now) (put ++ text) × ShowsFront (dataset_of self.old) (bytes ++ used_of result piece.now) (put ++ text) }
        ensures dataset { dataset_of self.new ≡ dataset_of self.old }
        ensures start { start_of self.new ≡ start_of self.old }
        ensures place { place_of self.new ≤ place_of self.old + length piece.now }

        // Only where a sink failed before does it say so, and ever after.
        ensures cause { WhereFault (HasFailed self.old) result }
        ensures failed { HasFailed self.old → result ≡ Pushed.WriteFault }
        ensures fails { WhereFault (HasFailed self.new) result }
        ensures counted { (n : ℕ) → HasFailedBehind self.old n → HasFailedBehind self.new (n + length piece.now) }
    {
        match self.state {
            State::Refused(bad) => Pushed::Refused(bad),
            State::Failed => {
                let behind = self.behind(piece);
                self.fail(behind);
                Pushed::WriteFault
            }
            State::Reading => self.judge_on(piece),
        }
    }

    /// The same where nothing was wrong before the piece.
    fn judge_on(&mut self, piece: &[u8]) -> Pushed
        requires { place_of self.old + length piece.now < 2 ^ 63 }
        ensures pushes { (bytes put : List ℕ) → Reads self.old bytes put → All (λ b. b < 256) bytes → IsPushed None None self.new piece.now bytes put result }
        ensures answer { IsAnswer result }
        ensures dataset { dataset_of self.new ≡ dataset_of self.old }
        ensures start { start_of self.new ≡ start_of self.old }
        ensures place { place_of self.new ≤ place_of self.old + length piece.now }
    {
        let pushed = self.look(piece);
        self.state = state_behind(pushed);
        pushed
    }

    /// Looks through a piece as far as it goes.
    fn look(&mut self, piece: &[u8]) -> Pushed
        requires { place_of self.old + length piece.now < 2 ^ 63 }
        ensures sees { (bytes put : List ℕ) → Stays self.old bytes put → Sees self.new piece.now bytes put result }
        ensures answer { IsAnswer result }
        ensures dataset { dataset_of self.new ≡ dataset_of self.old }
        ensures start { start_of self.new ≡ start_of self.old }
        ensures place { place_of self.new ≤ place_of self.old + length piece.now }
    {
        let mut at = 0;
        'turns: loop {
            match self.look_on(&piece[at..]) {
                Turn::Went(count) => at += count,
                Turn::Ended => return Pushed::Done { used: at },
                Turn::Short => return Pushed::More,
                Turn::Bad(bad) => return Pushed::Refused(bad),
            }
        }
    }

    /// Passes over numbers of an array that stand whole at the front of the rest of a piece, and answers how
    /// many bytes they have. None where there is no such number, or where a part of one is held.
    fn pass(&mut self, rest: &[u8]) -> Option<usize>
        ensures within { IfSome result (λ count. count ≤ length rest.now) }
        ensures passes { (bytes put : List ℕ) → Stays self.old bytes put → place_of self.old + length rest.now < 2 ^ 63 → IfSome result (λ count. (text : List ℕ) × Stays self.new (bytes ++ take count rest.now) (put ++ text)) }
        ensures falls { IfSome result (λ count. weight self.new < weight self.old + 6 * count) }
        ensures still { IfNone result (self.new ≡ self.old) }
        ensures place { IfSome result (λ count. place_of self.new ≤ place_of self.old + count) }
        ensures dataset { dataset_of self.new ≡ dataset_of self.old }
        ensures start { start_of self.new ≡ start_of self.old }
    {
        if !self.held.is_empty() {
            return None;
        }
        match self.place.numbers(self.dataset.members.items()) {
            Some(run) => self.pass_run(run.base, run.count, rest),
            None => None,
        }
    }

    /// Passes over numbers of a type, of so many that come next.
    fn pass_run(&mut self, base: BaseType, most: u32, rest: &[u8]) -> Option<usize>
        requires number { IsNumber base }
        requires elements { HasElements self.old.place most }
        requires none_held { self.old.held.items ≡ [] }
        ensures within { IfSome result (λ count. count ≤ length rest.now) }
        ensures passes { (bytes put : List ℕ) → Stays self.old bytes put → place_of self.old + length rest.now < 2 ^ 63 → AreElements base most (wants_left (dataset_of self.old).members self.old.place) →
            IfSome result (λ count. (text : List ℕ) × Stays self.new (bytes ++ take count rest.now) (put ++ text)) }
        ensures falls { IfSome result (λ count. weight self.new < weight self.old + 6 * count) }
        ensures still { IfNone result (self.new ≡ self.old) }
        ensures place { IfSome result (λ count. place_of self.new ≤ place_of self.old + count) }
        ensures dataset { dataset_of self.new ≡ dataset_of self.old }
        ensures start { start_of self.new ≡ start_of self.old }
    {
        let count = good_numbers(base, most as usize, rest);
        if count == 0 {
            return None;
        }
        self.place.pass(self.dataset.members.items(), count as u32);
        let bytes = count * element_width(base);
        self.taken = self.taken.saturating_add(bytes as u64);
        Some(bytes)
    }

    /// Looks at what comes next in the rest of a piece: numbers of an array, another field, or bytes of a
    /// string.
    fn look_on(&mut self, rest: &[u8]) -> Turn
        ensures looks { (bytes put : List ℕ) → Stays self.old bytes put → place_of self.old + length rest.now < 2 ^ 63 → Looks self.new rest.now bytes put result }
        ensures falls { Falls self.old self.new rest.now (Ok result) }
        ensures dataset { dataset_of self.new ≡ dataset_of self.old }
        ensures start { start_of self.new ≡ start_of self.old }
    {
        match self.pass(rest) {
            Some(count) => Turn::Went(count),
            None => self.look_next(rest),
        }
    }

    /// The same of a field or bytes of a string.
    fn look_next(&mut self, rest: &[u8]) -> Turn
        ensures looks { (bytes put : List ℕ) → Stays self.old bytes put → place_of self.old + length rest.now < 2 ^ 63 → Looks self.new rest.now bytes put result }
        ensures falls { Falls self.old self.new rest.now (Ok result) }
        ensures dataset { dataset_of self.new ≡ dataset_of self.old }
        ensures start { start_of self.new ≡ start_of self.old }
    {
        match self.place.next(self.dataset.members.items()) {
            Next::Nothing => Turn::Ended,
            Next::Bytes(left) => self.look_string(left, rest),
            Next::Field(ask) => self.look_field(ask, rest),
        }
    }

    /// Looks at the next field of the rest of a piece.
    fn look_field(&mut self, ask: Ask, rest: &[u8]) -> Turn
        ensures looks { (bytes put : List ℕ) (w : Want) (ws : List Want) → Stays self.old bytes put → wants_left (dataset_of self.old).members self.old.place ≡ w ∷ ws → Asks ask w →
            place_of self.old + length rest.now < 2 ^ 63 → Looks self.new rest.now bytes put result }
        ensures falls { (width_of ask ≡ 0 → MayBeEmpty (dataset_of self.old).members self.old.place) → Falls self.old self.new rest.now (Ok result) }
        ensures dataset { dataset_of self.new ≡ dataset_of self.old }
        ensures start { start_of self.new ≡ start_of self.old }
    {
        let count = match collect(&mut self.held, ask.width(), rest) {
            Some(count) => count,
            None => return Turn::Short,
        };
        match judge(ask, self.held.as_slice()) {
            Ok(token) => {
                self.step(ask, token);
                Turn::Went(count)
            }
            Err(kind) => Turn::Bad(BadField {
                kind,
                place: self.taken,
            }),
        }
    }

    /// Passes over bytes of a string, of which so many are still to come.
    fn look_string(&mut self, left: u32, rest: &[u8]) -> Turn
        ensures looks { (bytes put : List ℕ) (size : ℕ) → Stays self.old bytes put → self.old.place.text ≡ Text.Bytes left size → place_of self.old + length rest.now < 2 ^ 63 →
            Looks self.new rest.now bytes put result }
        ensures falls { (size : ℕ) → self.old.place.text ≡ Text.Bytes left size → Falls self.old self.new rest.now (Ok result) }
        ensures dataset { dataset_of self.new ≡ dataset_of self.old }
        ensures start { start_of self.new ≡ start_of self.old }
    {
        let count = rest.len().min(left as usize);
        self.skip(count as u32);
        if count < left as usize {
            return Turn::Short;
        }
        Turn::Went(count)
    }
}
