ghost use Rattle.std.specs.Prelude.{◌≡◌, ℕ, ◌+◌, ◌-◌, ◌^◌, ◌<◌, ◌≤◌, ◌⊎◌, List, [], ◌++◌, length, min, All, Option, Ok, Err, IfOk, IfErr, MatchResult};
ghost use Rattle.std.specs.Io.KnownBytes.{Appends};
ghost use Rattle.dap_model.specs.Received.{IsBadField, IsOpen, Fault};
ghost use Rattle.dap_outside.specs.Causes.{HasCause, Rose};
ghost use Rattle.dap_types.specs.View.{dataset_view};
ghost use Rattle.dap_types.specs.WellFormed.{IsWellFormed};
ghost use Rattle.xdr_decode.specs.Verdict.{kind_of};
ghost use Rattle.reply_faults.specs.declared.bad.Bad.TheVariants.{Cut};
ghost use Rattle.xdr_decode.specs.After.{EndsBehind, HasFailed, HasFailedBehind, IsFirstBad, Reads, DecoderStandsAfter, UnlessFault, WhereDone, WhereFault, WhereMore, WhereRefused, dataset_of, place_of, start_of, used_of};
ghost use Rattle.xdr_decode.specs.inner.Pushing.{IsAnswer, IsPushed, state_behind as behind};
ghost use Rattle.xdr_decode.specs.inner.Turning.{IsGoneThrough, Stays};
ghost use Rattle.xdr_decode.specs.Shown.{ShowsFront, ShowsSome};

use crate::next_field::Turn;
use crate::place::{Next, Place};
use crate::{Bad, BadField};
use arrayvec::ArrayVec;
use dap_outside::{Buffer, Failed, Sink};
use dap_types::Dataset;

/// What a decoder says of the bytes so far.
#[derive(Clone, Copy, Debug, PartialEq, Eq)]
pub enum Pushed {
    /// The values go on.
    More,
    /// They end behind so many bytes of the last piece.
    Done { used: usize },
    /// Here stands the first bad field.
    Refused(BadField),
    /// The sink failed.
    WriteFault,
}

/// Whether a decoder still reads.
#[derive(Clone, Copy)]
pub enum State {
    Reading,
    Refused(BadField),
    Failed,
}

/// A reader of the values of a dataset in pieces of any length. It holds the dataset, where it stands
/// in it, and the front of one field, and takes no memory.
pub struct Decoder {
    start: u64,
    pub(crate) dataset: Dataset,
    pub(crate) place: Place,
    pub(crate) held: ArrayVec<u8, 8>,
    /// The place of the next field, or of the next byte of a string.
    pub(crate) taken: u64,
    pub(crate) state: State,
}

impl Drop for Decoder {
    fn drop(self) {
        let Decoder {
            start: _,
            dataset,
            place,
            held,
            taken: _,
            state: _,
        } = self;
        drop(dataset);
        drop(place);
        drop(held);
    }
}

/// What becomes of a decoder that answered so.
pub fn state_behind(pushed: Pushed) -> State
    ensures { result ≡ behind pushed }
{
    match pushed {
        Pushed::Refused(bad) => State::Refused(bad),
        Pushed::WriteFault => State::Failed,
        Pushed::More => State::Reading,
        Pushed::Done { used: _ } => State::Reading,
    }
}

impl Decoder {
    /// A decoder that has read nothing. Places count from `start`.
    pub fn new(dataset: Dataset, start: u64) -> Decoder
        requires { IsWellFormed (dataset_view dataset) }
        ensures stands { DecoderStandsAfter result [] [] }
        ensures dataset { dataset_of result ≡ dataset_view dataset }
        ensures start { start_of result ≡ start }
        ensures place { place_of result ≡ start }
    {
        let place = Place::new(dataset.members.items());
        Decoder {
            start,
            dataset,
            place,
            held: ArrayVec::new(),
            taken: start,
            state: State::Reading,
        }
    }

    /// Reads a piece as far as it goes.
    fn read<O: Sink>(
        &mut self,
        piece: &[u8],
        buffer: &mut Buffer,
        out: &mut O,
    ) -> Result<Pushed, Failed>
        requires { place_of self.old + length piece.now < 2 ^ 63 }
        ensures reads { (bytes put : List ℕ) → Stays self.old bytes put →
            IsGoneThrough (O.written out.old) buffer.old.bytes.items (O.written out.new) buffer.new.bytes.items self.new piece.now bytes put result }
        ensures answer { IfOk result IsAnswer }
        ensures dataset { dataset_of self.new ≡ dataset_of self.old }
        ensures start { start_of self.new ≡ start_of self.old }
        ensures place { place_of self.new ≤ place_of self.old + length piece.now }
        ensures cause { HasCause (O.put_faults out.old) (O.put_faults out.new) result }
        ensures beside { O.beside_writing out.new ≡ O.beside_writing out.old }
    {
        let mut at = 0;
        'turns: loop {
            match self.turn(&piece[at..], buffer, out)? {
                Turn::Went(count) => at += count,
                Turn::Ended => return Ok(Pushed::Done { used: at }),
                Turn::Short => return Ok(Pushed::More),
                Turn::Bad(bad) => return Ok(Pushed::Refused(bad)),
            }
        }
    }

    /// The sink failed, and so many bytes were pushed.
    pub(crate) fn fail(&mut self, place: u64)
        ensures failed { self.new.state ≡ State.Failed }
        ensures place { place_of self.new ≡ place }
        ensures dataset { dataset_of self.new ≡ dataset_of self.old }
        ensures start { start_of self.new ≡ start_of self.old }
    {
        self.state = State::Failed;
        self.taken = place;
        self.held.clear();
    }

    /// Sends what is left of the text of a piece that ends at a place, and keeps what was said of it.
    fn end<O: Sink>(
        &mut self,
        buffer: &mut Buffer,
        out: &mut O,
        pushed: Pushed,
        behind: u64,
    ) -> Pushed
        requires { IsAnswer pushed }
        ensures pushes { (before : Option (List ℕ)) (held piece bytes put : List ℕ) → held ≡ [] → All (λ b. b < 256) (bytes ++ piece) → place_of self.old < 2 ^ 64 →
            IsGoneThrough before held (O.written out.old) buffer.old.bytes.items self.old piece bytes put (Ok pushed) → IsPushed before (O.written out.new) self.new piece bytes put result }
        ensures fails { WhereFault (HasFailed self.new) result }
        ensures behind { WhereFault (place_of self.new ≡ behind) result }
        ensures cause { WhereFault (Rose (O.put_faults out.old) (O.put_faults out.new)) result }
        ensures counts { O.put_faults out.old ≤ O.put_faults out.new }
        ensures kept { UnlessFault (O.put_faults out.new ≡ O.put_faults out.old) result }
        ensures dataset { dataset_of self.new ≡ dataset_of self.old }
        ensures start { start_of self.new ≡ start_of self.old }
        ensures place { UnlessFault (place_of self.new ≡ place_of self.old) result }
        ensures beside { O.beside_writing out.new ≡ O.beside_writing out.old }
    {
        match buffer.flush(out) {
            Ok(()) => {
                self.state = state_behind(pushed);
                pushed
            }
            Err(Failed) => {
                self.fail(behind);
                Pushed::WriteFault
            }
        }
    }

    /// Reads a piece where nothing was wrong before it.
    fn go_on<O: Sink>(&mut self, piece: &[u8], out: &mut O) -> Pushed
        requires { place_of self.old + length piece.now < 2 ^ 63 }
        ensures pushes { (bytes put : List ℕ) → Reads self.old bytes put → All (λ b. b < 256) bytes → IsPushed (O.written out.old) (O.written out.new) self.new piece.now bytes put result }
        ensures fails { WhereFault (HasFailed self.new) result }
        ensures behind { WhereFault (place_of self.new ≡ place_of self.old + length piece.now) result }
        ensures cause { WhereFault (Rose (O.put_faults out.old) (O.put_faults out.new)) result }
        ensures counts { O.put_faults out.old ≤ O.put_faults out.new }
        ensures kept { UnlessFault (O.put_faults out.new ≡ O.put_faults out.old) result }
        ensures dataset { dataset_of self.new ≡ dataset_of self.old }
        ensures start { start_of self.new ≡ start_of self.old }
        ensures place { place_of self.new ≤ place_of self.old + length piece.now }
        ensures beside { O.beside_writing out.new ≡ O.beside_writing out.old }
    {
        let behind = self.behind(piece);
        let mut buffer = Buffer::new();
        match self.read(piece, &mut buffer, out) {
            Ok(pushed) => self.end(&mut buffer, out, pushed, behind),
            Err(Failed) => {
                self.fail(behind);
                Pushed::WriteFault
            }
        }
    }

    /// The place behind a piece.
    pub(crate) fn behind(&self, piece: &[u8]) -> u64
        ensures { result ≡ min (place_of self.now + length piece.now) (2 ^ 64 - 1) }
    {
        self.taken
            .saturating_add(self.held.len() as u64)
            .saturating_add(piece.len() as u64)
    }

    /// Reads one more piece, and puts the lines of its elements. Behind the end of the values it uses no
    /// further bytes; a refusal and a fault of the sink it says again.
    pub fn push<O: Sink>(&mut self, piece: &[u8], out: &mut O) -> Pushed
        requires { place_of self.old + length piece.now ≤ 2 ^ 63 - 1 }
        // Of whatever bytes it stands after, each answer says what they are with the piece.
        ensures done { (bytes put : List ℕ) → DecoderStandsAfter self.old bytes put → WhereDone (λ used.
            (used ≤ length piece.now) × EndsBehind (dataset_of self.old) (bytes ++ piece.now) (length bytes + used)) result }
        ensures refused { (bytes put : List ℕ) → DecoderStandsAfter self.old bytes put →
            WhereRefused (IsFirstBad (dataset_of self.old) (start_of self.old) (bytes ++ piece.now)) result }
        ensures more { (bytes put : List ℕ) → DecoderStandsAfter self.old bytes put →
            WhereMore (IsOpen (dataset_of self.old) (bytes ++ piece.now)) result }

        // Whatever they are is said, unless the sink fails.
        ensures ended { (bytes put : List ℕ) (n : ℕ) → DecoderStandsAfter self.old bytes put → EndsBehind (dataset_of self.old) (bytes ++ piece.now) n →
            UnlessFault ((used : ℕ) × (result ≡ Pushed.Done used) × (length bytes + used ≡ n)) result }
        ensures bad { (bytes put : List ℕ) (fault : Fault) (place : ℕ) → DecoderStandsAfter self.old bytes put → IsBadField (dataset_of self.old) (bytes ++ piece.now) fault place →
            UnlessFault (result ≡ Pushed.Refused (record { kind = kind_of fault; place = start_of self.old + place })) result }
        ensures unfinished { (bytes put : List ℕ) → DecoderStandsAfter self.old bytes put → IsOpen (dataset_of self.old) (bytes ++ piece.now) →
            UnlessFault (result ≡ Pushed.More) result }

        // It stands after the used bytes then, and has put what the sink gained: what may be shown of them.
        ensures stands { (bytes put : List ℕ) → DecoderStandsAfter self.old bytes put → UnlessFault ((gained : List ℕ) ×
            DecoderStandsAfter self.new (bytes ++ used_of result piece.now) (put ++ gained) × ShowsFront (dataset_of self.old) (bytes ++ used_of result piece.now) (put ++ gained)
            × Appends (O.written out.old) (O.written out.new) gained) result }
        ensures dataset { dataset_of self.new ≡ dataset_of self.old }
        ensures start { start_of self.new ≡ start_of self.old }
        ensures place { place_of self.new ≤ place_of self.old + length piece.now }

        // Where the sink failed, some front of that was put. It fails ever after, and puts nothing. The
        // bytes that are pushed are counted all the same.
        ensures fails { WhereFault (HasFailed self.new) result }
        ensures cause { WhereFault (HasFailed self.old ⊎ Rose (O.put_faults out.old) (O.put_faults out.new)) result }
        ensures some { (bytes put : List ℕ) → DecoderStandsAfter self.old bytes put → WhereFault ((gained : List ℕ) ×
            ShowsSome (dataset_of self.old) (bytes ++ piece.now) (put ++ gained) × Appends (O.written out.old) (O.written out.new) gained) result }
        ensures behind { (bytes put : List ℕ) → DecoderStandsAfter self.old bytes put → WhereFault (HasFailedBehind self.new (length (bytes ++ piece.now))) result }
        ensures failed { HasFailed self.old → (result ≡ Pushed.WriteFault) × (O.written out.new ≡ O.written out.old) × (O.put_faults out.new ≡ O.put_faults out.old) }
        ensures counted { (n : ℕ) → HasFailedBehind self.old n → HasFailedBehind self.new (n + length piece.now) }
        ensures counts { O.put_faults out.old ≤ O.put_faults out.new }
        ensures kept { UnlessFault (O.put_faults out.new ≡ O.put_faults out.old) result }
        ensures beside { O.beside_writing out.new ≡ O.beside_writing out.old }
    {
        match self.state {
            State::Refused(bad) => Pushed::Refused(bad),
            State::Failed => {
                let behind = self.behind(piece);
                self.fail(behind);
                Pushed::WriteFault
            }
            State::Reading => self.go_on(piece, out),
        }
    }

    /// Whether the values are ended: else what is wrong first, or that the bytes end before them.
    pub fn finish(&self) -> Result<(), BadField>
        ensures ended { (bytes put : List ℕ) → DecoderStandsAfter self.now bytes put → IfOk result (λ _. EndsBehind (dataset_of self.now) bytes (length bytes)) }
        ensures refused { (bytes put : List ℕ) → DecoderStandsAfter self.now bytes put → IfErr result (λ bad.
            IsFirstBad (dataset_of self.now) (start_of self.now) bytes bad
            ⊎ (IsOpen (dataset_of self.now) bytes × (bad ≡ record { kind = Cut; place = start_of self.now + length bytes }))) }
        ensures is_ok { (bytes put : List ℕ) → DecoderStandsAfter self.now bytes put → EndsBehind (dataset_of self.now) bytes (length bytes) → result ≡ Ok tt }
        ensures stays { (bytes put : List ℕ) (fault : Fault) (place : ℕ) → DecoderStandsAfter self.now bytes put → IsBadField (dataset_of self.now) bytes fault place →
            result ≡ Err (record { kind = kind_of fault; place = start_of self.now + place }) }
        ensures cut { (bytes put : List ℕ) → DecoderStandsAfter self.now bytes put → IsOpen (dataset_of self.now) bytes →
            result ≡ Err (record { kind = Cut; place = start_of self.now + length bytes }) }

        // Where the sink failed it never says that they are ended, but that they end behind all that was pushed.
        ensures failed { HasFailed self.now → result ≡ Err (record { kind = Cut; place = min (place_of self.now) (2 ^ 64 - 1) }) }
        ensures behind { (n : ℕ) → HasFailedBehind self.now n → result ≡ Err (record { kind = Cut; place = start_of self.now + n }) }
    {
        match self.state {
            State::Reading => self.reached(),
            State::Refused(bad) => Err(bad),
            State::Failed => Err(self.cut()),
        }
    }

    /// The dataset whose values it reads.
    pub(crate) fn into_dataset(self) -> Dataset
        ensures { dataset_view result ≡ dataset_of self }
    {
        let Decoder {
            start: _,
            dataset,
            place,
            held,
            taken: _,
            state: _,
        } = self;
        drop(place);
        drop(held);
        dataset
    }

    /// The bytes end where the decoder stands.
    fn cut(&self) -> BadField
        ensures { result ≡ record { kind = Cut; place = min (place_of self.now) (2 ^ 64 - 1) } }
    {
        BadField {
            kind: Bad::Cut,
            place: self.taken.saturating_add(self.held.len() as u64),
        }
    }

    /// The same while nothing is wrong.
    fn reached(&self) -> Result<(), BadField>
        ensures ended { (bytes put : List ℕ) → Reads self.now bytes put → IfOk result (λ _. EndsBehind (dataset_of self.now) bytes (length bytes)) }
        ensures cut { (bytes put : List ℕ) → Reads self.now bytes put → IfErr result (λ bad.
            IsOpen (dataset_of self.now) bytes × (bad ≡ record { kind = Cut; place = start_of self.now + length bytes })) }
    {
        match self.place.next(self.dataset.members.items()) {
            Next::Nothing => Ok(()),
            _ => Err(self.cut()),
        }
    }
}
