ghost use Rattle.std.specs.Prelude.{◌≡◌, ◌<◌, ◌≤◌, ◌+◌, ◌^◌, IsTrue};
ghost use Rattle.dap_http.specs.inner.Steps.{is_number};

use crate::Coding;
use crate::chunk_step::At;
use reply_faults::{Bad, BadField};

/// What an unframer makes of a piece.
#[derive(Clone, Copy)]
pub enum Unframed<'p> {
    /// These bytes of the piece are the next ones of the body, and end where the used ones do.
    Part { bytes: &'p [u8], used: usize },
    /// The piece has no byte of the body, and all of it is used.
    More,
    /// The body ended behind so many bytes.
    End { used: usize },
    /// A line or a line end of the chunked coding does not fit.
    Refused(BadField),
}

/// Takes the framing off a body that comes in pieces of any length, and lends the body's bytes.
#[derive(Debug, Drop)]
pub struct Unframer {
    coding: Coding,
    at: At,
    used: u64,
    from: u64,
    lent: u64,
    ghost number: { IsTrue (is_number at) },
    ghost within: { lent ≤ used },
    ghost small: { used < 2 ^ 63 },
}

impl Unframer {
    ghost use Rattle.std.specs.Prelude.{◌≡◌, ℕ, ◌+◌, ◌<◌, ◌≤◌, ◌⊎◌, ◌^◌, false, IsTrue, List, [], ◌++◌, length, take, IsOk, OnOk, IfErr};
    ghost use Rattle.dap_http.specs.After.{UnframerStandsAfter, WhereBad, WhereEnd, WhereMore, WherePart, coding_of, count_of, lent_by, used_by, used_of};
    ghost use Rattle.dap_http.specs.inner.Steps.{Known, advance, is_open, run, stops};
    ghost use Rattle.dap_http.specs.inner.Tracking.{Counts, IsRight, Lands, Passes, Tracks};
    ghost use Rattle.dap_http.specs.declared.chunk_step.At.TheVariants.{Data};
    ghost use Rattle.dap_http.specs.Codings.{Ends, Fails, Goes};
    ghost use Rattle.dap_http.specs.declared.coding.Coding.TheVariants.{ToEnd};
    ghost use Rattle.reply_faults.specs.declared.bad.BadField.{BadField as Wrong};
    ghost use Rattle.reply_faults.specs.declared.bad.Bad.TheVariants.{BadChunk, Cut};

    /// An unframer of a body of that coding, which has used no byte. It takes no memory.
    pub fn new(coding: Coding) -> Unframer
        ensures stands { UnframerStandsAfter result [] }
        ensures coding { coding_of result ≡ coding }
        ensures used { used_by result ≡ 0 }
    {
        Unframer {
            coding,
            at: At::Line,
            used: 0,
            from: 0,
            lent: 0,
        }
    }

    /// Takes the framing off one more piece. Behind the end it uses no further bytes, and behind a
    /// fault it says the same again. It takes no memory.
    pub fn next<'p>(&mut self, piece: &'p [u8]) -> Unframed<'p>
        requires { used_by self.old + length piece.now < 2 ^ 63 }

        // Of whatever bytes it stands after, the answer says what they are with the piece.
        ensures part { (bytes body : List ℕ) → UnframerStandsAfter self.old bytes → Goes (coding_of self.old) bytes body →
            WherePart result (λ lent used. (used ≤ length piece.now) × (0 < length lent)
            × ((front : List ℕ) × (take used piece.now ≡ front ++ lent))
            × (Goes (coding_of self.old) (bytes ++ take used piece.now) (body ++ lent)
            ⊎ Ends (coding_of self.old) (bytes ++ take used piece.now) (body ++ lent))) }
        ensures more { (bytes body : List ℕ) → UnframerStandsAfter self.old bytes → Goes (coding_of self.old) bytes body →
            WhereMore (Goes (coding_of self.old) (bytes ++ piece.now) body) result }
        ensures end { (bytes body : List ℕ) → UnframerStandsAfter self.old bytes → Goes (coding_of self.old) bytes body →
            WhereEnd (λ used. (used ≤ length piece.now) × Ends (coding_of self.old) (bytes ++ take used piece.now) body) result }
        ensures refused { (bytes body : List ℕ) → UnframerStandsAfter self.old bytes → Goes (coding_of self.old) bytes body →
            WhereBad (λ bad. (bad.kind ≡ BadChunk) × Fails (coding_of self.old) (bytes ++ piece.now) body bad.place) result }

        // Whatever they are is said.
        ensures goes_on { (bytes body : List ℕ) → UnframerStandsAfter self.old bytes → Goes (coding_of self.old) bytes body →
            Goes (coding_of self.old) (bytes ++ piece.now) body → result ≡ Unframed.More }
        ensures ended { (bytes body : List ℕ) (n : ℕ) → UnframerStandsAfter self.old bytes → Goes (coding_of self.old) bytes body →
            n ≤ length piece.now → Ends (coding_of self.old) (bytes ++ take n piece.now) body → result ≡ Unframed.End n }
        ensures faulty { (bytes body : List ℕ) (place : ℕ) → UnframerStandsAfter self.old bytes → Goes (coding_of self.old) bytes body →
            Fails (coding_of self.old) (bytes ++ piece.now) body place → result ≡ Unframed.Refused (record { kind = BadChunk; place = place }) }

        // It stands after the used bytes then. Behind an end and a fault the answer stays.
        ensures stands { (bytes : List ℕ) → UnframerStandsAfter self.old bytes → UnframerStandsAfter self.new (bytes ++ used_of result piece.now) }
        ensures again { (bytes body : List ℕ) → UnframerStandsAfter self.old bytes → Ends (coding_of self.old) bytes body → result ≡ Unframed.End 0 }
        ensures still { (bytes body : List ℕ) (place : ℕ) → UnframerStandsAfter self.old bytes → Fails (coding_of self.old) bytes body place →
            result ≡ Unframed.Refused (record { kind = BadChunk; place = place }) }
        ensures coding { coding_of self.new ≡ coding_of self.old }
        ensures within { count_of result piece.now ≤ length piece.now }
        ensures used { used_by self.new ≡ used_by self.old + length (used_of result piece.now) }
    {
        self.advance(piece)
    }

    /// How many bytes it has used.
    pub fn used(&self) -> u64
        ensures { result ≡ used_by self.now }
    {
        self.used
    }

    /// How many bytes of the body it has lent.
    pub fn lent(&self) -> u64
        ensures { result ≡ lent_by self.now }
    {
        self.lent
    }

    fn advance<'p>(&mut self, piece: &'p [u8]) -> Unframed<'p>
        requires { used_by self.old + length piece.now < 2 ^ 63 }
        ensures right { (bytes : List ℕ) → UnframerStandsAfter self.old bytes → IsRight (coding_of self.old) bytes piece.now result }
        ensures stands { (bytes : List ℕ) → UnframerStandsAfter self.old bytes → UnframerStandsAfter self.new (bytes ++ used_of result piece.now) }
        ensures coding { coding_of self.new ≡ coding_of self.old }
        ensures within { count_of result piece.now ≤ length piece.now }
        ensures used { used_by self.new ≡ used_by self.old + length (used_of result piece.now) }
    {
        match self.coding {
            Coding::Chunked => self.next_chunked(piece),
            Coding::Length(whole) => self.next_counted(piece, whole),
            Coding::ToEnd => self.next_to_end(piece),
        }
    }

    /// What is wrong where the source has ended: nothing where the body has, too.
    pub fn finish(&self) -> Result<(), BadField>
        ensures ended { (bytes body : List ℕ) → UnframerStandsAfter self.now bytes → Ends (coding_of self.now) bytes body → IsOk result }
        ensures to_end { coding_of self.now ≡ ToEnd → IsOk result }
        ensures faulty { (bytes body : List ℕ) (place : ℕ) → UnframerStandsAfter self.now bytes → Fails (coding_of self.now) bytes body place →
            result ≡ Err (record { kind = BadChunk; place = place }) }
        ensures cut { (bytes body : List ℕ) → UnframerStandsAfter self.now bytes → Goes (coding_of self.now) bytes body →
            (coding_of self.now ≡ ToEnd) ⊎ (result ≡ Err (record { kind = Cut; place = length body })) }
    {
        match self.coding {
            Coding::Chunked => match self.at {
                At::Done => Ok(()),
                At::Bad => Err(self.fault()),
                _ => Err(self.cut()),
            },
            Coding::Length(length) => {
                if self.lent < length {
                    return Err(self.cut());
                }
                Ok(())
            }
            Coding::ToEnd => Ok(()),
        }
    }

    fn next_chunked<'p>(&mut self, piece: &'p [u8]) -> Unframed<'p>
        requires { used_by self.old + length piece.now < 2 ^ 63 }
        ensures lands { (k : Known) → Tracks self.old k → Lands k self.new piece.now result }
        ensures within { count_of result piece.now ≤ length piece.now }
        ensures used { used_by self.new ≡ used_by self.old + length (used_of result piece.now) }
        ensures coding { coding_of self.new ≡ coding_of self.old }
    {
        let used = self.read_lines(piece);
        match self.at {
            At::Data(left) => {
                if used == piece.len() {
                    return Unframed::More;
                }
                let count = self.lend(left, piece.len() - used);
                Unframed::Part {
                    bytes: &piece[used..used + count],
                    used: used + count,
                }
            }
            At::Done => Unframed::End { used },
            At::Bad => {
                self.used += (piece.len() - used) as u64;
                Unframed::Refused(self.fault())
            }
            _ => Unframed::More,
        }
    }

    /// Reads lines up to bytes of a chunk, the end of the body or a fault.
    fn read_lines(&mut self, piece: &[u8]) -> usize
        requires { used_by self.old + length piece.now < 2 ^ 63 }
        ensures within { result ≤ length piece.now }
        ensures tracks { (k : Known) → Tracks self.old k → Tracks self.new (run k (take result piece.now)) × ((run k (take result piece.now)).body ≡ k.body) }
        ensures stopped { result < length piece.now → IsTrue (stops self.new.at) }
        ensures used { used_by self.new ≡ used_by self.old + result }
        ensures coding { coding_of self.new ≡ coding_of self.old }
    {
        let mut used = 0;
        while used < piece.len() && !self.at.stops() {
            self.read_byte(piece[used]);
            used += 1;
        }
        used
    }

    /// Reads a byte of a line.
    fn read_byte(&mut self, byte: u8)
        requires room { used_by self.old + 1 < 2 ^ 63 }
        requires line { stops self.old.at ≡ false }
        ensures tracks { (k : Known) → Tracks self.old k → Tracks self.new (advance k byte) × ((advance k byte).body ≡ k.body) }
        ensures used { used_by self.new ≡ used_by self.old + 1 }
        ensures coding { coding_of self.new ≡ coding_of self.old }
    {
        self.at = self.at.step(byte);
        self.used += 1;
        if self.at.is_start() {
            self.from = self.used;
        }
    }

    /// Lends as many bytes of a chunk as there are, at least one of them, and answers how many.
    fn lend(&mut self, left: u64, most: usize) -> usize
        requires room { used_by self.old + most < 2 ^ 63 }
        requires some { 0 < most }
        requires chunk { self.old.at ≡ Data left }
        ensures some { 0 < result }
        ensures most { result ≤ most }
        ensures tracks { (k : Known) (bytes : List ℕ) → Tracks self.old k → length bytes ≡ result →
            Tracks self.new (run k bytes) × ((run k bytes).body ≡ k.body ++ bytes) }
        ensures open { IsTrue (is_open self.new.at) }
        ensures used { used_by self.new ≡ used_by self.old + result }
        ensures coding { coding_of self.new ≡ coding_of self.old }
    {
        if left <= most as u64 {
            let count = left as usize;
            self.at = At::EndCr;
            self.count(count);
            return count;
        }
        self.at = At::Data(left - most as u64);
        self.count(most);
        most
    }

    fn count(&mut self, more: usize)
        requires { used_by self.old + more < 2 ^ 63 }
        ensures at { self.new.at ≡ self.old.at }
        ensures used { self.new.used ≡ self.old.used + more }
        ensures from { self.new.from ≡ self.old.used + more }
        ensures lent { self.new.lent ≡ self.old.lent + more }
        ensures coding { self.new.coding ≡ self.old.coding }
    {
        self.used += more as u64;
        self.from = self.used;
        self.lent += more as u64;
    }

    fn next_counted<'p>(&mut self, piece: &'p [u8], whole: u64) -> Unframed<'p>
        requires { used_by self.old + length piece.now < 2 ^ 63 }
        ensures counts { Counts self.old.lent self.new.lent whole piece.now result }
        ensures within { count_of result piece.now ≤ length piece.now }
        ensures used { used_by self.new ≡ used_by self.old + length (used_of result piece.now) }
        ensures coding { coding_of self.new ≡ coding_of self.old }
    {
        if self.lent >= whole {
            return Unframed::End { used: 0 };
        }
        let left = whole - self.lent;
        if piece.is_empty() {
            return Unframed::More;
        }
        let count = if left < piece.len() as u64 {
            left as usize
        } else {
            piece.len()
        };
        self.count(count);
        Unframed::Part {
            bytes: &piece[..count],
            used: count,
        }
    }

    fn next_to_end<'p>(&mut self, piece: &'p [u8]) -> Unframed<'p>
        requires { used_by self.old + length piece.now < 2 ^ 63 }
        ensures passes { Passes self.old.lent self.new.lent piece.now result }
        ensures within { count_of result piece.now ≤ length piece.now }
        ensures used { used_by self.new ≡ used_by self.old + length (used_of result piece.now) }
        ensures coding { coding_of self.new ≡ coding_of self.old }
    {
        if piece.is_empty() {
            return Unframed::More;
        }
        self.count(piece.len());
        Unframed::Part {
            bytes: piece,
            used: piece.len(),
        }
    }

    fn fault(&self) -> BadField
        ensures { result ≡ record { kind = BadChunk; place = self.now.from } }
    {
        BadField {
            kind: Bad::BadChunk,
            place: self.from,
        }
    }

    fn cut(&self) -> BadField
        ensures { result ≡ record { kind = Cut; place = self.now.lent } }
    {
        BadField {
            kind: Bad::Cut,
            place: self.lent,
        }
    }
}
