//! A source, a sink and a shelf that count their calls, and keep or make no bytes but those that are asked.

ghost use Rattle.std.specs.Prelude.{◌≡◌, ◌<◌, ◌^◌, length};

use crate::building::sum_of;
use dap_outside::{Failed, Shelf, Sink, Source};

/// What a sink got: how many puts, how many bytes, and their sum.
#[derive(Clone, Copy, Debug, PartialEq, Eq)]
pub struct Tally {
    pub puts: u64,
    pub bytes: u64,
    pub sum: u64,
}

impl Tally {
    /// Nothing yet.
    pub fn new() -> Tally {
        Tally {
            puts: 0,
            bytes: 0,
            sum: 0,
        }
    }

    /// One put of these bytes.
    pub fn add(&mut self, bytes: &[u8]) {
        self.puts = self.puts.wrapping_add(1);
        self.bytes = self.bytes.wrapping_add(bytes.len() as u64);
        self.sum = self.sum.wrapping_add(sum_of(bytes));
    }
}

impl Sink for Tally {
    ghost use Rattle.std.specs.Prelude.{None};

    ghost Rest = { Unit {0} };

    ghost beside_writing = { λ _. tt };

    ghost written = { λ _. None };

    ghost put_faults = { λ _. 0 };

    fn put(&mut self, bytes: &[u8]) -> Result<usize, Failed> {
        self.add(bytes);
        Ok(bytes.len())
    }
}

/// Copies so many bytes from a place on to the front, where there are so many.
pub fn copy(into: &mut [u8], bytes: &[u8], at: usize, count: usize)
    ensures { length into.new ≡ length into.old }
{
    if let Some(piece) = bytes.get(at..at.wrapping_add(count)) {
        if let Some(front) = into.get_mut(..count) {
            if piece.len() == front.len() {
                front.copy_from_slice(piece);
            }
        }
    }
}

/// Bytes that come in pieces of so many at most, and how often they were taken.
#[derive(Drop)]
pub struct Fed {
    bytes: Vec<u8>,
    at: usize,
    piece: usize,
    ended: bool,
    pub takes: u64,
}

impl Fed {
    /// These bytes, none of them taken.
    pub fn new(bytes: Vec<u8>, piece: usize) -> Fed {
        Fed {
            bytes,
            at: 0,
            piece,
            ended: false,
            takes: 0,
        }
    }
}

impl Source for Fed {
    ghost use Rattle.std.specs.Prelude.{None};

    ghost Rest = { Unit {0} };

    ghost beside_reading = { λ _. tt };

    ghost whole = { λ _. None };

    ghost left = { λ _. None };

    ghost ended = { λ s. s.ended };

    ghost take_faults = { λ _. 0 };

    ghost ends_whole = { λ _. tt };

    ghost ended_empty = { λ _ _. tt };

    fn take(&mut self, into: &mut [u8]) -> Result<usize, Failed> {
        self.takes = self.takes.wrapping_add(1);
        if self.ended {
            return Ok(0);
        }
        let left = self.bytes.len().saturating_sub(self.at);
        let count = left.min(self.piece).min(into.len());
        copy(into, &self.bytes, self.at, count);
        self.at = self.at.wrapping_add(count);
        self.ended = count == 0;
        Ok(count)
    }
}

/// A shelf with one file of so many bytes, of which that at place p is p modulo 251, and how often it was
/// read.
#[derive(Drop)]
pub struct Patterned {
    size: u64,
    pub reads: u64,
    asked: u128,
    greatest: u64,
    ghost small: { size < 2 ^ 63 },
}

/// Its file.
#[derive(Drop)]
pub struct Opened {
    size: u64,
    ghost small: { size < 2 ^ 63 },
}

/// The byte at a place of the file.
pub fn byte_at(place: u64) -> u8 {
    (place % 251) as u8
}

fn fill(into: &mut [u8], at: u64) {
    for (k, byte) in into.iter_mut().enumerate() {
        *byte = byte_at(at.wrapping_add(k as u64));
    }
}

impl Patterned {
    /// A shelf whose file has so many bytes.
    pub fn new(size: u64) -> Patterned
        requires { size < 2 ^ 63 }
    {
        Patterned {
            size,
            reads: 0,
            asked: 0,
            greatest: 0,
        }
    }
}

impl Shelf for Patterned {
    ghost use Rattle.std.specs.Prelude.{None};
    ghost use Rattle.std.proofs.lemmas.Option.{none-some};

    type File = Opened;

    ghost files = { λ _. None };

    ghost content = { λ _ _. None };

    ghost name_of = { λ _ _. None };

    ghost size_of = { λ _ file. file.size };

    ghost faults = { λ _. 0 };

    ghost asked = { λ s. s.asked };

    ghost greatest = { λ s. s.greatest };

    ghost files_are_bytes = { λ s named name bytes e f. absurd (none-some named e) };

    ghost content_is_bytes = { λ s file bytes e. absurd (none-some bytes e) };

    fn find(&mut self, _name: &str) -> Result<Option<Opened>, Failed> {
        Ok(Some(Opened { size: self.size }))
    }

    fn size(&self, file: &Opened) -> u64 {
        file.size
    }

    fn read_at(&mut self, _file: &mut Opened, at: u64, into: &mut [u8]) -> Result<(), Failed> {
        self.reads = self.reads.wrapping_add(1);
        self.asked = self.asked.saturating_add(into.len() as u128);
        self.greatest = self.greatest.max(into.len() as u64);
        fill(into, at);
        Ok(())
    }
}
