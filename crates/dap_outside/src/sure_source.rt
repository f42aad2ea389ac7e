ghost use Rattle.std.specs.Prelude.{◌≡◌, ◌≤◌, ◌<◌, ◌++◌, ◌↔◌, ℕ, Some, length, min, take, drop, false, Bool, IfOk, IsOk, IsTrue};

use crate::{Failed, Source};
use dap_types::Bytes;

/// Bytes in memory, which it tells. No call fails.
#[derive(Debug, Drop)]
pub struct SureSource {
    bytes: Bytes,
    at: usize,
    piece: u32,
    ended: bool,
    ghost within: { at ≤ length bytes },
    ghost moves: { 0 < piece },
    ghost at_end: { IsTrue ended → at ≡ length bytes },
}

impl SureSource {
    /// A source of these bytes, which gives at most `piece` of them at once.
    pub fn new(bytes: Bytes, piece: u32) -> SureSource
        requires { 0 < piece }
        ensures whole { ⟦<SureSource as Source>⟧.whole result ≡ Some bytes }
        ensures left { ⟦<SureSource as Source>⟧.left result ≡ Some bytes }
        ensures ended { ⟦<SureSource as Source>⟧.ended result ≡ false }
        ensures beside { ⟦<SureSource as Source>⟧.beside_reading result ≡ piece }
    {
        SureSource {
            bytes,
            at: 0,
            piece,
            ended: false,
        }
    }
}

impl Source for SureSource {
    ghost use Rattle.std.specs.Prelude.{ℕ, List, Some, drop, take};
    ghost use Rattle.std.proofs.Common.{sym, take-append-drop, arith};
    ghost use Rattle.std.proofs.lemmas.List.{drop_all};
    ghost use Rattle.dap_outside.specs.MemSources.{sure_left};

    ghost Rest = { ℕ };

    ghost whole = { λ s. Some s.bytes };

    ghost left = { λ s. Some (drop s.at s.bytes) };

    ghost ended = { λ s. s.ended };

    ghost take_faults = { λ _. 0 };

    ghost beside_reading = { λ s. s.piece };

    ghost ends_whole = { λ s. (take s.at s.bytes, sym (take-append-drop s.at s.bytes)) };

    ghost ended_empty = { λ s e. drop_all s.at s.bytes (Prim.omega (arith, s.at_end e)) };

    /// Takes from the front as much as fits, at most a piece.
    fn take(&mut self, into: &mut [u8]) -> Result<usize, Failed>
        requires { 0 < length into.old }
        ensures sure { IsOk result }
        ensures count { IfOk result (λ n. n ≡ min (min (length (sure_left self.old)) (length into.old)) self.old.piece) }
        ensures bytes { IfOk result (λ n. sure_left self.old ≡ take n into.new ++ sure_left self.new) }
        ensures end { IfOk result (λ n. (n ≡ 0) ↔ IsTrue self.new.ended) }
        ensures stays { IsTrue self.old.ended → IsTrue self.new.ended }
        ensures whole { self.new.bytes ≡ self.old.bytes }
        ensures piece { self.new.piece ≡ self.old.piece }
    {
        let left = &self.bytes.bytes()[self.at..];
        let count = left.len().min(into.len()).min(self.piece as usize);
        into[..count].copy_from_slice(&left[..count]);
        self.at += count;
        self.ended = count == 0;
        Ok(count)
    }
}
