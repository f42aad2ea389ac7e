ghost use Rattle.std.specs.Prelude.{◌≡◌, ◌≤◌, ◌<◌, ◌+◌, ◌-◌, ◌^◌, ◌++◌, ◌↔◌, ℕ, [], Some, length, min, take, drop, IfOk, OnErr, false, true, Bool, IsTrue};
ghost use Rattle.dap_outside.specs.Calls.{IsOneMore};
ghost use Rattle.dap_outside.specs.Causes.{HasCause};

use crate::calls::Calls;
use crate::{Failed, Source};
use dap_types::{Bytes, List};

/// Bytes in memory, which it tells. The calls of `take` whose numbers, counted from 1, are in a list
/// fail, and no others.
#[derive(Debug, Drop)]
pub struct MemSource {
    bytes: Bytes,
    at: usize,
    piece: u32,
    calls: Calls,
    ended: bool,
    ghost within: { at ≤ length bytes },
    ghost moves: { 0 < piece },
    ghost at_end: { IsTrue ended → at ≡ length bytes },
    ghost only_listed: { calls.fails ≡ [] → calls.faults ≡ 0 },
}

impl MemSource {
    ghost use Rattle.dap_outside.specs.MemSources.{input_of, left_of};

    /// A source of these bytes. It gives at most `piece` of them at once, and the calls in `fails` fail.
    pub fn new(bytes: Bytes, piece: u32, fails: List<u64>) -> MemSource
        requires { 0 < piece }
        ensures whole { ⟦<MemSource as Source>⟧.whole result ≡ Some bytes }
        ensures left { ⟦<MemSource as Source>⟧.left result ≡ Some bytes }
        ensures ended { ⟦<MemSource as Source>⟧.ended result ≡ false }
        ensures faults { ⟦<MemSource as Source>⟧.take_faults result ≡ 0 }
        ensures beside { ⟦<MemSource as Source>⟧.beside_reading result ≡ (piece, fails) }
        ensures no_call { result.calls.made ≡ 0 }
        ensures none_taken { result.at ≡ 0 }
    {
        MemSource {
            bytes,
            at: 0,
            piece,
            calls: Calls::new(fails),
            ended: false,
        }
    }
}

impl Source for MemSource {
    ghost use Rattle.std.specs.Prelude.{ℕ, List, Some, drop, take};
    ghost use Rattle.std.proofs.Common.{sym, take-append-drop, arith};
    ghost use Rattle.std.proofs.lemmas.List.{drop_all};
    ghost use Rattle.dap_outside.specs.MemSources.{input_of, left_of};

    ghost Rest = { ℕ × List ℕ };

    ghost whole = { λ s. Some s.bytes };

    ghost left = { λ s. Some (drop s.at s.bytes) };

    ghost ended = { λ s. s.ended };

    ghost take_faults = { λ s. s.calls.faults };

    ghost beside_reading = { λ s. (s.piece, s.calls.fails) };

    ghost ends_whole = { λ s. (take s.at s.bytes, sym (take-append-drop s.at s.bytes)) };

    ghost ended_empty = { λ s e. drop_all s.at s.bytes (Prim.omega (arith, s.at_end e)) };

    /// Takes from the front as much as fits, at most a piece. Fails exactly where the call is listed.
    fn take(&mut self, into: &mut [u8]) -> Result<usize, Failed>
        requires { 0 < length into.old }
        ensures count { IfOk result (λ n. n ≡ min (min (length (left_of self.old)) (length into.old)) self.old.piece) }
        ensures bytes { IfOk result (λ n. left_of self.old ≡ take n into.new ++ left_of self.new) }
        ensures end { IfOk result (λ n. (n ≡ 0) ↔ IsTrue self.new.ended) }
        ensures stays { IsTrue self.old.ended → IsTrue self.new.ended }
        ensures err { OnErr result ((left_of self.new ≡ left_of self.old) × (self.new.ended ≡ self.old.ended)) }
        ensures whole { input_of self.new ≡ input_of self.old }
        ensures piece { self.new.piece ≡ self.old.piece }
        ensures cause { HasCause self.old.calls.faults self.new.calls.faults result }
        ensures calls { IsOneMore self.old.calls self.new.calls ⊥ result }
    {
        self.calls.count(true)?;
        let left = &self.bytes.bytes()[self.at..];
        let count = left.len().min(into.len()).min(self.piece as usize);
        into[..count].copy_from_slice(&left[..count]);
        self.at += count;
        self.ended = count == 0;
        Ok(count)
    }
}
