ghost use Rattle.std.specs.Prelude.{◌≡◌, ◌≤◌, ◌<◌, ◌+◌, ◌-◌, ◌++◌, ◌↔◌, ℕ, [], Some, length, min, drop, take, IfOk, OnErr, Bool, IsTrue, false};
ghost use Rattle.dap_outside.specs.Calls.{IsOneMore};
ghost use Rattle.dap_outside.specs.Causes.{HasCause};

use crate::{Failed, Link, MemSink, MemSource, Sink, Source};
use dap_types::{Bytes, List, Memory};
use std::alloc::Global;

/// A link in memory, which it tells: a source and a sink. The calls of `take` and of `put` whose
/// numbers, each counted from 1, are in its lists fail, each `put` where it is full, and no others.
#[derive(Debug, Drop)]
pub struct MemLink {
    source: MemSource,
    sink: MemSink,
}

impl MemLink {
    ghost use Rattle.dap_outside.specs.MemLinks.{IsNew, input_of, put_list, room_of, take_list, written_of};

    /// A link that gives these bytes and takes `room` bytes, at most `piece` at once. Fails where
    /// memory is wanted.
    pub fn new(
        alloc: Global,
        bytes: Bytes,
        room: u32,
        piece: u32,
        take_fails: List<u64>,
        put_fails: List<u64>,
    ) -> Result<MemLink, Memory>
        requires { 0 < piece }
        ensures is_new { IfOk result IsNew }
        ensures input { IfOk result (λ l. input_of l ≡ bytes) }
        ensures room { IfOk result (λ l. room_of l ≡ room) }
        ensures pieces { IfOk result (λ l. (l.source.piece ≡ piece) × (l.sink.piece ≡ piece)) }
        ensures takes { IfOk result (λ l. take_list l ≡ take_fails) }
        ensures puts { IfOk result (λ l. put_list l ≡ put_fails) }
    {
        let sink = MemSink::new(alloc, room, piece, put_fails)?;
        Ok(MemLink {
            source: MemSource::new(bytes, piece, take_fails),
            sink,
        })
    }

    /// What was written.
    pub fn written(&self) -> &[u8]
        ensures told { ⟦<MemLink as Sink>⟧.written self.now ≡ Some result.now }
        ensures value { result.now ≡ written_of self.now }
    {
        self.sink.bytes()
    }
}

impl Source for MemLink {
    ghost use Rattle.std.specs.Prelude.{ℕ, List, Some, drop, take};
    ghost use Rattle.std.proofs.Common.{sym, take-append-drop, arith};
    ghost use Rattle.std.proofs.lemmas.List.{drop_all};
    ghost use Rattle.dap_outside.specs.MemLinks.{input_of, unread_of};
    ghost use Rattle.dap_outside.specs.declared.memory_sink.MemSink.{MemSink};

    ghost Rest = { ℕ × List ℕ × MemSink };

    ghost whole = { λ s. Some s.source.bytes };

    ghost left = { λ s. Some (drop s.source.at s.source.bytes) };

    ghost ended = { λ s. s.source.ended };

    ghost take_faults = { λ s. s.source.calls.faults };

    ghost beside_reading = { λ s. (s.source.piece, s.source.calls.fails, s.sink) };

    ghost ends_whole = { λ s. (take s.source.at s.source.bytes, sym (take-append-drop s.source.at s.source.bytes)) };

    ghost ended_empty = { λ s e. drop_all s.source.at s.source.bytes (Prim.omega (arith, s.source.at_end e)) };

    /// Takes from the front as much as fits, at most a piece. Fails exactly where the call is listed.
    fn take(&mut self, into: &mut [u8]) -> Result<usize, Failed>
        requires { 0 < length into.old }
        ensures count { IfOk result (λ n. n ≡ min (min (length (unread_of self.old)) (length into.old)) self.old.source.piece) }
        ensures bytes { IfOk result (λ n. unread_of self.old ≡ take n into.new ++ unread_of self.new) }
        ensures end { IfOk result (λ n. (n ≡ 0) ↔ IsTrue self.new.source.ended) }
        ensures stays { IsTrue self.old.source.ended → IsTrue self.new.source.ended }
        ensures err { OnErr result ((unread_of self.new ≡ unread_of self.old) × (self.new.source.ended ≡ self.old.source.ended)) }
        ensures whole { input_of self.new ≡ input_of self.old }
        ensures piece { self.new.source.piece ≡ self.old.source.piece }
        ensures beside { self.new.sink ≡ self.old.sink }
        ensures cause { HasCause self.old.source.calls.faults self.new.source.calls.faults result }
        ensures calls { IsOneMore self.old.source.calls self.new.source.calls ⊥ result }
    {
        self.source.take(into)
    }
}

impl Sink for MemLink {
    ghost use Rattle.std.specs.Prelude.{ℕ, List, Some};
    ghost use Rattle.dap_outside.specs.MemLinks.{room_of, written_of};
    ghost use Rattle.dap_outside.specs.declared.memory_source.MemSource.{MemSource};

    ghost Rest = { ℕ × ℕ × List ℕ × MemSource };

    ghost written = { λ s. Some s.sink.buffer.items };

    ghost put_faults = { λ s. s.sink.calls.faults };

    ghost beside_writing = { λ s. (s.sink.room, s.sink.piece, s.sink.calls.fails, s.source) };

    /// Appends from the front as much as there is room for, at most a piece. Fails exactly where the
    /// call is listed or it is full.
    fn put(&mut self, bytes: &[u8]) -> Result<usize, Failed>
        requires { 0 < length bytes.now }
        ensures count { IfOk result (λ n. n ≡ min (min (length bytes.now) (room_of self.old - length (written_of self.old))) self.old.sink.piece) }
        ensures some { IfOk result (λ n. (0 < n) × (n ≤ length bytes.now)) }
        ensures bytes { IfOk result (λ n. written_of self.new ≡ written_of self.old ++ take n bytes.now) }
        ensures err { OnErr result (written_of self.new ≡ written_of self.old) }
        ensures room { room_of self.new ≡ room_of self.old }
        ensures piece { self.new.sink.piece ≡ self.old.sink.piece }
        ensures beside { self.new.source ≡ self.old.source }
        ensures cause { HasCause self.old.sink.calls.faults self.new.sink.calls.faults result }
        ensures calls { IsOneMore self.old.sink.calls self.new.sink.calls (room_of self.old ≤ length (written_of self.old)) result }
    {
        self.sink.put(bytes)
    }
}

impl Link for MemLink {
    ghost use Rattle.std.specs.Prelude.{Some, drop};
    ghost use Rattle.std.proofs.Common.{ap};

    ghost keeps_written = { λ a b e. ap (λ r. Some r.2.buffer.items) e };

    ghost keeps_put_faults = { λ a b e. ap (λ r. r.2.calls.faults) e };

    ghost keeps_whole = { λ a b e. ap (λ r. Some r.3.bytes) e };

    ghost keeps_left = { λ a b e. ap (λ r. Some (drop r.3.at r.3.bytes)) e };

    ghost keeps_ended = { λ a b e. ap (λ r. r.3.ended) e };

    ghost keeps_take_faults = { λ a b e. ap (λ r. r.3.calls.faults) e };
}
