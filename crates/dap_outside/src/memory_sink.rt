ghost use Rattle.std.specs.Prelude.{◌≡◌, ◌≤◌, ◌<◌, ◌+◌, ◌-◌, ◌^◌, ◌++◌, ℕ, [], Some, length, min, take, IfOk, OnErr, vec_len, vec_capacity};
ghost use Rattle.dap_outside.specs.Calls.{IsOneMore};
ghost use Rattle.dap_outside.specs.Causes.{HasCause};

use crate::calls::Calls;
use crate::{Failed, Sink};
use dap_types::{List, Memory};
use std::alloc::Global;

/// A buffer in memory, which it tells. The calls of `put` whose numbers, counted from 1, are in a
/// list fail, each call where it is full, and no others.
#[derive(Debug, Drop)]
pub struct MemSink {
    buffer: Vec<u8>,
    room: u32,
    piece: u32,
    calls: Calls,
    ghost within: { vec_len buffer ≤ room },
    ghost reserved: { room ≤ vec_capacity buffer },
    ghost moves: { 0 < piece },
    ghost only_listed: { calls.fails ≡ [] → vec_len buffer < room → calls.faults ≡ 0 },
}

impl MemSink {
    ghost use Rattle.dap_outside.specs.MemSinks.{written_of};

    /// An empty sink of `room` bytes. It takes at most `piece` of them at once, and the calls in
    /// `fails` fail. Fails where memory is wanted.
    pub fn new(alloc: Global, room: u32, piece: u32, fails: List<u64>) -> Result<MemSink, Memory>
        requires { 0 < piece }
        ensures written { IfOk result (λ s. ⟦<MemSink as Sink>⟧.written s ≡ Some []) }
        ensures faults { IfOk result (λ s. ⟦<MemSink as Sink>⟧.put_faults s ≡ 0) }
        ensures beside { IfOk result (λ s. ⟦<MemSink as Sink>⟧.beside_writing s ≡ (room, piece, fails)) }
        ensures no_call { IfOk result (λ s. s.calls.made ≡ 0) }
    {
        let buffer = Vec::with_capacity(alloc, room as usize)?;
        Ok(MemSink {
            buffer,
            room,
            piece,
            calls: Calls::new(fails),
        })
    }

    /// What was written.
    pub fn bytes(&self) -> &[u8]
        ensures told { ⟦<MemSink as Sink>⟧.written self.now ≡ Some result.now }
        ensures value { result.now ≡ written_of self.now }
    {
        self.buffer.as_slice()
    }
}

impl Sink for MemSink {
    ghost use Rattle.std.specs.Prelude.{ℕ, List};
    ghost use Rattle.dap_outside.specs.MemSinks.{written_of};

    ghost Rest = { ℕ × ℕ × List ℕ };

    ghost written = { λ s. Some s.buffer.items };

    ghost put_faults = { λ s. s.calls.faults };

    ghost beside_writing = { λ s. (s.room, s.piece, s.calls.fails) };

    /// Appends from the front as much as there is room for, at most a piece. Fails exactly where the
    /// call is listed or it is full.
    fn put(&mut self, bytes: &[u8]) -> Result<usize, Failed>
        requires { 0 < length bytes.now }
        ensures count { IfOk result (λ n. n ≡ min (min (length bytes.now) (self.old.room - length (written_of self.old))) self.old.piece) }
        ensures some { IfOk result (λ n. (0 < n) × (n ≤ length bytes.now)) }
        ensures bytes { IfOk result (λ n. written_of self.new ≡ written_of self.old ++ take n bytes.now) }
        ensures err { OnErr result (written_of self.new ≡ written_of self.old) }
        ensures room { self.new.room ≡ self.old.room }
        ensures piece { self.new.piece ≡ self.old.piece }
        ensures cause { HasCause self.old.calls.faults self.new.calls.faults result }
        ensures calls { IsOneMore self.old.calls self.new.calls (self.old.room ≤ length (written_of self.old)) result }
    {
        let room = self.room as usize - self.buffer.len();
        self.calls.count(room > 0)?;
        let count = bytes.len().min(room).min(self.piece as usize);
        match self.buffer.extend_from_slice(&bytes[..count]) {
            Ok(()) => Ok(count),
            Err(_) => unreachable!(),
        }
    }
}
