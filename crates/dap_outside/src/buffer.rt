ghost use Rattle.std.specs.Prelude.{◌≡◌, ◌≤◌, ◌+◌, ℕ, [], ◌++◌, length, OnErr, OnOk};
ghost use Rattle.arrayvec.specs.ArrayVec.{array_vec_len};
ghost use Rattle.std.specs.Io.KnownBytes.{Appends};
ghost use Rattle.dap_types.specs.Limits.{most_piece};
ghost use Rattle.dap_outside.specs.Buffered.{Puts};
ghost use Rattle.dap_outside.specs.Causes.{HasCause};
ghost use Rattle.dap_outside.specs.Streams.{AppendsFront};

use crate::{Failed, Sink, put_all};
use arrayvec::ArrayVec;
use dap_types::limits;

/// How many bytes a buffer holds.
const ROOM: usize = limits::MOST_PIECE;

/// Bytes on their way to a sink, at most 64 KiB. They lie in the value itself, so it takes no memory, and
/// is best lent and not moved.
#[derive(Debug, Drop)]
pub struct Buffer {
    bytes: ArrayVec<u8, ROOM>,
}

impl Buffer {
    /// An empty buffer.
    pub fn new() -> Buffer
        ensures { result.bytes.items ≡ [] }
    {
        Buffer {
            bytes: ArrayVec::new(),
        }
    }

    /// Forgets what it holds.
    pub fn clear(&mut self)
        ensures { self.new.bytes.items ≡ [] }
    {
        self.bytes.clear();
    }

    /// Sends what it holds.
    pub fn flush<O: Sink>(&mut self, out: &mut O) -> Result<(), Failed>
        ensures ok { OnOk result (Appends (O.written out.old) (O.written out.new) self.old.bytes.items) }
        ensures empty { OnOk result (self.new.bytes.items ≡ []) }
        ensures err { OnErr result (AppendsFront (O.written out.old) (O.written out.new) self.old.bytes.items) }
        ensures cause { HasCause (O.put_faults out.old) (O.put_faults out.new) result }
        ensures beside { O.beside_writing out.new ≡ O.beside_writing out.old }
    {
        put_all(out, self.bytes.as_slice())?;
        self.bytes.clear();
        Ok(())
    }

    /// Puts a text behind the bytes that it holds.
    #[inline(always)]
    pub fn put<O: Sink>(&mut self, out: &mut O, text: &[u8]) -> Result<(), Failed>
        ensures puts { Puts (O.written out.old) self.old.bytes.items (O.written out.new) self.new.bytes.items result text.now }
        ensures cause { HasCause (O.put_faults out.old) (O.put_faults out.new) result }
        ensures beside { O.beside_writing out.new ≡ O.beside_writing out.old }
    {
        if text.len() <= ROOM - self.bytes.len() {
            self.keep(text);
            return Ok(());
        }
        self.flush(out)?;
        if text.len() > ROOM {
            return put_all(out, text);
        }
        self.keep(text);
        Ok(())
    }

    /// Keeps a text for which there is room.
    #[inline(always)]
    fn keep(&mut self, text: &[u8])
        requires { array_vec_len self.old.bytes + length text.now ≤ most_piece }
        ensures { self.new.bytes.items ≡ self.old.bytes.items ++ text.now }
    {
        match self.bytes.try_extend_from_slice(text) {
            Ok(()) => {}
            Err(_) => unreachable!(),
        }
    }
}
