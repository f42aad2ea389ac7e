//! The numbers that are said of a generated file.

ghost use Rattle.std.specs.Prelude.{◌≡◌, ◌≢◌, ◌≤◌, IfOk};
ghost use Rattle.std.specs.Io.KnownBytes.{Appends};
ghost use Rattle.dap_outside.specs.Causes.{Rose};
ghost use Rattle.dap_outside.specs.Streams.{AppendsFront};
ghost use Rattle.soak.specs.Numbers.{lines_of, numbers};
ghost use Rattle.dap_commands.specs.Soak.{SoakSays};

use crate::status::Status;
use dap_outside::{Sink, put_all};
use dap_types::{Bytes, Memory};
use soak::soak;
use std::alloc::Global;
use std::thread::Threads;

/// The lines of what came of the file when a part of it was served and read.
fn lines<R: Threads + Sync>(
    rt: &R,
    alloc: Global,
    start: u64,
    records: u32,
) -> Result<Bytes, Memory>
    requires some { 1 ≤ records }
    requires few { records ≤ 4096 }
    ensures { IfOk result (λ text. text ≡ lines_of (numbers start records)) }
{
    soak(rt, alloc, start, records)?.lines(alloc)
}

/// Generates the file of a seed and so many records, 1 to 4,096, serves a part of it and reads the reply, both
/// in memory, and puts the lines of what came.
pub fn soak_lines<R: Threads + Sync, O: Sink>(
    rt: &R,
    alloc: Global,
    start: u64,
    records: u32,
    out: &mut O,
) -> Status
    requires some { 1 ≤ records }
    requires few { records ≤ 4096 }
    ensures says { SoakSays start records (Appends (O.written out.old) (O.written out.new)) (AppendsFront (O.written out.old) (O.written out.new)) result }
    ensures write_fault { result ≡ Status.WriteFault → Rose (O.put_faults out.old) (O.put_faults out.new) }
    ensures out_kept { result ≢ Status.WriteFault → O.put_faults out.new ≡ O.put_faults out.old }
    ensures words { result ≢ Status.Words }
    ensures beside { O.beside_writing out.new ≡ O.beside_writing out.old }
{
    let Ok(text) = lines(rt, alloc, start, records) else {
        return Status::Memory;
    };
    match put_all(out, text.bytes()) {
        Ok(()) => Status::Complete,
        Err(_) => Status::WriteFault,
    }
}
