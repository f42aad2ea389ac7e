ghost use Rattle.std.specs.Prelude.{◌≡◌, IfOk, OnErr};
ghost use Rattle.std.specs.Process.{exit_status};
ghost use Rattle.dap_commands.specs.Lines.{number_of};
ghost use Rattle.dap_commands.specs.declared.status.Status.{Status};

use crate::words::words_of;
use dap_commands::{Status, run};
use dap_host::{FolderShelf, StdSink, StdSource, TcpDial, TcpDoor};
use dap_types::Memory;
use std::cell::Cell;
use std::env;
use std::io::{Stderr, Stdin, Stdout};
use std::process::ExitCode;
use std::thread::Threads;

/// Does what the words after the program's name say, in the folder in which it was started and over
/// the standard streams and TCP. Fails, and does nothing, where memory for the words is wanted.
fn status_of<T: Threads + Sync>(threads: &T, rt: &HostRuntime) -> Result<Status, Memory> {
    let words = words_of(rt.alloc(), env::args(rt))?;
    let mut shelf = FolderShelf::new(rt);
    let mut input: StdSource<Stdin> = StdSource::new(rt.stdin());
    let mut out: StdSink<Stdout> = StdSink::new(rt.stdout());
    let mut err: StdSink<Stderr> = StdSink::new(rt.stderr());
    let own = Cell::new(None);
    let mut door = TcpDoor::new(rt, &own);
    let mut dial = TcpDial::new(rt, &own);
    Ok(run(
        threads,
        rt.alloc(),
        words.items(),
        &mut shelf,
        &mut input,
        &mut out,
        &mut err,
        &mut door,
        &mut dial,
    ))
}

/// The number of the status that a run gave, or that of `Memory` where there was none.
fn exit_code_of(ran: Result<Status, Memory>) -> ExitCode
    ensures status { IfOk ran (λ status. exit_status result ≡ number_of status) }
    ensures no_words { OnErr ran (exit_status result ≡ 10) }
    ensures number { (status : Status) × (exit_status result ≡ number_of status) }
{
    ran.unwrap_or(Status::Memory).exit_code()
}

/// What the program ends with: the number of the status of its run, or 10 where memory for its words is wanted.
pub fn ended<T: Threads + Sync>(threads: &T, rt: &HostRuntime) -> ExitCode
    ensures number { (status : Status) × (exit_status result ≡ number_of status) }
{
    exit_code_of(status_of(threads, rt))
}
