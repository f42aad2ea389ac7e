//! The cases of the program as data: it runs those in its folder and puts a line for each, or to standard error why they
//! were not run; it ends with 0 exactly where what must come came of all.
#![tactic(auto)]

use dap_cases::ended;
use dap_host::{FolderShelf, StdSink};
use std::io::{Stderr, Stdout};
use std::process::ExitCode;

fn main(rt: HostRuntime) -> ExitCode {
    let mut shelf = FolderShelf::new(&rt);
    let mut out: StdSink<Stdout> = StdSink::new(rt.stdout());
    let mut err: StdSink<Stderr> = StdSink::new(rt.stderr());
    ended(&rt, rt.alloc(), &mut shelf, &mut out, &mut err)
}
