//! The program `dap2` started with other words: `answer` by seven workers for a file that is not there: it ends with the number of a refusal.
#![tactic(auto)]

use dap_start::ended;
use std::process::ExitCode;

fn main(rt: HostRuntime) -> ExitCode {
    ended(&rt, &rt)
}
