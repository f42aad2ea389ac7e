//! The program `dap2`: a server and a client for OPeNDAP DAP 2.0. It does what the words after its name say, and ends
//! with the number of the status.
#![tactic(auto)]

use dap_start::ended;
use std::process::ExitCode;

fn main(rt: HostRuntime) -> ExitCode {
    ended(&rt, &rt)
}
