//! How the cases end.

ghost use Rattle.std.specs.Prelude.{◌≡◌, List, Result, if◌then◌else◌};
ghost use Rattle.std.specs.Process.{exit_status};
ghost use Rattle.dap_commands.specs.Lines.{IsSaid};
ghost use Rattle.dap_outside.specs.Causes.{Rose};
ghost use Rattle.dap_cases.specs.Endings.{IsRun, SaysWhy, number_of, stop_line};
ghost use Rattle.dap_cases.specs.declared.outcome.Outcome.{Outcome as Came};
ghost use Rattle.dap_cases.specs.declared.stop.Stop.{Stop as Stopped};

use crate::cases::run_cases;
use crate::lines::all_agree;
use crate::outcome::Outcome;
use crate::stop::Stop;
use dap_outside::{Shelf, Sink, put_all};
use dap_types::List;
use std::alloc::Global;
use std::process::ExitCode;
use std::thread::Threads;

/// 0 where all agree, and else 1.
fn exit_code_of(agree: bool) -> ExitCode
    ensures { exit_status result ≡ if agree then 0 else 1 }
{
    if agree {
        ExitCode::SUCCESS
    } else {
        ExitCode::FAILURE
    }
}

/// Puts the line of what stopped the cases. A put that fails ends it.
fn say<E: Sink>(err: &mut E, stop: Stop)
    ensures { IsSaid (stop_line stop) (E.put_faults err.old) (E.put_faults err.new) (E.written err.old) (E.written err.new) }
{
    let _ = put_all(err, stop.line().as_bytes());
}

/// The number for what came of the cases. The line of what stopped them goes to `err`.
fn told<E: Sink>(err: &mut E, ran: Result<List<Outcome>, Stop>) -> ExitCode
    ensures number { exit_status result ≡ number_of ran }
    ensures line { SaysWhy ran (λ line. IsSaid line (E.put_faults err.old) (E.put_faults err.new) (E.written err.old) (E.written err.new)) (err.new ≡ err.old) }
{
    match ran {
        Ok(outcomes) => exit_code_of(all_agree(outcomes.items())),
        Err(stop) => {
            say(err, stop);
            ExitCode::from(stop.number())
        }
    }
}

/// Runs the cases of `list`, and puts a line for each and their count to `out`, or the line of what stopped them to `err`.
/// Ends with 0 exactly where all were run and agree, with 1 where one does not agree, and else with the number of what
/// stopped them.
pub fn ended<R: Threads + Sync, S: Shelf, O: Sink, E: Sink>(
    rt: &R,
    alloc: Global,
    shelf: &mut S,
    out: &mut O,
    err: &mut E,
) -> ExitCode
    ensures { (ran : Result (List Came) Stopped) × IsRun (S.files shelf.old) (O.written out.old) (O.written out.new) (Rose (O.put_faults out.old) (O.put_faults out.new)) ran
        × (exit_status result ≡ number_of ran)
        × SaysWhy ran (λ line. IsSaid line (E.put_faults err.old) (E.put_faults err.new) (E.written err.old) (E.written err.new)) (err.new ≡ err.old) }
{
    told(err, run_cases(rt, alloc, shelf, out))
}
