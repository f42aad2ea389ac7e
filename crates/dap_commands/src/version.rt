//! The version.

ghost use Rattle.std.specs.Prelude.{◌≡◌, ◌≢◌};
ghost use Rattle.std.specs.Io.KnownBytes.{Appends};
ghost use Rattle.dap_outside.specs.Causes.{Rose};
ghost use Rattle.dap_outside.specs.Streams.{AppendsFront};
ghost use Rattle.dap_commands.specs.Serve.{VerSays};

use crate::status::Status;
use dap_http::version_text;
use dap_outside::{Sink, put_all};

/// Puts the version text.
pub fn ver<O: Sink>(out: &mut O) -> Status
    ensures says { VerSays (Appends (O.written out.old) (O.written out.new)) (AppendsFront (O.written out.old) (O.written out.new)) result }
    ensures cause { result ≡ Status.WriteFault → Rose (O.put_faults out.old) (O.put_faults out.new) }
    ensures out_kept { result ≢ Status.WriteFault → O.put_faults out.new ≡ O.put_faults out.old }
    ensures beside { O.beside_writing out.new ≡ O.beside_writing out.old }
{
    match put_all(out, version_text()) {
        Ok(()) => Status::Complete,
        Err(_) => Status::WriteFault,
    }
}
