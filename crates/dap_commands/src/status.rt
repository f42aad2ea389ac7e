ghost use Rattle.std.specs.Prelude.{◌≡◌, option_map};
ghost use Rattle.std.specs.Process.{exit_status};
ghost use Rattle.dap_commands.specs.Lines.{number_of, line_of};

use std::process::ExitCode;

/// How a command ended.
#[derive(Clone, Copy, Debug, PartialEq, Eq)]
pub enum Status {
    /// The command's output is written.
    Complete,
    /// The words are no command.
    Words,
    /// The target, the file's name or the constraint is refused; the Error object is written.
    Refused,
    /// The file is no table or no netCDF classic file; the Error object is written.
    Damaged,
    /// Something is wrong with the response that came in.
    BadReply,
    /// An Error object came in place of what was asked for.
    ServerError,
    /// A read failed.
    ReadFault,
    /// A write of the output failed; a front of it may be out.
    WriteFault,
    /// The door or the dial failed: no link came in, or none was connected.
    LinkFault,
    /// Memory was wanted.
    Memory,
    /// The data response cannot be saved as a netCDF classic file.
    Unsaved,
}

impl Status {
    /// The number with which the program ends.
    pub fn number(self) -> u8
        ensures { result ≡ number_of self }
    {
        match self {
            Status::Complete => 0,
            Status::Words => 2,
            Status::Refused => 3,
            Status::Damaged => 4,
            Status::BadReply => 5,
            Status::ServerError => 6,
            Status::ReadFault => 7,
            Status::WriteFault => 8,
            Status::LinkFault => 9,
            Status::Memory => 10,
            Status::Unsaved => 12,
        }
    }

    /// The same as what `main` gives back.
    pub fn exit_code(self) -> ExitCode
        ensures { exit_status result ≡ number_of self }
    {
        ExitCode::from(self.number())
    }

    /// The line for standard error. There is none where the command is complete, and for a refusal, a
    /// damaged file, a bad reply, an Error object and what cannot be saved, whose lines say what is wrong.
    pub fn line(self) -> Option<&'static str>
        ensures { option_map (λ line. line.now) result ≡ line_of self }
    {
        match self {
            Status::Complete
            | Status::Refused
            | Status::Damaged
            | Status::BadReply
            | Status::ServerError
            | Status::Unsaved => None,
            Status::Words => Some(
                "usage: dap2 answer TARGET [WORKERS] | show | serve PORT WORKERS REQUESTS | fetch URL KIND CE [CE ..] | soak START SIZE | relay HOST UPPORT PORT ROOM REQUESTS | save [URL CE] | ver\n",
            ),
            Status::ReadFault => Some("dap2: read fault\n"),
            Status::WriteFault => Some("dap2: write fault\n"),
            Status::LinkFault => Some("dap2: link fault\n"),
            Status::Memory => Some("dap2: out of memory\n"),
        }
    }
}
