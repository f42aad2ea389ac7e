ghost use Rattle.std.specs.Prelude.{◌≡◌};
ghost use Rattle.dap_cases.specs.Endings.{stop_line, stop_number};

use dap_types::Memory as WantOfMemory;
use std::alloc::AllocError;

/// Why the cases were not run to their end.
#[derive(Clone, Copy, Debug, PartialEq, Eq)]
pub enum Stop {
    /// There is no list, a file is longer than 1,048,576 bytes, a text is no UTF-8 or a read failed.
    Unread,
    /// A write failed.
    WriteFault,
    /// Memory was wanted.
    Memory,
}

impl Stop {
    /// The number with which the cases end.
    pub fn number(self) -> u8
        ensures { result ≡ stop_number self }
    {
        match self {
            Stop::Unread => 7,
            Stop::WriteFault => 8,
            Stop::Memory => 10,
        }
    }

    /// The line for standard error.
    pub fn line(self) -> &'static str
        ensures { result.now ≡ stop_line self }
    {
        match self {
            Stop::Unread => "dap2_cases: no list here that can be read\n",
            Stop::WriteFault => "dap2_cases: write fault\n",
            Stop::Memory => "dap2_cases: out of memory\n",
        }
    }
}

impl From<WantOfMemory> for Stop {
    ghost use Rattle.std.specs.Prelude.{◌≡◌};
    ghost use Rattle.dap_cases.specs.declared.stop.Stop.TheVariants.{Memory};

    ghost from_gives = { λ _ e. e ≡ Memory };

    fn from(_: WantOfMemory) -> Stop {
        Stop::Memory
    }
}

impl From<AllocError> for Stop {
    ghost use Rattle.std.specs.Prelude.{◌≡◌};
    ghost use Rattle.dap_cases.specs.declared.stop.Stop.TheVariants.{Memory};

    ghost from_gives = { λ _ e. e ≡ Memory };

    fn from(_: AllocError) -> Stop {
        Stop::Memory
    }
}
