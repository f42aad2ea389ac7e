//! The line `Data:` behind the DDS of a data response (DAP 2.0, DODS).

ghost use Rattle.std.specs.Prelude.{◌≡◌, ℕ, List, [], ◌++◌};
ghost use Rattle.dap_client.specs.inner.DataLines.{IsLineFront, IsLineRead, IsStep};

use error_word::is_white;

const LINE: &[u8; 6] = b"Data:\r";

/// How many bytes of such a line came, behind its white space.
#[derive(Clone, Copy, Debug, PartialEq, Eq)]
pub struct DataLine {
    come: usize,
}

/// What one more byte makes of a line.
#[derive(Clone, Copy, Debug, PartialEq, Eq)]
pub enum LineStep {
    On(DataLine),
    Ended,
    Differs,
}

/// What a piece makes of a line.
#[derive(Clone, Copy, Debug, PartialEq, Eq)]
pub enum LineRead {
    On(DataLine),
    /// The line ends behind so many bytes of the piece.
    Ended(usize),
    /// The byte there differs from every such line.
    Differs(usize),
}

impl DataLine {
    /// Of no bytes.
    pub fn new() -> DataLine
        ensures { IsLineFront result [] }
    {
        DataLine { come: 0 }
    }

    #[tactic(auto, using(crate::proofs::DataLines::more_blank, crate::proofs::DataLines::one_byte, crate::proofs::DataLines::line_ends))]
    fn next(self, byte: u8) -> LineStep
        ensures { (bytes : List ℕ) → IsLineFront self bytes → IsStep bytes byte result }
    {
        if self.come == 0 && is_white(byte) {
            return LineStep::On(self);
        }
        if self.come >= 5 && byte == b'\n' {
            return LineStep::Ended;
        }
        if self.come < 6 && byte == LINE[self.come] {
            return LineStep::On(DataLine {
                come: self.come + 1,
            });
        }
        LineStep::Differs
    }

    /// With a piece behind it.
    pub fn read(self, piece: &[u8]) -> LineRead
        ensures { (bytes : List ℕ) → IsLineFront self bytes → IsLineRead bytes piece.now result }
    {
        let mut line = self;
        for (at, byte) in piece.iter().enumerate() {
            match line.next(*byte) {
                LineStep::On(next) => line = next,
                LineStep::Ended => return LineRead::Ended(at + 1),
                LineStep::Differs => return LineRead::Differs(at),
            }
        }
        LineRead::On(line)
    }
}
