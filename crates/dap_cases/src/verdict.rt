ghost use Rattle.std.specs.Prelude.{◌≡◌};
ghost use Rattle.dap_cases.specs.Verdicts.{Judges, is_agreed};

use crate::differences::first_difference;
use crate::said::Said;

/// What came of a case beside what must come.
#[derive(Clone, Copy, Debug, PartialEq, Eq)]
pub enum Verdict {
    /// The same.
    Agrees,
    /// It ended with another number.
    Number { found: u8, wanted: u8 },
    /// The output differs, first at this place.
    Stdout { place: usize },
    /// What stands on standard error differs, first at this place.
    Stderr { place: usize },
    /// A file of the case could not be read.
    Unread,
}

impl Verdict {
    /// Whether what must come came.
    pub fn is_agreed(self) -> bool
        ensures { result ≡ is_agreed self }
    {
        match self {
            Verdict::Agrees => true,
            Verdict::Number { .. } => false,
            Verdict::Stdout { .. } => false,
            Verdict::Stderr { .. } => false,
            Verdict::Unread => false,
        }
    }
}

/// The verdict on what came beside what must come: the number, then the output, then standard error.
pub fn judge(found: &Said, wanted: &Said) -> Verdict
    ensures { Judges found.now wanted.now result }
{
    if found.status != wanted.status {
        return Verdict::Number {
            found: found.status,
            wanted: wanted.status,
        };
    }
    match first_difference(found.out.bytes(), wanted.out.bytes()) {
        Some(place) => Verdict::Stdout { place },
        None => match first_difference(found.err.bytes(), wanted.err.bytes()) {
            Some(place) => Verdict::Stderr { place },
            None => Verdict::Agrees,
        },
    }
}
