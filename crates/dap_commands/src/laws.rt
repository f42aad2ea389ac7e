//! What the program promises as a whole, each as the contract of a function that does nothing.
ghost use Rattle.dap_commands.specs.Headline.{Headline};
ghost use Rattle.dap_commands.specs.Laws.{AnswerIsSaved, AnsweredIsGood, VisitsAreGood};

use dap_outside::{Dial, Door};

/// What `answer` writes of the values of a stored file is good for the client, with the dataset and the
/// values that the constraint leaves.
pub fn answered_is_good()
    ensures law { AnsweredIsGood }
{}

/// So is each data response that stands in what the links of `serve` gained.
pub fn visits_are_good<D: Door>()
    ensures law { VisitsAreGood D.Wire }
{}

/// What is served of a stored file by a constraint, what every other constraint is answered, and what the
/// client shows, from which bytes.
pub fn headline<D: Door, C: Dial>()
    ensures law { Headline D.Wire C.Wire }
{}

/// What is served of all of a netCDF file is the dataset and the values of the file that `save` writes of it, where it
/// is saved.
pub fn answer_is_saved()
    ensures law { AnswerIsSaved }
{}
