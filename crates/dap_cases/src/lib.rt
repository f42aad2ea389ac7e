//! Cases of the commands as data: a list of folders on a shelf, each with words, files and what must come of them. Each
//! case is run, and what came is put beside what must come. A line for each, their count and the number of how that ended
//! go out.
#![tactic(auto)]

mod below;
mod case;
mod case_verdict;
mod cases;
mod differences;
mod ending;
mod files;
mod lines;
mod outcome;
mod said;
mod stop;
mod texts;
mod verdict;

pub use cases::run_cases;
pub use ending::ended;
pub use lines::{all_agree, report};
pub use outcome::Outcome;
pub use said::Said;
pub use stop::Stop;
pub use verdict::{Verdict, judge};
