//! The commands of the program: `run` does what words say over every shelf, source, sink, door and dial. Words come
//! in; a status, the output and a line for each other status go out, as the definitions in `specs` say. The laws of
//! both ends stand here too.
#![tactic(auto)]

mod answer;
mod command;
mod fetch;
mod laws;
mod lines;
mod numbers;
mod relaying;
mod runs;
mod save;
mod serving;
mod show;
mod soaking;
mod status;
mod top;
mod version;

pub use laws::{answer_is_saved, answered_is_good, headline, visits_are_good};
pub use relaying::relay;
pub use runs::{run_answer, run_fetch, run_serve, run_show};
pub use serving::serve;
pub use status::Status;
pub use top::run;
pub use version::ver;
