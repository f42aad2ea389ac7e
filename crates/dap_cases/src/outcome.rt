use crate::verdict::Verdict;
use dap_types::Name;

/// A case by its name, and the verdict on it.
#[derive(Drop)]
pub struct Outcome {
    pub name: Name,
    pub verdict: Verdict,
}
