//! Cases of `join_source`: joined files at a limit, and the workers of their bodies.
#![tactic(auto)]

#[cfg(test)]
mod limit_tests;
#[cfg(test)]
mod testing;
#[cfg(test)]
mod worker_tests;
