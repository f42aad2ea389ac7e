//! Cases of `saved_source`: responses at their limits, puts that fail, and both readers of a response.
#![tactic(auto)]

#[cfg(test)]
mod fault_tests;
#[cfg(test)]
mod limit_tests;
#[cfg(test)]
mod testing;
#[cfg(test)]
mod verdict_tests;
