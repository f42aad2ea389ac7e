//! Cases of the commands: words over files, streams and links in memory and of this machine.
#![tactic(auto)]

#[cfg(test)]
mod answer_tests;
#[cfg(test)]
mod case_tests;
#[cfg(test)]
mod counted;
#[cfg(test)]
mod expecting;
#[cfg(test)]
mod fetch_tests;
#[cfg(test)]
mod linked;
#[cfg(test)]
mod relay_tests;
#[cfg(test)]
mod said;
#[cfg(test)]
mod save_tests;
#[cfg(test)]
mod serve_tests;
#[cfg(test)]
mod soak_tests;
#[cfg(test)]
mod tests;
