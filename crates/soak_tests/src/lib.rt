//! Cases of `soak`: the calls that it makes, made beside it.
#![tactic(auto)]

#[cfg(test)]
mod generated_tests;
#[cfg(test)]
mod tests;
