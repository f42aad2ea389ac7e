//! Cases of `dap_server`: connections over links in memory.
#![tactic(auto)]

#[cfg(test)]
mod connection_tests;
#[cfg(test)]
mod expecting;
