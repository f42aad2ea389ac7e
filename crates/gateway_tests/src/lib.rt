//! Cases of `dap_gateway`: connections over links and a dial in memory.
#![tactic(auto)]

#[cfg(test)]
mod cases;
#[cfg(test)]
mod failing;
#[cfg(test)]
mod large;
#[cfg(test)]
mod relaying;
#[cfg(test)]
mod texts;
