//! Cases of `dap_client`: bodies and replies, whole, cut, changed, in pieces and with failing calls.
#![tactic(auto)]

#[cfg(test)]
mod tests;
