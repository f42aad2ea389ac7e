//! Cases of `dap_http`: heads, bodies framed and unframed, targets, URLs and texts.
#![tactic(auto)]

#[cfg(test)]
mod tests;
