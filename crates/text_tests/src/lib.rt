//! Cases of `constraint_parse`, `dap_errors`, `dds_text`, `das_text`: constraints, Error objects, DDSs and DASs.
#![tactic(auto)]

#[cfg(test)]
mod tests;
