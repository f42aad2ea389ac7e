//! Lemmas on truth values, numbers, options and lists that the proofs of other crates share and the standard library
//! does not have. No code.
#![tactic(auto)]
