//! Cases of `xdr_decode`: bodies whole, cut, changed and in pieces.
#![tactic(auto)]

#[cfg(test)]
mod tests;
