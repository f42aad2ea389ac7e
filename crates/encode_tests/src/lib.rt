//! Cases of `xdr_encode`: long bodies of netCDF files, and failing calls.
#![tactic(auto)]

#[cfg(test)]
mod fault_tests;
#[cfg(test)]
mod long_tests;
#[cfg(test)]
mod testing;
