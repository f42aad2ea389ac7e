//! Cases of `netcdf_source`: files and headers, what is read of them and for what they are refused.
#![tactic(auto)]

#[cfg(test)]
mod tests;
