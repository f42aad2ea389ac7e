//! Cases of `netcdf_writer`: data responses that become netCDF files, and those that cannot.
#![tactic(auto)]

#[cfg(test)]
mod cause_tests;
#[cfg(test)]
mod fault_tests;
#[cfg(test)]
mod fetching_tests;
#[cfg(test)]
mod file_tests;
#[cfg(test)]
mod limit_tests;
#[cfg(test)]
mod testing;
