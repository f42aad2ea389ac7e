//! What DAP 2.0 says of datasets and their values: which values fit, what a constraint leaves, and
//! how datasets and values are printed, sent and shown. `laws`, `number_laws`, `picking_laws` and
//! `reading_laws` have what these definitions promise of one another, each as the contract of a
//! function that does nothing.
#![tactic(auto)]

pub mod laws;
pub mod number_laws;
pub mod picking_laws;
pub mod reading_laws;
