//! Cases at the limits that are allowed, of what a server answers and what a client reads; texts and files are made by
//! rules.
#![tactic(auto)]

#[cfg(test)]
mod answers;
#[cfg(test)]
mod decoded;
#[cfg(test)]
mod making;
#[cfg(test)]
mod replies;
