//! Cases of the outside as this machine gives it: streams, a folder, and links over TCP.
#![tactic(auto)]

#[cfg(test)]
mod doors;
#[cfg(test)]
mod folders;
#[cfg(test)]
mod limits;
#[cfg(test)]
mod links;
#[cfg(test)]
mod narrow;
#[cfg(test)]
mod ports;
#[cfg(test)]
mod streams;
#[cfg(test)]
mod waits;
