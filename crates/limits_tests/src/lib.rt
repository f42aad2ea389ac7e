//! Cases at the limits that are allowed: the largest tables, headers, texts and constraints, made by rules whose
//! sums the tests know; and what a large case costs in calls and in workers.
#![tactic(auto)]

#[cfg(test)]
mod body_limits;
#[cfg(test)]
mod building;
#[cfg(test)]
mod call_counts;
#[cfg(test)]
mod constraint_limits;
#[cfg(test)]
mod decode_limits;
#[cfg(test)]
mod expected;
#[cfg(test)]
mod expecting;
#[cfg(test)]
mod growth_tests;
#[cfg(test)]
mod head_limits;
#[cfg(test)]
mod header_limits;
#[cfg(test)]
mod join_limits;
#[cfg(test)]
mod marking;
#[cfg(test)]
mod sending;
#[cfg(test)]
mod table_limits;
#[cfg(test)]
mod tallies;
#[cfg(test)]
mod text_limits;
#[cfg(test)]
mod worker_tests;
