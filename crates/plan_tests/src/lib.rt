//! Cases of `hyperslab_plan`, `slab_fill`, `grid_projection`, `sequence_select`: plans of hyperslabs, what fills from them,
//! what constraints mark, and the workers of masks.
#![tactic(auto)]

#[cfg(test)]
mod tests;
