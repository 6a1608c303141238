//! Tests of lists, and of grouped files, that compute their expectations. Calls with known answers are rows of `worked_calls` and
//! `worked_rows`.
//!
//! They are here, and not in the crates, so that each crate is proved once. They call proved functions, and are proved over the
//! contracts of these.
#![tactic(auto)]

#[cfg(test)]
mod of_flat_list;
#[cfg(test)]
mod of_tree_dup;
#[cfg(test)]
mod sheets;
