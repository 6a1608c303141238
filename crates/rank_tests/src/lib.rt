//! Tests of the public calls of the runtime: the pure world, boards, sums, ranks that take turns, and the walk.
//!
//! They are here, and not in the crates, so that each crate is proved once. They call proved functions, and are proved over the
//! contracts of these.
#![tactic(auto)]

#[cfg(test)]
mod boards;
#[cfg(test)]
mod of_board;
#[cfg(test)]
mod of_circle_run;
#[cfg(test)]
mod of_halts;
#[cfg(test)]
mod of_hosts;
#[cfg(test)]
mod of_post_board;
#[cfg(test)]
mod of_shared_ranks;
#[cfg(test)]
mod of_stops;
#[cfg(test)]
mod of_storms;
#[cfg(test)]
mod of_sum_tree;
#[cfg(test)]
mod of_tree_walk;
