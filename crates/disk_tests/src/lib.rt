//! Tests of the edge to the system that hold a clock or a screen, change a directory between two calls, or make the system's answers
//! up. Calls and runs over a tree that stays are rows of `disk_rows`.
//!
//! They stand here, and not in `real_disk`, so that it is proved once: what they call is proved, and they are proved over its
//! contracts. `rooms` has the folders, and the crate `whole_disk` the files of the system as the tests write them.
#![tactic(auto)]

#[cfg(test)]
mod tests;
