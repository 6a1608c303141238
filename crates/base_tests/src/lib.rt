//! Tests of the public calls of the crates at the bottom: paths, files, the files of checkpoints, looks and made-up trees.
//!
//! They are here, and not in the crates, so that each crate is proved once. They call proved functions, and are proved over the
//! contracts of these. `shared` has the helpers of all tests, `whole` the files that they write, and `leasing` the files whose
//! parts they lend.
#![tactic(auto)]

#[cfg(test)]
mod leasing;
#[cfg(test)]
mod of_blind;
#[cfg(test)]
mod of_circle_lists;
#[cfg(test)]
mod of_files_mem;
#[cfg(test)]
mod of_leases;
#[cfg(test)]
mod of_outside;
#[cfg(test)]
mod of_path_looks;
#[cfg(test)]
mod of_path_text;
#[cfg(test)]
mod of_test_tree;
#[cfg(test)]
mod shared;
#[cfg(test)]
mod whole;
