//! Tests that compute their expectations: of the run, by whole command lines over files in memory, and of the files of a
//! checkpoint. Command lines with known answers are rows of `worked_rows`.
//!
//! They are here, and not in the crates, so that each crate is proved once. They call proved functions, and are proved over the
//! contracts of these. `rows` has the helpers of all tests.
#![tactic(auto)]

#[cfg(test)]
mod tests;
