//! The room of dcmp: it compares two trees, a source and a destination.
//!
//! [`report_of_compare`] does a [`CompareTask`]. It walks the source and then the destination, each by itself, and compares
//! the two lists. It makes the texts, and saves the entries of the rows that match.
//!
//! - `comparing` has these steps, and `reading` the comparison of the two lists.
//! - `selecting` has the lists to save. It uses `picking`, which picks entries of a list by their paths in one pass.
//! - `naming` has the notes, and `printing` the texts.
//! - `laws` says when it succeeds.
//!
//! Proved: it answers as its four definitions in `specs/Comparing` say. They are its report, the reasons to stop, the
//! paths that it may have changed, and the case in which nothing is in its way. `specs/Outputs` defines the saved
//! lists. A law in `specs/Laws` says: if nothing is in its way, it has no notes, and stops only if it is out of memory
//! ([`fine_compare_succeeds`]).
//!
//! Not proved: that files are read in threads if several hosts are asked for.
#![tactic(auto)]

mod comparing;
mod laws;
mod naming;
mod picking;
mod printing;
mod reading;
mod selecting;

pub use comparing::{CompareTask, report_of_compare};
pub use laws::fine_compare_succeeds;
