//! The room of ddup: it finds files with equal contents.
//!
//! [`report_of_dup`] does a [`DupTask`]. It walks the paths, groups the files that it finds by their contents, and makes the
//! texts.
//!
//! - `grouping` has the call, and `finding` its two steps, the walk and the groups of its files.
//! - `naming` has the notes, and `printing` the texts.
//! - `laws` says when it succeeds.
//!
//! Proved: it answers as its four definitions in `specs/Grouping` say. They are its report, the reasons to stop, that
//! it changes nothing, and the case in which nothing is in its way. A law in `specs/Laws` says: if nothing is in its
//! way, it has no notes, and stops only if it is out of memory ([`fine_dup_succeeds`]).
//!
//! Not proved: that files are read in threads if several hosts are asked for.
#![tactic(auto)]

mod finding;
mod grouping;
mod laws;
mod naming;
mod printing;

pub use grouping::{DupTask, report_of_dup};
pub use laws::fine_dup_succeeds;
